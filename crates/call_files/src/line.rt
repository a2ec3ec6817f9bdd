//! A line on its way to a file.
ghost use Rattle.std.specs.Prelude.{◌≡◌, ◌+◌, ◌≤◌, ◌↔◌, IsTrue, length};
ghost use Rattle.call_files.specs.Lines.{rest_of};

use std::marker::Model;

/// Octets that are written to a file, and the number of those already written.
#[derive(Drop)]
pub struct Line {
    octets: Vec<u8>,
    written: usize,
}

impl Model for Line {
    ghost use Rattle.std.specs.Prelude.{◌≤◌, length};
    ghost use Rattle.call_files.specs.Lines.{LineView};

    ghost Value = { LineView };

    ghost view = { λ line. record { octets = line.octets.items; written = line.written } };

    ghost invariant = { λ line. line.written ≤ length line.octets.items };
}

impl Line {
    /// Returns a line of these octets. None of them is written yet.
    pub fn new(octets: Vec<u8>) -> Line
        ensures octets { result.octets ≡ octets.items }
        ensures written { result.written ≡ 0 }
    {
        Line { octets, written: 0 }
    }

    /// Returns the octets that weren't written yet.
    pub fn rest(&self) -> &[u8]
        ensures { result.now ≡ rest_of self.now }
    {
        &self.octets[self.written..]
    }

    /// Returns whether all of it was written.
    pub fn is_whole(&self) -> bool
        ensures { IsTrue result ↔ (self.now.written ≡ length self.now.octets) }
    {
        self.written == self.octets.len()
    }

    /// Records that `count` more octets were written, at most as many as are left.
    pub fn wrote(&mut self, count: usize)
        requires { self.old.written + count ≤ length self.old.octets }
        ensures { self.new ≡ record self.old { written = self.old.written + count } }
    {
        self.written += count;
    }

    /// Starts again from its first octet.
    pub fn begin_again(&mut self)
        ensures { self.new ≡ record self.old { written = 0 } }
    {
        self.written = 0;
    }

    /// Skips the rest of it.
    pub fn leave_out(&mut self)
        ensures { self.new ≡ record self.old { written = length self.old.octets } }
    {
        self.written = self.octets.len();
    }
}
