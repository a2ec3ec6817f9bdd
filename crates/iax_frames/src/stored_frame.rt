//! A full frame without call numbers and sequence numbers, as it is kept.
ghost use Rattle.std.specs.Prelude.{◌≡◌, ◌≤◌, ◌+◌, ◌++◌, [], length};

use arrayvec::ArrayVec;
use std::marker::Model;

/// The data of a full frame, at most 1,388 octets. Contracts see its octets.
#[derive(Debug, Drop)]
pub struct Payload {
    octets: ArrayVec<u8, 1388>,
}

impl Model for Payload {
    ghost use Rattle.std.specs.Prelude.{List, ℕ, ◌≤◌, length};

    ghost Value = { List ℕ };

    ghost view = { λ payload. payload.octets.items };

    ghost invariant = { λ payload. length payload.octets.items ≤ 1388 };
}

impl Payload {
    /// Returns the data of these octets, at most 1,388. They are copied.
    pub fn new(octets: &[u8]) -> Self
        requires { length octets.now ≤ 1388 }
        ensures { result ≡ octets.now }
    {
        let mut copy = ArrayVec::new();
        copy.try_extend_from_slice(octets).unwrap();
        Payload { octets: copy }
    }

    /// Returns empty data.
    pub fn empty() -> Self
        ensures { result ≡ [] }
    {
        Payload {
            octets: ArrayVec::new(),
        }
    }

    /// Appends octets to the data, which then has at most 1,388.
    pub fn append(&mut self, more: &[u8])
        requires { length self.old + length more.now ≤ 1388 }
        ensures { self.new ≡ self.old ++ more.now }
    {
        self.octets.try_extend_from_slice(more).unwrap();
    }

    /// Returns the octets, at most 1,388.
    pub fn as_slice(&self) -> &[u8]
        ensures octets { result.now ≡ self.now }
        ensures fits { length self.now ≤ 1388 }
    {
        self.octets.as_slice()
    }
}

/// A full frame without call numbers and sequence numbers.
#[derive(Debug, Drop)]
pub struct Frame {
    /// Milliseconds since the sender's side of the call began, modulo 2^32.
    pub ts: u32,
    /// The type ("Frame Types").
    pub kind: u8,
    /// The octet of C and subclass.
    pub subclass: u8,
    /// The data, at most 1,388 octets.
    pub payload: Payload,
}

impl Frame {
    /// Returns a copy, of at most 1,388 octets. It takes no memory.
    pub fn copied(&self) -> Self
        ensures { result ≡ self.now }
    {
        Frame {
            ts: self.ts,
            kind: self.kind,
            subclass: self.subclass,
            payload: Payload::new(self.payload.as_slice()),
        }
    }
}
