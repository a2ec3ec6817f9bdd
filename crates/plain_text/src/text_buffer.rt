//! A text that is written piece by piece.
ghost use Rattle.std.specs.Prelude.{◌≡◌, ◌++◌, [], Ok, Err, true, false, codes, decimal, IfOk, OnOk, OnErr};

use std::alloc::{AllocError, Global};
use std::io::Write;

/// A text as it is written. A refused request for memory is remembered, so that one check at the end suffices.
#[derive(Drop)]
pub struct TextBuffer {
    /// The octets written so far.
    pub octets: Vec<u8>,
    /// Whether a request for memory was refused, so that a part is missing.
    pub is_cut: bool,
}

impl TextBuffer {
    /// Returns an empty text. It takes no memory.
    pub fn new(alloc: Global) -> TextBuffer
        ensures octets { result.octets.items ≡ [] }
        ensures whole { result.is_cut ≡ false }
    {
        TextBuffer {
            octets: Vec::new(alloc),
            is_cut: false,
        }
    }

    /// Returns the octets, or `AllocError` if a request for memory was refused.
    pub fn into_octets(self) -> Result<Vec<u8>, AllocError>
        ensures octets { IfOk result (λ octets. octets ≡ self.octets) }
        ensures whole { OnErr result (self.is_cut ≡ true) }
        ensures cut { OnOk result (self.is_cut ≡ false) }
    {
        if self.is_cut {
            return Err(AllocError);
        }
        Ok(self.octets)
    }

    /// Writes octets.
    pub fn put(&mut self, octets: &[u8])
        ensures cut { self.old.is_cut ≡ true → self.new.is_cut ≡ true }
        ensures put { self.old.is_cut ≡ false → self.new.is_cut ≡ false →
            self.new.octets.items ≡ self.old.octets.items ++ octets.now }
    {
        if self.octets.extend_from_slice(octets).is_err() {
            self.is_cut = true;
        }
    }

    /// Writes a text.
    pub fn text(&mut self, text: &str)
        ensures cut { self.old.is_cut ≡ true → self.new.is_cut ≡ true }
        ensures put { self.old.is_cut ≡ false → self.new.is_cut ≡ false →
            self.new.octets.items ≡ self.old.octets.items ++ text.now }
    {
        self.put(text.as_bytes());
    }

    /// Writes a number in decimal digits.
    pub fn number(&mut self, number: u64)
        ensures cut { self.old.is_cut ≡ true → self.new.is_cut ≡ true }
        ensures put { self.old.is_cut ≡ false → self.new.is_cut ≡ false →
            self.new.octets.items ≡ self.old.octets.items ++ decimal number }
    {
        if write!(self.octets, "{number}").is_err() {
            self.is_cut = true;
        }
    }

    /// Writes a text, and a number behind it in decimal digits.
    pub fn labelled(&mut self, text: &str, number: u64)
        ensures cut { self.old.is_cut ≡ true → self.new.is_cut ≡ true }
        ensures put { self.old.is_cut ≡ false → self.new.is_cut ≡ false →
            self.new.octets.items ≡ self.old.octets.items ++ text.now ++ decimal number }
    {
        self.text(text);
        self.number(number);
    }

    /// Writes a number in decimal digits, and a text behind it.
    pub fn counted(&mut self, number: u64, text: &str)
        ensures cut { self.old.is_cut ≡ true → self.new.is_cut ≡ true }
        ensures put { self.old.is_cut ≡ false → self.new.is_cut ≡ false →
            self.new.octets.items ≡ self.old.octets.items ++ decimal number ++ text.now }
    {
        self.number(number);
        self.text(text);
    }
}
