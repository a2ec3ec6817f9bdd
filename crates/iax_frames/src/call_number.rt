//! Call numbers ("Full Frames", "Mini Frames").
ghost use Rattle.std.specs.Prelude.{◌≡◌, ◌<◌, ◌^◌};

use std::marker::Model;

/// A call number of 15 bits: 0 ..= 32,767. 0 names no call. Contracts see its number.
#[derive(Clone, Copy, Debug, PartialEq, Eq, PartialOrd, Ord)]
pub struct CallNumber {
    number: u16,
}

impl Model for CallNumber {
    ghost use Rattle.std.specs.Prelude.{ℕ, ◌<◌, ◌^◌};

    ghost Value = { ℕ };

    ghost view = { λ call. call.number };

    ghost invariant = { λ call. call.number < 2 ^ 15 };

    ghost inverse = { λ number. record { number = number } };
}

impl CallNumber {
    /// Returns the call number of these 15 bits, 0 ..= 32,767 ("Full Frames").
    pub fn new(number: u16) -> CallNumber
        requires { number < 2 ^ 15 }
        ensures { result ≡ number }
    {
        CallNumber { number }
    }

    /// Returns the number, 0 ..= 32,767.
    pub fn get(self) -> u16
        ensures value { result ≡ self }
        ensures fits { result < 2 ^ 15 }
    {
        self.number
    }
}
