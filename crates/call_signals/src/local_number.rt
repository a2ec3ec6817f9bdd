//! A leg's own number.
ghost use Rattle.std.specs.Prelude.{◌≡◌, ◌≤◌};

use iax_frames::CallNumber;
use std::marker::Model;

/// The number of a leg here: 1 ..= 32,767. Contracts see its number.
#[derive(Drop)]
pub struct LocalNumber {
    number: CallNumber,
}

impl Model for LocalNumber {
    ghost use Rattle.std.specs.Prelude.{ℕ, ◌≤◌};

    ghost Value = { ℕ };

    ghost view = { λ local. local.number };

    ghost invariant = { λ local. 1 ≤ local.number };
}

impl LocalNumber {
    /// Returns the local number of a call number that isn't 0: 1 ..= 32,767.
    pub fn new(number: CallNumber) -> LocalNumber
        requires { 1 ≤ number }
        ensures { result ≡ number }
    {
        LocalNumber { number }
    }

    /// Returns the call number, 1 ..= 32,767.
    pub fn get(&self) -> CallNumber
        ensures value { result ≡ self.now }
        ensures some { 1 ≤ result }
    {
        self.number
    }
}
