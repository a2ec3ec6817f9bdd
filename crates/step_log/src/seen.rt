//! A value that exists in proofs alone.
ghost use Rattle.std.specs.Prelude.{◌≡◌};

use std::marker::Model;
use std::snapshot::Snapshot;

/// A value as it was when it was looked at. Contracts see it as that value; at run time it has no octets.
#[derive(Drop)]
pub struct Seen<T> {
    then: Snapshot<T>,
}

impl<T> Model for Seen<T> {
    ghost Value = { T };

    ghost view = { λ s. s.then.value };
}

impl<T> Seen<T> {
    /// Returns the value as it is now. Only proofs keep it.
    pub fn of(value: &T) -> Seen<T>
        ensures { result ≡ value.now }
    {
        Seen {
            then: Snapshot::of(value),
        }
    }
}

const _: () = prove!(std::mem::size_of::<Seen<u64>>() == 0);
