//! The places of workers in the plan.
ghost use Rattle.std.specs.Prelude.{◌≡◌, ◌<◌, ◌^◌};

use std::marker::Model;

/// A worker: its place in the plan, from 0 on. Contracts see the place.
#[derive(Clone, Copy, Debug, PartialEq, Eq, PartialOrd, Ord)]
pub struct WorkerId {
    place: u16,
}

impl Model for WorkerId {
    ghost use Rattle.std.specs.Prelude.{ℕ, ◌<◌, ◌^◌};

    ghost Value = { ℕ };

    ghost view = { λ worker. worker.place };

    ghost invariant = { λ worker. worker.place < 2 ^ 16 };

    ghost inverse = { λ place. record { place = place } };
}

impl WorkerId {
    /// Returns the worker at this place in the plan.
    pub fn new(place: u16) -> WorkerId
        ensures { result ≡ place }
    {
        WorkerId { place }
    }

    /// Returns the worker's place in the plan.
    pub fn get(self) -> u16
        ensures { result ≡ self }
    {
        self.place
    }

    /// Returns the worker's place in the plan, as an index of a list of all workers.
    pub fn index(self) -> usize
        ensures { result ≡ self }
    {
        usize::from(self.place)
    }
}
