//! Leases on names.
ghost use Rattle.std.specs.Prelude.{◌≡◌};

use crate::leg_name::LegName;
use std::marker::Model;

/// The right to a name. It can't be copied, and one that is dropped leaves its number taken.
///
/// Contracts see its name.
#[derive(Debug, Drop)]
pub struct Lease {
    name: LegName,
}

impl Model for Lease {
    ghost use Rattle.call_book.specs.declared.leg_name.LegName.{LegName};

    ghost Value = { LegName };

    ghost view = { λ lease. lease.name };
}

impl Lease {
    // Returns the lease on a name that the book has just given out.
    pub(crate) fn on(name: LegName) -> Lease
        ensures { result ≡ name }
    {
        Lease { name }
    }

    /// Returns the name that the lease is for.
    pub fn name(&self) -> LegName
        ensures { result ≡ self.now }
    {
        self.name
    }
}
