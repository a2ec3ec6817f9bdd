//! Octets that proofs remember.
ghost use Rattle.std.specs.Prelude.{◌≡◌, [], ◌∷◌, ◌++◌};

use std::marker::Model;
use std::snapshot::Snapshot;

/// Octets that proofs remember, in order. Contracts see them as their list; at run time it is empty.
#[cycle(octets)]
#[derive(Drop)]
pub struct Octets {
    end: Snapshot<End>,
}

// The end of a list: the part before it, and its last octet.
#[cycle(octets)]
#[derive(Drop)]
enum End {
    Start,
    After(Snapshot<Octets>, Snapshot<u8>),
}

impl Model for Octets {
    ghost use Rattle.std.specs.Prelude.{List, ℕ, length};

    ghost Value = { List ℕ };

    ghost use Rattle.iax_frames.specs.RememberedOctets.{octets_at};

    ghost view = { λ t. octets_at t.end.value };

    ghost size = { length };

    ghost use Rattle.std.proofs.Common.{arith, length-append};

    ghost size_decreases = { λ a h. Prim.grind (arith, length-append) };
}

impl Octets {
    /// Returns the empty list, for proofs.
    pub fn new() -> Octets
        ensures { result ≡ [] }
    {
        Octets {
            end: Snapshot::of(&End::Start),
        }
    }

    /// Returns these octets, for proofs.
    pub fn of(octets: &[u8]) -> Octets
        ensures { result ≡ octets.now }
    {
        let mut looked = Octets::new();
        for octet in octets {
            looked.add(octet);
        }
        looked
    }

    // Adds an octet, which only proofs keep.
    fn add(&mut self, octet: &u8)
        ensures { self.new ≡ self.old ++ octet.now ∷ [] }
    {
        let before = Snapshot::of(&*self);
        self.end = Snapshot::of(&End::After(before, Snapshot::of(octet)));
    }
}

const _: () = prove!(std::mem::size_of::<Octets>() == 0);
