//! A set of sockets, by their places.
ghost use Rattle.std.specs.Prelude.{◌≡◌, ◌≢◌, ◌<◌, ◌↔◌, IfSome, IsNone, IsTrue, ℕ};
ghost use Rattle.udp_wires.specs.SocketSet.{Has, IsEmpty, IsFirstFrom};

/// Places of sockets, 0 ..= 63: a bit for each.
#[derive(Clone, Copy, Debug, PartialEq, Eq)]
pub(crate) struct SocketSet {
    bits: u64,
}

impl SocketSet {
    // Returns the set of the first `count` places.
    pub(crate) fn below(count: u32) -> SocketSet
        requires { count < 64 }
        ensures { (place : ℕ) → place < 64 → Has result place ↔ place < count }
    {
        SocketSet {
            bits: !(u64::MAX << count),
        }
    }

    pub(crate) fn is_empty(self) -> bool
        ensures { IsTrue result ↔ IsEmpty self }
    {
        self.bits == 0
    }

    // Returns the set with this place added.
    pub(crate) fn with(self, place: u32) -> SocketSet
        requires { place < 64 }
        ensures there { Has result place }
        ensures others { (other : ℕ) → other < 64 → other ≢ place → Has result other ↔ Has self other }
    {
        SocketSet {
            bits: self.bits | 1 << place,
        }
    }

    // Returns the set without this place.
    pub(crate) fn without(self, place: u32) -> SocketSet
        requires { place < 64 }
        ensures gone { Has result place → ⊥ }
        ensures others { (other : ℕ) → other < 64 → other ≢ place → Has result other ↔ Has self other }
    {
        SocketSet {
            bits: self.bits & !(1 << place),
        }
    }

    // Returns the first place of the set, going round from this place on, or `None` if the set is empty.
    pub(crate) fn first_from(self, from: u32) -> Option<u32>
        requires { from < 64 }
        ensures first { IfSome result (λ place. IsFirstFrom self from place) }
        ensures none { IsNone result → IsEmpty self }
    {
        let above = self.bits & (u64::MAX << from);
        if above != 0 {
            return Some(above.trailing_zeros());
        }
        if self.bits == 0 {
            return None;
        }
        Some(self.bits.trailing_zeros())
    }
}
