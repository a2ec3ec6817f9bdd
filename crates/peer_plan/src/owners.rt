//! Which peer has a local call number.
ghost use Rattle.std.specs.Prelude.{◌≡◌, ◌<◌, ◌↔◌, ℕ, length, true, IfSome, IfNone, IsTrue};
ghost use Rattle.peer_plan.specs.Plan.{IsInRange, counts_of, range_of};

use crate::number_range::NumberRange;
use crate::plan::Plan;
use call_book::PeerId;

// Whether a range has a number.
fn has_number(range: NumberRange, number: u16) -> bool
    ensures { IsTrue result ↔ IsInRange range number }
{
    range.first <= number && number - range.first < range.count
}

impl Plan {
    /// Returns the peer that has a local call number, or `None` if no peer has it. It compares each two peers.
    pub fn owner_of(&self, number: u16) -> Option<PeerId>
        ensures found { IfSome result (λ peer. IsInRange (range_of (counts_of self.now.peers) peer) number) }
        ensures place { IfSome result (λ peer. peer < length self.now.peers) }
        ensures none { IfNone result ((peer : ℕ) → peer < length self.now.peers →
            IsInRange (range_of (counts_of self.now.peers) peer) number → ⊥) }
    {
        for place in 0..self.peer_count() {
            let peer = PeerId::new(place);
            if has_number(self.range(peer), number) {
                return Some(peer);
            }
        }
        None
    }
}
