//! Peers by their names.
ghost use Rattle.std.specs.Prelude.{◌≡◌, ◌<◌, length, IfSome, position};
ghost use Rattle.peer_plan.specs.Reading.{is_named};

use crate::plan::Plan;
use call_book::PeerId;

/// Returns the first peer of the plan with a name, or `None` if no peer has it.
pub fn peer_named(plan: &Plan, name: &[u8]) -> Option<PeerId>
    ensures place { result ≡ position (is_named name.now) plan.now.peers }
    ensures within { IfSome result (λ peer. peer < length plan.now.peers) }
{
    for place in 0..plan.peer_count() {
        let peer = PeerId::new(place);
        if plan.name(peer).as_bytes() == name {
            return Some(peer);
        }
    }
    None
}
