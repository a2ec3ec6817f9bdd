//! The legs that wait for the answer to a challenge ("AUTHREQ").
ghost use Rattle.std.specs.Prelude.{◌≡◌, ◌≤◌, count_by, length};
ghost use Rattle.peer_legs.specs.Challenges.{is_challenged, is_crowded};

use crate::named_leg::NamedLeg;
use crate::peer_legs::PeerLegs;
use leg_machine::Stage;

// Returns whether at this place a leg waits for the answer to its challenge.
fn is_challenged(place: &Option<NamedLeg>) -> bool
    ensures { result ≡ is_challenged place.now }
{
    match place {
        Some(named) => matches!(named.leg().stage(), Stage::Challenged),
        None => false,
    }
}

// Returns how many legs wait for the answer to their challenges.
fn challenged_count(places: &[Option<NamedLeg>]) -> usize
    ensures count { result ≡ count_by is_challenged places.now }
    ensures most { result ≤ length places.now }
{
    let mut count = 0;
    for place in places {
        if is_challenged(place) {
            count += 1;
        }
    }
    count
}

impl PeerLegs {
    /// Returns whether legs that wait for the answer to their challenges have at least half of the peer's numbers. Looks at
    /// each number.
    pub fn is_crowded(&self) -> bool
        ensures { result ≡ is_crowded self.now }
    {
        let waiting = challenged_count(&self.places);
        // For the proof: there are at most 512 places.
        let _sound = self.count();
        self.places.len() <= 2 * waiting
    }
}
