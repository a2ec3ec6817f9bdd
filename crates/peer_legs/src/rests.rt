//! The time until which the legs of a peer have nothing to do.
ghost use Rattle.std.specs.Prelude.{◌≡◌, ◌↔◌, true, All, IsTrue};
ghost use Rattle.peer_legs.specs.LegsInside.{RestUntil};
ghost use Rattle.peer_legs.specs.Rests.{is_quiet, is_resting};

use crate::named_leg::NamedLeg;
use crate::peer_legs::PeerLegs;

// Returns whether no leg at this place has ended or owes.
fn is_quiet_place(place: &Option<NamedLeg>) -> bool
    ensures { result ≡ is_quiet place.now }
{
    match place {
        Some(named) => named.is_quiet(),
        None => true,
    }
}

// Returns the moment before which all legs rest.
fn all_rest_until(places: &[Option<NamedLeg>]) -> u64
    ensures { RestUntil result places.now }
{
    let mut until = u64::MAX;
    for place in places {
        if let Some(named) = place {
            until = until.min(named.rest_until());
        }
    }
    until
}

impl PeerLegs {
    /// Returns whether no leg has ended and none owes.
    pub fn are_quiet(&self) -> bool
        ensures { IsTrue result ↔ All (λ place. is_quiet place ≡ true) self.now.places }
    {
        0 < self.rest_until || self.places.iter().all(is_quiet_place)
    }

    /// Returns whether it is known that a tick at this moment, in milliseconds, has no work. False means that it may have some.
    pub fn are_resting(&self, now: u64) -> bool
        ensures { result ≡ true → All (λ place. is_resting place now ≡ true) self.now.places }
    {
        now < self.rest_until
    }

    /// Finds the moment until which the legs rest, for `are_resting`. Contracts see no change.
    pub fn refresh_idle(&mut self)
        ensures { self.new ≡ self.old }
    {
        self.rest_until = all_rest_until(&self.places);
    }
}
