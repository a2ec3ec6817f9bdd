//! Finds the leg that gets a full frame, and checks whether names are free ("Full Frames", "Call Setup").
ghost use Rattle.std.specs.Prelude.{◌≡◌, ◌≤◌, ◌↔◌, true, None, Some, IfSome, IsNone, IsSome, option_copied};
ghost use Rattle.leg_machine.specs.Working.{frame_refused};
ghost use Rattle.peer_legs.specs.Finding.{can_reach, is_reached, found, first_leg, next_leg, AreFreeFrom, AreFreeBetween};
ghost use Rattle.peer_legs.specs.Legs.{NamedLeg as NamedLegValue, AreLegs, is_free_name, leg_at};

use crate::named_leg::NamedLeg;
use crate::peer_legs::PeerLegs;
use call_book::LegName;
use iax_frames::{CallNumber, Full};
use leg_machine::StepError;

// The first of these places that has a leg.
fn first_leg(places: &[Option<NamedLeg>]) -> Option<&NamedLeg>
    ensures { option_copied result ≡ first_leg places.now }
{
    for place in places {
        if place.is_some() {
            return place.as_ref();
        }
    }
    None
}

impl PeerLegs {
    // Returns whether the leg gets full frames from this source.
    fn reaches(&self, source: CallNumber, named: &NamedLeg) -> bool
        ensures { result ≡ is_reached self.now source named.now }
    {
        match named.leg().remote() {
            Some(remote) => remote == source,
            None => self.of_remote(source).is_none(),
        }
    }

    /// Returns the refusal of a full frame by the leg with this local number, memory aside (`Leg::frame_refused`).
    pub fn frame_refused(&self, number: u16, frame: &Full) -> Option<StepError>
        requires { IsSome (leg_at self.now number) }
        ensures { (named : NamedLegValue) → leg_at self.now number ≡ Some named →
            result ≡ frame_refused named.leg frame.now }
    {
        self.get(number).unwrap().leg().frame_refused(frame)
    }

    /// Returns the local number of the leg that gets a full frame, or `None` if no leg is found ("Full Frames", "Call
    /// Setup"). With a destination it is that number, if the leg there has the frame's source as its remote number. A leg
    /// without a remote number gets it, too, unless the source is the remote number of another leg. With destination 0 it
    /// is the number of the leg whose remote number is the source.
    pub fn find(&self, frame: &Full) -> Option<u16>
        ensures some { IfSome result (λ number. leg_at self.now number ≡ found self.now frame.now) }
        ensures reached { IfSome result (λ number. can_reach self.now frame.now.head.source (leg_at self.now number) ≡ true) }
        ensures none { IsNone result ↔ (found self.now frame.now ≡ None) }
    {
        let number = frame.destination().get();
        if number == 0 {
            return self.of_remote(frame.source());
        }
        match self.get(number) {
            Some(named) => {
                if self.reaches(frame.source(), named) {
                    Some(number)
                } else {
                    None
                }
            }
            None => None,
        }
    }

    // The leg with the least local number that is at least this one.
    fn next_leg(&self, number: u16) -> Option<&NamedLeg>
        ensures next { option_copied result ≡ next_leg self.now number }
        ensures sound { AreLegs self.now }
    {
        let passed = usize::from(number.saturating_sub(self.first()));
        match self.places.get(passed..) {
            Some(places) => first_leg(places),
            None => None,
        }
    }

    /// The leg with the least local number that is at least this one; `None` if no leg has such a number. Takes the time of a
    /// look at each number in between.
    pub fn next_from(&self, number: u16) -> Option<&NamedLeg>
        ensures next { option_copied result ≡ next_leg self.now number }
        ensures there { IfSome result (λ named. leg_at self.now named.now.name.number ≡ Some named.now) }
        ensures from { IfSome result (λ named. number ≤ named.now.name.number) }
        ensures least { IfSome result (λ named. AreFreeBetween self.now number named.now.name.number) }
        ensures none { IsNone result ↔ AreFreeFrom self.now number }
    {
        self.next_leg(number)
    }

    /// Returns whether the name is one of this peer's, and no leg has its number.
    pub fn is_free(&self, name: LegName) -> bool
        ensures free { result ≡ is_free_name self.now name }
    {
        if name.peer != self.peer() || !self.has_number(name.number) {
            return false;
        }
        self.get(name.number).is_none()
    }
}
