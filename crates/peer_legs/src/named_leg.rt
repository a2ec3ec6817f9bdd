//! Legs and the leases on their names.
ghost use Rattle.std.specs.Prelude.{◌≡◌, ℕ, ◌<◌, ◌≤◌, true, Some, Ok};
ghost use Rattle.peer_legs.specs.LegsInside.{IsRecorded};
ghost use Rattle.peer_legs.specs.Rests.{is_quiet, is_resting};

use call_book::{Lease, LegName};
use leg_machine::{Leg, MediaSent, OrderError};
use std::marker::Model;

/// A leg, with the lease on its name. Contracts see the name and the leg.
#[derive(Drop)]
pub struct NamedLeg {
    pub(crate) lease: Lease,
    pub(crate) leg: Leg,
}

impl Model for NamedLeg {
    ghost use Rattle.peer_legs.specs.Legs.{NamedLeg};

    ghost Value = { NamedLeg };

    ghost view = { λ named. record { name = named.lease; leg = named.leg.state } };
}

impl NamedLeg {
    /// Returns the name of the lease.
    pub fn name(&self) -> LegName
        ensures { result ≡ self.now.name }
    {
        self.lease.name()
    }

    /// Returns the leg, read-only.
    pub fn leg(&self) -> &Leg
        ensures { result.now.state ≡ self.now.leg }
    {
        &self.leg
    }

    // Returns whether it hasn't ended and owes nothing.
    pub(crate) fn is_quiet(&self) -> bool
        ensures { result ≡ is_quiet (Some self.now) }
    {
        !self.leg.stage().is_ended() && !self.leg.owes()
    }

    // Returns the moment before which it hasn't ended, owes nothing, and a tick has no work.
    pub(crate) fn rest_until(&self) -> u64
        ensures { (now : ℕ) → now < result → is_resting (Some self.now) now ≡ true }
    {
        if self.is_quiet() {
            self.leg.idle_until()
        } else {
            0
        }
    }

    // Returns the moment until which the legs rest after this one sent media. Before, they rested until `rest_until`. Only
    // media sent as a full frame changes that of the leg.
    pub(crate) fn rest_after_media(
        &self,
        sent: &Result<MediaSent, OrderError>,
        rest_until: u64,
    ) -> u64
        ensures within { result ≤ rest_until }
        ensures voice { sent.now ≡ Ok MediaSent.Voice → (now : ℕ) → now < result → is_resting (Some self.now) now ≡ true }
    {
        match sent {
            Ok(MediaSent::Voice) => rest_until.min(self.rest_until()),
            Ok(MediaSent::Mini(_)) => rest_until,
            Ok(MediaSent::Quelched) => rest_until,
            Err(_) => rest_until,
        }
    }

    /// Returns the lease and the leg separately.
    pub fn into_parts(self) -> (Lease, Leg)
        ensures lease { result.0 ≡ self.name }
        ensures leg { result.1.state ≡ self.leg }
    {
        let NamedLeg { lease, leg } = self;
        (lease, leg)
    }
}

// The property of a leg's record, for proofs alone.
pub(crate) fn recorded(leg: &Leg)
    ensures { IsRecorded leg.now.state }
{
    let window = leg.window();
    let _legal = window.record();
    let _held = window.held_len();
}
