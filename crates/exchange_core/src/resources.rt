//! The inputs of a call, and the resources that it holds.
ghost use Rattle.std.specs.Prelude.{◌≡◌, ◌+◌, ◌≤◌, [], None, Some, option_copied, vec_len, vec_capacity};
ghost use Rattle.exchange_core.specs.Leaving.{all_left, given_up_at, leaving_of};
ghost use Rattle.peer_lock.specs.Statuses.{IsHistory};

use crate::answers::Retired;
use crate::denial::Denial;
use crate::retired_legs::RetiredLegs;
use call_auth::Challenge;
use call_book::{Lease, LegName};
use peer_lock::{EndedLeg, ReadDatagram, Rejection};

// The inputs of a call from outside.
#[derive(Drop)]
pub(crate) struct Given<'o, 'c, 'n> {
    // The datagram, read once. It is empty unless the call is one of a datagram.
    pub(crate) datagram: ReadDatagram<'o>,
    // For the leg that a datagram opens.
    pub(crate) challenge: Option<&'c Challenge>,
    // The number that is called from outside.
    pub(crate) called: Option<&'n [u8]>,
    // The moment.
    pub(crate) now: u64,
}

impl Given<'_, '_, '_> {
    // Returns the inputs of a call that has only a moment.
    pub(crate) fn moment<'o, 'c, 'n>(now: u64) -> Given<'o, 'c, 'n>
        ensures datagram { result.datagram ≡ [] }
        ensures challenge { result.challenge ≡ None }
        ensures called { result.called ≡ None }
        ensures now { result.now ≡ now }
    {
        Given {
            datagram: ReadDatagram::of(&[]),
            challenge: None,
            called: None,
            now,
        }
    }

    // Returns the inputs of a call from outside to this number.
    pub(crate) fn number<'o, 'c, 'n>(called: &'n [u8], now: u64) -> Given<'o, 'c, 'n>
        ensures datagram { result.datagram ≡ [] }
        ensures challenge { result.challenge ≡ None }
        ensures called { option_copied result.called ≡ Some called.now }
        ensures now { result.now ≡ now }
    {
        Given {
            called: Some(called),
            ..Given::moment(now)
        }
    }
}

// The resources of a call: its lease, if any, the last name that the book gave it, the legs that it took out, and its
// refusal, if any.
#[derive(Drop)]
pub(crate) struct TaskResources {
    pub(crate) lease: Option<Lease>,
    pub(crate) named: Option<LegName>,
    pub(crate) retired_legs: RetiredLegs,
    pub(crate) denial: Option<Denial>,
}

// The outcome of a call: the number of its steps, any refusal and rejection, the last name that the book gave it, and the
// legs that it took out, in order.
#[derive(Drop)]
pub(crate) struct Outcome {
    pub(crate) steps: u64,
    pub(crate) denial: Option<Denial>,
    pub(crate) rejected: Option<Rejection>,
    pub(crate) named: Option<LegName>,
    pub(crate) retired: Vec<Retired>,
}

impl TaskResources {
    // Takes over a leg that was taken out, for which there is room, and its lease.
    pub(crate) fn take_over(&mut self, name: LegName, lease: Lease, leg: EndedLeg, now: u64)
        requires room { vec_len self.old.retired_legs.gone + 2 ≤ vec_capacity self.old.retired_legs.gone }
        requires legal { IsHistory leg.history.entries }
        ensures lease { self.new.lease ≡ Some lease }
        ensures left { leaving_of self.new.retired_legs ≡
            record { last = Some (given_up_at now name leg); gone = all_left (leaving_of self.old.retired_legs) } }
        ensures denial { self.new.denial ≡ self.old.denial }
        ensures named { self.new.named ≡ self.old.named }
    {
        self.retired_legs.take(name, leg, now);
        self.lease = Some(lease);
    }
}
