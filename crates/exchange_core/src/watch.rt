//! The stage that workers read while they run, and the events that they report.

use crate::{Refusal, Rejection, Retired};
use call_book::PeerId;
use peer_plan::{Endpoint, WorkerId};

/// The stage of a service.
#[derive(Clone, Copy, Debug, PartialEq, Eq)]
pub enum ServiceStage {
    /// Calls are opened, and continue.
    Serving,
    /// Calls continue, but no peer opens one: its NEW is refused.
    Draining,
    /// No further turn is made.
    Ended,
}

/// An event of a turn.
#[derive(Clone, Copy, Debug, PartialEq, Eq)]
pub enum Event {
    /// A datagram of a peer was received, at this moment, in milliseconds since the exchange was opened. `is_alive` says
    /// whether it is a sign of life: it wasn't refused, or is a full frame of type IAX.
    Received {
        peer: PeerId,
        now: u64,
        is_alive: bool,
    },
    /// The exchange refused it.
    Refused {
        peer: PeerId,
        refusal: Refusal,
    },
    /// The exchange accepted it, and rejected its request in the answer.
    Rejected {
        peer: PeerId,
        rejection: Rejection,
    },
    /// It was kept from the exchange: a NEW, while the service drains.
    TurnedAway {
        peer: PeerId,
    },
    /// A datagram was received from an endpoint that no peer of the plan has, and is refused.
    Stranger {
        from: Endpoint,
    },
    /// A datagram was sent to a peer.
    Sent {
        peer: PeerId,
    },
    /// The wire didn't take a datagram to a peer: it is lost.
    Lost {
        peer: PeerId,
    },
    /// A call of the wire failed.
    Fault,
    /// A leg of a peer was taken out.
    Retired {
        peer: PeerId,
    },
}

/// Supplies the lifecycle stage; receives the workers' events. The workers of a service share it. So its calls come from
/// several threads at once, for each datagram, and shouldn't wait.
pub trait Watch {
    ghost use Rattle.std.specs.Prelude.{⊤};
    ghost use Rattle.exchange_core.specs.Leaving.{Departure, departure_of};
    ghost use Rattle.exchange_core.specs.declared.watch.Event.{Event};
    ghost use Rattle.exchange_core.specs.declared.watch.ServiceStage.{ServiceStage};

    /// A worker read this stage.
    ghost answered: { Self → ServiceStage → Type 0 } = { λ _ _. ⊤ };

    /// A worker reported this event.
    ghost observed: { Self → Event → Type 0 } = { λ _ _. ⊤ };

    /// It was given this leg, which was taken out.
    ghost given: { Self → Departure → Type 0 } = { λ _ _. ⊤ };

    /// A refused thread was reported.
    ghost lacks_thread: { Self → Type 0 } = { λ _. ⊤ };

    /// Returns the stage of the service. A worker calls it before each turn. Any stage may follow any other.
    fn stage(&self) -> ServiceStage
        ensures { answered self.now result };

    /// Takes note of an event.
    fn observe(&self, event: Event)
        ensures { observed self.now event };

    /// Gives the leg that a worker took out. The event was reported right before.
    fn retire(&self, worker: WorkerId, leg: &Retired)
        ensures { given self.now (departure_of leg.now) };

    /// Reports that a worker's thread was refused. The other workers continue until they read `Ended`.
    fn no_thread(&self)
        ensures { lacks_thread self.now };

    /// Wakes a worker: another caller filled outboxes of its peers, so it may have datagrams to send. It should wait no
    /// longer.
    fn wake(&self, worker: WorkerId);
}
