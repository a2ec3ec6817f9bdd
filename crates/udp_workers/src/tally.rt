//! The events that were reported to a watch and an observer, and their counts.
ghost use Rattle.std.specs.Prelude.{◌≡◌, All, IfSome, MatchOption};
ghost use Rattle.exchange_core.specs.Leaving.{departure_of};
ghost use Rattle.udp_workers.specs.Events.{Tells};
ghost use Rattle.exchange_core.specs.declared.watch.Event.TheVariants as events;

use crate::report::TurnReport;
use crate::turn_observer::TurnObserver;
use call_auth::Challenge;
use call_book::PeerId;
use exchange_core::{Answer, Event, Retired, Watch};
use peer_plan::{Endpoint, WorkerId};

// The watch, the observer of the turns, and the counts of the events reported to both.
#[derive(Drop)]
pub(crate) struct Tally<'w, V: Watch, O: TurnObserver> {
    pub(crate) watch: &'w V,
    observer: &'w mut O,
    // The worker that makes the turns.
    pub(crate) worker: WorkerId,
    pub(crate) report: TurnReport,
    ghost observed: { ∥ Tells (V.observed watch.now) report ∥₁ },
}

impl<'w, V: Watch, O: TurnObserver> Tally<'w, V, O> {
    ghost use Rattle.udp_workers.specs.Events.{HasRoom, OnlyRetires, counted, nothing};

    // Returns a tally before the first event.
    pub(crate) fn new(watch: &'w V, observer: &'w mut O, worker: WorkerId) -> Self
        ensures watch { result.watch.now ≡ watch.now }
        ensures none { result.report ≡ nothing }
    {
        Tally {
            watch,
            observer,
            worker,
            report: TurnReport::default(),
        }
    }

    // Reports to the observer that a turn begins, at a moment in milliseconds since the exchange was opened.
    pub(crate) fn begin_turn(&mut self, now: u64, challenge: &Challenge)
        ensures report { self.new.report ≡ self.old.report }
        ensures watch { self.new.watch ≡ self.old.watch }
    {
        self.observer.turn_begins(now, challenge);
    }

    // Reports to the observer that a received datagram is handled next. `peer` is the peer of its endpoint.
    pub(crate) fn take(&mut self, peer: Option<PeerId>, from: Endpoint, octets: &[u8])
        ensures report { self.new.report ≡ self.old.report }
        ensures watch { self.new.watch ≡ self.old.watch }
    {
        self.observer.datagram(peer, from, octets);
    }

    // Reports to the observer that the peers of the worker are ticked next.
    pub(crate) fn begin_ticks(&mut self)
        ensures report { self.new.report ≡ self.old.report }
        ensures watch { self.new.watch ≡ self.old.watch }
    {
        self.observer.ticks_begin();
    }

    // Reports to the observer that the turn ends.
    pub(crate) fn end_turn(&mut self)
        ensures report { self.new.report ≡ self.old.report }
        ensures watch { self.new.watch ≡ self.old.watch }
    {
        self.observer.turn_ends();
    }

    // Reports an event to the watch and then to the observer, and counts it.
    pub(crate) fn observe(&mut self, event: Event)
        requires room { HasRoom 1 self.old.report }
        ensures observed { V.observed self.old.watch.now event }
        ensures counted { self.new.report ≡ counted self.old.report event }
        ensures watch { self.new.watch ≡ self.old.watch }
    {
        // Copies: the borrow checker doesn't cover an enum that holds a peer and is passed by value twice.
        let (observed, seen) = (event, event);
        self.watch.observe(observed);
        self.observer.event(seen);
        self.report = self.report.counted(event);
    }

    // Reports the outcome of a peer's datagram to the watch: its refusal, or the rejection in its answer.
    pub(crate) fn observe_outcome(&mut self, peer: PeerId, answer: &Answer)
        requires room { HasRoom 1 self.old.report }
        ensures rejected { IfSome answer.now.rejected (λ rejection.
            V.observed self.old.watch.now (events.Rejected peer rejection)) }
        ensures refused { IfSome answer.now.refused (λ refusal.
            V.observed self.old.watch.now (events.Refused peer refusal)) }
        ensures report { MatchOption answer.now.refused (self.new.report ≡ self.old.report)
            (λ refusal. self.new.report ≡ counted self.old.report (events.Refused peer refusal)) }
        ensures watch { self.new.watch ≡ self.old.watch }
    {
        if let Some(rejection) = answer.rejected {
            self.observe(Event::Rejected { peer, rejection });
        }
        if let Some(refusal) = answer.refused {
            self.observe(Event::Refused { peer, refusal });
        }
    }

    // Reports each leg that was taken out to the watch, and gives it the leg.
    pub(crate) fn observe_retired(&mut self, legs: &[Retired])
        requires room { HasRoom 1 self.old.report }
        ensures given { All (λ leg. V.given self.old.watch.now (departure_of leg)) legs.now }
        ensures only { OnlyRetires self.old.report self.new.report }
        ensures watch { self.new.watch ≡ self.old.watch }
    {
        for leg in legs {
            self.observe(Event::Retired {
                peer: leg.name.owner(),
            });
            self.watch.retire(self.worker, leg);
        }
    }
}
