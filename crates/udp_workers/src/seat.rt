//! A worker with all resources of its run.
ghost use Rattle.std.specs.Prelude.{◌≡◌, ◌+◌, ◌^◌, ◌≤◌, min};
ghost use Rattle.peer_plan.specs.Plan.{PlanView};
ghost use Rattle.udp_wires.specs.Counts.{RisesBy};
ghost use Rattle.udp_workers.specs.Served.{AreEndpoints, peers_of};

use crate::intake::Intake;
use crate::report::TurnReport;
use crate::run_context::RunContext;
use crate::sources::{Challenges, TurnClock};
use crate::turn_observer::TurnObserver;
use crate::worker::Worker;
use exchange_core::{Exchange, Gate, Pass, Watch};
use peer_lock::LedgerSet;
use std::marker::{Brand, PhantomData};
use std::sync::{Mutex, Wait};
use udp_wires::Wire;

/// Names the plan of the exchange that seats are for.
pub trait PlanBrand {
    ghost plan: { PlanView };
}

impl PlanBrand for Brand {
    ghost use Rattle.std.specs.Prelude.{[], false};

    ghost plan = { record { workers = []; passes = 0; peers = []; routes = []; avoids_return = false } };
}

/// The exchange of that plan, the watch of its workers, the limit on the datagrams of a turn, and the greatest number of
/// turns of each worker.
#[derive(Drop)]
pub struct WatchedExchange<'x, V: Watch, G: Gate, J: LedgerSet, P: PlanBrand> {
    pub exchange: &'x Exchange<G, J>,
    pub watch: &'x V,
    pub intake: Intake,
    pub turns: u64,
    pub post: PhantomData<P>,
    ghost named: { exchange.now ≡ P.plan },
}

/// The counts of a seat at the beginning of its last run, or at its creation if it had none.
#[derive(Clone, Copy, Debug, PartialEq, Eq)]
pub struct Start {
    /// Datagrams that its wire was given to send, modulo 2^64.
    pub given: u64,
    /// Calls of its wire that failed, modulo 2^64.
    pub failures: u64,
    /// Steps under its pass.
    pub steps: u64,
}

/// The resources of a worker's thread, and the sum of the reports of its last run. The report has each datagram given to
/// the wire since that run began, and each call of the wire that failed. Each datagram that it counts as received and not
/// as refused made a step under the pass.
#[derive(Drop)]
pub struct SeatState<
    W: Wire + Drop,
    M: TurnClock + Drop,
    C: Challenges + Drop,
    O: TurnObserver + Drop,
    J: LedgerSet,
    P: PlanBrand,
> {
    pub worker: Worker,
    pub wire: W,
    pub pass: Pass<J>,
    pub moments: M,
    pub challenges: C,
    pub observer: O,
    pub start: Start,
    pub report: TurnReport,
    pub post: PhantomData<P>,
    ghost peers: { worker.peers ≡ peers_of P.plan worker.place },
    ghost ends: { AreEndpoints P.plan worker.peers (W.peers wire) },
    ghost given: { RisesBy start.given (W.given wire) (report.sent + report.lost) },
    ghost faults: { RisesBy start.failures (W.failures wire) report.faults },
    ghost steps: { start.steps + report.received ≤ pass.credit.steps + report.refused },
}

// Returns the counts so far.
fn start_of<W: Wire, J: LedgerSet>(wire: &W, pass: &Pass<J>) -> Start
    ensures given { result.given ≡ W.given wire.now }
    ensures failures { result.failures ≡ W.failures wire.now }
    ensures steps { result.steps ≡ pass.now.credit.steps }
{
    Start {
        given: wire.given(),
        failures: wire.failures(),
        steps: pass.steps(),
    }
}

impl<
    W: Wire + Drop,
    M: TurnClock + Drop,
    C: Challenges + Drop,
    O: TurnObserver + Drop,
    J: LedgerSet,
    P: PlanBrand,
> SeatState<W, M, C, O, J, P> {
    ghost use Rattle.udp_workers.specs.Events.{CountsSends, MakesTurns, Tells, nothing};
    ghost use Rattle.udp_workers.specs.Handed.{GivesAll};
    ghost use Rattle.udp_workers.specs.Runs.{RunsTurns};
    ghost use Rattle.exchange_core.specs.declared.watch.ServiceStage.TheVariants as ServiceStage;

    // Makes a run, whose counts begin with the current ones.
    fn run<V: Watch, G: Gate, R: Wait>(
        &mut self,
        rt: &R,
        exchange: &Exchange<G, J>,
        watch: &V,
        intake: Intake,
        turns: u64,
    )
        requires { exchange.now ≡ P.plan }
        ensures given { self.new.start.given ≡ W.given self.old.wire }
        ensures failures { self.new.start.failures ≡ W.failures self.old.wire }
        ensures steps { self.new.start.steps ≡ self.old.pass.credit.steps }
        ensures turns { MakesTurns
            (min turns (2 ^ 48)) (V.answered watch.now ServiceStage.Ended) self.old.worker.turns self.new.worker.turns
            self.new.report }
        ensures counts { CountsSends nothing self.new.report (W.went self.old.wire) (W.went self.new.wire) (W.sent self.old.wire)
            (W.sent self.new.wire) }
        ensures observed { ∥ Tells (V.observed watch.now) self.new.report ∥₁ }
        ensures handed { GivesAll (V.given watch.now) self.old.pass self.new.pass }
        ensures intake { RunsTurns (V.observed watch.now) M.gave C.gave self.old.moments self.new.moments self.old.challenges
            self.new.challenges intake exchange.now self.old.worker.peers self.new.report.received self.old.pass self.new.pass
            (record { came = W.came self.old.wire; went = W.went self.old.wire })
            (record { came = W.came self.new.wire; went = W.went self.new.wire }) }
    {
        self.start = start_of(&self.wire, &self.pass);
        self.report = self.worker.run_until(
            rt,
            &mut self.wire,
            exchange,
            &mut self.pass,
            watch,
            intake,
            turns,
            RunContext {
                moments: &mut self.moments,
                challenges: &mut self.challenges,
                observer: &mut self.observer,
            },
        );
    }
}

/// A place under a lock, so that a separate thread can take it.
#[derive(Drop)]
pub struct Seat<
    W: Wire + Drop,
    M: TurnClock + Drop,
    C: Challenges + Drop,
    O: TurnObserver + Drop,
    J: LedgerSet,
    P: PlanBrand,
> {
    place: Mutex<SeatState<W, M, C, O, J, P>>,
}

impl<
    W: Wire + Drop,
    M: TurnClock + Drop,
    C: Challenges + Drop,
    O: TurnObserver + Drop,
    J: LedgerSet,
    P: PlanBrand,
> Seat<W, M, C, O, J, P> {
    /// Returns a worker with all resources of its run, and an empty report. The current counts of its wire and its pass are
    /// its start.
    pub fn new(
        worker: Worker,
        wire: W,
        pass: Pass<J>,
        moments: M,
        challenges: C,
        observer: O,
    ) -> Self
        requires peers { worker.peers ≡ peers_of P.plan worker.place }
        requires ends { AreEndpoints P.plan worker.peers (W.peers wire) }
    {
        let start = start_of(&wire, &pass);
        Seat {
            place: Mutex::new(SeatState {
                worker,
                wire,
                pass,
                moments,
                challenges,
                observer,
                start,
                report: TurnReport::default(),
                post: PhantomData,
            }),
        }
    }

    // Makes the run of the worker, on the thread of the caller.
    pub(crate) fn run<V: Watch, G: Gate, R: Wait>(
        &self,
        rt: &R,
        service: &WatchedExchange<'_, V, G, J, P>,
    ) {
        self.place.lock(rt).run(
            rt,
            service.exchange,
            service.watch,
            service.intake,
            service.turns,
        );
    }

    /// Returns the worker with the resources of its run, and the sum of the reports of its last run.
    pub fn into_state(self) -> SeatState<W, M, C, O, J, P> {
        let Seat { place } = self;
        place.into_inner()
    }
}
