//! Runs turns one after another.
ghost use Rattle.std.specs.Prelude.{⊤, ◌≡◌, ◌+◌, ◌*◌, ◌^◌, ◌≤◌, ◌||◌, if◌then◌else◌, min, option_and_then, slice_get};
ghost use Rattle.udp_wires.specs.Counts.{RisesBy};
ghost use Rattle.udp_workers.specs.Events.{CountsSends, MakesTurns, Tells, nothing};
ghost use Rattle.udp_workers.specs.Handed.{GivesAll};
ghost use Rattle.udp_workers.specs.Intake.{longest_wait, ticks_all};
ghost use Rattle.udp_workers.specs.Runs.{RunsTurns};
ghost use Rattle.udp_workers.specs.Served.{AreEndpoints, peers_of};
ghost use Rattle.udp_workers.specs.Ticked.{IsLater};

use crate::inbox::Inbox;
use crate::intake::Intake;
use crate::report::TurnReport;
use crate::run_context::RunContext;
use crate::sources::{Challenges, TurnClock};
use crate::tally::Tally;
use crate::turn_observer::{TurnObserver, Unobserved};
use crate::turning::{Turn, TurnEnd};
use crate::unwatched::Unwatched;
use crate::worker::Worker;
use exchange_core::{Exchange, Gate, Pass, ServiceStage, Watch};
use peer_lock::LedgerSet;
use peer_plan::{PeerId, Plan};
use std::sync::Wait;
use udp_wires::Wire;

// The longest wait for a datagram between two turns, in milliseconds.
const WAIT_MS: u64 = 20;

// The wait after a turn that left out a peer: until the next millisecond, at which the worker ticks all.
const SHORT_WAIT_MS: u64 = 1;

/// The greatest number of turns that a worker makes until a service ends: 2^48, so that no sum exceeds 64 bits. A turn
/// gives the wire 8,192 datagrams at most. At ten microseconds a turn, these turns last eighty-nine years.
pub const MOST_TURNS: u64 = 0x1_0000_0000_0000;

// Returns the time for which media waits for a trunk frame to fill, in milliseconds. All peers of the plan have the same.
fn trunk_ms(plan: &Plan) -> Option<u64>
    ensures { result ≡ option_and_then (λ peer. peer.rules.trunk_ms) (slice_get plan.now.peers 0) }
{
    if plan.peer_count() == 0 {
        return None;
    }
    plan.rules(PeerId::new(0)).trunk_ms
}

// Returns the longest wait between two turns, in milliseconds.
fn longest_wait(intake: Intake, trunk_ms: Option<u64>) -> u64
    ensures { result ≡ longest_wait intake trunk_ms }
{
    match (intake, trunk_ms) {
        (Intake::Whole, _) | (Intake::Bounded, None) => WAIT_MS,
        (Intake::Bounded, Some(wait)) => {
            if wait == 0 {
                WAIT_MS
            } else {
                wait.min(WAIT_MS)
            }
        }
    }
}

// Returns the longest wait, in milliseconds. It is 0 if the last turn left a datagram, and short if it left out a peer,
// because another worker may have filled that peer's outbox.
fn wait_ms(is_left: bool, has_left_out: bool, longest: u64) -> u64
    ensures { result ≡ (if is_left then 0 else if has_left_out then min longest 1 else longest) }
{
    if is_left {
        0
    } else if has_left_out {
        longest.min(SHORT_WAIT_MS)
    } else {
        longest
    }
}

// Waits for a datagram, except before the first turn and if one was left.
fn pause<W: Wire>(wire: &mut W, turn: u64, is_left: bool, has_left_out: bool, longest: u64)
    ensures came { W.came wire.new ≡ W.came wire.old }
    ensures went { W.went wire.new ≡ W.went wire.old }
    ensures sent { W.sent wire.new ≡ W.sent wire.old }
    ensures given { W.given wire.new ≡ W.given wire.old }
    ensures failures { W.failures wire.new ≡ W.failures wire.old }
    ensures peers { W.peers wire.new ≡ W.peers wire.old }
{
    if turn > 0 {
        wire.wait(wait_ms(is_left, has_left_out, longest));
    }
}

// Returns whether a turn ticks all peers, by its moment, that of the turn before, and whether that turn found an outbox
// full.
fn ticks_all(intake: Intake, before: Option<u64>, time: u64, was_full: bool) -> bool
    ensures { result ≡ (ticks_all intake before time || was_full) }
{
    match (intake, before) {
        (Intake::Whole, _) | (Intake::Bounded, None) => true,
        (Intake::Bounded, Some(before)) => before != time || was_full,
    }
}

impl Worker {
    /// Makes `turns` turns, each with its own moment, in milliseconds since the exchange was opened, and its own challenge.
    /// Waits for a datagram between them, at most 20 ms. Returns the sum of their reports.
    pub fn run<W: Wire, G: Gate, J: LedgerSet, M: TurnClock, C: Challenges, R: Wait>(
        &mut self,
        rt: &R,
        wire: &mut W,
        exchange: &Exchange<G, J>,
        pass: &mut Pass<J>,
        turns: u32,
        moments: &mut M,
        challenges: &mut C,
    ) -> TurnReport
        requires peers { self.old.peers ≡ peers_of exchange.now self.old.place }
        requires wire { AreEndpoints exchange.now self.old.peers (W.peers wire.old) }
        ensures given { RisesBy (W.given wire.old) (W.given wire.new) (result.sent + result.lost) }
        ensures faults { RisesBy (W.failures wire.old) (W.failures wire.new) result.faults }
        ensures wire { W.peers wire.new ≡ W.peers wire.old }
        ensures counts { CountsSends nothing result (W.went wire.old) (W.went wire.new) (W.sent wire.old) (W.sent wire.new) }
        ensures received { result.received ≤ 64 * turns }
        ensures emptied { result.sent + result.lost ≤ 256 * 32 * turns }
        ensures steps { pass.old.credit.steps + result.received ≤ pass.new.credit.steps + result.refused }
        ensures later { IsLater pass.old pass.new }
        // What the wire gave and was given, turn by turn, and the clock's moment and the source's challenge of each.
        ensures intake { RunsTurns (λ _. ⊤) M.gave C.gave moments.old moments.new challenges.old challenges.new Intake.Whole
            exchange.now self.old.peers result.received pass.old pass.new
            (record { came = W.came wire.old; went = W.went wire.old })
            (record { came = W.came wire.new; went = W.went wire.new }) }
        ensures place { self.new.place ≡ self.old.place }
        ensures peers { self.new.peers ≡ self.old.peers }
        ensures turns { RisesBy self.old.turns self.new.turns turns }
    {
        let most = u64::from(turns);
        self.run_until(
            rt,
            wire,
            exchange,
            pass,
            &Unwatched,
            Intake::Whole,
            most,
            RunContext {
                moments,
                challenges,
                observer: &mut Unobserved,
            },
        )
    }

    /// Makes turns until the watch reports the end of the service, at most `turns` and at most `MOST_TURNS`. Each turn
    /// first reads the stage from the watch and then reports its events to it, and to the observer of the run. Each turn has
    /// its own moment and challenge; between them the worker waits for a datagram, at most 20 ms. Returns the sum of their
    /// reports, which counts exactly the reported events.
    ///
    /// While the service drains, a NEW of a peer with no destination and OSeqno 0 is kept from the exchange, even a
    /// retransmission for a current leg. It counts as received and refused. All other datagrams are handled as before.
    ///
    /// `Bounded`: a turn takes no more than empty outboxes have room for, next to a trunk frame: 255 entries and 16,384
    /// octets of media. Its first datagram is taken whatever it weighs. An entry of a trunk frame and a mini frame are one
    /// entry, a full frame is four, a VNAK 128. Of NEWs that may open a leg a turn takes one, so that a challenge is for
    /// one leg alone. A datagram that doesn't fit any more ends the receiving of its turn. The next turn follows without a
    /// pause, and takes and counts it first. A datagram that the last turn left is lost.
    /// A bounded run waits no longer than the plan's `trunk_ms` between two turns, unless that is 0.
    ///
    /// A bounded turn ticks all peers if it is the first, or if its moment differs from that of the turn before it. It also
    /// does so if that turn took 256 datagrams out of one outbox. Otherwise it leaves out each peer at which no step was
    /// made under the pass since its last tick: another tick at the same moment would do nothing. It then sends only from
    /// the outboxes of peers at which a step was made. A tick that found no memory for a frame is repeated. After a turn that
    /// left out a peer the worker waits at most 1 ms.
    ///
    /// At the end of a turn the watch is asked to wake each other worker at whose peers the turn made steps.
    pub fn run_until<
        W: Wire,
        V: Watch,
        G: Gate,
        J: LedgerSet,
        M: TurnClock,
        C: Challenges,
        O: TurnObserver,
        R: Wait,
    >(
        &mut self,
        rt: &R,
        wire: &mut W,
        exchange: &Exchange<G, J>,
        pass: &mut Pass<J>,
        watch: &V,
        intake: Intake,
        turns: u64,
        context: RunContext<'_, M, C, O>,
    ) -> TurnReport
        requires peers { self.old.peers ≡ peers_of exchange.now self.old.place }
        requires wire { AreEndpoints exchange.now self.old.peers (W.peers wire.old) }
        ensures given { RisesBy (W.given wire.old) (W.given wire.new) (result.sent + result.lost) }
        ensures faults { RisesBy (W.failures wire.old) (W.failures wire.new) result.faults }
        ensures wire { W.peers wire.new ≡ W.peers wire.old }
        ensures counts { CountsSends nothing result (W.went wire.old) (W.went wire.new) (W.sent wire.old) (W.sent wire.new) }
        // The turns that it made; each received at most 64 datagrams, and gave the wire at most 256 for each peer.
        ensures turns { MakesTurns
            (min turns (2 ^ 48)) (V.answered watch.now ServiceStage.Ended) self.old.turns self.new.turns result }
        ensures observed { ∥ Tells (V.observed watch.now) result ∥₁ }
        // Each leg that was taken out under the pass was given to the watch, with what its peer's state gave up.
        ensures handed { GivesAll (V.given watch.now) pass.old pass.new }
        ensures refused { result.refused ≤ result.received }
        ensures steps { pass.old.credit.steps + result.received ≤ pass.new.credit.steps + result.refused }
        ensures later { IsLater pass.old pass.new }
        // For each turn: the datagrams that it took, which are those that the wire gave, whole and in order, within its
        // limit and with the one left by the turn before as the first; then a tick of all its peers, or of each that was
        // due; then what it took out of their outboxes and gave to the wire, whole and in order; and nothing else.
        // Each datagram is reported of the peer with its sender's endpoint, or as a stranger's. Its receipt is reported, and
        // that it was turned away, or its refusal or rejection. Each turn has the clock's next moment and the source's next
        // challenge, and no other was asked for.
        ensures intake { RunsTurns (V.observed watch.now) M.gave C.gave context.entry.moments.now context.exit.0.now
            context.entry.challenges.now context.exit.1.0.now intake exchange.now self.old.peers result.received pass.old pass.new
            (record { came = W.came wire.old; went = W.went wire.old })
            (record { came = W.came wire.new; went = W.went wire.new }) }
        ensures place { self.new.place ≡ self.old.place }
        ensures peers { self.new.peers ≡ self.old.peers }
    {
        let RunContext {
            moments,
            challenges,
            observer,
        } = context;
        let longest = longest_wait(intake, trunk_ms(exchange.plan()));
        let mut inbox = Inbox::new();
        let mut tally = Tally::new(watch, observer, self.place);
        let mut before = None;
        let mut end = TurnEnd::nothing();
        for made in 0..turns.min(MOST_TURNS) {
            pause(wire, made, inbox.is_full(), end.has_left_out, longest);
            let stage = watch.stage();
            if stage == ServiceStage::Ended {
                return tally.report;
            }
            let time = moments.now();
            let turn = Turn {
                rt,
                exchange,
                stage,
                intake,
                time,
                all: ticks_all(intake, before, time, end.was_full),
                challenge: &challenges.draw(),
            };
            end = self.turn_at(&turn, wire, &mut inbox, pass, &mut tally);
            before = Some(time);
        }
        tally.report
    }
}
