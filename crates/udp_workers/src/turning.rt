//! One turn of a worker.
ghost use Rattle.std.specs.Prelude.{◌≡◌, ◌≢◌, ◌+◌, ◌*◌, ◌<◌, ◌≤◌, All, AllPairs, None, Option, length, true};
ghost use Rattle.peer_plan.specs.declared.endpoint.Endpoint.{Endpoint};
ghost use Rattle.udp_wires.specs.Counts.{RiseAlike, RisesBy, RisesByAtMost};
ghost use Rattle.udp_wires.specs.Parcels.{Parcel};
ghost use Rattle.udp_workers.specs.Emptied.{EmptiesDue};
ghost use Rattle.udp_workers.specs.Events.{CountsSends, HasRoom, OnlyRetires, nothing};
ghost use Rattle.udp_workers.specs.Handed.{GivesAll};
ghost use Rattle.udp_workers.specs.Intake.{MakesTurn};
ghost use Rattle.udp_workers.specs.Runs.{MakesAndReports};
ghost use Rattle.udp_workers.specs.Served.{AreEndpoints, peers_of};
ghost use Rattle.udp_workers.specs.Ticked.{IsLater, Ticks, TicksDue, TicksIfDue, is_due};

use crate::inbox::Inbox;
use crate::intake::Intake;
use crate::receiving::receive_all;
use crate::report::TurnReport;
use crate::sending::send_if_due;
use crate::tally::Tally;
use crate::turn_observer::{TurnObserver, Unobserved};
use crate::unwatched::Unwatched;
use crate::waking::wake_others;
use crate::worker::Worker;
use call_auth::Challenge;
use call_book::PeerId;
use exchange_core::{Exchange, Gate, Pass, ServiceStage, Watch};
use iax_frames::Out;
use peer_lock::LedgerSet;
use std::sync::Wait;
use udp_wires::Wire;

// The inputs of a turn that it doesn't change.
#[derive(Drop)]
pub(crate) struct Turn<'x, G: Gate, J: LedgerSet, R: Wait> {
    pub(crate) rt: &'x R,
    pub(crate) exchange: &'x Exchange<G, J>,
    // The stage, as read from the watch.
    pub(crate) stage: ServiceStage,
    pub(crate) intake: Intake,
    // Its moment, in milliseconds since the exchange was opened.
    pub(crate) time: u64,
    // Whether it ticks all peers, and empties the outboxes of all.
    pub(crate) all: bool,
    pub(crate) challenge: &'x Challenge,
}

// The state that a turn leaves to the next one.
#[derive(Clone, Copy)]
pub(crate) struct TurnEnd {
    // A peer wasn't ticked.
    pub(crate) has_left_out: bool,
    // An outbox gave all that a turn takes out of it. It may have more, or may have been too full for a tick to pack into
    // it.
    pub(crate) was_full: bool,
}

impl TurnEnd {
    // Returns the state before the first turn.
    pub(crate) fn nothing() -> TurnEnd {
        TurnEnd {
            has_left_out: false,
            was_full: false,
        }
    }
}

impl Worker {
    /// Makes one turn, at a moment in milliseconds since the exchange was opened: receives the available datagrams, at most
    /// 64; then ticks each of its peers; then sends the datagrams in their outboxes, up to 256 each.
    ///
    /// A call of the wire that fails ends the receiving; the rest of the turn follows. A datagram that the wire doesn't
    /// take is lost and counted. The records of legs are dropped.
    pub fn turn<W: Wire, G: Gate, J: LedgerSet, R: Wait>(
        &mut self,
        rt: &R,
        wire: &mut W,
        exchange: &Exchange<G, J>,
        pass: &mut Pass<J>,
        now: u64,
        challenge: &Challenge,
    ) -> TurnReport
        requires peers { self.old.peers ≡ peers_of exchange.now self.old.place }
        requires wire { AreEndpoints exchange.now self.old.peers (W.peers wire.old) }
        ensures given { RisesBy (W.given wire.old) (W.given wire.new) (result.sent + result.lost) }
        ensures faults { RisesBy (W.failures wire.old) (W.failures wire.new) result.faults }
        ensures wire { W.peers wire.new ≡ W.peers wire.old }
        ensures received { result.received ≤ 64 }
        ensures refused { result.refused ≤ result.received }
        ensures emptied { result.sent + result.lost ≤ 256 * length self.old.peers }
        ensures each { (to : Endpoint) → RisesByAtMost 256 (W.given_to wire.old to) (W.given_to wire.new to) }
        ensures few_faults { result.faults ≤ result.lost + 1 }
        ensures counts { CountsSends nothing result (W.went wire.old) (W.went wire.new) (W.sent wire.old) (W.sent wire.new) }
        // Each datagram that isn't refused made a step at least.
        ensures steps { pass.old.credit.steps + result.received ≤ pass.new.credit.steps + result.refused }
        // The datagrams that the wire gave, in order and whole; then a tick of each of its peers, in their order, at this
        // moment; then what waited in the outbox of each, up to 256 datagrams, in order and whole, for the peer's endpoint.
        ensures turn { (left : Option Parcel) × MakesTurn Intake.Whole exchange.now self.old.peers true
            (record { stage = ServiceStage.Serving; now = now; challenge = challenge.now }) None left 0 result.received
            pass.old pass.new (record { came = W.came wire.old; went = W.went wire.old })
            (record { came = W.came wire.new; went = W.went wire.new }) }
        ensures later { IsLater pass.old pass.new }
        ensures place { self.new.place ≡ self.old.place }
        ensures peers { self.new.peers ≡ self.old.peers }
        ensures few { length self.new.peers ≤ 32 }
        ensures turns { RisesBy self.old.turns self.new.turns 1 }
    {
        let mut observer = Unobserved;
        let mut tally = Tally::new(&Unwatched, &mut observer, self.place);
        let turn = Turn {
            rt,
            exchange,
            stage: ServiceStage::Serving,
            intake: Intake::Whole,
            time: now,
            all: true,
            challenge,
        };
        self.turn_at(&turn, wire, &mut Inbox::new(), pass, &mut tally);
        tally.report
    }

    // Makes a turn, with the datagram that the turn before left. It ticks all peers and empties their outboxes, or those
    // that are due. Returns the state for the next turn.
    pub(crate) fn turn_at<W: Wire, V: Watch, O: TurnObserver, G: Gate, J: LedgerSet, R: Wait>(
        &mut self,
        turn: &Turn<'_, G, J, R>,
        wire: &mut W,
        inbox: &mut Inbox,
        pass: &mut Pass<J>,
        tally: &mut Tally<'_, V, O>,
    ) -> TurnEnd
        requires peers { self.old.peers ≡ peers_of turn.now.exchange.now self.old.place }
        requires wire { AreEndpoints turn.now.exchange.now self.old.peers (W.peers wire.old) }
        requires asked { V.answered tally.old.watch.now turn.now.stage }
        requires going { turn.now.stage ≢ ServiceStage.Ended }
        requires room { HasRoom 10000 tally.old.report }
        ensures given { RiseAlike (W.given wire.old) (W.given wire.new) (tally.old.report.sent + tally.old.report.lost)
            (tally.new.report.sent + tally.new.report.lost) }
        ensures faults { RiseAlike (W.failures wire.old) (W.failures wire.new) tally.old.report.faults tally.new.report.faults }
        ensures wire { W.peers wire.new ≡ W.peers wire.old }
        ensures received { tally.new.report.received ≤ tally.old.report.received + 64 }
        ensures refused { tally.new.report.refused + tally.old.report.received ≤ tally.old.report.refused +
            tally.new.report.received }
        ensures emptied { tally.new.report.sent + tally.new.report.lost ≤ tally.old.report.sent + tally.old.report.lost +
            256 * length self.old.peers }
        ensures each { (to : Endpoint) → RisesByAtMost 256 (W.given_to wire.old to) (W.given_to wire.new to) }
        ensures few_faults { tally.new.report.faults + tally.old.report.lost ≤ tally.old.report.faults + tally.new.report.lost +
            1 }
        ensures counts { CountsSends tally.old.report tally.new.report (W.went wire.old) (W.went wire.new) (W.sent wire.old)
            (W.sent wire.new) }
        ensures watch { tally.new.watch ≡ tally.old.watch }
        ensures steps { pass.old.credit.steps + tally.new.report.received + tally.old.report.refused ≤ pass.new.credit.steps +
            tally.new.report.refused + tally.old.report.received }
        ensures handed { GivesAll (V.given tally.old.watch.now) pass.old pass.new }
        ensures turn { MakesAndReports (V.observed tally.old.watch.now) turn.now.intake turn.now.exchange.now self.old.peers
            turn.now.all (record { stage = turn.now.stage; now = turn.now.time; challenge = turn.now.challenge.now })
            inbox.old.datagram
            inbox.new.datagram
            tally.old.report.received tally.new.report.received pass.old pass.new
            (record { came = W.came wire.old; went = W.went wire.old })
            (record { came = W.came wire.new; went = W.went wire.new }) }
        ensures later { IsLater pass.old pass.new }
        ensures place { self.new.place ≡ self.old.place }
        ensures peers { self.new.peers ≡ self.old.peers }
        ensures few { length self.new.peers ≤ 32 }
        ensures turns { RisesBy self.old.turns self.new.turns 1 }
    {
        // No two peers of a plan have one endpoint.
        let _peers = turn.exchange.plan().peer_count();
        self.turns = self.turns.wrapping_add(1);
        tally.begin_turn(turn.time, turn.challenge);
        receive_all(turn, wire, inbox, pass, tally);
        tally.begin_ticks();
        let peers = self.peers.as_slice();
        let has_left_out = tick_due(turn, pass, tally, peers);
        let was_full = empty_due(turn, wire, pass, tally, peers, &mut self.out);
        wake_others(turn, pass, tally.watch, peers, self.place);
        tally.end_turn();
        TurnEnd {
            has_left_out,
            was_full,
        }
    }
}

// Ticks a peer.
fn tick_peer<V: Watch, O: TurnObserver, G: Gate, J: LedgerSet, R: Wait>(
    turn: &Turn<'_, G, J, R>,
    pass: &mut Pass<J>,
    tally: &mut Tally<'_, V, O>,
    peer: PeerId,
)
    requires peer { peer < length turn.now.exchange.now.peers }
    requires room { HasRoom 1 tally.old.report }
    ensures steps { pass.old.credit.steps ≤ pass.new.credit.steps }
    ensures ticked { Ticks turn.now.exchange.now turn.now.time peer pass.old pass.new }
    ensures handed { GivesAll (V.given tally.old.watch.now) pass.old pass.new }
    ensures only { OnlyRetires tally.old.report tally.new.report }
    ensures watch { tally.new.watch ≡ tally.old.watch }
{
    let answer = turn.exchange.tick(turn.rt, pass, peer, turn.time);
    tally.observe_retired(&answer.retired);
}

// Returns whether a turn ticks a peer.
fn is_due<G: Gate, J: LedgerSet, R: Wait>(
    turn: &Turn<'_, G, J, R>,
    pass: &Pass<J>,
    peer: PeerId,
) -> bool
    ensures { result ≡ is_due turn.now.all peer pass.now }
{
    turn.all || pass.is_unticked(peer)
}

// Ticks a peer if it is due. Returns whether it is.
#[tactic(auto, using(crate::proofs::TickLaws::if_ticked, crate::proofs::TickLaws::if_left_out, crate::proofs::HandingLaws::gives_none))]
fn tick_if_due<V: Watch, O: TurnObserver, G: Gate, J: LedgerSet, R: Wait>(
    turn: &Turn<'_, G, J, R>,
    pass: &mut Pass<J>,
    tally: &mut Tally<'_, V, O>,
    peer: PeerId,
) -> bool
    requires peer { peer < length turn.now.exchange.now.peers }
    requires room { HasRoom 1 tally.old.report }
    ensures steps { pass.old.credit.steps ≤ pass.new.credit.steps }
    ensures ticked { TicksIfDue turn.now.exchange.now turn.now.time turn.now.all peer pass.old pass.new }
    ensures handed { GivesAll (V.given tally.old.watch.now) pass.old pass.new }
    ensures only { OnlyRetires tally.old.report tally.new.report }
    ensures watch { tally.new.watch ≡ tally.old.watch }
{
    if !is_due(turn, pass, peer) {
        return false;
    }
    tick_peer(turn, pass, tally, peer);
    true
}

// Ticks each of these peers that is due when its turn in the order comes. So a peer with a leg that the tick of an earlier
// peer hangs up is due too. Returns whether it left out a peer.
fn tick_due<V: Watch, O: TurnObserver, G: Gate, J: LedgerSet, R: Wait>(
    turn: &Turn<'_, G, J, R>,
    pass: &mut Pass<J>,
    tally: &mut Tally<'_, V, O>,
    peers: &[u16],
) -> bool
    requires peers { All (λ peer. peer < length turn.now.exchange.now.peers) peers.now }
    requires room { HasRoom 1 tally.old.report }
    ensures steps { pass.old.credit.steps ≤ pass.new.credit.steps }
    ensures ticked { TicksDue turn.now.exchange.now turn.now.time turn.now.all peers.now pass.old pass.new }
    ensures handed { GivesAll (V.given tally.old.watch.now) pass.old pass.new }
    ensures only { OnlyRetires tally.old.report tally.new.report }
    ensures watch { tally.new.watch ≡ tally.old.watch }
{
    let mut has_left_out = false;
    for &peer in peers {
        let is_ticked = tick_if_due(turn, pass, tally, PeerId::new(peer));
        has_left_out |= !is_ticked;
    }
    has_left_out
}

// Sends the datagrams in the outboxes of these peers, or of those that are due. Returns whether one gave as many as a turn
// takes.
fn empty_due<W: Wire, V: Watch, O: TurnObserver, G: Gate, J: LedgerSet, R: Wait>(
    turn: &Turn<'_, G, J, R>,
    wire: &mut W,
    pass: &mut Pass<J>,
    tally: &mut Tally<'_, V, O>,
    peers: &[u16],
    out: &mut Out,
) -> bool
    requires few { length peers.now ≤ 32 }
    requires peers { All (λ peer. peer < length turn.now.exchange.now.peers) peers.now }
    requires wire { AreEndpoints turn.now.exchange.now peers.now (W.peers wire.old) }
    requires apart { AllPairs (λ one other. one ≢ other) (W.peers wire.old) }
    requires room { HasRoom 9000 tally.old.report }
    ensures given { RiseAlike (W.given wire.old) (W.given wire.new) (tally.old.report.sent + tally.old.report.lost)
        (tally.new.report.sent + tally.new.report.lost) }
    ensures faults { RiseAlike (W.failures wire.old) (W.failures wire.new) tally.old.report.faults tally.new.report.faults }
    ensures wire { W.peers wire.new ≡ W.peers wire.old }
    ensures emptied { tally.new.report.sent + tally.new.report.lost ≤ tally.old.report.sent + tally.old.report.lost +
        256 * length peers.now }
    ensures each { (to : Endpoint) → RisesByAtMost 256 (W.given_to wire.old to) (W.given_to wire.new to) }
    ensures some_lost { tally.new.report.faults + tally.old.report.lost ≤ tally.old.report.faults + tally.new.report.lost }
    ensures received { tally.new.report.received ≡ tally.old.report.received }
    ensures refused { tally.new.report.refused ≡ tally.old.report.refused }
    ensures watch { tally.new.watch ≡ tally.old.watch }
    ensures came { W.came wire.new ≡ W.came wire.old }
    ensures counts { CountsSends tally.old.report tally.new.report (W.went wire.old) (W.went wire.new) (W.sent wire.old)
        (W.sent wire.new) }
    ensures empties { EmptiesDue turn.now.exchange.now turn.now.all peers.now pass.old pass.new (W.went wire.old)
        (W.went wire.new) }
{
    let mut was_full = false;
    for &peer in peers {
        let peer = PeerId::new(peer);
        let to = turn.exchange.plan().endpoint(peer);
        let is_full = send_if_due(turn, wire, pass, tally, peer, to, out);
        was_full |= is_full;
    }
    was_full
}
