//! Receives datagrams.
ghost use Rattle.std.specs.Prelude.{◌≡◌, ◌≢◌, ◌+◌, ◌<◌, ◌≤◌, ◌⊎◌, All, IfNone, IfSome, Some};
ghost use Rattle.std.specs.Prelude.{length, option_map, slice_get};
ghost use Rattle.exchange_core.specs.Traces.{IsHeard, moment};
ghost use Rattle.peer_plan.specs.declared.endpoint.Endpoint.{Endpoint};
ghost use Rattle.udp_wires.specs.Counts.{RiseAlike};
ghost use Rattle.udp_workers.specs.Draining.{IsTurnedAway};
ghost use Rattle.udp_workers.specs.Events.{HasRoom};
ghost use Rattle.udp_workers.specs.Handed.{GivesAll};
ghost use Rattle.udp_workers.specs.Intake.{waiting};
ghost use Rattle.udp_workers.specs.Receipts.{Reports};
ghost use Rattle.udp_workers.specs.Runs.{TakesAndReports};
ghost use Rattle.udp_workers.specs.Ticked.{IsLater};

use crate::draining::is_turned_away;
use crate::inbox::Inbox;
use crate::intake::loaded;
use crate::sign_of_life::is_sign_of_life;
use crate::tally::Tally;
use crate::turn_observer::TurnObserver;
use crate::turning::Turn;
use call_book::PeerId;
use exchange_core::{Event, Gate, Pass, Watch};
use peer_lock::LedgerSet;
use peer_plan::Endpoint;
use std::sync::Wait;
use udp_wires::Wire;

// The greatest number of datagrams that one turn receives.
const DATAGRAMS: u64 = 64;

// Handles a received datagram from this endpoint, which is this peer's. A stranger's is refused, and so is a NEW while the
// service drains. Any other is given to the exchange.
fn take_arrival<V: Watch, O: TurnObserver, G: Gate, J: LedgerSet, R: Wait>(
    turn: &Turn<'_, G, J, R>,
    pass: &mut Pass<J>,
    tally: &mut Tally<'_, V, O>,
    peer: Option<PeerId>,
    from: Endpoint,
    octets: &[u8],
)
    requires room { HasRoom 3 tally.old.report }
    requires found { IfSome peer (λ peer. option_map (λ peer. peer.endpoint) (slice_get turn.now.exchange.now.peers peer) ≡
        Some from) }
    requires none { IfNone peer (All (λ peer. peer.endpoint ≢ from) turn.now.exchange.now.peers) }
    requires place { IfSome peer (λ peer. peer < length turn.now.exchange.now.peers) }
    ensures received { tally.new.report.received ≡ tally.old.report.received + 1 }
    ensures refused { tally.new.report.refused ≤ tally.old.report.refused + 1 }
    ensures more { tally.old.report.refused ≤ tally.new.report.refused }
    ensures sent { tally.new.report.sent ≡ tally.old.report.sent }
    ensures lost { tally.new.report.lost ≡ tally.old.report.lost }
    ensures faults { tally.new.report.faults ≡ tally.old.report.faults }
    ensures watch { tally.new.watch ≡ tally.old.watch }
    // What is reported of it, of the peer with the endpoint from which it came.
    ensures observed { Reports (V.observed tally.old.watch.now) turn.now.exchange.now turn.now.stage turn.now.time
        (record { endpoint = from; octets = octets.now }) pass.old pass.new }
    // Unless it is refused, it makes a step.
    ensures steps { pass.old.credit.steps + 1 + tally.old.report.refused ≤ pass.new.credit.steps + tally.new.report.refused }
    ensures later { IsLater pass.old pass.new }
    ensures handed { GivesAll (V.given tally.old.watch.now) pass.old pass.new }
    // A datagram that makes a step isn't refused.
    ensures taken { pass.old.credit.steps + 1 ≤ pass.new.credit.steps → tally.new.report.refused ≡ tally.old.report.refused }
    // A datagram that is turned away is refused and makes no step. Any other is given to the exchange.
    ensures away { IsTurnedAway turn.now.stage octets.now →
        (pass.new ≡ pass.old) × (tally.new.report.refused ≡ tally.old.report.refused + 1) }
    ensures heard { IsTurnedAway turn.now.stage octets.now ⊎
        IsHeard turn.now.exchange.now from (record (moment turn.now.exchange.now turn.now.time) {
          octets = octets.now;
          challenge = Some turn.now.challenge.now;
        }) pass.old pass.new }
{
    let Some(peer) = peer else {
        tally.observe(Event::Stranger { from });
        return;
    };
    if is_turned_away(turn.stage, octets) {
        // A NEW is a full frame of type IAX.
        tally.observe(Event::Received {
            peer,
            now: turn.time,
            is_alive: true,
        });
        tally.observe(Event::TurnedAway { peer });
        return;
    }
    let answer = turn
        .exchange
        .datagram_of(turn.rt, pass, peer, octets, turn.time, turn.challenge);
    tally.observe(Event::Received {
        peer,
        now: turn.time,
        is_alive: is_sign_of_life(answer.refused.is_some(), octets),
    });
    tally.observe_outcome(peer, &answer);
    tally.observe_retired(&answer.retired);
}

// Handles the datagram that was left to this turn. Then receives and handles others until none is available, a call of the
// wire fails, 64 came, or one doesn't fit any more. That one is left to the next turn.
pub(crate) fn receive_all<W: Wire, V: Watch, O: TurnObserver, G: Gate, J: LedgerSet, R: Wait>(
    turn: &Turn<'_, G, J, R>,
    wire: &mut W,
    inbox: &mut Inbox,
    pass: &mut Pass<J>,
    tally: &mut Tally<'_, V, O>,
)
    requires room { HasRoom 66 tally.old.report }
    ensures went { W.went wire.new ≡ W.went wire.old }
    ensures wire_sent { W.sent wire.new ≡ W.sent wire.old }
    ensures given { W.given wire.new ≡ W.given wire.old }
    ensures given_to { (to : Endpoint) → W.given_to wire.new to ≡ W.given_to wire.old to }
    ensures failures { RiseAlike (W.failures wire.old) (W.failures wire.new) tally.old.report.faults tally.new.report.faults }
    ensures peers { W.peers wire.new ≡ W.peers wire.old }
    ensures received { tally.new.report.received ≤ tally.old.report.received + 64 }
    ensures refused { tally.new.report.refused + tally.old.report.received ≤ tally.old.report.refused +
        tally.new.report.received }
    ensures sent { tally.new.report.sent ≡ tally.old.report.sent }
    ensures lost { tally.new.report.lost ≡ tally.old.report.lost }
    ensures one_fault { tally.new.report.faults ≤ tally.old.report.faults + 1 }
    ensures watch { tally.new.watch ≡ tally.old.watch }
    ensures steps { pass.old.credit.steps + tally.new.report.received + tally.old.report.refused ≤ pass.new.credit.steps +
        tally.new.report.refused + tally.old.report.received }
    ensures later { IsLater pass.old pass.new }
    ensures handed { GivesAll (V.given tally.old.watch.now) pass.old pass.new }
    ensures takes { TakesAndReports (V.observed tally.old.watch.now) turn.now.intake turn.now.exchange.now
        (record { stage = turn.now.stage; now = turn.now.time; challenge = turn.now.challenge.now }) inbox.old.datagram
        inbox.new.datagram
        tally.old.report.received tally.new.report.received pass.old pass.new (W.came wire.old) (W.came wire.new) }
    // A received datagram was handled, or is left.
    ensures none_lost { RiseAlike inbox.old.given inbox.new.given (tally.old.report.received + waiting inbox.old.datagram)
        (tally.new.report.received + waiting inbox.new.datagram) }
{
    let mut taken = None;
    for _ in 0..DATAGRAMS {
        if inbox.fill(wire).is_err() {
            tally.observe(Event::Fault);
            return;
        }
        let Some((from, octets)) = inbox.datagram() else {
            return;
        };
        let Some(load) = loaded(turn.intake, taken, octets) else {
            return;
        };
        taken = Some(load);
        let peer = turn.exchange.plan().peer_at(from);
        // A copy, as in `Tally::observe`.
        let noted = peer;
        tally.take(noted, from, octets);
        take_arrival(turn, pass, tally, peer, from, octets);
        inbox.clear();
    }
}
