//! Sends frames.
ghost use Rattle.std.specs.Prelude.{◌≡◌, ◌≢◌, ◌+◌, ◌<◌, ◌≤◌, ◌⊎◌, [], ◌∷◌, ◌++◌, Contains, length};
ghost use Rattle.iax_frames.specs.Datagram.{IsFrame};
ghost use Rattle.peer_plan.specs.declared.endpoint.Endpoint.{Endpoint};
ghost use Rattle.udp_wires.specs.Counts.{RiseAlike, RisesBy};
ghost use Rattle.udp_workers.specs.Emptied.{Empties, EmptiesIfDue};
ghost use Rattle.udp_workers.specs.Events.{CountsSends, HasRoom};
ghost use Rattle.exchange_core.specs.declared.watch.Event.TheVariants as events;

use crate::tally::Tally;
use crate::turn_observer::TurnObserver;
use crate::turning::Turn;
use call_book::PeerId;
use exchange_core::{Event, Gate, Pass, Watch};
use iax_frames::Out;
use peer_lock::LedgerSet;
use peer_plan::Endpoint;
use std::sync::Wait;
use udp_wires::Wire;

// The greatest number of frames that one turn takes from one outbox: all that it can hold.
const FRAMES: u64 = 256;

// Sends a frame to the endpoint of a peer. A frame that the wire doesn't take is lost.
fn send_frame<W: Wire, V: Watch, O: TurnObserver>(
    wire: &mut W,
    tally: &mut Tally<'_, V, O>,
    peer: PeerId,
    to: Endpoint,
    octets: &[u8],
)
    requires frame { IsFrame octets.now }
    requires peer { Contains (W.peers wire.old) to }
    requires room { HasRoom 2 tally.old.report }
    ensures came { W.came wire.new ≡ W.came wire.old }
    ensures counts { CountsSends tally.old.report tally.new.report (W.went wire.old) (W.went wire.new) (W.sent wire.old)
        (W.sent wire.new) }
    ensures went { W.went wire.new ≡ W.went wire.old ++ record { endpoint = to; octets = octets.now } ∷ [] }
    ensures given { RisesBy (W.given wire.old) (W.given wire.new) 1 }
    ensures to { RisesBy (W.given_to wire.old to) (W.given_to wire.new to) 1 }
    ensures others { (other : Endpoint) → other ≢ to → W.given_to wire.new other ≡ W.given_to wire.old other }
    ensures failures { RiseAlike (W.failures wire.old) (W.failures wire.new) tally.old.report.faults tally.new.report.faults }
    ensures peers { W.peers wire.new ≡ W.peers wire.old }
    ensures one { tally.new.report.sent + tally.new.report.lost ≡ tally.old.report.sent + tally.old.report.lost + 1 }
    ensures some_lost { tally.new.report.faults + tally.old.report.lost ≤ tally.old.report.faults + tally.new.report.lost }
    ensures few_faults { tally.new.report.faults ≤ tally.old.report.faults + 1 }
    ensures more_lost { tally.old.report.lost ≤ tally.new.report.lost }
    ensures received { tally.new.report.received ≡ tally.old.report.received }
    ensures refused { tally.new.report.refused ≡ tally.old.report.refused }
    ensures watch { tally.new.watch ≡ tally.old.watch }
    ensures observed { V.observed tally.old.watch.now (events.Sent peer) ⊎ V.observed tally.old.watch.now (events.Lost peer) }
{
    match wire.send(to, octets) {
        Ok(true) => tally.observe(Event::Sent { peer }),
        Ok(false) => tally.observe(Event::Lost { peer }),
        Err(_) => {
            tally.observe(Event::Lost { peer });
            tally.observe(Event::Fault);
        }
    }
}

// Takes up to 256 frames from the outbox of a peer, one after another into the lent buffer, and sends each to the peer's
// endpoint. A frame that the wire doesn't take is lost. Returns whether it took 256.
fn send_all<W: Wire, V: Watch, O: TurnObserver, G: Gate, J: LedgerSet, R: Wait>(
    turn: &Turn<'_, G, J, R>,
    wire: &mut W,
    pass: &mut Pass<J>,
    tally: &mut Tally<'_, V, O>,
    peer: PeerId,
    to: Endpoint,
    out: &mut Out,
) -> bool
    requires peer { peer < length turn.now.exchange.now.peers }
    requires to { Contains (W.peers wire.old) to }
    requires room { HasRoom 257 tally.old.report }
    ensures came { W.came wire.new ≡ W.came wire.old }
    ensures counts { CountsSends tally.old.report tally.new.report (W.went wire.old) (W.went wire.new) (W.sent wire.old)
        (W.sent wire.new) }
    ensures given { RiseAlike (W.given wire.old) (W.given wire.new) (tally.old.report.sent + tally.old.report.lost)
        (tally.new.report.sent + tally.new.report.lost) }
    ensures to { RiseAlike (W.given_to wire.old to) (W.given_to wire.new to) (tally.old.report.sent + tally.old.report.lost)
        (tally.new.report.sent + tally.new.report.lost) }
    ensures others { (other : Endpoint) → other ≢ to → W.given_to wire.new other ≡ W.given_to wire.old other }
    ensures failures { RiseAlike (W.failures wire.old) (W.failures wire.new) tally.old.report.faults tally.new.report.faults }
    ensures peers { W.peers wire.new ≡ W.peers wire.old }
    ensures more { tally.old.report.sent + tally.old.report.lost ≤ tally.new.report.sent + tally.new.report.lost }
    ensures emptied { tally.new.report.sent + tally.new.report.lost ≤ tally.old.report.sent + tally.old.report.lost + 256 }
    ensures some_lost { tally.new.report.faults + tally.old.report.lost ≤ tally.old.report.faults + tally.new.report.lost }
    ensures few_faults { tally.new.report.faults ≤ tally.old.report.faults + 256 }
    ensures received { tally.new.report.received ≡ tally.old.report.received }
    ensures refused { tally.new.report.refused ≡ tally.old.report.refused }
    ensures watch { tally.new.watch ≡ tally.old.watch }
    ensures empties { Empties peer to pass.old pass.new (W.went wire.old) (W.went wire.new) }
{
    for _ in 0..FRAMES {
        if !turn.exchange.take_into(turn.rt, pass, peer, out) {
            return false;
        }
        send_frame(wire, tally, peer, to, out.octets());
    }
    true
}

// Sends as above if the turn empties all outboxes, or if the peer had a step or a tick since the last send. Returns whether
// the outbox gave as many frames as a turn takes.
pub(crate) fn send_if_due<W: Wire, V: Watch, O: TurnObserver, G: Gate, J: LedgerSet, R: Wait>(
    turn: &Turn<'_, G, J, R>,
    wire: &mut W,
    pass: &mut Pass<J>,
    tally: &mut Tally<'_, V, O>,
    peer: PeerId,
    to: Endpoint,
    out: &mut Out,
) -> bool
    requires peer { peer < length turn.now.exchange.now.peers }
    requires to { Contains (W.peers wire.old) to }
    requires room { HasRoom 257 tally.old.report }
    ensures came { W.came wire.new ≡ W.came wire.old }
    ensures counts { CountsSends tally.old.report tally.new.report (W.went wire.old) (W.went wire.new) (W.sent wire.old)
        (W.sent wire.new) }
    ensures given { RiseAlike (W.given wire.old) (W.given wire.new) (tally.old.report.sent + tally.old.report.lost)
        (tally.new.report.sent + tally.new.report.lost) }
    ensures to { RiseAlike (W.given_to wire.old to) (W.given_to wire.new to) (tally.old.report.sent + tally.old.report.lost)
        (tally.new.report.sent + tally.new.report.lost) }
    ensures others { (other : Endpoint) → other ≢ to → W.given_to wire.new other ≡ W.given_to wire.old other }
    ensures failures { RiseAlike (W.failures wire.old) (W.failures wire.new) tally.old.report.faults tally.new.report.faults }
    ensures peers { W.peers wire.new ≡ W.peers wire.old }
    ensures more { tally.old.report.sent + tally.old.report.lost ≤ tally.new.report.sent + tally.new.report.lost }
    ensures emptied { tally.new.report.sent + tally.new.report.lost ≤ tally.old.report.sent + tally.old.report.lost + 256 }
    ensures some_lost { tally.new.report.faults + tally.old.report.lost ≤ tally.old.report.faults + tally.new.report.lost }
    ensures few_faults { tally.new.report.faults ≤ tally.old.report.faults + 256 }
    ensures received { tally.new.report.received ≡ tally.old.report.received }
    ensures refused { tally.new.report.refused ≡ tally.old.report.refused }
    ensures watch { tally.new.watch ≡ tally.old.watch }
    ensures empties { EmptiesIfDue turn.now.all peer to pass.old pass.new (W.went wire.old) (W.went wire.new) }
{
    let is_due = pass.take_unasked(peer);
    if !turn.all && !is_due {
        return false;
    }
    send_all(turn, wire, pass, tally, peer, to, out)
}
