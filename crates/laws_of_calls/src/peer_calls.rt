//! The calls of a peer, as steps of the stored exchange. Each function makes one call and nothing else, so that its clauses
//! describe that call. Moments are in milliseconds.
ghost use Rattle.std.specs.Prelude.{◌≡◌, ◌≤◌, [], ◌∷◌, length};
ghost use Rattle.call_signals.specs.Order.{media_of};
ghost use Rattle.call_control.specs.declared.need.Need.TheVariants as needs;
ghost use Rattle.leg_machine.specs.OrderTable.{IsShortMedia};
ghost use Rattle.leg_machine.specs.Seen.{kind_of};
ghost use Rattle.peer_accounts.specs.HandedUp.{IsNothing};
ghost use Rattle.peer_lock.specs.Openings.{IsOpening};
ghost use Rattle.laws_of_calls.specs.PeerCalls.{ReceivesDatagram, ReceivesNewWithoutNumber, ReceivesNew, Calls, GoesOn, Retires};
ghost use Rattle.laws_of_calls.specs.PeerCalls.{leases_in};
ghost use Rattle.laws_of_calls.specs.StoredSteps.{TakesOrder, leases_after};

use call_auth::Challenge;
use call_book::{Lease, LegName};
use call_control::{Reply, StepReply};
use iax_frames::Full;
use leg_machine::{Caller, Command, Format, MediaSpan, Order};
use peer_lock::{LedgerSet, Onwards, Pass, PeerState};

/// Gives a datagram of at most 2,048 octets to a peer. The signals handed up are written to the empty list. The answer has
/// the refusals of `PeerState::datagram`.
pub fn receive_datagram<J: LedgerSet>(
    peer: &mut PeerState<J>,
    pass: &mut Pass<J>,
    octets: &[u8],
    now: u64,
    mut onwards: Onwards,
) -> Reply
    requires { IsNothing onwards }
    ensures { ReceivesDatagram peer.old peer.new result }
{
    match peer.datagram(pass, octets, now, &mut onwards) {
        Ok(step) => Reply::Datagram(Ok(StepReply {
            touched: step.touched,
            rejected: step.rejected,
            onwards,
        })),
        Err(error) => Reply::Datagram(Err(error)),
    }
}

/// Rejects a received NEW at a peer because no number is free for its leg. It is a NEW that a datagram's call answers by
/// `NeedsNumber`. The answer has the refusals of `PeerState::reject_new`.
pub fn receive_new_without_number<J: LedgerSet>(
    peer: &mut PeerState<J>,
    pass: &mut Pass<J>,
    frame: &Full,
) -> Reply
    requires { IsOpening frame.now }
    ensures { ReceivesNewWithoutNumber peer.old peer.new result }
{
    match peer.reject_new(pass, frame) {
        Ok(_) => Reply::RejectNew(Ok(())),
        Err(error) => Reply::RejectNew(Err(error)),
    }
}

/// Opens a leg of a peer by a received NEW, under the lease, which comes back if no leg is opened. It is a NEW that a
/// datagram's call answers by `NeedsNumber`. The answer has the refusals of `PeerState::open_in`.
pub fn receive_new<J: LedgerSet>(
    peer: &mut PeerState<J>,
    pass: &mut Pass<J>,
    lease: Lease,
    frame: &Full,
    now: u64,
    challenge: &Challenge,
    mut onwards: Onwards,
) -> (Reply, Option<Lease>)
    requires opening { IsOpening frame.now }
    requires nothing { IsNothing onwards }
    ensures made { ReceivesNew lease peer.old peer.new result.0 }
    ensures leases { leases_in result.1 ≡ leases_after (needs.OpenIn lease) result.0 (lease ∷ []) }
{
    match peer.open_in(pass, lease, frame, now, challenge, &mut onwards) {
        Ok(step) => {
            let heard = StepReply {
                touched: step.touched,
                rejected: step.rejected,
                onwards,
            };
            (Reply::OpenIn(Ok(heard)), None)
        }
        Err((lease, error)) => (Reply::OpenIn(Err(error)), Some(lease)),
    }
}

/// Places a call at a peer under the lease, for a number of at most 255 octets. The lease comes back if no call is placed.
/// The answer has the refusals of `PeerState::open_out`.
pub fn call<J: LedgerSet>(
    peer: &mut PeerState<J>,
    pass: &mut Pass<J>,
    lease: Lease,
    called: &[u8],
    caller: &Caller,
    format: Format,
    now: u64,
) -> (Reply, Option<Lease>)
    requires { length called.now ≤ 255 }
    ensures made { Calls lease peer.old peer.new result.0 }
    ensures leases { leases_in result.1 ≡ leases_after (needs.OpenOut lease) result.0 (lease ∷ []) }
{
    match peer.open_out(pass, lease, called, caller, format, now) {
        Ok(_) => (Reply::OpenOut(Ok(())), None),
        Err((lease, error)) => (Reply::OpenOut(Err(error)), Some(lease)),
    }
}

/// Gives the order of a command to the leg of a name. Media is 1 to 1,380 octets, for which the pass has the credit. The
/// answer has the refusals of `PeerState::order`. Only the contract uses the command.
pub fn order<J: LedgerSet>(
    peer: &mut PeerState<J>,
    pass: &mut Pass<J>,
    name: LegName,
    _command: Command<MediaSpan>,
    order: &Order,
    now: u64,
) -> Reply
    requires kind { kind_of order.now ≡ kind_of _command }
    requires media { IsShortMedia order.now }
    requires credit { length (media_of order.now) ≤ pass.old.octets }
    ensures { TakesOrder name _command peer.old peer.new result }
{
    match peer.order(pass, name, order, now) {
        Ok(_) => Reply::Order(Ok(())),
        Err(error) => Reply::Order(Err(error)),
    }
}

/// Ticks a peer. The answer says whether no leg has ended and none owes, or that the peer's steps are spent.
pub fn tick<J: LedgerSet>(peer: &mut PeerState<J>, pass: &mut Pass<J>, now: u64) -> Reply
    ensures { GoesOn peer.old peer.new result }
{
    match peer.tick(pass, now) {
        Ok(report) => Reply::Tick(Ok(report.is_quiet)),
        Err(spent) => Reply::Tick(Err(spent)),
    }
}

/// Takes out the leg of a name, if it has ended and owes nothing, and returns its lease. The answer says whether it was
/// taken out.
pub fn retire<J: LedgerSet>(peer: &mut PeerState<J>, name: LegName) -> (Reply, Option<Lease>)
    ensures made { Retires name peer.old peer.new result.0 }
    ensures leases { leases_in result.1 ≡ leases_after (needs.Retire name) result.0 [] }
{
    let Some((lease, _leg)) = peer.retire(name) else {
        return (Reply::Retire(false), None);
    };
    (Reply::Retire(true), Some(lease))
}
