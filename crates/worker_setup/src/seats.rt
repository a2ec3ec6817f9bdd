//! The seats of the workers of a plan.
ghost use Rattle.std.specs.Prelude.{◌≡◌, ◌+◌, ◌<◌, ◌≤◌, IfOk, OnOk, length, vec_capacity, vec_len};
ghost use Rattle.udp_wires.specs.MioWire as wires;
ghost use Rattle.udp_workers.specs.Served.{AreEndpoints, peers_of};

use crate::clock::SinceOpening;
use crate::digits::Digits;
use crate::seat_context::SeatContext;
use crate::service_error::ServiceError;
use crate::sockets::{Sockets, wire_of};
use crate::traced_turns::{TracedTurns, lane_of};
use exchange_core::Pass;
use peer_lock::LedgerSet;
use peer_plan::WorkerId;
use rand::make_rng;
use std::net::Net;
use std::random::RandomSource;
use std::sync::Wait;
use std::time::Clock;
use udp_workers::{MioWire, PlanBrand, Seat, Worker};

/// A worker over a UDP socket of the system, by its clock, with challenges of random digits. Its turns are noted if there is a
/// trace.
pub type ServiceSeat<'t, R, J, P> = Seat<
    MioWire,
    SinceOpening<'t, R>,
    Digits,
    TracedTurns<'t, R>,
    J,
    P,
>;

// Opens a worker's resources: its wire, which is its own socket, the source of its challenges, and the observer of its
// turns, which has its lane of the trace.
fn tools_of<'t, R: Net + RandomSource + Wait, S: Sockets>(
    context: &SeatContext<'t, R>,
    sockets: &S,
    worker: &Worker,
    place: WorkerId,
) -> Result<(MioWire, Digits, TracedTurns<'t, R>), ServiceError>
    requires place { place < length context.now.plan.now.workers }
    requires peers { worker.now.peers ≡ peers_of context.now.plan.now worker.now.place }
    ensures { IfOk result (λ tools. AreEndpoints context.now.plan.now worker.now.peers (wires.peers_of tools.0)) }
{
    let SeatContext {
        rt,
        alloc,
        plan,
        trace,
        ..
    } = *context;
    let lane = lane_of(alloc, trace, place.index())?;
    let wire = wire_of(context, sockets, worker, place)?;
    let Ok(generator) = make_rng(rt) else {
        return Err(ServiceError::Entropy);
    };
    let digits = Digits {
        generator,
        prefix: match plan.challenge_prefix() {
            Some(prefix) => Some(prefix.copied()),
            None => None,
        },
    };
    Ok((wire, digits, TracedTurns { rt, lane }))
}

// Adds the seat of the worker at a place of the plan behind the others, with its own socket. The worker takes the next pass
// once its resources are open.
fn push_seat<'t, J: LedgerSet, P: PlanBrand, R: Clock + Net + RandomSource + Wait, S: Sockets>(
    context: &SeatContext<'t, R>,
    sockets: &S,
    place: WorkerId,
    passes: &mut Vec<Pass<J>>,
    seats: &mut Vec<ServiceSeat<'t, R, J, P>>,
) -> Result<(), ServiceError>
    requires plan { context.now.plan.now ≡ P.plan }
    requires place { place < length context.now.plan.now.workers }
    requires pass { 1 ≤ vec_len passes.old }
    requires room { vec_len seats.old < vec_capacity seats.old }
    ensures room { vec_capacity seats.new ≡ vec_capacity seats.old }
    ensures one { OnOk result (vec_len seats.new ≡ vec_len seats.old + 1) }
    ensures taken { OnOk result (vec_len passes.new + 1 ≡ vec_len passes.old) }
{
    let worker = Worker::new(context.plan, place);
    let (wire, digits, observer) = tools_of(context, sockets, &worker, place)?;
    let moments = SinceOpening {
        rt: context.rt,
        opened: context.opened,
        last: 0,
    };
    let pass = passes.remove(0);
    seats.push_reserved(Seat::new(worker, wire, pass, moments, digits, observer));
    Ok(())
}

/// Returns the seats of all workers of the plan, in its order, at most 8. Each has a lane of the trace if there is one. The
/// first worker takes the first pass, and so on.
///
/// Errors come in the order of the workers; then the passes of the earlier workers are gone. `Memory`: a request for memory
/// was refused. `Bind`: a socket isn't bound. `Entropy`: the system gives no random octets.
pub fn seats_of<'t, J: LedgerSet, P: PlanBrand, R: Clock + Net + RandomSource + Wait, S: Sockets>(
    context: &SeatContext<'t, R>,
    sockets: &S,
    passes: &mut Vec<Pass<J>>,
) -> Result<Vec<ServiceSeat<'t, R, J, P>>, ServiceError>
    requires plan { context.now.plan.now ≡ P.plan }
    requires enough { length context.now.plan.now.workers ≤ vec_len passes.old }
    ensures each { IfOk result (λ seats. vec_len seats ≡ length context.now.plan.now.workers) }
    ensures few { IfOk result (λ seats. vec_len seats ≤ 8) }
    ensures taken { OnOk result (vec_len passes.new + length context.now.plan.now.workers ≡ vec_len passes.old) }
{
    let count = context.plan.workers().len();
    let mut seats = Vec::with_capacity(context.alloc, count)?;
    for place in 0..count {
        let worker = WorkerId::new(place as u16);
        let pushed = push_seat::<J, P, R, S>(context, sockets, worker, passes, &mut seats);
        if let Err(error) = pushed {
            return Err(error);
        }
    }
    Ok(seats)
}
