//! Runs the workers of a plan between real peers, for a number of turns.
ghost use Rattle.std.specs.Prelude.{◌≡◌, ◌+◌, ◌≤◌, IfOk, IsOk, OnOk, length, vec_len};
ghost use Rattle.peer_plan.specs.Reading.{plan_of};
ghost use Rattle.worker_setup.specs.Reports.{HasServed};

use exchange_core::{Exchange, NoGate, Pass};
use media_ledger::Blank;
use peer_lock::{LedgerSet, Service};
use peer_plan::Plan;
use std::alloc::Global;
use std::io::Write;
use std::marker::Brand;
use std::net::Net;
use std::random::RandomSource;
use std::sync::Wait;
use std::sync::ledger::Ledger;
use std::thread::Threads;
use std::time::{Clock, Instant};
use udp_workers::{PlanBrand, TurnReport, run_all};
use worker_setup::{
    PlainSockets, SeatContext, ServiceError, reports_of, seats_of, status_of, with_drawn_key,
    write_served,
};

// The values from which the exchange is opened, and the moment of the opening.
#[derive(Drop)]
struct Opening {
    plan: Plan,
    octets: Blank,
    steps: Blank,
    opened: Instant,
}

// Returns the opening of an exchange of this plan, with a key for its call tokens if a peer needs them.
fn opening_of<R: Clock + RandomSource>(rt: &R, plan: Plan) -> Result<Opening, ServiceError>
    ensures workers { IfOk result (λ opening. opening.plan.workers ≡ plan.workers) }
    ensures octets { IfOk result (λ opening. opening.octets.parts ≡ length opening.plan.peers + opening.plan.passes) }
    ensures steps { IfOk result (λ opening. opening.steps.parts ≡ length opening.plan.peers + opening.plan.passes) }
{
    let Ok(opened) = Instant::now(rt) else {
        return Err(ServiceError::Clock);
    };
    let plan = match with_drawn_key(rt, plan) {
        Ok(plan) => plan,
        Err(error) => return Err(error),
    };
    let parts = u64::from(plan.peer_count()) + u64::from(plan.passes());
    Ok(Opening {
        plan,
        octets: Blank::new(parts),
        steps: Blank::new(parts),
        opened,
    })
}

// Binds the workers' sockets, and makes the turns of all workers. Their passes are added back to `passes`.
fn serve_with_sockets<
    't,
    J: LedgerSet,
    P: PlanBrand + Send + Sync,
    R: Clock + Net + RandomSource + Threads + Wait + Sync,
>(
    rt: &'t R,
    alloc: Global,
    exchange: &'t Exchange<NoGate, J>,
    passes: &mut Vec<Pass<J>>,
    turns: u32,
    opened: Instant,
) -> Result<Vec<TurnReport>, ServiceError>
    requires plan { exchange.now ≡ P.plan }
    requires enough { length exchange.now.workers ≤ vec_len passes.old }
    ensures { IfOk result (λ reports. vec_len reports ≡ length exchange.now.workers) }
{
    let context = SeatContext {
        rt,
        alloc,
        plan: exchange.plan(),
        opened,
        trace: None,
    };
    let seats = seats_of::<J, P, R, PlainSockets>(&context, &PlainSockets, passes);
    let mut seats = match seats {
        Ok(seats) => seats,
        Err(error) => return Err(error),
    };
    let ran = run_all(rt, exchange, &mut seats, turns);
    let reports = reports_of(alloc, seats, passes);
    match ran {
        Ok(()) => reports,
        Err(error) => Err(ServiceError::from(error)),
    }
}

// Opens an exchange, with the ledgers and the plan that the caller names, and makes the turns on it. Then writes the workers'
// reports, and its accounts.
fn serve_with_exchange<
    O: Ledger + Send + Sync,
    S: Ledger + Send + Sync,
    P: PlanBrand + Send + Sync,
    R: Clock + Net + RandomSource + Threads + Wait + Sync,
    W: Write,
>(rt: &R, alloc: Global, opening: Opening, turns: u32, writer: &mut W) -> Result<(), ServiceError>
    requires plan { opening.plan ≡ P.plan }
    requires octets { (opening.octets.name ≡ O.name) × (opening.octets.parts ≡ O.parts) ×
        (opening.octets.parts ≡ length opening.plan.peers + opening.plan.passes) }
    requires steps { (opening.steps.name ≡ S.name) × (opening.steps.parts ≡ S.parts) ×
        (opening.steps.parts ≡ length opening.plan.peers + opening.plan.passes) }
    ensures { OnOk result (HasServed (length opening.plan.workers) (W.contents writer.old) (W.contents writer.new)) }
{
    let Opening {
        plan,
        octets,
        steps,
        opened,
    } = opening;
    let _passes = plan.passes();
    let exchange = Exchange::<NoGate, Service<O, S>>::open(alloc, plan, NoGate, octets, steps);
    let Ok((exchange, mut passes)) = exchange else {
        return Err(ServiceError::Memory);
    };
    let reports = serve_with_sockets::<_, P, R>(rt, alloc, &exchange, &mut passes, turns, opened);
    write_served(reports, exchange, passes, writer)
}

/// Makes `turns` turns of each worker of a plan, each on a separate thread with a separate UDP socket. Then writes `worker
/// <place> <received> <sent> <lost> <faults>` for each worker, and the accounts. Returns the status: 0, or 1 after a
/// refusal.
///
/// `plan` is the content of the plan's file; a refused plan is printed as `check` prints it. `refused Bind`: a socket can't
/// be bound. `refused NoThread`: a thread was refused. `refused Memory`: a request for memory was refused. `refused Clock`:
/// the clock can't be read. `refused Entropy`: the system gives no random octets.
pub fn serve<R: Clock + Net + RandomSource + Threads + Wait + Sync, W: Write>(
    rt: &R,
    alloc: Global,
    plan: &[u8],
    turns: u32,
    writer: &mut W,
) -> u8
    ensures status { result ≤ 1 }
    ensures valid { result ≡ 0 → IsOk (plan_of plan.now) }
    ensures lines { result ≡ 0 → IfOk (plan_of plan.now)
        (λ plan. HasServed (length plan.workers) (W.contents writer.old) (W.contents writer.new)) }
{
    match Plan::read(alloc, plan) {
        Ok(plan) => {
            let served = match opening_of(rt, plan) {
                Ok(opening) => serve_with_exchange::<Brand, Brand, Brand, R, W>(
                    rt, alloc, opening, turns, writer,
                ),
                Err(error) => Err(error),
            };
            status_of(served, writer)
        }
        Err(fault) => {
            let _ = writeln!(writer, "refused {fault}");
            1
        }
    }
}
