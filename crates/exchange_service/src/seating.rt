//! The sockets and the threads of a service: the workers of its plan, next to the control socket.
ghost use Rattle.std.specs.Prelude.{◌≡◌, ◌+◌, ◌≤◌, IfOk, OnOk, length, vec_len};

use crate::control::Control;
use crate::journal::Journal;
use crate::open_service::OpenService;
use crate::recording::{Written, write_files_beside};
use crate::running::Settings;
use crate::service_sockets::ServiceSockets;
use crate::start_faults::log_unbound_worker;
use crate::system::{ServiceDisk, ServiceSystem};
use call_files::system_limits::{has_free, user};
use control_server::CLIENTS;
use exchange_core::{NoGate, Pass};
use log::{error, warn};
use peer_lock::LedgerSet;
use peer_plan::Plan;
use service_api::ApiHandler;
use service_log::log_start;
use service_state::{ServiceWatch, count_drops_beside};
use std::marker::PhantomData;
use std::thread;
use udp_workers::{Intake, MOST_TURNS, PlanBrand, TurnReport, WatchedExchange};
use worker_setup::{
    SeatContext, ServiceError, ServiceSeat, lane_of, reports_of, seats_of, skip_numbers,
};

// Returns the greatest number of files that a service opens once its listeners are bound. Each worker has a socket, a waker
// and a poll of both, and each peer a socket. The rest is for the clients of each listener, and for the written files.
fn descriptors_of(plan: &Plan, settings: &Settings<'_>) -> usize {
    let workers = plan.workers().len().saturating_mul(3);
    let mut count = workers.saturating_add(usize::from(plan.peer_count()));
    count = count.saturating_add(8);
    if settings.control.is_some() {
        count = count.saturating_add(CLIENTS);
    }
    if settings.metrics.is_some() {
        count = count.saturating_add(CLIENTS);
    }
    count
}

// Skips numbers of each peer, if the process may open as many files as the service needs.
fn skip_if_free<J: LedgerSet, R: ServiceSystem, D: ServiceDisk>(
    service: &OpenService<'_, R, D, J>,
    pass: &mut Pass<J>,
) -> Result<(), ServiceError> {
    let OpenService {
        context,
        exchange,
        watch,
        ..
    } = *service;
    if !has_free(descriptors_of(exchange.plan(), context.settings)) {
        let log = context.journal();
        error!(log; "more files have to be opened than the process may open");
        return Err(ServiceError::Descriptors);
    }
    skip_numbers(context.rt, exchange, pass, watch.trace())
}

// Binds the sockets of the workers, and returns their seats; the watch keeps their wakers. Logs the start, and the receive
// buffers of the sockets.
fn bind_seats<'x, J: LedgerSet, P: PlanBrand, R: ServiceSystem, D: ServiceDisk>(
    service: &OpenService<'x, R, D, J>,
    passes: &mut Vec<Pass<J>>,
) -> Result<Vec<ServiceSeat<'x, R, J, P>>, ServiceError>
    requires plan { service.now.exchange.now ≡ P.plan }
    requires enough { length service.now.exchange.now.workers + 1 ≤ vec_len passes.old }
    ensures each { IfOk result (λ seats. vec_len seats ≡ length service.now.exchange.now.workers) }
    ensures few { IfOk result (λ seats. vec_len seats ≤ 8) }
    ensures left { OnOk result (1 ≤ vec_len passes.new) }
{
    let OpenService {
        context,
        exchange,
        watch,
        opened,
    } = *service;
    let (plan, settings, log) = (exchange.plan(), context.settings, context.journal());
    log_start(&log, plan, settings.version, settings.plan_path);
    if user() == 0 {
        warn!(log; "runs as root: a user of its own is enough");
    }
    let sockets = ServiceSockets { log: &log, watch };
    let seat_context = SeatContext {
        rt: context.rt,
        alloc: context.alloc,
        plan,
        opened,
        trace: watch.trace(),
    };
    let seats = seats_of::<J, P, R, ServiceSockets<'_, Journal<'_, R>>>(
        &seat_context,
        &sockets,
        passes,
    );
    if let Err(ServiceError::Bind) = &seats {
        log_unbound_worker(context.rt, &log, plan);
    }
    seats
}

// Returns the handler of clients' requests. It takes the first pass, and the lane of the trace behind those of the workers.
fn handler_of<'x, J: LedgerSet, R: ServiceSystem, D: ServiceDisk>(
    service: &OpenService<'x, R, D, J>,
    passes: &mut Vec<Pass<J>>,
) -> Result<ApiHandler<'x, J>, ServiceError>
    requires left { 1 ≤ vec_len passes.old }
{
    let OpenService {
        context,
        exchange,
        watch,
        ..
    } = *service;
    let place = exchange.plan().workers().len();
    let lane = match lane_of(context.alloc, watch.trace(), place) {
        Ok(lane) => lane,
        Err(error) => return Err(error),
    };
    Ok(ApiHandler {
        exchange,
        pass: passes.remove(0),
        watch,
        lane,
    })
}

// Starts a thread for each seat, and threads that write the files and count the drops at the workers' sockets. This thread
// answers clients until all have ended. The pass that it answers with is then added back to `passes`.
//
// Returns `NoThread` if a thread was refused; then all end at once.
fn run_with_threads<J: LedgerSet, P: PlanBrand + Send + Sync, R: ServiceSystem, D: ServiceDisk>(
    service: &OpenService<'_, R, D, J>,
    written: &mut Written<'_>,
    seats: &[ServiceSeat<'_, R, J, P>],
    passes: &mut Vec<Pass<J>>,
    control: &mut Control<'_>,
) -> Result<(), ServiceError>
    requires plan { service.now.exchange.now ≡ P.plan }
    requires left { 1 ≤ vec_len passes.old }
{
    let OpenService {
        context,
        exchange,
        watch,
        opened,
    } = *service;
    let mut handler = match handler_of(service, passes) {
        Ok(handler) => handler,
        Err(error) => return Err(error),
    };
    let watched = WatchedExchange {
        exchange,
        watch,
        intake: Intake::Bounded,
        turns: MOST_TURNS,
        post: PhantomData,
    };
    let (rt, alloc, log) = (context.rt, context.alloc, context.journal());
    let (lent, watched, log) = (&mut handler, &watched, &log);
    let (table, workers) = (control.take_table(), exchange.plan().workers());
    let is_served = count_drops_beside(rt, alloc, table, watch.drops(), workers, move || {
        write_files_beside(service, written, move || {
            thread::scope(thread::scope_env(), rt, |scope| {
                let started = watched.start_until(rt, scope, seats);
                control.run(log, lent, opened);
                started
            })
        })
    });
    let ApiHandler { pass, .. } = handler;
    give_back(pass, passes, is_served)
}

// Adds a pass back to `passes`. Returns the result of the service that had it.
fn give_back<J: LedgerSet>(
    pass: Pass<J>,
    passes: &mut Vec<Pass<J>>,
    is_served: bool,
) -> Result<(), ServiceError> {
    let is_back = passes.push(pass).is_ok();
    if !is_served {
        Err(ServiceError::NoThread)
    } else if !is_back {
        Err(ServiceError::Memory)
    } else {
        Ok(())
    }
}

/// Skips numbers of each peer, binds the workers' sockets, and runs the workers. Their passes and that of the control socket
/// are then added back to `passes`.
pub(crate) fn run_with_sockets<
    J: LedgerSet,
    P: PlanBrand + Send + Sync,
    R: ServiceSystem,
    D: ServiceDisk,
>(
    service: &OpenService<'_, R, D, J>,
    written: &mut Written<'_>,
    passes: &mut Vec<Pass<J>>,
    control: &mut Control<'_>,
) -> Result<Vec<TurnReport>, ServiceError>
    requires plan { service.now.exchange.now ≡ P.plan }
    requires enough { length service.now.exchange.now.workers + 1 ≤ vec_len passes.old }
    ensures { IfOk result (λ reports. vec_len reports ≡ length service.now.exchange.now.workers) }
{
    match skip_if_free(service, &mut passes[0]) {
        Ok(()) => {}
        Err(error) => return Err(error),
    }
    let seats = match bind_seats::<J, P, R, D>(service, passes) {
        Ok(seats) => seats,
        Err(error) => return Err(error),
    };
    let served = run_with_threads::<J, P, R, D>(service, written, &seats, passes, control);
    let reports = reports_of(service.context.alloc, seats, passes);
    match served {
        Ok(()) => reports,
        Err(error) => Err(error),
    }
}
