//! A service: the workers of a plan carry calls until a stop.
ghost use Rattle.std.specs.Prelude.{◌≡◌, ◌+◌, ◌≤◌, IfOk, IsOk, OnOk, length};
ghost use Rattle.peer_plan.specs.Reading.{plan_of};
ghost use Rattle.worker_setup.specs.Reports.{HasServed};

use crate::control::Control;
use crate::open_service::OpenService;
use crate::opening::Opening;
use crate::recording::watch_of;
use crate::seating::run_with_sockets;
use crate::service_context::ServiceContext;
use crate::start_faults::log_not_bound;
use crate::system::{ServiceDisk, ServiceSystem};
use control_server::NotBound;
use exchange_core::{Exchange, NoGate};
use log::LevelFilter;
use peer_lock::Service;
use peer_plan::Plan;
use service_log::CallLines;
use std::fs::{File, Files};
use std::io::Write;
use std::marker::Brand;
use std::net::SocketAddr;
use std::sync::ledger::Ledger;
use udp_workers::PlanBrand;
use worker_setup::{ServiceError, status_of, write_served};

/// The settings of a service.
#[derive(Clone, Copy)]
pub struct Settings<'a> {
    /// The version of the program, for the log.
    pub version: &'a str,
    /// The path of the plan's file, for the log.
    pub plan_path: &'a str,
    /// The path of the control socket, if one is wanted.
    pub control: Option<&'a str>,
    /// The address that serves the metrics, if they are wanted.
    pub metrics: Option<SocketAddr>,
    /// Whether the end of standard input stops the service. It can if standard input is a pipe, a socket or a terminal.
    pub stops_with_input: bool,
    /// The levels that are logged.
    pub level: LevelFilter,
    /// How calls are logged.
    pub call_lines: CallLines,
    /// The longest duration of a drain, in milliseconds.
    pub drain_ms: u64,
    /// The file to which the records of ended legs are appended.
    pub calls: Option<&'a str>,
    /// The trace of the exchange's input, if one is written.
    pub trace: Option<TraceOptions<'a>>,
}

impl<'a> Settings<'a> {
    /// Returns the path of the trace's folder, if one is written.
    pub(crate) fn trace_path(&self) -> Option<&'a str> {
        match self.trace {
            Some(options) => Some(options.path),
            None => None,
        }
    }
}

/// The settings of a trace.
#[derive(Clone, Copy)]
pub struct TraceOptions<'a> {
    /// The folder for its files.
    pub path: &'a str,
    /// The limit on the octets of one worker's part of all files together. A turn that is under way may exceed it.
    pub limit: u64,
    /// Whether digits are shown. Otherwise each is written as 0.
    pub shows_digits: bool,
}

// Opens an exchange, with the ledgers and the plan that the caller names, and the files that are wanted. Runs the service on
// them, and then writes the reports of its workers and its accounts.
fn run_with_exchange<
    O: Ledger + Send + Sync,
    S: Ledger + Send + Sync,
    P: PlanBrand + Send + Sync,
    R: ServiceSystem,
    D: ServiceDisk,
    W: Write,
>(
    context: &ServiceContext<'_, R, D>,
    opening: Opening,
    control: &mut Control<'_>,
    writer: &mut W,
) -> Result<(), ServiceError>
    requires plan { opening.plan ≡ P.plan }
    requires enough { length opening.plan.workers + 1 ≤ opening.plan.passes }
    requires octets { (opening.octets.name ≡ O.name) × (opening.octets.parts ≡ O.parts) ×
        (opening.octets.parts ≡ length opening.plan.peers + opening.plan.passes) }
    requires steps { (opening.steps.name ≡ S.name) × (opening.steps.parts ≡ S.parts) ×
        (opening.steps.parts ≡ length opening.plan.peers + opening.plan.passes) }
    ensures { OnOk result (HasServed (length opening.plan.workers) (W.contents writer.old) (W.contents writer.new)) }
{
    let Opening {
        plan,
        octets,
        steps,
        first_serial,
        opened,
    } = opening;
    // For the proof: a plan has few passes.
    let _passes = plan.passes();
    let exchange = Exchange::<NoGate, Service<O, S>>::open_at(
        context.alloc,
        plan,
        NoGate,
        octets,
        steps,
        first_serial,
    );
    let Ok((exchange, mut passes)) = exchange else {
        return Err(ServiceError::Memory);
    };
    let reports = match watch_of(context, exchange.plan()) {
        Ok(both) => {
            let mut both = both;
            let lent = &mut both;
            let service = OpenService {
                context,
                exchange: &exchange,
                watch: &lent.0,
                opened,
            };
            run_with_sockets::<_, P, R, D>(&service, &mut lent.1, &mut passes, control)
        }
        Err(error) => Err(error),
    };
    write_served(reports, exchange, passes, writer)
}

// Prints a refusal, and returns its status.
fn refuse<W: Write>(writer: &mut W, name: &str) -> u8
    ensures { result ≡ 1 }
{
    let _ = writeln!(writer, "refused {name}");
    1
}

// Prints the refusal of a listener that isn't bound, which the log names, and returns its status.
fn refuse_listener<R: ServiceSystem, D: ServiceDisk, W: Write>(
    context: &ServiceContext<'_, R, D>,
    fault: NotBound,
    writer: &mut W,
) -> u8
    ensures { result ≡ 1 }
{
    log_not_bound(&context.journal(), context.settings, fault);
    refuse(writer, fault.name)
}

/// Runs the workers of a plan until a client of the control socket stops them, or without end if there is no such socket.
/// Then writes `worker <place> <received> <sent> <lost> <faults>` for each worker, and the accounts. Returns the status: 0,
/// or 1 after a refusal.
///
/// `plan` is the content of the plan's file; a refused plan is printed as `check` prints it. The other refusals are those
/// of `serve`, and these:
///
/// - `refused Control`: the control socket isn't bound. Another service answers at its path, a file there is no socket, or the
///   system refuses.
/// - `refused Metrics`: the address of the metrics isn't bound.
/// - `refused Descriptors`: the process may not open the number of files that a service needs.
/// - `refused Trace`: the folder can't be made, isn't this user's alone, or has no regular file to write.
///
/// The log names the address or the path, and the system's error. A stop hangs up each leg. The workers end once no leg is
/// left, after `drain_ms` milliseconds, or at a second stop. The file of the control socket is gone afterwards.
///
/// If `trace` names a folder, a thread writes the exchange's input to it, as a script that `replay` reads
/// (`docs/INCIDENTS.md`).
///
/// If `calls` names a file, a thread appends the record of each ended leg to it (`docs/RECORDS.md`), on the context's disk. Calls
/// continue whether or not these files can be written.
pub fn run<R: ServiceSystem + Files<File = File>, D: ServiceDisk, W: Write>(
    context: &ServiceContext<'_, R, D>,
    plan: &[u8],
    writer: &mut W,
) -> u8
    ensures status { result ≤ 1 }
    ensures valid { result ≡ 0 → IsOk (plan_of plan.now) }
    ensures lines { result ≡ 0 → IfOk (plan_of plan.now)
        (λ plan. HasServed (length plan.workers) (W.contents writer.old) (W.contents writer.new)) }
{
    match Plan::read(context.alloc, plan) {
        Ok(plan) => match Control::open(context) {
            Ok(mut control) => {
                let served = match Opening::of(context.rt, plan) {
                    Ok(opening) => run_with_exchange::<Brand, Brand, Brand, R, D, W>(
                        context,
                        opening,
                        &mut control,
                        writer,
                    ),
                    Err(error) => Err(error),
                };
                let status = status_of(served, writer);
                control.close(context.rt);
                status
            }
            Err(fault) => refuse_listener(context, fault, writer),
        },
        Err(fault) => {
            let _ = writeln!(writer, "refused {fault}");
            1
        }
    }
}
