//! The reports of workers.
ghost use Rattle.std.specs.Prelude.{◌≡◌, ◌+◌, Err, IfErr, IfOk, IsOkAnd, OnOk, length, vec_len};
ghost use Rattle.std.specs.Io.KnownBytes.{Appends};
ghost use Rattle.worker_setup.specs.Reports.{HasServed, reports_text};
ghost use Rattle.worker_setup.specs.declared.service_error.ServiceError.TheVariants as errors;

use crate::accounts::{closed_accounts, settle};
use crate::seats::ServiceSeat;
use crate::service_error::ServiceError;
use exchange_core::{Exchange, NoGate, Pass};
use peer_lock::LedgerSet;
use std::alloc::Global;
use std::io;
use std::io::Write;
use std::sync::Wait;
use std::time::Clock;
use udp_workers::{PlanBrand, SeatState, TurnReport};

/// Returns the reports of the seats, in order. Their passes are added back to `passes`.
///
/// Returns `Memory` if a request for memory was refused. Then the seats are dropped, with their passes.
pub fn reports_of<J: LedgerSet, P: PlanBrand, R: Clock + Wait>(
    alloc: Global,
    mut seats: Vec<ServiceSeat<'_, R, J, P>>,
    passes: &mut Vec<Pass<J>>,
) -> Result<Vec<TurnReport>, ServiceError>
    ensures each { IfOk result (λ reports. vec_len reports ≡ vec_len seats.entry) }
    ensures back { OnOk result (vec_len passes.new ≡ vec_len passes.old + vec_len seats.entry) }
    ensures memory { IfErr result (λ error. error ≡ errors.Memory) }
{
    let count = seats.len();
    let mut reports = Vec::with_capacity(alloc, count)?;
    passes.reserve(count)?;
    for _ in 0..count {
        let SeatState { report, pass, .. } = seats.remove(0).into_state();
        reports.push_reserved(report);
        passes.push_reserved(pass);
    }
    Ok(reports)
}

// Writes a line for each worker.
fn write_reports<W: Write>(reports: &[TurnReport], writer: &mut W) -> io::Result<()>
    ensures { OnOk result (Appends (W.contents writer.old) (W.contents writer.new) (reports_text reports.now)) }
{
    for (place, report) in reports.iter().enumerate() {
        writeln!(
            writer,
            "worker {place} {} {} {} {}",
            report.received, report.sent, report.lost, report.faults
        )?;
    }
    Ok(())
}

// Writes the reports that there are. Their lines are `worker <place> <received> <sent> <lost> <faults>`.
fn write_reports_if_ok<W: Write>(
    reports: Result<Vec<TurnReport>, ServiceError>,
    writer: &mut W,
) -> Result<(), ServiceError>
    ensures lines { OnOk result
        (IsOkAnd reports (λ reports. Appends (W.contents writer.old) (W.contents writer.new) (reports_text reports.items))) }
    ensures error { IfErr reports (λ error. (result ≡ Err error) × (writer.new ≡ writer.old)) }
{
    Ok(write_reports(&reports?, writer)?)
}

/// Writes `worker <place> <received> <sent> <lost> <faults>` for each worker, in order. Places begin at 0; the counts are
/// datagrams, and failed calls of the wire. Then closes the accounts of the exchange with all its passes, and writes them as
/// `settle` does.
///
/// Returns the error of `reports` if there are none; then nothing is written. Returns `Writer` at the first line that can't
/// be written. Returns `Memory` if a request for memory was refused or a pass is missing; then no accounts are written.
pub fn write_served<J: LedgerSet, W: Write>(
    reports: Result<Vec<TurnReport>, ServiceError>,
    exchange: Exchange<NoGate, J>,
    passes: Vec<Pass<J>>,
    writer: &mut W,
) -> Result<(), ServiceError>
    requires each { IfOk reports (λ reports. vec_len reports ≡ length exchange.workers) }
    ensures served { OnOk result (HasServed (length exchange.workers) (W.contents writer.old) (W.contents writer.new)) }
    ensures error { IfErr reports (λ error. (result ≡ Err error) × (writer.new ≡ writer.old)) }
{
    match write_reports_if_ok(reports, writer) {
        Ok(()) => settle(exchange, passes, writer),
        // Closed and not dropped, because a drop would have to be proved here field by field.
        Err(error) => {
            let _accounts = closed_accounts(exchange, passes);
            Err(error)
        }
    }
}
