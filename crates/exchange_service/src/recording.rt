//! The files that a running service writes: the records of ended legs, and the trace. Each has a thread that writes it.
use crate::open_service::OpenService;
use crate::running::{Settings, TraceOptions};
use crate::service_context::ServiceContext;
use crate::start_faults::log_trace_fault;
use crate::system::{ServiceDisk, ServiceSystem};
use call_files::{Calendar, CallOutlets, CallRows, write_calls_beside};
use jiff::Timestamp;
use peer_lock::LedgerSet;
use peer_plan::Plan;
use service_log::{log_call_file_end, log_trace_end};
use service_state::ServiceWatch;
use std::alloc::{AllocError, Global};
use std::io::ErrorKind;
use std::sync::Wait;
use std::thread::Threads;
use std::time::{Clock, SystemTime};
use trace_writer::{
    Folder, Trace, TraceFile, TraceFolder, TraceNotes, TraceSettings, write_trace_beside,
};
use worker_setup::ServiceError;

/// The state of the thread that writes the rows of ended legs to a file.
#[derive(Drop)]
pub(crate) struct Records<'s> {
    path: &'s str,
    calendar: Calendar,
    rows: CallRows,
}

/// The state of the thread that writes a trace.
#[derive(Drop)]
pub(crate) struct Tracing<'s> {
    folder: TraceFolder<'s>,
    shows_digits: bool,
    about: String,
    notes: TraceNotes,
    file: TraceFile,
}

/// The files that are written next to the workers.
pub(crate) struct Written<'s> {
    pub(crate) records: Option<Records<'s>>,
    pub(crate) tracing: Option<Tracing<'s>>,
}

// Written out, so that an owner proves one call at its drop, not the drop of each field.
impl<'s> Drop for Written<'s> {
    fn drop(self) {
        let Written {
            records: _,
            tracing: _,
        } = self;
    }
}

// Returns the current time by the calendar, or the beginning of 1970 if the clock can't be read.
fn calendar<R: Clock>(rt: &R) -> Calendar {
    let opened_us = match SystemTime::now(rt) {
        Ok(now) => match Timestamp::try_from(now) {
            Ok(now) => now.as_microsecond(),
            Err(_) => 0,
        },
        Err(_) => 0,
    };
    Calendar { opened_us }
}

// Returns the outlets for the rows of ended legs, and their writer, if a file of call records is wanted.
fn records_of<'s>(
    alloc: Global,
    plan: &Plan,
    path: Option<&'s str>,
    calendar: Calendar,
) -> Result<(Option<CallOutlets>, Option<Records<'s>>), ServiceError> {
    let Some(path) = path else {
        return Ok((None, None));
    };
    let (outlets, rows) = CallRows::new(alloc, plan, calendar)?;
    let records = Records {
        path,
        calendar,
        rows,
    };
    Ok((Some(outlets), Some(records)))
}

// Formats the date of the moment 0 for the head of a trace.
fn date_of(alloc: Global, calendar: Calendar) -> Result<String, AllocError> {
    match Timestamp::from_millisecond(calendar.opened_us / 1000) {
        Ok(date) => format!(in alloc; "{date:.3}"),
        Err(_) => Ok(String::new(alloc)),
    }
}

// Opens the first file of a trace. If that fails, the log says why.
fn first_file<R: Clock + Eprint, D: Folder>(
    context: &ServiceContext<'_, R, D>,
    folder: &TraceFolder<'_>,
) -> Result<TraceFile, ServiceError> {
    match folder.open(context.disk, context.alloc) {
        Ok(file) => Ok(file),
        Err(error) if error.kind() == ErrorKind::OutOfMemory => Err(ServiceError::Memory),
        Err(error) => {
            log_trace_fault(&context.journal(), folder.path, &error);
            Err(ServiceError::Trace)
        }
    }
}

// Formats the line about the service in the head of each file of a trace.
fn about(alloc: Global, settings: &Settings<'_>, calendar: Calendar) -> Result<String, AllocError> {
    let date = date_of(alloc, calendar)?;
    let (version, plan_path) = (settings.version, settings.plan_path);
    format!(in alloc; "exchange_main {version}, plan {plan_path}, moment 0 is {date}")
}

// Returns the state of the thread that writes the notes of `threads` threads.
fn tracing_of<'s, R: Clock + Eprint, D: Folder>(
    context: &ServiceContext<'s, R, D>,
    threads: usize,
    options: TraceOptions<'s>,
    calendar: Calendar,
) -> Result<Tracing<'s>, ServiceError> {
    let TraceOptions {
        path,
        limit,
        shows_digits,
    } = options;
    let limit = limit.saturating_mul(threads.saturating_sub(1) as u64);
    let folder = TraceFolder { path, limit };
    let about = about(context.alloc, context.settings, calendar)?;
    let notes = TraceNotes::new(context.alloc, threads)?;
    let file = first_file(context, &folder)?;
    Ok(Tracing {
        folder,
        shows_digits,
        about,
        notes,
        file,
    })
}

// Returns the trace of the exchange's input, and its writer, if a trace is wanted.
fn trace_of<'s, R: Clock + Eprint, D: Folder>(
    context: &ServiceContext<'s, R, D>,
    plan: &Plan,
    calendar: Calendar,
) -> Result<(Option<Trace>, Option<Tracing<'s>>), ServiceError> {
    let Some(options) = context.settings.trace else {
        return Ok((None, None));
    };
    let threads = plan.workers().len() + 1;
    let tracing = tracing_of(context, threads, options, calendar)?;
    match Trace::new(context.alloc, threads, plan.number_count()) {
        Ok(trace) => Ok((Some(trace), Some(tracing))),
        Err(_) => Err(ServiceError::Memory),
    }
}

// Returns a watch that was made, and the files to be written.
fn with_written<'s>(
    watch: Result<ServiceWatch, AllocError>,
    written: Written<'s>,
) -> Result<(ServiceWatch, Written<'s>), ServiceError> {
    match watch {
        Ok(watch) => Ok((watch, written)),
        Err(_) => Err(ServiceError::Memory),
    }
}

/// Returns the watch of a service of this plan, and the files to be written, if any are wanted.
pub(crate) fn watch_of<'s, R: Clock + Eprint, D: Folder>(
    context: &ServiceContext<'s, R, D>,
    plan: &Plan,
) -> Result<(ServiceWatch, Written<'s>), ServiceError> {
    let (alloc, settings) = (context.alloc, context.settings);
    let calendar = calendar(context.rt);
    let (trace, tracing) = trace_of(context, plan, calendar)?;
    let wanted = settings.call_lines.wanted(&context.journal());
    match records_of(alloc, plan, settings.calls, calendar) {
        Ok((outlets, records)) => {
            let watch = ServiceWatch::new(alloc, plan, outlets, trace, wanted);
            with_written(watch, Written { records, tracing })
        }
        Err(error) => Err(error),
    }
}

// Runs a service, with a thread that writes the trace if one is wanted. Returns false if a thread was refused.
fn write_trace_if_wanted<
    R: Clock + Eprint + Threads + Wait + Sync,
    D: Folder + Sync,
    F: FnOnce() -> bool,
>(
    context: &ServiceContext<'_, R, D>,
    plan: &Plan,
    trace: Option<&Trace>,
    tracing: &mut Option<Tracing<'_>>,
    serve: F,
) -> bool
    requires { F.pre serve }
{
    let Some(trace) = trace else {
        return serve();
    };
    let Some(tracing) = tracing.take() else {
        return serve();
    };
    let Tracing {
        folder,
        shows_digits,
        about,
        notes,
        file,
    } = tracing;
    let settings = TraceSettings {
        folder,
        shows_digits,
        about: about.as_str(),
    };
    let ServiceContext { rt, disk, .. } = *context;
    let is_served = write_trace_beside(rt, disk, trace, plan, settings, notes, file, serve);
    log_trace_end(&context.journal(), folder.path, trace.state());
    is_served
}

/// Runs a service, with the threads that write the rows of ended legs and the trace, if these are wanted. Returns false if
/// a thread was refused. The log reports the rows that couldn't be written.
pub(crate) fn write_files_beside<
    J: LedgerSet,
    R: ServiceSystem,
    D: ServiceDisk,
    F: FnOnce() -> bool,
>(service: &OpenService<'_, R, D, J>, written: &mut Written<'_>, serve: F) -> bool
    requires { F.pre serve }
{
    let OpenService {
        context,
        exchange,
        watch,
        opened,
    } = *service;
    let (plan, trace) = (exchange.plan(), watch.trace());
    let Written { records, tracing } = written;
    let Some(outlets) = watch.calls() else {
        return write_trace_if_wanted(context, plan, trace, tracing, serve);
    };
    let Some(records) = records.take() else {
        return write_trace_if_wanted(context, plan, trace, tracing, serve);
    };
    let Records {
        path,
        calendar,
        rows,
    } = records;
    let serve_on = move ||
        requires { F.pre serve }
    { write_trace_if_wanted(context, plan, trace, tracing, serve) };
    let ServiceContext { rt, disk, .. } = *context;
    let is_served = write_calls_beside(
        rt, disk, path, plan, calendar, opened, outlets, rows, serve_on,
    );
    log_call_file_end(&context.journal(), path, outlets.state());
    is_served
}
