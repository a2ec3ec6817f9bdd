//! The program of the exchange: `exchange_main check PLAN`, `exchange_main explain PLAN`, `exchange_main replay PLAN SCRIPT`,
//! `exchange_main ladder PLAN SCRIPT`, `exchange_main pcap PLAN SCRIPT`, `exchange_main serve PLAN TURNS`,
//! `exchange_main run PLAN` and `exchange_main plan`.
#![tactic(auto)]

mod command_line;
mod plans;
mod usage;
mod views;

use crate::command_line::{VERSION, command_line};
use crate::plans::{
    check_file, explain_file, octets_of_plan, print_faults, print_sample, upgrade_file,
};
use crate::usage::Usage;
use crate::views::{View, view_files};
use call_files::system_limits::fill_standard;
use clap::ArgMatches;
use clap::error::ErrorKind;
use control_requests::client::{ControlOrder, give_order};
use exchange_commands::{ReplayFiles, replay_buffered, serve, turn_count};
use exchange_service::{
    CallLines, ServiceContext, ServiceDisk, ServiceSystem, Settings, ShownNumbers, TraceOptions,
    run as run_service,
};
use log::LevelFilter;
use std::alloc::Global;
use std::fs::File;
use std::net::{Net, SocketAddr};
use std::process::ExitCode;
use std::rt::Files;
use std::sync::Wait;
use std::{env, fs, io};

/// The system of the program: that of a service, with files, standard output and memory.
trait Program: ServiceSystem + Files<File = File> + Print + Alloc {}

impl<R: ServiceSystem + Files<File = File> + Print + Alloc> Program for R {}

// Returns whether a call of the system failed for want of memory.
pub(crate) fn is_memory(error: &io::Error) -> bool {
    error.kind() == io::ErrorKind::OutOfMemory
}

// Returns the octets of a file. If it can't be read, prints the refusal.
fn octets_of<R: Files + Print + Alloc>(rt: &R, path: &str) -> Option<Vec<u8, R::A>> {
    match fs::read(rt, path) {
        Ok(octets) => Some(octets),
        Err(error) => {
            if is_memory(&error) {
                let _ = println!(rt; "refused Memory");
            } else {
                let _ = println!(rt; "refused File");
            }
            None
        }
    }
}

// Prints that the program's arguments can't be read, and returns the status.
fn refuse_arguments<R: Eprint + Print>(rt: &R, error: &io::Error) -> u8 {
    if is_memory(error) {
        let _ = println!(rt; "refused Memory");
        1
    } else {
        let _ = eprintln!(rt; "{}", Usage);
        2
    }
}

// Returns the octets of a plan and of a script. If one can't be read, prints the refusal.
pub(crate) fn both_of<R: Files + Print + Alloc>(
    rt: &R,
    plan: &str,
    script: &str,
) -> Option<(Vec<u8, R::A>, Vec<u8, R::A>)> {
    let plan = octets_of(rt, plan)?;
    match octets_of(rt, script) {
        Some(script) => Some((plan, script)),
        None => None,
    }
}

fn replay_files<R: Files + Print + Alloc + Wait>(
    rt: &R,
    alloc: Global,
    plan: &str,
    script: &str,
) -> u8 {
    match both_of(rt, plan, script) {
        Some((plan, script)) => {
            let files = ReplayFiles {
                plan: &plan,
                script: &script,
            };
            replay_buffered(rt, alloc, files, &mut io::writer(rt))
        }
        None => 1,
    }
}

fn serve_file<R: Program>(rt: &R, alloc: Global, plan: &str, turns: &str) -> u8 {
    let Some(turns) = turn_count(turns) else {
        return refuse_usage(rt);
    };
    match octets_of(rt, plan) {
        Some(plan) => serve(rt, alloc, &plan, turns, &mut io::writer(rt)),
        None => 1,
    }
}

fn refuse_usage<R: Eprint>(rt: &R) -> u8 {
    let _ = eprintln!(rt; "{}", Usage);
    2
}

// A command, by the words after the program's name.
enum Command<'a> {
    Check(&'a str),
    Explain(&'a str),
    Upgrade(&'a str),
    Sample,
    Replay(&'a str, &'a str),
    Serve(&'a str, &'a str),
    Ctl(&'a str, &'a [String]),
    // A command that is read by its options.
    ByOptions,
}

fn command_of(words: &[String]) -> Command<'_> {
    let [_, command, words @ ..] = words else {
        return Command::ByOptions;
    };
    match (command.as_str(), words) {
        // No file's name: `clap` prints the help of that command.
        (_, [word]) if word.as_str() == "--help" || word.as_str() == "-h" => Command::ByOptions,
        ("check", [plan]) => Command::Check(plan.as_str()),
        ("explain", [plan]) => Command::Explain(plan.as_str()),
        ("plan", [order]) if order.as_str() == "new" => Command::Sample,
        ("plan", [order, plan]) if order.as_str() == "upgrade" => Command::Upgrade(plan.as_str()),
        ("replay", [plan, script]) => Command::Replay(plan.as_str(), script.as_str()),
        ("serve", [plan, turns]) => Command::Serve(plan.as_str(), turns.as_str()),
        ("ctl", [socket, order @ ..]) => Command::Ctl(socket.as_str(), order),
        _ => Command::ByOptions,
    }
}

// Runs one command, by the program's arguments.
fn run<R: Program, D: ServiceDisk>(rt: &R, disk: &D, alloc: Global, words: &[String]) -> u8 {
    match command_of(words) {
        Command::Check(plan) => check_file(rt, alloc, plan),
        Command::Explain(plan) => explain_file(rt, alloc, plan),
        Command::Upgrade(plan) => upgrade_file(rt, alloc, plan),
        Command::Sample => print_sample(rt),
        Command::Replay(plan, script) => replay_files(rt, alloc, plan, script),
        Command::Serve(plan, turns) => serve_file(rt, alloc, plan, turns),
        Command::Ctl(socket, order) => order_service(rt, alloc, socket, order),
        Command::ByOptions => run_by_options(rt, disk, alloc, words),
    }
}

// Sends an order to a running service.
fn order_service<R: Net + Print + Eprint + Alloc>(
    rt: &R,
    alloc: Global,
    socket: &str,
    words: &[String],
) -> u8 {
    match ControlOrder::of(words) {
        Some(order) => give_order(rt, alloc, socket, order, &mut io::writer(rt)),
        None => refuse_usage(rt),
    }
}

// Returns the address of the metrics, if one was given. Returns `Err` if the text is no address.
fn metrics_address(options: &ArgMatches<'_>) -> Result<Option<SocketAddr>, ()> {
    match options.get_str("metrics") {
        Some(text) => match text.parse::<SocketAddr>() {
            Ok(address) => Ok(Some(address)),
            Err(_) => Err(()),
        },
        None => Ok(None),
    }
}

// Returns the level of the log, `warn` if none was given.
fn log_level(options: &ArgMatches<'_>) -> LevelFilter {
    match options.get_str("log") {
        Some(text) => text.parse::<LevelFilter>().unwrap_or(LevelFilter::Warn),
        None => LevelFilter::Warn,
    }
}

// Returns how calls are logged: without numbers unless the options ask for them.
fn call_lines(options: &ArgMatches<'_>) -> CallLines {
    CallLines {
        are_logged: options.get_flag("log-calls"),
        numbers: match options.get_str("log-numbers") {
            Some("full") => ShownNumbers::Full,
            Some("last4") => ShownNumbers::LastFour,
            _ => ShownNumbers::No,
        },
    }
}

// Returns the settings of the trace, if one is wanted.
fn trace_options<'a>(options: &'a ArgMatches<'_>) -> Option<TraceOptions<'a>> {
    let mebibytes = options.get_one::<u32>("trace-limit").unwrap_or(64);
    Some(TraceOptions {
        path: options.get_str("trace")?,
        limit: u64::from(mebibytes) * 1048576,
        shows_digits: options.get_str("trace-digits") != Some("no"),
    })
}

// Returns the settings of a service by the given options. Returns `None` if they name no plan, or if an address is
// malformed.
fn settings_of<'a>(options: &'a ArgMatches<'_>) -> Option<Settings<'a>> {
    let plan_path = options.get_str("plan")?;
    let metrics = metrics_address(options).ok()?;
    let seconds = options.get_one::<u32>("drain").unwrap_or(10);
    Some(Settings {
        version: VERSION,
        plan_path,
        control: options.get_str("control"),
        metrics,
        stops_with_input: options.get_flag("stop-at-end-of-input"),
        level: log_level(options),
        call_lines: call_lines(options),
        drain_ms: u64::from(seconds) * 1000,
        calls: options.get_str("calls"),
        trace: trace_options(options),
    })
}

// Prints help or the version, or prints the usage for any other error of `clap`.
fn refuse_words<R: Print + Eprint>(rt: &R, error: &clap::Error) -> u8 {
    match error.kind() {
        ErrorKind::DisplayHelp | ErrorKind::DisplayVersion => {
            let _ = error.print(rt);
            0
        }
        ErrorKind::OutOfMemory => refuse_memory(rt),
        _ => refuse_usage(rt),
    }
}

fn refuse_memory<R: Print>(rt: &R) -> u8 {
    let _ = println!(rt; "refused Memory");
    1
}

// Runs a plan as a service. If that is refused, prints the plan's faults too: none, unless the plan is at fault.
fn run_plan<R: Program, D: ServiceDisk>(
    rt: &R,
    disk: &D,
    alloc: Global,
    plan: &[u8],
    settings: &Settings<'_>,
) -> u8 {
    let context = ServiceContext::new(rt, disk, alloc, settings);
    let status = run_service(&context, plan, &mut io::writer(rt));
    if status != 0 {
        print_faults(rt, alloc, settings.plan_path, plan);
    }
    status
}

// Runs the plan's file that the options name.
fn run_file<R: Program, D: ServiceDisk>(
    rt: &R,
    disk: &D,
    alloc: Global,
    settings: &Settings<'_>,
) -> u8 {
    match octets_of_plan(rt, alloc, settings.plan_path) {
        Some(plan) => run_plan(rt, disk, alloc, &plan, settings),
        None => 1,
    }
}

// Runs the command that the words named.
fn run_matched<R: Program, D: ServiceDisk>(
    rt: &R,
    disk: &D,
    alloc: Global,
    matches: &ArgMatches<'_>,
) -> u8 {
    match matches.subcommand() {
        Some(("run", options)) => match settings_of(options) {
            Some(settings) => run_file(rt, disk, alloc, &settings),
            None => refuse_usage(rt),
        },
        Some(("ladder", options)) => view_files(rt, alloc, View::Ladder, options),
        Some(("pcap", options)) => view_files(rt, alloc, View::Capture, options),
        Some(("records", options)) => view_files(rt, alloc, View::Records, options),
        _ => refuse_usage(rt),
    }
}

// Runs a command that is read by its options: `run`, or one that asks for help or the version.
fn run_by_options<R: Program, D: ServiceDisk>(
    rt: &R,
    disk: &D,
    alloc: Global,
    words: &[String],
) -> u8 {
    let Ok(command) = command_line(alloc) else {
        return refuse_memory(rt);
    };
    match command.try_get_matches_from(words) {
        Ok(matches) => run_matched(rt, disk, alloc, &matches),
        Err(error) => refuse_words(rt, &error),
    }
}

// Returns the program's arguments, if there is memory for them.
fn words_of(alloc: Global, arguments: env::Args) -> Option<Vec<String>> {
    let mut words = Vec::new(alloc);
    for argument in arguments {
        if words.push(argument).is_err() {
            return None;
        }
    }
    Some(words)
}

fn main(rt: HostRuntime) -> ExitCode {
    fill_standard();
    let arguments = match env::args(&rt) {
        Ok(arguments) => arguments,
        Err(error) => return ExitCode::from(refuse_arguments(&rt, &error)),
    };
    let status = match words_of(rt.alloc(), arguments) {
        Some(words) => run(&rt, &rt, rt.alloc(), words.as_slice()),
        None => {
            let _ = println!(rt; "refused Memory");
            1
        }
    };
    ExitCode::from(status)
}
