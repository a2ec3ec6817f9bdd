//! The program's command line, as `clap` reads it: its commands with their words and options, and the texts of help and version.

use clap::{Arg, ArgAction, Command};
use std::alloc::{AllocError, Global};

/// The version of the program.
pub(crate) const VERSION: &str = "2.0.0";

/// The values that an argument takes.
#[derive(Clone, Copy)]
pub(crate) enum Taken {
    /// One required word.
    Word,
    /// One word or more, up to the end.
    Words,
    /// An option without a value.
    Flag,
    /// An option with a value, which has this name in the help.
    Value(&'static str),
    /// An option with a value from a list. The second text is its default.
    OneOf(&'static str, &'static str, &'static [&'static str]),
    /// An option with a number from the first to the last of these. The text is its default, if it has one.
    Number(&'static str, Option<&'static str>, i64, i64),
}

/// An argument: its name, which is an option's own word; the values that it takes; and its help text.
pub(crate) type Row = (&'static str, Taken, &'static str);

/// A command: its name, its help text, and its arguments.
pub(crate) type CommandRow = (&'static str, &'static str, &'static [Row]);

const PLAN: Row = ("plan", Taken::Word, "The file of the plan, in TOML");

const SCRIPT: Row = ("script", Taken::Word, "The file of the script");

const PLAN_ORDER: Row = ("order", Taken::Words, "new | upgrade <plan>");

/// The commands: those on plans and scripts, and those that carry calls.
pub(crate) const COMMANDS: [CommandRow; 10] = [
    (
        "check",
        "Prints whether a plan is right, or its first fault",
        &[PLAN],
    ),
    (
        "explain",
        "Prints what a plan means, with its defaults, and warns of what may not be meant",
        &[PLAN],
    ),
    (
        "plan",
        "Prints a plan of the newest version: one to begin with, or an older one's",
        &[PLAN_ORDER],
    ),
    (
        "replay",
        "Replays a script on an exchange, and prints what it does",
        &[PLAN, SCRIPT],
    ),
    (
        "ladder",
        "Replays a script, and prints a picture of its calls, in SVG: a ladder",
        &LADDER,
    ),
    (
        "pcap",
        "Replays a script, and writes its datagrams as a capture file, for Wireshark",
        &[PLAN, SCRIPT],
    ),
    (
        "records",
        "Replays a script, and prints the record of each call leg that ended, as CSV",
        &[PLAN, SCRIPT],
    ),
    (
        "serve",
        "Carries calls for a number of turns of each worker, then prints the accounts",
        &SERVE,
    ),
    (
        "run",
        "Carries calls until a stop, then prints the accounts",
        &RUN,
    ),
    ("ctl", "Gives a running service an order", &CTL),
];

const LADDER: [Row; 4] = [
    PLAN,
    SCRIPT,
    (
        "leg",
        Taken::Number("NUMBER", None, 1, 32767),
        "Only what concerns the leg of this local call number",
    ),
    (
        "text",
        Taken::Flag,
        "Plain text of at most 100 columns, not SVG",
    ),
];

const SERVE: [Row; 2] = [
    PLAN,
    (
        "turns",
        Taken::Word,
        "How many turns each worker makes, at least 1",
    ),
];

const RUN: [Row; 12] = [
    PLAN,
    (
        "control",
        Taken::Value("SOCKET"),
        "The path of a Unix socket that takes orders",
    ),
    (
        "metrics",
        Taken::Value("ADDRESS:PORT"),
        "The TCP address at which GET /metrics is answered, for Prometheus",
    ),
    (
        "log",
        Taken::OneOf("LEVEL", "warn", &["off", "error", "warn", "info", "debug"]),
        "What is written to standard error",
    ),
    (
        "log-calls",
        Taken::Flag,
        "A line at the level info for each call leg that ends",
    ),
    (
        "log-numbers",
        Taken::OneOf("HOW", "no", &["full", "last4", "no"]),
        "How much of the numbers of calls these lines show",
    ),
    (
        "drain",
        Taken::Number("SECONDS", Some("10"), 0, 3600),
        "How long a stop waits at most for its hangups, or a graceful one for calls to end",
    ),
    (
        "calls",
        Taken::Value("FILE"),
        "The file to which the record of each ended call leg is appended, as CSV",
    ),
    (
        "trace",
        Taken::Value("FOLDER"),
        "The folder to which all that the exchange is given is written, for replay",
    ),
    (
        "trace-limit",
        Taken::Number("MEBIBYTES", Some("64"), 1, 1048576),
        "The most that these files have together for each worker",
    ),
    (
        "trace-digits",
        Taken::OneOf("YES/NO", "yes", &["yes", "no"]),
        "Whether digits are written as they are, or each as 0",
    ),
    (
        "stop-at-end-of-input",
        Taken::Flag,
        "Stop, as by an order, when a pipe at standard input ends",
    ),
];

const CTL: [Row; 2] = [
    ("socket", Taken::Word, "The path of its control socket"),
    (
        "order",
        Taken::Words,
        "peers | calls | accounts | call <peer> <number> | hangup <number> | drain [off] | stop [--graceful]",
    ),
];

// Returns an option with a value.
fn option<'a>(arg: Arg<'a>, name: &'static str, value_name: &'static str) -> Arg<'a> {
    arg.long(name).value_name(value_name).action(ArgAction::Set)
}

// Sets an option's value to a number from the first to the last of these.
fn number<'a>(arg: Arg<'a>, default: Option<&'static str>, first: i64, last: i64) -> Arg<'a> {
    let arg = arg.value_parser(clap::value_parser!(u32).range(first..=last));
    match default {
        Some(value) => arg.default_value(value),
        None => arg,
    }
}

fn argument<'a>(alloc: Global, row: &Row) -> Arg<'a> {
    let (name, taken, help) = *row;
    let arg = Arg::new(alloc, name).help(help);
    match taken {
        Taken::Word => arg.required(true).action(ArgAction::Set),
        Taken::Words => arg.required(true).num_args(1..).action(ArgAction::Append),
        Taken::Flag => arg.long(name).action(ArgAction::SetTrue),
        Taken::Value(value_name) => option(arg, name, value_name),
        Taken::OneOf(value_name, default, values) => option(arg, name, value_name)
            .default_value(default)
            .value_parser(values),
        Taken::Number(value_name, default, first, last) => {
            number(option(arg, name, value_name), default, first, last)
        }
    }
}

fn command<'a>(alloc: Global, row: &CommandRow) -> Result<Command<'a>, AllocError> {
    let (name, about, rows) = *row;
    let mut args = Vec::with_capacity(alloc, rows.len())?;
    for row in rows {
        args.push(argument(alloc, row))?;
    }
    Command::new(alloc, name).about(about).args(args)
}

fn commands<'a>(alloc: Global) -> Result<Vec<Command<'a>>, AllocError> {
    let mut commands = Vec::with_capacity(alloc, COMMANDS.len())?;
    for row in &COMMANDS {
        commands.push(command(alloc, row)?)?;
    }
    Ok(commands)
}

/// Returns the whole command line. The words of a parse have to live as long as `'a`.
///
/// Returns `AllocError` if a request for memory was refused.
pub(crate) fn command_line<'a>(alloc: Global) -> Result<Command<'a>, AllocError> {
    let commands = commands(alloc)?;
    Command::new(alloc, "exchange_main")
        .version(VERSION)
        .about("An exchange of IAX2 calls (RFC 5456)")
        .subcommand_required(true)
        .subcommands(commands)
}
