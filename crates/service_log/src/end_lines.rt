//! Log lines about ended legs.
ghost use Rattle.std.specs.Prelude.{◌≡◌, ◌++◌, ◌<◌, IfOk, OnOk, length, string_bytes};
ghost use Rattle.std.specs.List.{flat_map};
ghost use Rattle.std.specs.Str.Lossy.{utf8_lossy};
ghost use Rattle.service_log.specs.Shown.{quoted_octet, quoted_text, shown_octets};

use crate::lines::log_line;
use call_records::{CallRow, ending_name};
use call_signals::ElementText;
use log::{Level, Log, log_enabled};
use peer_plan::Plan;
use plain_text::push_printable;
use service_state::Wanted;
use std::alloc::{AllocError, Global};

// The most octets that `LastFour` shows.
const LAST: usize = 4;

// The octet of a quote.
const QUOTE: u8 = 0x22;

/// How log lines show the numbers of calls.
#[derive(Clone, Copy, Debug, PartialEq, Eq)]
pub enum ShownNumbers {
    /// In full.
    Full,
    /// The last four octets, and at most half of the number.
    LastFour,
    /// Not at all.
    No,
}

/// How calls are logged.
#[derive(Clone, Copy)]
pub struct CallLines {
    /// Whether each ended leg is logged at `Info`. Otherwise it is logged at `Debug`, without numbers.
    pub are_logged: bool,
    pub numbers: ShownNumbers,
}

impl CallLines {
    /// Returns the events that this log needs one by one. Refusals are needed at `Debug`. Ended legs are needed at `Debug`,
    /// or at `Info` if each has a line.
    pub fn wanted<L: Log>(self, log: &L) -> Wanted {
        let is_debug = log_enabled!(log; Level::Debug);
        Wanted {
            refusals: is_debug,
            ends: is_debug || (self.are_logged && log_enabled!(log; Level::Info)),
        }
    }
}

// Returns the octets of a number that are shown.
fn shown_numbers(octets: &[u8], shown: ShownNumbers) -> &[u8]
    ensures { result.now ≡ shown_octets shown octets.now }
{
    match shown {
        ShownNumbers::Full => octets,
        ShownNumbers::LastFour => &octets[octets.len() - LAST.min(octets.len() / 2)..],
        ShownNumbers::No => &[],
    }
}

// Adds an octet in quotes: a quote as `\x22`.
fn push_octet(text: &mut Vec<u8>, octet: u8) -> Result<(), AllocError>
    ensures { OnOk result (text.new.items ≡ text.old.items ++ quoted_octet octet) }
{
    if octet == QUOTE {
        text.extend_from_slice(b"\\x22")
    } else {
        push_printable(text, &[octet])
    }
}

// Adds the octets between the quotes.
fn push_quoted(text: &mut Vec<u8>, octets: &[u8]) -> Result<(), AllocError>
    ensures { OnOk result (text.new.items ≡ text.old.items ++ flat_map quoted_octet octets.now) }
{
    for octet in octets {
        push_octet(text, *octet)?;
    }
    Ok(())
}

// Returns a text in quotes, in printable characters, so that it ends before the words behind it.
fn quoted(alloc: Global, octets: &[u8]) -> Result<String, AllocError>
    ensures { IfOk result (λ text. string_bytes text ≡ utf8_lossy (quoted_text octets.now)) }
{
    let mut text = Vec::new(alloc);
    text.push(QUOTE)?;
    push_quoted(&mut text, octets)?;
    text.push(QUOTE)?;
    String::from_utf8_lossy(alloc, text.as_slice())
}

// Formats a number as `shown` asks, or `-` if there is none.
fn number_text(
    alloc: Global,
    number: Option<&ElementText>,
    shown: ShownNumbers,
) -> Result<String, AllocError> {
    match number {
        Some(number) => quoted(alloc, shown_numbers(number.as_slice(), shown)),
        None => String::from_str(alloc, "-"),
    }
}

// Formats the caller and the called number, or nothing if numbers aren't shown.
fn parties(alloc: Global, leg: &CallRow, shown: ShownNumbers) -> Result<String, AllocError> {
    if shown == ShownNumbers::No {
        return Ok(String::new(alloc));
    }
    let calling = number_text(alloc, leg.leg.calling.as_ref(), shown)?;
    let called = number_text(alloc, leg.leg.called.as_ref(), shown)?;
    format!(in alloc; ", calling {calling}, called {called}")
}

// Formats the cause of the end.
fn ending(alloc: Global, leg: &CallRow) -> Result<String, AllocError> {
    let how = ending_name(leg.leg.end, leg.failure);
    match leg.leg.end {
        Some(end) => match end.cause {
            Some(cause) => format!(in alloc; "{how}, cause {cause}"),
            None => String::from_str(alloc, how),
        },
        None => String::from_str(alloc, how),
    }
}

// Formats the line of a leg of the peer with this name.
fn line_of(
    alloc: Global,
    leg: &CallRow,
    name: &str,
    shown: ShownNumbers,
) -> Result<String, AllocError> {
    let (number, serial) = (leg.name.number, leg.name.serial);
    let ending = ending(alloc, leg)?;
    let parties = parties(alloc, leg, shown)?;
    let lasted = leg.ended.saturating_sub(leg.opened);
    let answered = match leg.leg.answered {
        Some(_) => "answered",
        None => "not answered",
    };
    format!(in alloc;
        "leg {number} serial {serial} of {name} ended after {lasted} ms: {ending}, {answered}{parties}"
    )
}

/// Logs an ended leg of the plan at `level`, with the numbers of its call formatted as `shown`. Logs nothing if there is no
/// memory for the line.
pub(crate) fn log_leg<L: Log>(
    log: &L,
    alloc: Global,
    plan: &Plan,
    leg: &CallRow,
    level: Level,
    shown: ShownNumbers,
) {
    let peer = leg.name.owner();
    if peer.get() >= plan.peer_count() {
        return;
    }
    if let Ok(line) = line_of(alloc, leg, plan.name(peer), shown) {
        log_line(log, level, &line);
    }
}
