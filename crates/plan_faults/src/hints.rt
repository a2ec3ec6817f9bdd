//! The report of a right plan's warnings.
ghost use Rattle.std.specs.Prelude.{◌≡◌, ◌≤◌, ◌<◌, ◌+◌, IsErr, length};
ghost use Rattle.peer_plan.specs.Reading.{plan_of};
ghost use Rattle.plan_faults.specs.Lines.{Adds, lines_of};

use crate::fault::{Fault, What};
use crate::faults::write_more;
use crate::lines::{begin_line, line_at, write_quoted, write_shown, write_subject};
use crate::report::{Counts, push_line};
use crate::tables::items_of;
use crate::warnings::{MOST_KEPT, has_secret, warnings_of};
use crate::words::{Source, write_unknown};
use peer_plan::{Key, Plan, Section};
use plain_text::TextBuffer;
use std::alloc::Global;
use toml::Table;

/// Settings of a plan that are valid, and probably not intended.
#[derive(Clone, Copy)]
pub(crate) enum Hint {
    /// The record's limit ends a call after this number of minutes, within a day.
    EndsCalls(u64),
    /// A worker's port is below 1,024.
    LowPort(u16),
    /// The secret of this key has fewer than 12 octets.
    ShortSecret(Key),
    /// The peer of this place has the same secret.
    SameSecret(u16),
    /// No route leads to the peer.
    NotLedTo,
    /// The prefix has an octet that a dialplan reads as a pattern.
    Pattern(u8),
    /// No call takes the route.
    Unused,
    /// Calls of the peer of this place have no format in common with the route's peer.
    NoCommonFormat(u16),
    /// The plan's version has no such key.
    Skipped,
}

/// A warning, with the table and the key that it is of.
#[derive(Clone, Copy)]
pub(crate) struct Warning<'a> {
    pub(crate) hint: Hint,
    pub(crate) section: Section,
    /// The place of the table in its list, from 0.
    pub(crate) place: usize,
    /// The place in the text, in octets from 0.
    pub(crate) at: usize,
    /// The name of the key, as `names` has names.
    pub(crate) name: &'a [u8],
}

fn write_skipped(source: Source<'_>, warning: &Warning<'_>, line: &mut TextBuffer) {
    let fault = Fault {
        rank: 0,
        what: What::Unknown,
        section: warning.section,
        place: warning.place,
        at: warning.at,
        name: warning.name,
        value: &[],
    };
    write_unknown(source, &fault, line);
    line.text("; it is skipped");
}

fn write_end_of_calls(minutes: u64, line: &mut TextBuffer) {
    line.labelled(
        "record_limit ends a call that only talks after about ",
        minutes / 60,
    );
    line.labelled(" h ", minutes % 60);
    line.text(" min");
}

fn write_hint(source: Source<'_>, warning: &Warning<'_>, line: &mut TextBuffer) {
    match warning.hint {
        Hint::EndsCalls(minutes) => write_end_of_calls(minutes, line),
        Hint::LowPort(port) => {
            line.labelled("port ", u64::from(port));
            line.text(" is below 1024, which mostly root alone may bind");
        }
        Hint::ShortSecret(key) => {
            line.text(key.name());
            line.text(" has fewer than 12 octets, and MD5 falls to guessing");
        }
        Hint::SameSecret(other) => {
            line.labelled("secret is that of peer ", u64::from(other));
            line.text(" too (counted from 0)");
        }
        Hint::NotLedTo => line.text("no route leads to it"),
        Hint::Pattern(octet) => {
            write_quoted(&[octet], line);
            line.text(" stands for itself: a prefix is no pattern of a dialplan");
        }
        Hint::Unused => {
            line.text(
                "no call takes it: each peer that it is for has a route of its own with this prefix",
            )
        }
        Hint::NoCommonFormat(caller) => {
            line.labelled("calls of peer ", u64::from(caller));
            line.text(" (counted from 0) have no format in common with its peer");
        }
        Hint::Skipped => write_skipped(source, warning, line),
    }
}

fn write_line(
    source: Source<'_>,
    path: &str,
    text: &[u8],
    warning: &Warning<'_>,
    report: &mut TextBuffer,
)
    ensures { Adds 1 report.old report.new }
{
    let mut line = TextBuffer::new(source.alloc);
    begin_line(path, line_at(text, warning.at), &mut line);
    line.text("warning: ");
    write_subject(source.root, warning.section, warning.place, &mut line);
    write_hint(source, warning, &mut line);
    push_line(&line, report);
}

fn write_kept(
    source: Source<'_>,
    path: &str,
    text: &[u8],
    kept: &[Warning<'_>],
    report: &mut TextBuffer,
)
    ensures { Adds (length kept.now) report.old report.new }
{
    for warning in kept {
        write_line(source, path, text, warning, report);
    }
}

// Writes the warnings of a plan that was read from a document.
fn write_of(
    alloc: Global,
    plan: &Plan,
    root: &Table,
    path: &str,
    text: &[u8],
    report: &mut TextBuffer,
) -> Counts
    ensures most { result.written ≤ 20 }
    ensures more { 0 < result.more → result.written ≡ 20 }
    ensures lines { Adds (lines_of result) report.old report.new }
{
    let source = Source {
        alloc,
        root,
        workers: items_of(root, Section::Worker).len() as u64,
    };
    let warnings = warnings_of(alloc, plan, root, text);
    let kept = warnings.kept();
    write_kept(source, path, text, kept, report);
    let written = kept.len() as u64;
    if kept.len() < MOST_KEPT || warnings.more == 0 {
        return Counts { written, more: 0 };
    }
    write_more(alloc, path, warnings.more, " further warnings", report);
    Counts {
        written,
        more: warnings.more,
    }
}

// Writes that others may read the file, if they may. Returns the number of lines that it wrote.
fn write_open_to_others(alloc: Global, path: &str, is_open: bool, report: &mut TextBuffer) -> u64
    ensures most { result ≤ 1 }
    ensures lines { Adds result report.old report.new }
{
    if !is_open {
        return 0;
    }
    let mut line = TextBuffer::new(alloc);
    write_shown(path.as_bytes(), &mut line);
    line.text(": warning: every user of this machine may read it, with its secrets");
    push_line(&line, report);
    1
}

/// Writes the warnings of a right plan, a line each in the order of the text: 20, and the number of those beyond these. It
/// writes nothing for a plan that `Plan::read` refuses, or if memory runs out. No value of a secret is written.
///
/// The caller says whether every user of the machine may read the file. That warning comes first, in addition to the 20.
pub fn write_warnings(
    alloc: Global,
    path: &str,
    text: &[u8],
    is_open_to_others: bool,
    report: &mut TextBuffer,
) -> Counts
    ensures most { result.written ≤ 21 }
    ensures more { 0 < result.more → 20 ≤ result.written }
    ensures right { IsErr (plan_of text.now) → result.written ≡ 0 }
    ensures lines { Adds (lines_of result) report.old report.new }
{
    let Ok(plan) = Plan::read(alloc, text) else {
        return Counts {
            written: 0,
            more: 0,
        };
    };
    let first = write_open_to_others(alloc, path, is_open_to_others && has_secret(&plan), report);
    let Ok(root) = toml::table_from_slice(alloc, text) else {
        return Counts {
            written: first,
            more: 0,
        };
    };
    let counts = write_of(alloc, &plan, &root, path, text, report);
    Counts {
        written: first + counts.written,
        more: counts.more,
    }
}
