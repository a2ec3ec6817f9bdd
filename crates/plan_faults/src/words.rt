//! The faults of a plan in words.
use crate::fault::{Fault, What};
use crate::lines::{write_name, write_quoted, write_shown, write_subject};
use crate::meant::{meant_key, meant_peer};
use crate::rows::{Form, row_anywhere, row_named};
use crate::tables::{list_key, table_at, text_at, version_of};
use peer_plan::{Key, Section};
use plain_text::TextBuffer;
use std::alloc::Global;
use toml::Table;

/// The plan that a report is of.
#[derive(Clone, Copy)]
pub(crate) struct Source<'t> {
    pub(crate) alloc: Global,
    pub(crate) root: &'t Table,
    /// The number of workers.
    pub(crate) workers: u64,
}

fn write_range(what: &str, low: u64, high: u64, report: &mut TextBuffer) {
    report.text(what);
    report.labelled(" a whole number from ", low);
    report.labelled(" to ", high);
}

// Returns the end of the sentence on an address.
fn address_hint(value: &[u8]) -> &'static str {
    if value.contains(&b':') {
        return " (IPv6 isn't spoken here, and the port has a key of its own)";
    }
    if value.iter().any(|octet| octet.is_ascii_alphabetic()) {
        return " (host names aren't read here)";
    }
    " from 0 to 255, joined by dots, without leading zeros"
}

// Returns what a value isn't.
fn expectation(form: Form, value: &[u8]) -> &'static str {
    match form {
        Form::Version => " isn't 1, 2 or 4",
        Form::Flag => " isn't true or false (without quotes)",
        Form::Address => " isn't four decimal numbers",
        Form::Name => " isn't 1 to 32 ASCII letters, digits and \"-\", in quotes",
        Form::User | Form::Secret => " isn't 1 to 64 octets of printable ASCII, in quotes",
        Form::Formats => " isn't a list of \"gsm\", \"ulaw\" and \"alaw\", at least one of them",
        Form::Prefix => " isn't 0 to 32 octets of printable ASCII without blanks, in quotes",
        Form::PeerName => " isn't the name of a peer, in quotes",
        Form::Tables(_) => {
            if value.first() == Some(&b'[') {
                " is one table; a list of tables has double brackets, [[..]]"
            } else {
                " isn't a list of tables"
            }
        }
        Form::Number(..) | Form::Passes | Form::WorkerPlace => "",
    }
}

/// Writes what a value isn't, with its range.
pub(crate) fn write_expected(form: Form, value: &[u8], workers: u64, report: &mut TextBuffer) {
    match form {
        Form::Number(low, high) => write_range(" isn't", low, high, report),
        Form::Passes => write_range(" isn't", workers, 64, report),
        Form::WorkerPlace => {
            let last = workers.saturating_sub(1);
            write_range(" isn't the place of a worker:", 0, last, report);
        }
        _ => report.text(expectation(form, value)),
    }
    if let Form::Address = form {
        report.text(address_hint(value));
    }
    if let (Form::Number(..) | Form::Passes | Form::WorkerPlace, Some(b'"' | b'\'')) = (
        form,
        value.first(),
    ) {
        report.text(" (without quotes)");
    }
}

/// Writes the name that was meant, if there is one.
pub(crate) fn write_meant(meant: Option<&str>, report: &mut TextBuffer) {
    if let Some(name) = meant {
        report.text("; did you mean ");
        write_quoted(name.as_bytes(), report);
        report.text("?");
    }
}

// Returns whether an unknown key of a list's table is one of the plan itself.
fn is_misplaced(section: Section, version: u64, name: &[u8]) -> bool {
    section != Section::Plan && row_named(Section::Plan, version, name).is_some()
}

/// Writes that a table has no such key, and the key that was meant.
pub(crate) fn write_unknown(source: Source<'_>, fault: &Fault<'_>, report: &mut TextBuffer) {
    let version = version_of(source.root);
    report.text("unknown key ");
    write_name(fault.name, report);
    if let Some(row) = row_named(fault.section, 4, fault.name) {
        report.text(" in plan version ");
        report.counted(version, "; version ");
        return report.counted(row.since, " has it");
    }
    let meant = meant_key(source.alloc, fault.name, fault.section, version);
    if meant.is_none() && row_anywhere(fault.name).is_some() {
        return report.text("; it belongs to another table");
    }
    write_meant(meant, report);
}

fn write_missing(key: Key, fault: &Fault<'_>, report: &mut TextBuffer) {
    write_quoted(key.name().as_bytes(), report);
    report.text(" is missing");
    match (fault.section, key) {
        (Section::Plan, Key::Format) => report.text(": 1, 2 or 4, above the first table"),
        (Section::Plan, _) => {
            report.text(": at least one table [[");
            report.text(key.name());
            report.text("]]");
        }
        (Section::Peer, Key::User) => report.text(": a secret wants a user"),
        _ => {}
    }
}

// Returns the name that a route gives.
fn route_name<'t>(root: &'t Table, fault: &Fault<'_>) -> &'t str {
    match table_at(root, Section::Route, fault.place) {
        Some(table) => {
            let key = match row_named(Section::Route, 4, fault.name) {
                Some(row) => row.key,
                None => Key::Peer,
            };
            text_at(table, key).unwrap_or("")
        }
        None => "",
    }
}

fn write_no_peer(source: Source<'_>, fault: &Fault<'_>, report: &mut TextBuffer) {
    let name = route_name(source.root, fault).as_bytes();
    report.text("no peer is named ");
    write_quoted(name, report);
    write_meant(meant_peer(source.alloc, name, source.root), report);
}

fn write_too_many(fault: &Fault<'_>, report: &mut TextBuffer) {
    write_shown(fault.name, report);
    let most = match row_named(Section::Plan, 4, fault.name) {
        Some(row) => match row.form {
            Form::Tables(Some(most)) => most as u64,
            _ => 0,
        },
        None => 0,
    };
    report.labelled(": more tables than the ", most);
    report.text(" that a plan may have");
}

// Writes that a table is like an earlier one.
fn write_same(fault: &Fault<'_>, place: usize, what: &str, report: &mut TextBuffer) {
    report.text(what);
    report.text(" is that of ");
    if let Some(key) = list_key(fault.section) {
        report.text(key.name());
        report.labelled(" ", place as u64);
        report.text(" too (counted from 0)");
    }
}

// Writes a fault behind its subject.
fn write_what(source: Source<'_>, fault: &Fault<'_>, report: &mut TextBuffer) {
    match fault.what {
        What::Missing(key) => write_missing(key, fault, report),
        What::Expected(form) => {
            write_shown(fault.name, report);
            if !fault.value.is_empty() {
                report.text(" ");
                write_shown(fault.value, report);
            }
            write_expected(form, fault.value, source.workers, report);
        }
        What::TooMany => write_too_many(fault, report),
        What::NoTable => report.text("it isn't a table"),
        What::SameName(place) => write_same(fault, place, "its name", report),
        What::SameEndpoint(place) => write_same(fault, place, "its address and port", report),
        What::SameRoute(place) => {
            write_same(fault, place, "its prefix, for the same callers,", report)
        }
        What::NoPeer => write_no_peer(source, fault, report),
        What::Unknown => write_unknown(source, fault, report),
    }
}

/// Writes the subject of a fault, and the fault.
pub(crate) fn write_fault(source: Source<'_>, fault: &Fault<'_>, report: &mut TextBuffer) {
    let version = version_of(source.root);
    if let What::Unknown = fault.what
        && is_misplaced(fault.section, version, fault.name)
    {
        write_name(fault.name, report);
        return report.text(" belongs above the first [[worker]], [[peer]] or [[route]]");
    }
    let is_list = matches!(fault.what, What::TooMany);
    if !is_list {
        write_subject(source.root, fault.section, fault.place, report);
    }
    write_what(source, fault, report);
}
