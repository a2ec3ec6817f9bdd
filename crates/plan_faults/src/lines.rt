//! The beginning of a report's line: the file, the line, and the table.
ghost use Rattle.std.specs.Prelude.{◌≡◌};
ghost use Rattle.plan_faults.specs.Lines.{line_ends, line_at};

use crate::names::is_quoted;
use crate::tables::{list_key, table_at, text_at};
use peer_plan::{Key, Section};
use plain_text::TextBuffer;
use std::io::Write;
use toml::Table;

// The most octets of a text that are shown.
const MOST_SHOWN: usize = 64;

// Returns the number of lines that end in a text.
fn line_ends(text: &[u8]) -> usize
    ensures { result ≡ line_ends text.now }
{
    text.iter().filter(|octet| **octet == b'\n').count()
}

/// Returns the number, from 1, of the line with the octet at a place, or that of the last line if the text is shorter.
pub(crate) fn line_at(text: &[u8], at: usize) -> u64
    ensures { result ≡ line_at text.now at }
{
    let before = &text[..at.min(text.len())];
    line_ends(before) as u64 + 1
}

fn write_octet(octet: u8, report: &mut TextBuffer) {
    if (0x20..=0x7e).contains(&octet) {
        return report.put(&[octet]);
    }
    if write!(report.octets, "\\x{octet:02x}").is_err() {
        report.is_cut = true;
    }
}

/// Writes the first octets of a text, each that isn't 0x20 ..= 0x7e as `\xNN`.
pub(crate) fn write_shown(text: &[u8], report: &mut TextBuffer) {
    for octet in &text[..text.len().min(MOST_SHOWN)] {
        write_octet(*octet, report);
    }
    if text.len() > MOST_SHOWN {
        report.text("...");
    }
}

/// Writes a text in quotes.
pub(crate) fn write_quoted(text: &[u8], report: &mut TextBuffer) {
    report.text("\"");
    write_shown(text, report);
    report.text("\"");
}

/// Writes the name of a key in quotes.
pub(crate) fn write_name(name: &[u8], report: &mut TextBuffer) {
    if is_quoted(name) {
        write_shown(name, report);
    } else {
        write_quoted(name, report);
    }
}

/// Writes the file and the line.
pub(crate) fn begin_line(path: &str, line: u64, report: &mut TextBuffer) {
    write_shown(path.as_bytes(), report);
    report.labelled(":", line);
    report.text(": ");
}

// Returns the key by which a table of a list is named.
fn naming_key(section: Section) -> Option<Key> {
    match section {
        Section::Peer => Some(Key::Name),
        Section::Route => Some(Key::Prefix),
        Section::Plan | Section::Worker => None,
    }
}

fn name_of(root: &Table, section: Section, place: usize) -> Option<&str> {
    text_at(table_at(root, section, place)?, naming_key(section)?)
}

/// Writes the name or prefix of a table of a list, otherwise its place from 0. It writes nothing for the plan itself.
pub(crate) fn write_subject(root: &Table, section: Section, place: usize, report: &mut TextBuffer) {
    let Some(key) = list_key(section) else {
        return;
    };
    report.text(key.name());
    report.text(" ");
    match name_of(root, section, place) {
        Some(name) => write_quoted(name.as_bytes(), report),
        None => report.number(place as u64),
    }
    report.text(": ");
}
