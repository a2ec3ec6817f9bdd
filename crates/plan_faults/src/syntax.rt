//! The fault of a text that isn't TOML.
ghost use Rattle.std.specs.Prelude.{◌≡◌, ◌≤◌};
ghost use Rattle.plan_faults.specs.Lines.{Adds};

use crate::lines::{begin_line, line_at, write_name, write_shown};
use crate::names::first_part;
use crate::report::{Counts, push_line};
use crate::rows::{Form, row_anywhere};
use crate::scan::{Stop, stop_at, trimmed};
use crate::words::write_expected;
use plain_text::TextBuffer;
use std::alloc::Global;
use toml_parser::ErrorKind;
use toml_parser::bytes::byte_at;

// The faults of TOML, in words.
static WORDS: [(ErrorKind, &str); 16] = [
    (
        ErrorKind::Key,
        "no key begins here: letters, digits, \"_\" and \"-\", or a text in quotes",
    ),
    (ErrorKind::MissingEquals, "a key wants \"=\" and a value"),
    (
        ErrorKind::UnclosedTable,
        "a header wants its closing bracket, ]",
    ),
    (
        ErrorKind::UnclosedArrayTable,
        "a header with two brackets wants two closing ones, ]]",
    ),
    (
        ErrorKind::EndOfLine,
        "a value has something behind it; each key wants a line of its own, and a text quotes",
    ),
    (ErrorKind::Content, "a value has something behind it"),
    (
        ErrorKind::Array,
        "a list wants a comma or its closing bracket, ]",
    ),
    (
        ErrorKind::InlineTable,
        "a table in braces wants a comma or its closing brace, }",
    ),
    (
        ErrorKind::String,
        "a text isn't closed by its quote, or has an octet that has to be written as \\u....",
    ),
    (
        ErrorKind::Escape,
        "a \"\\\" begins what TOML doesn't know; write \"\\\\\" for one, or put the text in single quotes",
    ),
    (ErrorKind::Value, "a text wants quotes"),
    (ErrorKind::Underscore, "a \"_\" stands between digits alone"),
    (ErrorKind::Overflow, "a number is too large"),
    (ErrorKind::Datetime, "a date is none"),
    (ErrorKind::Extend, "a key goes below one that has a value"),
    (ErrorKind::Recursion, "lists or keys are more than 80 deep"),
];

// Returns the kind of a fault by the parser's message, and its words here.
fn kind_of(error: &toml::de::Error) -> Option<(ErrorKind, &'static str)> {
    for row in &WORDS {
        if row.0.description() == error.message() {
            return Some(*row);
        }
    }
    None
}

// Returns the place at which the line of a place begins.
fn line_begin(text: &[u8], at: usize) -> usize {
    let mut begin = 0;
    for (place, octet) in text[..at.min(text.len())].iter().enumerate() {
        if *octet == b'\n' {
            begin = place.saturating_add(1);
        }
    }
    begin
}

// Returns the octets up to the end of the first line.
fn first_line(text: &[u8]) -> &[u8] {
    match text.split(|octet| *octet == b'\n').next() {
        Some(line) => line.trim_ascii(),
        None => text,
    }
}

// Returns whether a text begins with the mark of UTF-16.
fn is_utf_16(text: &[u8]) -> bool {
    text.starts_with(b"\xff\xfe") || text.starts_with(b"\xfe\xff")
}

// Writes that a value is none of TOML, with the value if its key has numbers or flags.
fn write_value(alloc: Global, text: &[u8], at: usize, words: &str, report: &mut TextBuffer) {
    let begin = line_begin(text, at).min(text.len());
    let equals = stop_at(text, begin, Stop::Equals);
    let (name, _) = first_part(alloc, trimmed(text, begin, equals));
    let end = stop_at(text, equals, Stop::LineEnd);
    // An unclosed bracket extends over later keys, so only the first line is shown.
    let value = first_line(trimmed(text, equals.saturating_add(1), end));
    let Some(row) = row_anywhere(name) else {
        return report.text(words);
    };
    // (the number of workers isn't known)
    let form = match row.form {
        Form::Passes => Form::Number(1, 64),
        Form::WorkerPlace => Form::Number(0, 7),
        form => form,
    };
    match form {
        Form::Number(..) | Form::Flag | Form::Version => {
            write_shown(name, report);
            report.text(" ");
            write_shown(value, report);
            write_expected(form, value, 1, report);
        }
        _ => report.text(words),
    }
}

// Writes that a key or a header is there already.
fn write_doubled(alloc: Global, text: &[u8], at: usize, report: &mut TextBuffer) {
    if byte_at(text, at) == b'[' {
        let end = stop_at(text, at.min(text.len()), Stop::LineEnd);
        write_shown(trimmed(text, at, end), report);
        report.text(" is here a second time; a list of tables has double brackets, [[..]]");
        return;
    }
    let equals = stop_at(text, at.min(text.len()), Stop::Equals);
    let (name, _) = first_part(alloc, trimmed(text, at, equals));
    write_name(name, report);
    report.text(" is in its table a second time");
}

// Writes that an octet isn't UTF-8.
fn write_octet_fault(text: &[u8], at: usize, report: &mut TextBuffer) {
    if is_utf_16(text) {
        return report.text("a text in UTF-16; write the plan in UTF-8");
    }
    report.text("an octet that isn't UTF-8: ");
    write_shown(trimmed(text, at, at.saturating_add(1)), report);
}

fn write_what(
    alloc: Global,
    text: &[u8],
    at: usize,
    error: &toml::de::Error,
    report: &mut TextBuffer,
) {
    if error.message() == ErrorKind::Utf8.description() {
        return write_octet_fault(text, at, report);
    }
    if text.get(at) == Some(&0) {
        return report.text(
            "an octet 0: this is no text, or one in UTF-16; write the plan in UTF-8",
        );
    }
    match kind_of(error) {
        Some((ErrorKind::Value, words)) => write_value(alloc, text, at, words, report),
        Some((_, words)) => report.text(words),
        None => write_doubled(alloc, text, at, report),
    }
}

/// Writes why a text isn't TOML; nothing if memory ran out.
pub(crate) fn write_syntax(
    alloc: Global,
    path: &str,
    text: &[u8],
    error: &toml::de::Error,
    report: &mut TextBuffer,
) -> Counts
    ensures most { result.written ≤ 1 }
    ensures no_more { result.more ≡ 0 }
    ensures lines { Adds result.written report.old report.new }
{
    let Some(span) = error.span() else {
        return Counts {
            written: 0,
            more: 0,
        };
    };
    let mut line = TextBuffer::new(alloc);
    begin_line(path, line_at(text, span.start), &mut line);
    write_what(alloc, text, span.start, error, &mut line);
    push_line(&line, report);
    Counts {
        written: 1,
        more: 0,
    }
}
