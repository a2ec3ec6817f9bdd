//! The keys of a plan that are skipped because no known key has that name.
use crate::values::{format_of, tables_of};
use peer_plan::{Key, Section, is_known};
use plain_text::TextBuffer;
use toml::Table;

// Warns of unknown keys of the plan itself.
fn warn_of_plan(table: &Table, format: u64, report: &mut TextBuffer) {
    for (key, _) in table.iter() {
        if !is_known(Section::Plan, format, key.as_str()) {
            report.text("warning: the plan's key ");
            report.text(key.as_str());
            report.text(" is unknown, and skipped\n");
        }
    }
}

// Warns of unknown keys of one table of a list.
fn warn_of_table(
    table: &Table,
    section: Section,
    list: Key,
    place: usize,
    format: u64,
    report: &mut TextBuffer,
) {
    for (key, _) in table.iter() {
        if !is_known(section, format, key.as_str()) {
            report.text("warning: the key ");
            report.text(key.as_str());
            report.text(" of ");
            report.text(list.name());
            report.text(" ");
            report.counted(place as u64, " is unknown in format ");
            report.counted(format, ", and skipped\n");
        }
    }
}

// Warns of unknown keys of the tables of a list, which are counted from 0 on.
fn warn_of_list(table: &Table, section: Section, list: Key, format: u64, report: &mut TextBuffer) {
    for (place, item) in tables_of(table, list).iter().enumerate() {
        if let Some(table) = item.as_table() {
            warn_of_table(table, section, list, place, format, report);
        }
    }
}

/// Writes a warning for each key that a plan doesn't have.
pub(crate) fn warn_of_unknown_keys(table: &Table, report: &mut TextBuffer) {
    let format = format_of(table);
    warn_of_plan(table, format, report);
    warn_of_list(table, Section::Worker, Key::Worker, format, report);
    warn_of_list(table, Section::Peer, Key::Peer, format, report);
    warn_of_list(table, Section::Route, Key::Route, format, report);
}
