//! Comparisons of the tables of a list.
use crate::tables::{items_of, text_at};
use peer_plan::{Key, Section};
use toml::{Table, Value};

/// Returns the place of the first table of a list that has this text at a key. Only `count` tables are compared.
pub(crate) fn place_of_text(
    root: &Table,
    section: Section,
    key: Key,
    text: &str,
    count: usize,
) -> Option<usize> {
    for (place, item) in items_of(root, section).iter().enumerate() {
        if place >= count {
            return None;
        }
        if let Some(table) = item.as_table()
            && text_at(table, key) == Some(text)
        {
            return Some(place);
        }
    }
    None
}

fn number_at(table: &Table, key: Key) -> Option<i64> {
    match table.get(key.name()) {
        Some(Value::Integer(number)) => Some(*number),
        _ => None,
    }
}

// Returns whether two tables have one address and one port.
fn have_same_endpoint(table: &Table, other: &Table) -> bool {
    let port = number_at(table, Key::Port);
    let address = text_at(table, Key::Address);
    port.is_some()
        && address.is_some()
        && port == number_at(other, Key::Port)
        && address == text_at(other, Key::Address)
}

/// Returns the place of the first of `count` peers that has a peer's address and port.
pub(crate) fn same_endpoint(root: &Table, peer: &Table, count: usize) -> Option<usize> {
    for (place, item) in items_of(root, Section::Peer).iter().enumerate() {
        if place >= count {
            return None;
        }
        if let Some(other) = item.as_table()
            && have_same_endpoint(peer, other)
        {
            return Some(place);
        }
    }
    None
}
