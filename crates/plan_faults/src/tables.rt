//! The tables of a plan's document.
use peer_plan::{Key, Section};
use toml::{Table, Value};

/// Returns the key of a list.
pub(crate) fn list_key(section: Section) -> Option<Key> {
    match section {
        Section::Plan => None,
        Section::Worker => Some(Key::Worker),
        Section::Peer => Some(Key::Peer),
        Section::Route => Some(Key::Route),
    }
}

/// Returns the elements of a list; none if it isn't there.
pub(crate) fn items_of(root: &Table, section: Section) -> &[Value] {
    let Some(key) = list_key(section) else {
        return &[];
    };
    match root.get(key.name()) {
        Some(Value::Array(items)) => items,
        _ => &[],
    }
}

/// Returns a table of a list, or the plan itself.
pub(crate) fn table_at(root: &Table, section: Section, place: usize) -> Option<&Table> {
    match section {
        Section::Plan => Some(root),
        _ => items_of(root, section).get(place)?.as_table(),
    }
}

/// Returns the text at a key, if a text is there.
pub(crate) fn text_at(table: &Table, key: Key) -> Option<&str> {
    table.get(key.name())?.as_str()
}

/// Returns the version of a plan, and the newest if it has none.
pub(crate) fn version_of(root: &Table) -> u64 {
    match root.get(Key::Format.name()) {
        Some(Value::Integer(1)) => 1,
        Some(Value::Integer(2)) => 2,
        _ => 4,
    }
}
