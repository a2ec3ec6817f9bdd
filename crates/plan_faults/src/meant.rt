//! The known name that is nearest to an unknown one.
use crate::names::text_of;
use crate::rows::{KEY_COUNT, row_in};
use crate::tables::{items_of, text_at};
use peer_plan::{Key, Section};
use std::alloc::Global;
use strsim::osa_distance;
use toml::Table;

// Returns the most edits between a name of this length and one that may have been meant.
fn most_edits(len: usize) -> usize {
    match len {
        0..=2 => 0,
        3..=4 => 1,
        5..=8 => 2,
        _ => 3,
    }
}

// Returns the number of edits from one name to another, if it is small.
fn edits(alloc: Global, name: &[u8], other: &str) -> Option<usize> {
    if name.len() > 64 {
        return None;
    }
    let text = std::str::from_utf8(name).ok()?;
    let edits = osa_distance(alloc, text, other).ok()?;
    if edits <= most_edits(name.len()) {
        Some(edits)
    } else {
        None
    }
}

// Returns the nearer of two names, each with its edits; the first of two that are as near.
fn nearer<'a>(
    best: Option<(usize, &'a str)>,
    edits: Option<usize>,
    name: &'a str,
) -> Option<(usize, &'a str)> {
    match (best, edits) {
        (Some((least, _)), Some(edits)) if edits < least => Some((edits, name)),
        (None, Some(edits)) => Some((edits, name)),
        _ => best,
    }
}

/// Returns the key of a table that is nearest to a name.
pub(crate) fn meant_key(
    alloc: Global,
    name: &[u8],
    section: Section,
    version: u64,
) -> Option<&'static str> {
    let text = text_of(alloc, name)?;
    let mut best: Option<(usize, &'static str)> = None;
    for place in 0..KEY_COUNT {
        if let Some(row) = row_in(place, section, version) {
            let key = row.key.name();
            best = nearer(best, edits(alloc, text.as_bytes(), key), key);
        }
    }
    Some(best?.1)
}

/// Returns the name of the peer that is nearest to a name, among the first 64 peers.
pub(crate) fn meant_peer<'t>(alloc: Global, name: &[u8], root: &'t Table) -> Option<&'t str> {
    let mut best: Option<(usize, &'t str)> = None;
    for item in items_of(root, Section::Peer).iter().take(64) {
        if let Some(table) = item.as_table()
            && let Some(other) = text_at(table, Key::Name)
        {
            best = nearer(best, edits(alloc, name, other), other);
        }
    }
    Some(best?.1)
}
