//! The routes of a plan by what a call needs to take them.
use crate::tables::{items_of, text_at};
use peer_plan::{Key, Section};
use std::alloc::Global;
use std::cmp::Ordering;
use toml::Table;

/// A route: its prefix, its source if the plan's version has sources, and its place in the list.
#[derive(Clone, Copy)]
pub(crate) struct Way<'t> {
    prefix: &'t [u8],
    source: Option<&'t [u8]>,
    place: usize,
}

fn is_source_before(source: Option<&[u8]>, other: Option<&[u8]>) -> bool {
    match (source, other) {
        (None, Some(_)) => true,
        (Some(source), Some(other)) => source < other,
        _ => false,
    }
}

// Returns whether a route is sorted before a prefix and a source.
fn is_before(way: &Way<'_>, prefix: &[u8], source: Option<&[u8]>) -> bool {
    way.prefix < prefix || way.prefix == prefix && is_source_before(way.source, source)
}

fn compare(way: &Way<'_>, other: &Way<'_>) -> Ordering {
    if is_before(way, other.prefix, other.source) {
        Ordering::Less
    } else if is_before(other, way.prefix, way.source) {
        Ordering::Greater
    } else {
        way.place.cmp(&other.place)
    }
}

/// Returns the source of a route in a plan of this version.
pub(crate) fn source_of(route: &Table, version: u64) -> Option<&[u8]> {
    if version != 4 {
        return None;
    }
    Some(text_at(route, Key::Source)?.as_bytes())
}

/// Returns the routes of a plan with their prefixes in order, of one prefix with their sources in order, then by their places. If
/// memory runs out, it returns none.
pub(crate) fn ways_of(alloc: Global, root: &Table, version: u64) -> Vec<Way<'_>> {
    let mut ways = Vec::new(alloc);
    for (place, item) in items_of(root, Section::Route).iter().enumerate() {
        if let Some(table) = item.as_table()
            && let Some(prefix) = text_at(table, Key::Prefix)
        {
            let way = Way {
                prefix: prefix.as_bytes(),
                source: source_of(table, version),
                place,
            };
            if ways.push(way).is_err() {
                return Vec::new(alloc);
            }
        }
    }
    ways.sort_unstable_by(|way, other| compare(way, other));
    ways
}

/// Returns the place of the first route with a prefix and a source.
pub(crate) fn first_way(ways: &[Way<'_>], prefix: &[u8], source: Option<&[u8]>) -> Option<usize> {
    let at = ways.partition_point(|way| is_before(way, prefix, source));
    let way = ways.get(at)?;
    if way.prefix == prefix && !is_source_before(source, way.source) {
        Some(way.place)
    } else {
        None
    }
}

/// Returns the number of routes with a prefix.
pub(crate) fn prefix_count(ways: &[Way<'_>], prefix: &[u8]) -> usize {
    let from = ways.partition_point(|way| way.prefix < prefix);
    let to = ways.partition_point(|way| way.prefix <= prefix);
    to.saturating_sub(from)
}
