//! The names of keys as they are written.
//!
//! A name is stored as the octets that it spells. An empty name, or one that has escapes or begins with a quote, keeps its
//! quotes and escapes, unless it is a key of a plan.
use crate::rows::row_anywhere;
use std::alloc::Global;
use toml_parser::{Key, dotted_key};

/// Returns the text that a name denotes. None: memory ran out.
pub(crate) fn text_of(alloc: Global, name: &[u8]) -> Option<String> {
    let text = std::str::from_utf8(name).ok()?;
    if !is_quoted(name) {
        return String::from_str(alloc, text).ok();
    }
    let (Key { last, .. }, _) = dotted_key(alloc, text).ok()?;
    Some(last)
}

// Returns the name of the plan's key that a name in quotes denotes.
fn known_name(alloc: Global, name: &[u8]) -> Option<&'static str> {
    let text = text_of(alloc, name)?;
    Some(row_anywhere(text.as_bytes())?.key.name())
}

/// Returns whether a name keeps its quotes.
pub(crate) fn is_quoted(name: &[u8]) -> bool {
    matches!(name.first(), Some(b'"' | b'\''))
}

// Returns the place of the quote that ends the name at the beginning of a key; the key's end if there is none.
fn closing_quote(key: &[u8], quote: u8) -> usize {
    let mut is_escaped = false;
    for (place, octet) in key.iter().enumerate() {
        if is_escaped {
            is_escaped = false;
        } else if place > 0 && *octet == quote {
            return place;
        } else {
            is_escaped = *octet == b'\\' && quote == b'"';
        }
    }
    key.len()
}

// Returns the name of a part in quotes.
fn quoted_name<'a>(alloc: Global, part: &'a [u8], quote: u8) -> &'a [u8] {
    let inner = part.get(1..part.len().saturating_sub(1)).unwrap_or(&[]);
    let has_escapes = quote == b'"' && inner.contains(&b'\\');
    if !inner.is_empty() && !has_escapes && !is_quoted(inner) {
        return inner;
    }
    match known_name(alloc, part) {
        Some(name) => name.as_bytes(),
        None => part,
    }
}

// Returns the octets behind a dot, if one comes next.
fn behind_dot(rest: &[u8]) -> &[u8] {
    match rest.trim_ascii() {
        [b'.', parts @ ..] => parts.trim_ascii(),
        _ => &[],
    }
}

/// Returns the name of the first part of a key with dots, and the parts behind it.
pub(crate) fn first_part(alloc: Global, key: &[u8]) -> (&[u8], &[u8]) {
    match key.first() {
        Some(quote @ (b'"' | b'\'')) => {
            let end = closing_quote(key, *quote).saturating_add(1);
            let part = key.get(..end).unwrap_or(key);
            (
                quoted_name(alloc, part, *quote),
                behind_dot(key.get(end..).unwrap_or(&[])),
            )
        }
        _ => {
            let mut parts = key.splitn(2, |octet| *octet == b'.');
            let name = parts.next().unwrap_or(&[]);
            let behind = parts.next().unwrap_or(&[]);
            (name.trim_ascii(), behind.trim_ascii())
        }
    }
}

/// Returns whether a name comes before another by the order of the octets that they denote.
pub(crate) fn is_name_before(alloc: Global, name: &[u8], other: &[u8]) -> bool {
    if !is_quoted(name) && !is_quoted(other) {
        return name < other;
    }
    match (text_of(alloc, name), text_of(alloc, other)) {
        (Some(text), Some(other)) => text.as_bytes() < other.as_bytes(),
        _ => name < other,
    }
}
