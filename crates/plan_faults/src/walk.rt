//! The entries of a plan's text, in its order: tables of its lists, and keys with their values.
use crate::names::first_part;
use crate::scan::{Stop, skip_blanks, stop_at, trimmed};
use peer_plan::{Key, Section};
use std::alloc::Global;
use toml_parser::bytes::byte_at;

/// The kind of an entry.
#[derive(Clone, Copy)]
pub(crate) enum EntryKind {
    /// A table of a list begins.
    Table,
    /// A key, with its value or as a header.
    Key,
    /// A key below another key, or a sign between the elements of a list.
    Other,
}

/// A piece of a plan's text.
#[derive(Clone, Copy)]
pub(crate) struct Entry<'a> {
    pub(crate) kind: EntryKind,
    /// The table that begins, or that has the key.
    pub(crate) section: Section,
    /// The place of that table in its list, from 0.
    pub(crate) place: usize,
    /// The place at which the entry begins, in octets from 0.
    pub(crate) at: usize,
    /// The place at which its value ends.
    pub(crate) end: usize,
    /// The name of the key, as `names` has names.
    pub(crate) name: &'a [u8],
    /// The value as it is written; empty for a key with dots.
    pub(crate) value: &'a [u8],
}

// A list in brackets, and the progress of the walk in it.
#[derive(Clone, Copy)]
struct Brackets {
    section: Section,
    place: usize,
    at: usize,
    // Whether a table of it is open.
    is_inside: bool,
}

// The number of tables of each list that have begun.
#[derive(Clone, Copy)]
struct Counts {
    workers: usize,
    peers: usize,
    routes: usize,
}

/// A walk over a text that TOML accepts.
#[derive(Clone, Copy)]
pub(crate) struct Walk<'a> {
    alloc: Global,
    text: &'a [u8],
    at: usize,
    section: Section,
    // Whether the last header named no table of a list.
    is_below: bool,
    counts: Counts,
    brackets: Option<Brackets>,
}

/// Returns the list of this name, if a plan has one.
pub(crate) fn list_named(name: &[u8]) -> Option<Section> {
    for (key, section) in [
        (Key::Worker, Section::Worker),
        (Key::Peer, Section::Peer),
        (Key::Route, Section::Route),
    ] {
        if key.name().as_bytes() == name {
            return Some(section);
        }
    }
    None
}

fn count_of(counts: Counts, section: Section) -> usize {
    match section {
        Section::Plan => 1,
        Section::Worker => counts.workers,
        Section::Peer => counts.peers,
        Section::Route => counts.routes,
    }
}

// Returns the counts with one more table of a list.
fn with_one_more(counts: Counts, section: Section) -> Counts {
    let count = count_of(counts, section).saturating_add(1);
    match section {
        Section::Plan => counts,
        Section::Worker => Counts {
            workers: count,
            ..counts
        },
        Section::Peer => Counts {
            peers: count,
            ..counts
        },
        Section::Route => Counts {
            routes: count,
            ..counts
        },
    }
}

impl<'a> Walk<'a> {
    pub(crate) fn new(alloc: Global, text: &'a [u8]) -> Walk<'a> {
        let at = if text.starts_with(b"\xef\xbb\xbf") {
            3
        } else {
            0
        };
        Walk {
            alloc,
            text,
            at,
            section: Section::Plan,
            is_below: false,
            counts: Counts {
                workers: 0,
                peers: 0,
                routes: 0,
            },
            brackets: None,
        }
    }

    // Returns the place of the table of a list that began last.
    fn last_place(&self, section: Section) -> usize {
        count_of(self.counts, section).saturating_sub(1)
    }

    // Returns a key with its value, which ends where a scan stops.
    fn pair(&self, at: usize, stop: Stop, section: Section, place: usize) -> Entry<'a> {
        let text = self.text;
        let equals = stop_at(text, at.min(text.len()), Stop::Equals);
        let (name, parts) = first_part(self.alloc, trimmed(text, at, equals));
        let from = equals.saturating_add(1).min(text.len());
        let end = stop_at(text, from, stop);
        Entry {
            kind: EntryKind::Key,
            section,
            place,
            at,
            end,
            name,
            value: if parts.is_empty() {
                trimmed(text, from, end)
            } else {
                &[]
            },
        }
    }

    // Returns a key with its value that ends with the line.
    fn pair_of_line(&mut self, at: usize) -> Entry<'a> {
        let place = self.last_place(self.section);
        let entry = self.pair(at, Stop::LineEnd, self.section, place);
        self.at = entry.end;
        if self.is_below {
            return Entry {
                kind: EntryKind::Other,
                ..entry
            };
        }
        if let (Section::Plan, Some(section), b'[') = (
            self.section,
            list_named(entry.name),
            byte_at(entry.value, 0),
        ) {
            let equals = stop_at(self.text, at.min(self.text.len()), Stop::Equals);
            let from = equals.saturating_add(1).min(self.text.len());
            self.brackets = Some(Brackets {
                section,
                place: 0,
                at: skip_blanks(self.text, from).saturating_add(1),
                is_inside: false,
            });
        }
        entry
    }

    // Returns the entry of a header.
    fn header(&mut self, at: usize) -> Entry<'a> {
        let text = self.text;
        let is_double = byte_at(text, at.saturating_add(1)) == b'[';
        let from = at.saturating_add(if is_double { 2 } else { 1 });
        let close = stop_at(text, from.min(text.len()), Stop::Bracket);
        let end = stop_at(text, close, Stop::LineEnd);
        let (name, parts) = first_part(self.alloc, trimmed(text, from, close));
        self.at = end;
        let entry = Entry {
            kind: EntryKind::Key,
            section: Section::Plan,
            place: 0,
            at,
            end,
            name,
            value: trimmed(text, at, end),
        };
        match list_named(name) {
            Some(section) if is_double && parts.is_empty() => self.begin(section, entry),
            Some(section) if !parts.is_empty() => self.below(section, parts, entry),
            _ => {
                self.is_below = true;
                entry
            }
        }
    }

    // Returns the entry of a header that begins a table of a list.
    fn begin(&mut self, section: Section, entry: Entry<'a>) -> Entry<'a> {
        self.counts = with_one_more(self.counts, section);
        self.section = section;
        self.is_below = false;
        Entry {
            kind: EntryKind::Table,
            section,
            place: self.last_place(section),
            ..entry
        }
    }

    // Returns the entry of a header with dots: a key of the list's last table, if there is one.
    fn below(&mut self, section: Section, parts: &'a [u8], entry: Entry<'a>) -> Entry<'a> {
        self.is_below = true;
        if count_of(self.counts, section) == 0 {
            return entry;
        }
        let (name, _) = first_part(self.alloc, parts);
        Entry {
            section,
            place: self.last_place(section),
            name,
            ..entry
        }
    }

    // Returns the next entry of a list in brackets.
    fn element(&mut self, list: Brackets) -> Entry<'a> {
        let text = self.text;
        let at = skip_blanks(text, list.at.min(text.len()));
        let entry = Entry {
            kind: EntryKind::Other,
            section: list.section,
            place: list.place,
            at,
            end: at.saturating_add(1),
            name: &[],
            value: &[],
        };
        match (byte_at(text, at), list.is_inside) {
            (b',', is_inside) => {
                let place = list.place.saturating_add(if is_inside { 0 } else { 1 });
                self.brackets = Some(Brackets {
                    place,
                    at: entry.end,
                    ..list
                });
                entry
            }
            (b'{', false) | (b'}', true) => {
                self.brackets = Some(Brackets {
                    at: entry.end,
                    is_inside: !list.is_inside,
                    ..list
                });
                match list.is_inside {
                    true => entry,
                    false => Entry {
                        kind: EntryKind::Table,
                        ..entry
                    },
                }
            }
            (0 | b']', _) => {
                self.brackets = None;
                entry
            }
            (_, true) => {
                let entry = self.pair(at, Stop::Element, list.section, list.place);
                self.brackets = Some(Brackets {
                    at: entry.end,
                    ..list
                });
                entry
            }
            (_, false) => {
                self.brackets = Some(Brackets {
                    at: stop_at(text, at, Stop::Element),
                    ..list
                });
                Entry {
                    kind: EntryKind::Table,
                    ..entry
                }
            }
        }
    }

    /// Returns the next entry; none at the end of the text.
    pub(crate) fn next(&mut self) -> Option<Entry<'a>> {
        if let Some(list) = self.brackets {
            return Some(self.element(list));
        }
        let at = skip_blanks(self.text, self.at.min(self.text.len()));
        if at >= self.text.len() {
            return None;
        }
        if byte_at(self.text, at) == b'[' {
            Some(self.header(at))
        } else {
            Some(self.pair_of_line(at))
        }
    }
}
