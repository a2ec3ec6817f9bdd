//! Faults of the entries of a plan's text.
use crate::fault::{BEHIND_LIST, Fault, What, fault_of, rank, shown};
use crate::findings::Findings;
use crate::lists::{place_of_text, same_endpoint};
use crate::rows::{Form, KEY_COUNT, KeyRow, is_unknown, required_row, row_named, row_of};
use crate::tables::{items_of, list_key, table_at};
use crate::values::is_right;
use crate::walk::{Entry, EntryKind};
use crate::ways::{Way, first_way, source_of};
use peer_plan::{Key, Section};
use toml::{Table, Value};

/// The plan by which entries are judged.
#[derive(Clone, Copy)]
pub(crate) struct Judge<'t> {
    pub(crate) root: &'t Table,
    pub(crate) version: u64,
    /// The number of workers, at least 1.
    pub(crate) workers: u64,
    /// The routes, as `ways_of` returns them.
    pub(crate) ways: &'t [Way<'t>],
}

// Returns the place of a list in the order of a plan's keys.
fn list_order(section: Section) -> u8 {
    match list_key(section) {
        Some(key) => row_of(key).order,
        None => 0,
    }
}

// Returns the rank of a fault at a key of a table.
fn rank_of(section: Section, place: usize, order: u8) -> u64 {
    match section {
        Section::Plan => rank(order, 0, 0),
        _ => rank(list_order(section), place.saturating_add(1), order),
    }
}

// Returns the rank of an unknown key, behind all other faults.
fn unknown_rank(section: Section, place: usize) -> u64 {
    let order = match section {
        Section::Plan => 0x40,
        Section::Worker => 0x41,
        Section::Peer => 0x42,
        Section::Route => 0x43,
    };
    rank(order, place, 0)
}

impl<'t> Judge<'t> {
    /// Finds the plan's own keys that are missing.
    pub(crate) fn judge_plan(&self, findings: &mut Findings<'_>) {
        let entry = Entry {
            kind: EntryKind::Table,
            section: Section::Plan,
            place: 0,
            at: 0,
            end: 0,
            name: &[],
            value: &[],
        };
        self.judge_keys(entry, self.root, findings);
    }

    // Finds the keys that a table has to have and doesn't.
    fn judge_keys<'a>(&self, entry: Entry<'a>, table: &Table, findings: &mut Findings<'a>) {
        for place in 0..KEY_COUNT {
            if let Some(row) = required_row(place, entry.section, self.version)
                && table.get(row.key.name()).is_none()
            {
                self.push_missing(entry, row, findings);
            }
        }
    }

    fn push_missing<'a>(&self, entry: Entry<'a>, row: KeyRow, findings: &mut Findings<'a>) {
        let rank = rank_of(entry.section, entry.place, row.order);
        findings.push(fault_of(entry, rank, What::Missing(row.key)));
    }

    // Checks that a peer with a secret, of either direction, has a user.
    fn judge_user<'a>(&self, entry: Entry<'a>, table: &Table, findings: &mut Findings<'a>) {
        let has_secret = table.get(Key::Secret.name()).is_some()
            || self.version == 4 && table.get(Key::OutboundSecret.name()).is_some();
        if has_secret
            && table.get(Key::User.name()).is_none()
            && let Some(row) = row_named(Section::Peer, 1, Key::User.name().as_bytes())
        {
            self.push_missing(entry, row, findings);
        }
    }

    // Finds the faults of a table as a whole.
    fn judge_table<'a>(&self, entry: Entry<'a>, findings: &mut Findings<'a>) {
        if let Some(key) = list_key(entry.section)
            && let Form::Tables(Some(most)) = row_of(key).form
            && entry.place == most
            && !entry.name.is_empty()
        {
            let rank = rank(list_order(entry.section), 0, 0);
            findings.push(fault_of(entry, rank, What::TooMany));
        }
        if entry.place >= items_of(self.root, entry.section).len() {
            return;
        }
        match table_at(self.root, entry.section, entry.place) {
            Some(table) => {
                self.judge_keys(entry, table, findings);
                if entry.section == Section::Peer {
                    self.judge_user(entry, table, findings);
                }
            }
            None => {
                let rank = rank_of(entry.section, entry.place, 0);
                findings.push(fault_of(entry, rank, What::NoTable));
            }
        }
    }

    // Returns the kind of fault of a value that isn't of its form.
    fn wrong_value(&self, row: KeyRow, value: &Value) -> What {
        match (row.form, value) {
            (Form::Tables(Some(_)), Value::Array(items)) => {
                if items.is_empty() {
                    What::Missing(row.key)
                } else {
                    What::TooMany
                }
            }
            _ => What::Expected(row.form),
        }
    }

    // Returns whether a text is one of an earlier table's, or names no peer.
    fn same_or_unknown(
        &self,
        entry: Entry<'_>,
        row: KeyRow,
        table: &Table,
        text: &str,
    ) -> Option<What> {
        let place = entry.place;
        match (entry.section, row.key) {
            (Section::Peer, Key::Name) if place < 32 => {
                let other = place_of_text(self.root, Section::Peer, Key::Name, text, place)?;
                Some(What::SameName(other))
            }
            (Section::Route, Key::Peer | Key::Source) => {
                match place_of_text(self.root, Section::Peer, Key::Name, text, 64) {
                    Some(_) => None,
                    None => Some(What::NoPeer),
                }
            }
            (Section::Route, Key::Prefix) => {
                let source = source_of(table, self.version);
                match first_way(self.ways, text.as_bytes(), source) {
                    Some(other) if other < place => Some(What::SameRoute(other)),
                    _ => None,
                }
            }
            _ => None,
        }
    }

    // Returns the fault of the value at a key, if it has one.
    fn fault_of_value(&self, entry: Entry<'_>, row: KeyRow, table: &Table) -> Option<What> {
        let value = table.get(row.key.name())?;
        if !is_right(row.form, value, self.workers) {
            return Some(self.wrong_value(row, value));
        }
        if entry.section == Section::Peer && row.key == Key::Port && entry.place < 32 {
            let other = same_endpoint(self.root, table, entry.place)?;
            return Some(What::SameEndpoint(other));
        }
        self.same_or_unknown(entry, row, table, value.as_str()?)
    }

    // Returns the rank of the fault of a value.
    fn rank_of_value(&self, entry: Entry<'_>, row: KeyRow, what: What) -> u64 {
        match what {
            What::SameName(_) => rank(list_order(Section::Peer), BEHIND_LIST, 0),
            What::SameEndpoint(_) => rank(list_order(Section::Peer), BEHIND_LIST, 1),
            What::SameRoute(_) => rank_of(Section::Route, entry.place, 0x3f),
            _ => rank_of(entry.section, entry.place, row.order),
        }
    }

    // Finds the fault of a key and its value.
    fn judge_key<'a>(&self, entry: Entry<'a>, findings: &mut Findings<'a>) {
        let Some(table) = table_at(self.root, entry.section, entry.place) else {
            return;
        };
        let Some(row) = row_named(entry.section, self.version, entry.name) else {
            if self.version == 4 && is_unknown(entry.section, 4, entry.name) {
                let rank = unknown_rank(entry.section, entry.place);
                findings.push(fault_of(entry, rank, What::Unknown));
            }
            return;
        };
        if let Some(what) = self.fault_of_value(entry, row, table) {
            let rank = self.rank_of_value(entry, row, what);
            findings.push(Fault {
                value: shown(row.form, entry.value),
                ..fault_of(entry, rank, what)
            });
        }
    }

    /// Finds the faults of an entry.
    pub(crate) fn judge<'a>(&self, entry: Entry<'a>, findings: &mut Findings<'a>) {
        match entry.kind {
            EntryKind::Table => self.judge_table(entry, findings),
            EntryKind::Key => self.judge_key(entry, findings),
            EntryKind::Other => {}
        }
    }
}
