//! The keys of a plan, one row each, in the order in which a plan is read.
ghost use Rattle.std.specs.Prelude.{◌≡◌, true, false};
ghost use Rattle.peer_plan.specs.Keys.{is_known};

use peer_plan::{Key, Section, is_known};

/// The form of a value.
#[derive(Clone, Copy)]
pub(crate) enum Form {
    /// 1, 2 or 4.
    Version,
    /// A whole number from the first to the second.
    Number(u64, u64),
    /// From the number of workers to 64.
    Passes,
    /// The place of a worker.
    WorkerPlace,
    Flag,
    Address,
    Name,
    User,
    Secret,
    Formats,
    Prefix,
    PeerName,
    /// A list of tables, with the greatest number of these if there is one. A list with such a limit may not be empty.
    Tables(Option<usize>),
}

/// A key of a plan.
#[derive(Clone, Copy)]
pub(crate) struct KeyRow {
    pub(crate) key: Key,
    /// Its place in the order in which a plan is read.
    pub(crate) order: u8,
    /// The first plan version that has it.
    pub(crate) since: u64,
    pub(crate) form: Form,
}

// The table, its key, the first plan version that has the key, whether it is required, and the form of its value.
type Row = (Section, Key, u64, bool, Form);

static ROWS: [Row; KEY_COUNT] = [
    (Section::Plan, Key::Format, 1, true, Form::Version),
    (
        Section::Plan,
        Key::RetryMs,
        1,
        false,
        Form::Number(1, 60_000),
    ),
    (
        Section::Plan,
        Key::MaxRetries,
        1,
        false,
        Form::Number(0, 20),
    ),
    (
        Section::Plan,
        Key::PingMs,
        1,
        false,
        Form::Number(0, 600_000),
    ),
    (
        Section::Plan,
        Key::RecordLimit,
        1,
        false,
        Form::Number(64, 65_536),
    ),
    (
        Section::Plan,
        Key::RecordOctets,
        4,
        false,
        Form::Number(65_536, 268_435_456),
    ),
    (
        Section::Plan,
        Key::VnakMs,
        4,
        false,
        Form::Number(0, 60_000),
    ),
    (Section::Plan, Key::TrunkMs, 4, false, Form::Number(0, 60)),
    (
        Section::Plan,
        Key::ChallengeMs,
        4,
        false,
        Form::Number(1000, 60_000),
    ),
    (Section::Plan, Key::Worker, 1, true, Form::Tables(Some(8))),
    (Section::Worker, Key::Address, 1, true, Form::Address),
    (Section::Worker, Key::Port, 1, true, Form::Number(1, 65_535)),
    (Section::Plan, Key::Passes, 1, false, Form::Passes),
    (Section::Plan, Key::Peer, 1, true, Form::Tables(Some(32))),
    (Section::Peer, Key::Name, 1, true, Form::Name),
    (Section::Peer, Key::Address, 1, true, Form::Address),
    (Section::Peer, Key::Port, 1, true, Form::Number(1, 65_535)),
    (Section::Peer, Key::Worker, 1, true, Form::WorkerPlace),
    (Section::Peer, Key::User, 1, false, Form::User),
    (Section::Peer, Key::Secret, 1, false, Form::Secret),
    (Section::Peer, Key::OutboundSecret, 4, false, Form::Secret),
    (Section::Peer, Key::Formats, 1, true, Form::Formats),
    (Section::Peer, Key::Trunk, 1, false, Form::Flag),
    (Section::Peer, Key::TrunkTimestamps, 1, false, Form::Flag),
    (Section::Peer, Key::Numbers, 1, false, Form::Number(1, 512)),
    (Section::Peer, Key::Window, 2, false, Form::Number(1, 127)),
    (Section::Peer, Key::Poke, 4, false, Form::Flag),
    (Section::Peer, Key::CallToken, 4, false, Form::Flag),
    (
        Section::Peer,
        Key::QualifyMs,
        4,
        false,
        Form::Number(0, 600_000),
    ),
    (Section::Plan, Key::Route, 1, false, Form::Tables(None)),
    (Section::Route, Key::Prefix, 1, true, Form::Prefix),
    (Section::Route, Key::Peer, 1, true, Form::PeerName),
    (Section::Route, Key::Source, 4, false, Form::PeerName),
];

fn row_at(place: usize, row: &Row) -> KeyRow {
    let (_, key, since, _, form) = *row;
    KeyRow {
        key,
        order: (place & 0x3f) as u8,
        since,
        form,
    }
}

fn is_read(row: &Row, section: Section, version: u64) -> bool {
    let (of, _, since, _, _) = *row;
    of == section && since <= version
}

/// Returns the key of this name in a table, if a plan of this version has one.
pub(crate) fn row_named(section: Section, version: u64, name: &[u8]) -> Option<KeyRow> {
    for (place, row) in ROWS.iter().enumerate() {
        if is_read(row, section, version) && row.1.name().as_bytes() == name {
            return Some(row_at(place, row));
        }
    }
    None
}

/// Returns the row of one of the plan's own keys.
pub(crate) fn row_of(key: Key) -> KeyRow {
    for (place, row) in ROWS.iter().enumerate() {
        if row.0 == Section::Plan && row.1 == key {
            return row_at(place, row);
        }
    }
    row_at(0, &ROWS[0])
}

/// The number of keys of all tables.
pub(crate) const KEY_COUNT: usize = 33;

/// Returns the key at a place in the order, if a plan of this version has it in such a table.
pub(crate) fn row_in(place: usize, section: Section, version: u64) -> Option<KeyRow> {
    let row = ROWS.get(place)?;
    if is_read(row, section, version) {
        Some(row_at(place, row))
    } else {
        None
    }
}

/// Returns the key at a place in the order, if such a table has to have it.
pub(crate) fn required_row(place: usize, section: Section, version: u64) -> Option<KeyRow> {
    let row = ROWS.get(place)?;
    if row.3 {
        row_in(place, section, version)
    } else {
        None
    }
}

/// Returns the first key of this name in any table.
pub(crate) fn row_anywhere(name: &[u8]) -> Option<KeyRow> {
    for (place, row) in ROWS.iter().enumerate() {
        if row.1.name().as_bytes() == name {
            return Some(row_at(place, row));
        }
    }
    None
}

/// Returns whether a plan of this version has no key of this name in a table.
pub(crate) fn is_unknown(section: Section, version: u64, name: &[u8]) -> bool
    ensures unknown { result ≡ true → is_known section version name.now ≡ false }
{
    match std::str::from_utf8(name) {
        Ok(name) => !is_known(section, version, name),
        Err(_) => false,
    }
}
