//! Answers as tables for people.
ghost use Rattle.std.specs.Prelude.{◌≡◌, ◌++◌, IfOk, OnOk, string_bytes};
ghost use Rattle.std.specs.List.{flat_map};
ghost use Rattle.std.specs.Str.Lossy.{utf8_lossy};
ghost use Rattle.control_requests.specs.Tables.{word_octet, word_text};
ghost use Rattle.control_requests.specs.declared.client.tables.TableFault.TheVariants as faults;

use plain_text::push_printable;
use serde_json::Value;
use std::alloc::{AllocError, Global};
use std::slice;

/// The reason why there is no table.
#[derive(Clone, Copy, Debug, PartialEq, Eq)]
pub(crate) enum TableFault {
    /// The text is no JSON.
    NotJson,
    /// The JSON has no such rows.
    NoRows,
    /// A request for memory was refused.
    Memory,
}

impl From<AllocError> for TableFault {
    ghost from_gives = { λ _ e. e ≡ faults.Memory };

    fn from(_refused: AllocError) -> TableFault {
        TableFault::Memory
    }
}

// A table of an answer's JSON.
struct Kind {
    // The member that is the list of its rows, if there is one.
    list: Option<&'static str>,
    // The member by which the JSON is known to be its one row, if it can be.
    one: Option<&'static str>,
    columns: &'static [&'static str],
}

const PEERS: Kind = Kind {
    list: Some("peers"),
    one: None,
    columns: &[
        "name",
        "endpoint",
        "worker",
        "legs",
        "numbers",
        "silent_ms",
        "received",
        "refused",
        "sent",
        "lost",
        "outbox_lost",
        "queue_dropped",
        "auth_failed",
        "reach",
        "round_trip_ms",
        "unreachable_ms",
    ],
};

const CALLS: Kind = Kind {
    list: Some("calls"),
    one: Some("number"),
    columns: &[
        "number",
        "serial",
        "peer",
        "stage",
        "calling",
        "called",
        "format",
        "age_ms",
        "remote",
        "partner",
        "held",
        "entries",
        "record_limit",
    ],
};

const ACCOUNTS: Kind = Kind {
    list: None,
    one: Some("accepted"),
    columns: &["accepted", "packed", "queued", "dropped", "quelched"],
};

// Adds an octet of a word: a space as `\x20`.
fn push_octet(word: &mut Vec<u8>, octet: u8) -> Result<(), AllocError>
    ensures { OnOk result (word.new.items ≡ word.old.items ++ word_octet octet) }
{
    if octet == b' ' {
        word.extend_from_slice(b"\\x20")
    } else {
        push_printable(word, &[octet])
    }
}

// Adds the octets of a word.
fn push_octets(word: &mut Vec<u8>, octets: &[u8]) -> Result<(), AllocError>
    ensures { OnOk result (word.new.items ≡ word.old.items ++ flat_map word_octet octets.now) }
{
    for octet in octets {
        push_octet(word, *octet)?;
    }
    Ok(())
}

// Adds a value as one word: an empty one as `""`.
fn push_word(word: &mut Vec<u8>, octets: &[u8]) -> Result<(), AllocError>
    ensures { OnOk result (word.new.items ≡ word.old.items ++ word_text octets.now) }
{
    if octets.is_empty() {
        return word.extend_from_slice(b"\"\"");
    }
    push_octets(word, octets)
}

// Returns a value as one word of printable characters, so that columns can be told apart by their spaces: a space as
// `\x20`, an empty value as `""`.
fn word(alloc: Global, value: &str) -> Result<String, AllocError>
    ensures { IfOk result (λ word. string_bytes word ≡ utf8_lossy (word_text value.now)) }
{
    let mut word = Vec::new(alloc);
    push_word(&mut word, value.as_bytes())?;
    String::from_utf8_lossy(alloc, word.as_slice())
}

// Returns a row's value in a column: a string as one word, a number, or `-` if there is none. Without a row it returns the
// head line's cell, the column's name.
fn cell(alloc: Global, row: Option<&Value>, column: &str) -> Result<String, AllocError> {
    let Some(row) = row else {
        return String::from_str(alloc, column);
    };
    match row.get(column) {
        None | Some(Value::Null) => String::from_str(alloc, "-"),
        Some(Value::String(text)) => word(alloc, text),
        Some(value) => word(alloc, &value.to_string(alloc)?),
    }
}

// A column: its name, and the characters of its longest cell, or of its name.
#[derive(Clone, Copy)]
struct Column {
    name: &'static str,
    width: usize,
}

fn width_of(alloc: Global, rows: &[Value], column: &str) -> Result<usize, AllocError> {
    let mut width = column.chars().count();
    for row in rows {
        width = width.max(cell(alloc, Some(row), column)?.chars().count());
    }
    Ok(width)
}

fn columns_of(
    alloc: Global,
    rows: &[Value],
    names: &[&'static str],
) -> Result<Vec<Column>, AllocError> {
    let mut columns = Vec::new(alloc);
    for name in names {
        let width = width_of(alloc, rows, name)?;
        columns.push(Column { name, width })?;
    }
    Ok(columns)
}

// A text as it is written. That a request for memory was refused is remembered.
#[derive(Drop)]
struct Text {
    text: String,
    is_cut: bool,
}

impl Text {
    fn new(alloc: Global) -> Text {
        Text {
            text: String::new(alloc),
            is_cut: false,
        }
    }

    fn push(&mut self, text: &str) {
        if self.text.push_str(text).is_err() {
            self.is_cut = true;
        }
    }

    // Adds a cell, as wide as its column, and two blanks.
    fn push_cell(&mut self, cell: &str, width: usize) {
        self.push(cell);
        for _ in cell.chars().count()..width {
            self.push(" ");
        }
        self.push("  ");
    }
}

// Adds the line of a row, or the head line.
fn push_line(alloc: Global, table: &mut Text, row: Option<&Value>, columns: &[Column]) {
    let mut line = Text::new(alloc);
    for column in columns {
        match cell(alloc, row, column.name) {
            Ok(cell) => line.push_cell(&cell, column.width),
            Err(_) => line.is_cut = true,
        }
    }
    table.push(line.text.trim_end());
    table.push("\n");
    table.is_cut = table.is_cut || line.is_cut;
}

// Returns a table: a head line with the names of the columns, and a line for each row.
fn table(alloc: Global, rows: &[Value], names: &[&'static str]) -> Result<String, AllocError> {
    let columns = columns_of(alloc, rows, names)?;
    let mut table = Text::new(alloc);
    push_line(alloc, &mut table, None, &columns);
    for row in rows {
        push_line(alloc, &mut table, Some(row), &columns);
    }
    if table.is_cut {
        return Err(AllocError);
    }
    Ok(table.text)
}

fn rows_of<'v>(value: &'v Value, kind: &Kind) -> Option<&'v [Value]> {
    if let Some(name) = kind.list {
        if let Some(Value::Array(rows)) = value.get(name) {
            return Some(rows);
        }
    }
    match value.get(kind.one?) {
        Some(_) => Some(slice::from_ref(value)),
        None => None,
    }
}

fn table_in(alloc: Global, value: &Value, kind: &Kind) -> Result<String, TableFault> {
    match rows_of(value, kind) {
        Some(rows) => Ok(table(alloc, rows, kind.columns)?),
        None => Err(TableFault::NoRows),
    }
}

fn table_of(alloc: Global, body: &str, kind: &Kind) -> Result<String, TableFault> {
    match Value::from_str(alloc, body) {
        Ok(value) => table_in(alloc, &value, kind),
        Err(error) if error.is_memory() => Err(TableFault::Memory),
        Err(_) => Err(TableFault::NotJson),
    }
}

/// Returns the table of the answer to `GET /peers`: a head line, and a line for each peer. Columns are as wide as their
/// longest cell, in characters. A missing value is `-`, an empty one `""`. Octets that aren't printable, the space and the
/// backslash are `\xNN`.
///
/// Returns `NotJson` if the text is no JSON, and `NoRows` if the JSON has no list `peers`. Returns `Memory` if a request
/// for memory was refused at any time.
pub(crate) fn peers_table(alloc: Global, body: &str) -> Result<String, TableFault> {
    table_of(alloc, body, &PEERS)
}

/// Returns the table of the answer to `GET /calls` or `GET /calls/<number>`: a head line, and a line for each call. Columns
/// are as wide as their longest cell, in characters. A missing value is `-`, an empty one `""`. Octets that aren't
/// printable, the space and the backslash are `\xNN`.
///
/// Returns `NotJson` if the text is no JSON, and `NoRows` if the JSON has no list `calls` and no member `number`. Returns
/// `Memory` if a request for memory was refused at any time.
pub(crate) fn calls_table(alloc: Global, body: &str) -> Result<String, TableFault> {
    table_of(alloc, body, &CALLS)
}

/// Returns the table of the answer to `GET /accounts`: a head line, and one line. Columns are as wide as their longest
/// cell, in characters. A missing value is `-`.
///
/// Returns `NotJson` if the text is no JSON, and `NoRows` if the JSON has no member `accepted`. Returns `Memory` if a
/// request for memory was refused at any time.
pub(crate) fn accounts_table(alloc: Global, body: &str) -> Result<String, TableFault> {
    table_of(alloc, body, &ACCOUNTS)
}
