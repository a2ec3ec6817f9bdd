//! The views of peers, calls and accounts, each as JSON.
ghost use Rattle.std.specs.Prelude.{◌≡◌, ◌++◌, IfOk, OnErr, OnOk, codes, string_bytes};
ghost use Rattle.serde_json.specs.Written.{compact_text};
ghost use Rattle.control_requests.specs.Rows.{peer_data, call_data, accounts_data, followed, list_text};

use crate::json_text::{Shown, object_text};
use std::alloc::{AllocError, Global};
use std::marker::Model;

/// The view of a peer.
#[derive(Clone, Copy)]
pub struct PeerRow<'a> {
    /// Its name in the plan.
    pub name: &'a str,
    /// Its address and port.
    pub endpoint: &'a str,
    /// The place of its worker, from 0.
    pub worker: u16,
    /// The number of its legs.
    pub legs: u16,
    /// The number of its local call numbers.
    pub numbers: u16,
    /// Milliseconds since its last sign of life; none if it never gave one.
    pub silent_ms: Option<u64>,
    /// Datagrams received from it, whether accepted or refused.
    pub received: u64,
    /// The number of these that were refused or turned away.
    pub refused: u64,
    /// Datagrams sent to it.
    pub sent: u64,
    /// Datagrams to it that the socket didn't take.
    pub lost: u64,
    /// Frames for which its outbox had no room.
    pub outbox_lost: u64,
    /// Octets of media for which its trunk queue had no room.
    pub queue_dropped: u64,
    /// Its calls whose authentication failed.
    pub auth_failed: u64,
    /// Whether it is there: `up`, `unreachable` or `unknown`.
    pub reach: &'a str,
    /// Milliseconds from the last POKE that it answered to its PONG; `None` before the first.
    pub round_trip_ms: Option<u64>,
    /// Milliseconds since it is unreachable; `None` if it isn't.
    pub unreachable_ms: Option<u64>,
}

/// The view of a call.
#[derive(Clone, Copy)]
pub struct CallEntry<'a> {
    /// The local call number.
    pub number: u16,
    /// The count of legs that had this number.
    pub serial: u64,
    /// The name of the peer.
    pub peer: &'a str,
    /// The stage of the leg.
    pub stage: &'a str,
    /// The number that is called, if the call's NEW has one.
    pub called: Option<&'a str>,
    /// The caller ID, if the call's NEW has one.
    pub calling: Option<&'a str>,
    /// The format of the call.
    pub format: &'a str,
    /// Milliseconds since the leg was opened.
    pub age_ms: u64,
    /// The other side's call number, once it is known.
    pub remote: Option<u64>,
    /// The local call number of the leg that it is bridged with.
    pub partner: Option<u64>,
    /// The number of frames that are held.
    pub held: u64,
    /// The number of entries of the record.
    pub entries: u64,
    /// The greatest number of entries of a record.
    pub record_limit: u64,
}

/// The media accounts, in octets.
#[derive(Clone, Copy)]
pub struct AccountsRow {
    pub accepted: u64,
    pub packed: u64,
    pub queued: u64,
    pub dropped: u64,
    /// The part of the dropped octets that went to quelched legs.
    pub quelched: u64,
}

/// Returns the JSON of one call, an object. A missing value is `null`.
///
/// `AllocError`: a request for memory was refused.
pub fn call_body(alloc: Global, row: CallEntry<'_>) -> Result<String, AllocError>
    ensures { IfOk result (λ body. string_bytes body ≡ compact_text (call_data row.entry)) }
{
    let members = [
        ("age_ms", Shown::Number(row.age_ms)),
        ("called", Shown::TextOrNull(row.called)),
        ("calling", Shown::TextOrNull(row.calling)),
        ("entries", Shown::Number(row.entries)),
        ("format", Shown::Text(row.format)),
        ("held", Shown::Number(row.held)),
        ("number", Shown::Number(u64::from(row.number))),
        ("partner", Shown::NumberOrNull(row.partner)),
        ("peer", Shown::Text(row.peer)),
        ("record_limit", Shown::Number(row.record_limit)),
        ("remote", Shown::NumberOrNull(row.remote)),
        ("serial", Shown::Number(row.serial)),
        ("stage", Shown::Text(row.stage)),
    ];
    object_text(alloc, &members)
}

/// Returns the JSON of the accounts, an object of numbers of octets.
///
/// `AllocError`: a request for memory was refused.
pub fn accounts_body(alloc: Global, row: AccountsRow) -> Result<String, AllocError>
    ensures { IfOk result (λ body. string_bytes body ≡ compact_text (accounts_data row)) }
{
    let members = [
        ("accepted", Shown::Number(row.accepted)),
        ("dropped", Shown::Number(row.dropped)),
        ("packed", Shown::Number(row.packed)),
        ("quelched", Shown::Number(row.quelched)),
        ("queued", Shown::Number(row.queued)),
    ];
    object_text(alloc, &members)
}

fn peer_text(alloc: Global, row: PeerRow<'_>) -> Result<String, AllocError>
    ensures { IfOk result (λ text. string_bytes text ≡ compact_text (peer_data row.entry)) }
{
    let members = [
        ("auth_failed", Shown::Number(row.auth_failed)),
        ("endpoint", Shown::Text(row.endpoint)),
        ("legs", Shown::Number(u64::from(row.legs))),
        ("lost", Shown::Number(row.lost)),
        ("name", Shown::Text(row.name)),
        ("numbers", Shown::Number(u64::from(row.numbers))),
        ("outbox_lost", Shown::Number(row.outbox_lost)),
        ("queue_dropped", Shown::Number(row.queue_dropped)),
        ("reach", Shown::Text(row.reach)),
        ("received", Shown::Number(row.received)),
        ("refused", Shown::Number(row.refused)),
        ("round_trip_ms", Shown::NumberOrNull(row.round_trip_ms)),
        ("sent", Shown::Number(row.sent)),
        ("silent_ms", Shown::NumberOrNull(row.silent_ms)),
        ("unreachable_ms", Shown::NumberOrNull(row.unreachable_ms)),
        ("worker", Shown::Number(u64::from(row.worker))),
    ];
    object_text(alloc, &members)
}

// Adds a row behind the others.
fn push_row(alloc: Global, rows: &mut String, row: &str) -> Result<(), AllocError>
    ensures ok { OnOk result (string_bytes rows.new ≡ followed (string_bytes rows.old) row.now) }
    ensures err { OnErr result (string_bytes rows.new ≡ string_bytes rows.old) }
{
    if rows.is_empty() {
        return rows.push_str(row);
    }
    let piece = format!(in alloc; ",{}", row)?;
    rows.push_str(&piece)
}

/// Rows of peers or of calls as JSON, one after the other. Contracts see their text, with a comma between each two.
#[derive(Drop)]
pub struct Rows {
    text: String,
}

impl Model for Rows {
    ghost use Rattle.std.specs.Prelude.{List, ℕ, string_bytes};

    ghost Value = { List ℕ };

    ghost view = { λ rows. string_bytes rows.text };
}

impl Rows {
    ghost use Rattle.std.specs.Prelude.{[]};

    /// Returns an empty list of rows. It takes no memory.
    pub fn new(alloc: Global) -> Rows
        ensures { result ≡ [] }
    {
        Rows {
            text: String::new(alloc),
        }
    }

    /// Adds a peer behind the others.
    ///
    /// `AllocError`: a request for memory was refused. Then the rows stay as they were.
    pub fn push_peer(&mut self, alloc: Global, row: PeerRow<'_>) -> Result<(), AllocError>
        ensures ok { OnOk result (self.new ≡ followed self.old (compact_text (peer_data row.entry))) }
        ensures err { OnErr result (self.new ≡ self.old) }
    {
        let text = peer_text(alloc, row)?;
        push_row(alloc, &mut self.text, &text)
    }

    /// Adds a call behind the others.
    ///
    /// `AllocError`: a request for memory was refused. Then the rows stay as they were.
    pub fn push_call(&mut self, alloc: Global, row: CallEntry<'_>) -> Result<(), AllocError>
        ensures ok { OnOk result (self.new ≡ followed self.old (compact_text (call_data row.entry))) }
        ensures err { OnErr result (self.new ≡ self.old) }
    {
        let text = call_body(alloc, row)?;
        push_row(alloc, &mut self.text, &text)
    }

    /// Returns the rows as the list of peers: `{"peers":[..]}`.
    ///
    /// `AllocError`: a request for memory was refused. Then the rows are dropped.
    pub fn into_peers(self, alloc: Global) -> Result<String, AllocError>
        ensures { IfOk result (λ body. string_bytes body ≡ list_text (codes "peers") self) }
    {
        format!(in alloc; "{{\"peers\":[{}]}}", self.text)
    }

    /// Returns the rows as the list of calls: `{"calls":[..]}`.
    ///
    /// `AllocError`: a request for memory was refused. Then the rows are dropped.
    pub fn into_calls(self, alloc: Global) -> Result<String, AllocError>
        ensures { IfOk result (λ body. string_bytes body ≡ list_text (codes "calls") self) }
    {
        format!(in alloc; "{{\"calls\":[{}]}}", self.text)
    }
}
