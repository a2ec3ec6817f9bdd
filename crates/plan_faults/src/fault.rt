//! A fault of a plan, with its place.
ghost use Rattle.std.specs.Prelude.{◌≡◌, ◌≤◌, [], true, false};
ghost use Rattle.plan_faults.specs.Values.{is_text, has_brace};

use crate::names::is_name_before;
use crate::rows::Form;
use crate::walk::Entry;
use peer_plan::{Key, Section};
use std::alloc::Global;
use toml_parser::bytes::byte_at;

/// The kind of a fault.
#[derive(Clone, Copy)]
pub(crate) enum What {
    /// A key that has to be there isn't.
    Missing(Key),
    /// The value isn't of this form.
    Expected(Form),
    /// A list has too many tables.
    TooMany,
    /// An element of a list is no table.
    NoTable,
    /// The peer of this place has the same name.
    SameName(usize),
    /// The peer of this place has the same address and port.
    SameEndpoint(usize),
    /// No peer has the name.
    NoPeer,
    /// The route of this place has the same prefix, and the same source or none.
    SameRoute(usize),
    /// The table has no such key.
    Unknown,
}

/// A fault of a plan. Faults of a lower rank come first when a plan is read.
#[derive(Clone, Copy)]
pub(crate) struct Fault<'a> {
    pub(crate) rank: u64,
    pub(crate) what: What,
    /// The table with the fault, and its place in the list, from 0.
    pub(crate) section: Section,
    pub(crate) place: usize,
    /// The place in the text, in octets from 0.
    pub(crate) at: usize,
    /// The name of the key, as `names` has names.
    pub(crate) name: &'a [u8],
    /// The value, as far as it may be shown.
    pub(crate) value: &'a [u8],
}

// Returns whether a value is written as a text: it begins with a quote.
fn is_text(value: &[u8]) -> bool
    ensures { result ≡ is_text value.now }
{
    let first = byte_at(value, 0);
    first == b'"' || first == b'\''
}

fn has_brace(value: &[u8]) -> bool
    ensures { result ≡ has_brace value.now }
{
    value.iter().any(|octet| *octet == b'{')
}

/// Returns the part of a value that may be shown. It shows nothing of a secret, nor of a value with braces: one of its keys
/// may be a secret.
pub(crate) fn shown(form: Form, value: &[u8]) -> &[u8]
    ensures secret { form ≡ Form.Secret → result.now ≡ [] }
    ensures braces { is_text value.now ≡ false → has_brace value.now ≡ true → result.now ≡ [] }
{
    if !is_text(value) && has_brace(value) {
        return &[];
    }
    match form {
        Form::Secret => &[],
        _ => value,
    }
}

/// Returns the rank of a fault: by the plan's key, then by the place in the list, from 1, then by the table's key.
pub(crate) fn rank(order: u8, place: usize, key: u8) -> u64 {
    let place = place.min(0xffff_ffff) as u64;
    (u64::from(order) << 48) | (place << 8) | u64::from(key)
}

/// The place of a fault that is looked for once all tables of a list are read.
pub(crate) const BEHIND_LIST: usize = 0xffff_ffff;

/// Returns whether `Plan::read` meets a fault before another.
pub(crate) fn is_before(alloc: Global, fault: &Fault<'_>, other: &Fault<'_>) -> bool
    ensures before { result ≡ true → fault.now.rank ≤ other.now.rank }
    ensures behind { result ≡ false → other.now.rank ≤ fault.now.rank }
{
    fault.rank < other.rank
        || fault.rank == other.rank && is_name_before(alloc, fault.name, other.name)
}

/// Returns a fault of an entry. It shows nothing of the entry's value.
pub(crate) fn fault_of<'a>(entry: Entry<'a>, rank: u64, what: What) -> Fault<'a> {
    Fault {
        rank,
        what,
        section: entry.section,
        place: entry.place,
        at: entry.at,
        name: entry.name,
        value: &[],
    }
}
