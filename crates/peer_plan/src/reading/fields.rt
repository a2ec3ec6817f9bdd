//! Single values, and the tables of a list.
ghost use Rattle.std.specs.Prelude.{◌≡◌, ◌≤◌, Some, None, Ok, Err, IfOk, IfErr, option_map, Bool, false};
ghost use Rattle.toml.specs.Data.{get_member, as_bool};
ghost use Rattle.toml.specs.View.{view, table_view, items_view};
ghost use Rattle.peer_plan.specs.Keys.{key_name};
ghost use Rattle.peer_plan.specs.Fields.{Reads, number_of, value, list_in};

use crate::error::PlanError;
use crate::key::Key;
use toml::{Table, Value};

// Returns the value at a key.
pub(crate) fn member(table: &Table, key: Key) -> Option<&Value>
    ensures { option_map (λ x. view x.now) result ≡ get_member (key_name key) (table_view table.now) }
{
    table.get(key.name())
}

// Returns the value at a key that has no default.
pub(crate) fn required(table: &Table, key: Key) -> Result<&Value, PlanError>
    ensures found { IfOk result (λ found. get_member (key_name key) (table_view table.now) ≡ Some (view found.now)) }
    ensures absent { IfErr result (λ error. (error ≡ PlanError.Missing key) ×
        (get_member (key_name key) (table_view table.now) ≡ None)) }
{
    member(table, key).ok_or(PlanError::Missing(key))
}

// Returns a whole number in a range.
fn number(found: &Value, low: u64, high: u64) -> Option<u64>
    ensures { result ≡ number_of low high (view found.now) }
{
    match found {
        Value::Integer(n) => {
            let n = u64::try_from(*n).ok()?;
            if low <= n && n <= high { Some(n) } else { None }
        }
        _ => None,
    }
}

// Returns the number at a key, or its default if it is absent.
pub(crate) fn number_at(
    table: &Table,
    key: Key,
    fallback: Result<u64, PlanError>,
    low: u64,
    high: u64,
) -> Result<u64, PlanError>
    ensures { result ≡ value (table_view table.now) key fallback (number_of low high) }
{
    match member(table, key) {
        Some(found) => number(found, low, high).ok_or(PlanError::Range(key)),
        None => fallback,
    }
}

// Returns the flag at a key, or its default if it is absent.
pub(crate) fn flag_at(table: &Table, key: Key, fallback: bool) -> Result<bool, PlanError>
    ensures { result ≡ value (table_view table.now) key (Ok fallback) as_bool }
{
    match member(table, key) {
        Some(found) => found.as_bool().ok_or(PlanError::Range(key)),
        None => Ok(fallback),
    }
}

// Returns the items of a list at a key that has no default, at least one and at most `most`.
#[tactic(auto, unfolding(crate::specs::Fields::list_in), using(crate::proofs::Lists::lengths))]
pub(crate) fn list_at(table: &Table, key: Key, most: usize) -> Result<&[Value], PlanError>
    ensures { Reads (λ items. items_view items.now) result (list_in (table_view table.now) key most) }
{
    let Some(items) = required(table, key)?.as_array() else {
        return Err(PlanError::Range(key));
    };
    if items.is_empty() {
        return Err(PlanError::Missing(key));
    }
    if items.len() > most {
        return Err(PlanError::Range(key));
    }
    Ok(items.as_slice())
}
