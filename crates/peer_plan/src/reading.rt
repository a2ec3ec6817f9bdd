//! Reading a plan from the values of a TOML document, key by key in the order of the plan's table.
ghost use Rattle.std.specs.Prelude.{◌≡◌, ◌≤◌, ok_or, length};
ghost use Rattle.toml.specs.View.{view, table_view};
ghost use Rattle.peer_plan.specs.Fields.{Gives, value};
ghost use Rattle.peer_plan.specs.Reading.{document_of, plan_format, default_record_limit, record_octets_in, vnak_ms_in};
ghost use Rattle.peer_plan.specs.Reading.{trunk_ms_in, challenge_ms_in, limits_in, passes_in};

mod fields;
mod media;
mod peers;
mod routes;
mod texts;
mod unknown_keys;
mod workers;

use crate::error::PlanError;
use crate::key::Key;
use crate::peer::Limits;
use fields::{member, number_at};
pub(crate) use peers::peers;
pub(crate) use routes::routes;
use std::alloc::Global;
use toml::{Table, Value};
pub(crate) use unknown_keys::known;
pub(crate) use workers::workers;

// Returns the document of a text.
pub(crate) fn document(alloc: Global, text: &[u8]) -> Result<Table, PlanError>
    ensures { Gives (λ table. table_view table) result (ok_or (document_of text.now) PlanError.NotToml) }
{
    match toml::table_from_slice(alloc, text) {
        Ok(table) => Ok(table),
        Err(e) => {
            if e.is_memory() {
                Err(PlanError::Memory)
            } else {
                Err(PlanError::NotToml)
            }
        }
    }
}

// Returns the number of a plan version that exists: there is no version 3.
fn plan_format(found: &Value) -> Option<u64>
    ensures { result ≡ plan_format (view found.now) }
{
    match found {
        Value::Integer(1) => Some(1),
        Value::Integer(2) => Some(2),
        Value::Integer(4) => Some(4),
        _ => None,
    }
}

// Returns the plan version.
pub(crate) fn format(table: &Table) -> Result<u64, PlanError>
    ensures { result ≡ value (table_view table.now) Key.Format (Err (PlanError.Missing Key.Format)) plan_format }
{
    match member(table, Key::Format) {
        Some(found) => plan_format(found).ok_or(PlanError::Range(Key::Format)),
        None => Err(PlanError::Missing(Key::Format)),
    }
}

// Returns the greatest number of entries of a leg's record, if the plan doesn't set it.
fn default_record_limit(format: u64) -> u64
    ensures value { result ≡ default_record_limit format }
    ensures most { result ≤ 65536 }
{
    if format == 4 { 65_536 } else { 4096 }
}

// Returns the greatest number of octets of data in a leg's record, if the plan sets it.
fn record_octets(table: &Table, format: u64) -> Result<Option<u32>, PlanError>
    ensures { result ≡ record_octets_in format (table_view table.now) }
{
    if format == 4 {
        let most = number_at(table, Key::RecordOctets, Ok(1_048_576), 65_536, 268_435_456)?;
        Ok(Some(most as u32))
    } else {
        Ok(None)
    }
}

// Returns the time after which a leg asks for the same frame again, in milliseconds.
fn vnak_ms(table: &Table, format: u64) -> Result<u64, PlanError>
    ensures { result ≡ vnak_ms_in format (table_view table.now) }
{
    if format == 4 {
        number_at(table, Key::VnakMs, Ok(0), 0, 60_000)
    } else {
        Ok(0)
    }
}

// Returns the time for which media waits for a trunk frame to fill, in milliseconds, if the plan sets it.
fn trunk_ms(table: &Table, format: u64) -> Result<Option<u64>, PlanError>
    ensures { result ≡ trunk_ms_in format (table_view table.now) }
{
    if format == 4 {
        Ok(Some(number_at(table, Key::TrunkMs, Ok(20), 0, 60)?))
    } else {
        Ok(None)
    }
}

// Returns the time for which a leg waits for the answer to its challenge, in milliseconds, if the plan sets it.
fn challenge_ms(table: &Table, format: u64) -> Result<Option<u64>, PlanError>
    ensures { result ≡ challenge_ms_in format (table_view table.now) }
{
    if format == 4 {
        Ok(Some(number_at(table, Key::ChallengeMs, Ok(10_000), 1000, 60_000)?))
    } else {
        Ok(None)
    }
}

// Returns the limits of the legs of all peers.
#[tactic(auto, unfolding(crate::specs::Reading::limits_in))]
pub(crate) fn limits(table: &Table, format: u64) -> Result<Limits, PlanError>
    ensures { Gives (λ limits. limits) result (limits_in format (table_view table.now)) }
{
    let retry_ms = number_at(table, Key::RetryMs, Ok(1000), 1, 60_000)?;
    let max_retries = number_at(table, Key::MaxRetries, Ok(4), 0, 20)?;
    let ping_ms = number_at(table, Key::PingMs, Ok(20_000), 0, 600_000)?;
    let default_limit = default_record_limit(format);
    let record_limit = number_at(table, Key::RecordLimit, Ok(default_limit), 64, 65_536)?;
    let record_octets = record_octets(table, format)?;
    let vnak_ms = vnak_ms(table, format)?;
    let trunk_ms = trunk_ms(table, format)?;
    let challenge_ms = challenge_ms(table, format)?;
    Ok(Limits {
        retry_ms,
        max_retries: max_retries as u32,
        ping_ms,
        record_limit: record_limit as u32,
        record_octets,
        vnak_ms,
        trunk_ms,
        challenge_ms,
    })
}

// Returns the number of passes, with `workers` workers.
pub(crate) fn passes(table: &Table, workers: u64) -> Result<u64, PlanError>
    ensures { result ≡ passes_in workers (table_view table.now) }
{
    number_at(table, Key::Passes, Ok(workers), workers, 64)
}
