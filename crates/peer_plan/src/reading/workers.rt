//! The list of workers.
ghost use Rattle.std.specs.Prelude.{[]};
ghost use Rattle.toml.specs.View.{table_view, items_view};
ghost use Rattle.peer_plan.specs.Fields.{Gives, each};
ghost use Rattle.peer_plan.specs.Reading.{endpoint_in, workers_in};

use crate::endpoint::Endpoint;
use crate::error::PlanError;
use crate::key::Key;
use crate::reading::fields::list_at;
use crate::reading::texts::endpoint;
use std::alloc::Global;
use toml::{Table, Value};

fn endpoints(alloc: Global, items: &[Value]) -> Result<Vec<Endpoint>, PlanError>
    ensures { Gives (λ workers. workers.items) result (each Key.Worker (λ _. endpoint_in) [] (items_view items.now)) }
{
    let mut workers = Vec::with_capacity(alloc, items.len())?;
    for item in items {
        let Some(table) = item.as_table() else {
            return Err(PlanError::Range(Key::Worker));
        };
        let next = endpoint(table)?;
        workers.push(next)?;
    }
    Ok(workers)
}

// Returns the endpoints of the workers, 1 to 8.
#[tactic(auto, unfolding(crate::specs::Reading::workers_in))]
pub(crate) fn workers(alloc: Global, table: &Table) -> Result<Vec<Endpoint>, PlanError>
    ensures { Gives (λ workers. workers.items) result (workers_in (table_view table.now)) }
{
    let items = list_at(table, Key::Worker, 8)?;
    endpoints(alloc, items)
}
