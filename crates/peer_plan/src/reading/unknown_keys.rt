//! The first key that plan version 4 doesn't have.
ghost use Rattle.std.specs.Prelude.{◌≡◌, option_map};
ghost use Rattle.toml.specs.View.{view, table_view, items_view};
ghost use Rattle.toml.specs.Data.{get_member};
ghost use Rattle.peer_plan.specs.Keys.{key_name};
ghost use Rattle.peer_plan.specs.UnknownKeys.{unknown_key, unknown_in_item, unknown_in_items, unknown_in_list, unknown_in};
ghost use Rattle.peer_plan.specs.UnknownKeys.{known_in};

use crate::error::PlanError;
use crate::key::{Key, Section, is_known};
use crate::key_name::KeyName;
use crate::reading::fields::member;
use toml::{Table, Value};

// Returns the first unknown key of a table, whose keys are sorted.
fn unknown_key(table: &Table, section: Section, format: u64) -> Option<KeyName>
    ensures { result ≡ unknown_key section format (table_view table.now) }
{
    for (key, _) in table.iter() {
        if !is_known(section, format, key.as_str()) {
            return Some(KeyName::new(key.as_str()));
        }
    }
    None
}

fn unknown_in_item(item: &Value, section: Section, format: u64) -> Option<KeyName>
    ensures { result ≡ unknown_in_item section format (view item.now) }
{
    unknown_key(item.as_table()?, section, format)
}

fn unknown_in_items(items: &[Value], section: Section, format: u64) -> Option<KeyName>
    ensures { result ≡ unknown_in_items section format (items_view items.now) }
{
    for item in items {
        if let Some(name) = unknown_in_item(item, section, format) {
            return Some(name);
        }
    }
    None
}

// Returns the first unknown key in a list of tables, if the list is present.
fn unknown_in_list(table: &Table, list: Key, section: Section, format: u64) -> Option<KeyName>
    ensures { result ≡ unknown_in_list section format (get_member (key_name list) (table_view table.now)) }
{
    let items = member(table, list)?.as_array()?;
    unknown_in_items(items.as_slice(), section, format)
}

fn unknown_in(table: &Table, format: u64) -> Option<KeyName>
    ensures { result ≡ unknown_in format (table_view table.now) }
{
    if let Some(name) = unknown_key(table, Section::Plan, format) {
        return Some(name);
    }
    if let Some(name) = unknown_in_list(table, Key::Worker, Section::Worker, format) {
        return Some(name);
    }
    if let Some(name) = unknown_in_list(table, Key::Peer, Section::Peer, format) {
        return Some(name);
    }
    unknown_in_list(table, Key::Route, Section::Route, format)
}

// Checks that a plan has no unknown key. Versions 1 and 2 skip these.
pub(crate) fn known(table: &Table, format: u64) -> Result<(), PlanError>
    ensures { result ≡ known_in format (table_view table.now) }
{
    if format != 4 {
        return Ok(());
    }
    match unknown_in(table, format) {
        Some(name) => Err(PlanError::Unknown(name)),
        None => Ok(()),
    }
}
