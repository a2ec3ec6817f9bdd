//! The text of JSON objects without floats.
ghost use Rattle.std.specs.Prelude.{◌≡◌, IfOk, OnOk, false, string_bytes};
ghost use Rattle.serde_json.specs.View.{view, members_view};
ghost use Rattle.serde_json.specs.Written.{compact_text, has_float};
ghost use Rattle.control_requests.specs.Members.{shown_data, with_shown, object_of};

use serde_json::{Map, Value, put};
use std::alloc::{AllocError, Global};

/// The value of an object's member.
#[derive(Clone, Copy)]
pub(crate) enum Shown<'a> {
    Number(u64),
    NumberOrNull(Option<u64>),
    Text(&'a str),
    TextOrNull(Option<&'a str>),
}

/// A member of an object: its name and its value.
pub(crate) type Member<'a> = (&'a str, Shown<'a>);

fn value_of(alloc: Global, shown: Shown<'_>) -> Result<Value, AllocError>
    ensures { IfOk result (λ value. view value ≡ shown_data shown.entry) }
{
    match shown {
        Shown::Number(number) | Shown::NumberOrNull(Some(number)) => Ok(Value::from(number)),
        Shown::Text(text) | Shown::TextOrNull(Some(text)) => {
            Ok(Value::String(String::from_str(alloc, text)?))
        }
        Shown::NumberOrNull(None) | Shown::TextOrNull(None) => Ok(Value::Null),
    }
}

fn put_members(
    alloc: Global,
    map: &mut Map<String, Value>,
    members: &[Member<'_>],
) -> Result<(), AllocError>
    ensures { OnOk result (members_view map.new.entries ≡ with_shown members.now (members_view map.old.entries)) }
{
    for (name, shown) in members {
        put(map, alloc, name, value_of(alloc, *shown)?)?;
    }
    Ok(())
}

/// Returns the text of an object with these members, in the order of their names and without spaces.
///
/// `AllocError`: a request for memory was refused.
pub(crate) fn object_text(alloc: Global, members: &[Member<'_>]) -> Result<String, AllocError>
    requires { has_float (object_of members.now) ≡ false }
    ensures { IfOk result (λ text. string_bytes text ≡ compact_text (object_of members.now)) }
{
    let mut map = Map::new(alloc);
    put_members(alloc, &mut map, members)?;
    Value::Object(map).to_string(alloc)
}
