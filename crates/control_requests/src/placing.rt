//! The body of `POST /calls`: which peer is called, and by which number.
ghost use Rattle.std.specs.Prelude.{◌≡◌, Some, Ok, IfOk, IfErr, IsUtf8, string_bytes, option_map};
ghost use Rattle.std.specs.Result.{result_map_both};
ghost use Rattle.serde_json.specs.Read.{read};
ghost use Rattle.serde_json.specs.View.{view};
ghost use Rattle.control_requests.specs.Placing.{text_at, parts_of, Says, IsFaultIn, IsFaultOf, IsNoValue};

use serde_json::Value;
use std::alloc::{AllocError, Global};

/// The most octets of a number.
const NUMBER_LIMIT: usize = 255;

/// A call to be placed.
#[derive(Drop)]
pub struct PlaceOrder {
    /// The name of the peer, as the plan has it.
    pub peer: String,
    /// The called number: 1 to 255 octets.
    pub number: String,
}

/// The reason why a body places no call.
#[derive(Clone, Copy, Debug, PartialEq, Eq)]
pub enum PlaceFault {
    /// The body is no JSON in UTF-8, or it nests deeper than 127 levels.
    NotJson,
    /// There is no member `peer`, or it is no string.
    NoPeer,
    /// There is no member `number`, or it is no string.
    NoNumber,
    /// The number is empty or has more than 255 octets.
    NumberTooLong,
    /// A request for memory was refused.
    Memory,
}

fn value_of(alloc: Global, body: &[u8]) -> Result<Value, PlaceFault>
    ensures ok { IfOk result (λ value. IsUtf8 body.now × (read body.now ≡ Some (view value))) }
    ensures err { IfErr result (IsNoValue body.now) }
{
    match Value::from_slice(alloc, body) {
        Ok(value) => Ok(value),
        Err(error) if error.is_memory() => Err(PlaceFault::Memory),
        Err(_) => Err(PlaceFault::NotJson),
    }
}

// Returns the text of a member that is a string.
fn text_at<'v>(value: &'v Value, key: &str) -> Option<&'v str>
    ensures { option_map (λ text. text.now) result ≡ text_at key.now (view value.now) }
{
    value.get(key).and_then(Value::as_str)
}

// Returns the peer and the number that a value has.
fn parts_of(value: &Value) -> Result<(&str, &str), PlaceFault>
    ensures { result_map_both (λ parts. (parts.0.now, parts.1.now)) (λ fault. fault) result ≡ parts_of (view value.now) }
{
    let Some(peer) = text_at(value, "peer") else {
        return Err(PlaceFault::NoPeer);
    };
    let Some(number) = text_at(value, "number") else {
        return Err(PlaceFault::NoNumber);
    };
    if number.is_empty() || number.len() > NUMBER_LIMIT {
        return Err(PlaceFault::NumberTooLong);
    }
    Ok((peer, number))
}

fn with_parts(alloc: Global, peer: &str, number: &str) -> Result<PlaceOrder, AllocError>
    ensures { IfOk result (λ order. (string_bytes order.peer ≡ peer.now) × (string_bytes order.number ≡ number.now)) }
{
    Ok(PlaceOrder {
        peer: String::from_str(alloc, peer)?,
        number: String::from_str(alloc, number)?,
    })
}

// Returns the call that a value places.
fn order_of(alloc: Global, value: &Value) -> Result<PlaceOrder, PlaceFault>
    ensures ok { IfOk result (λ order. parts_of (view value.now) ≡ Ok (string_bytes order.peer, string_bytes order.number)) }
    ensures err { IfErr result (IsFaultIn (view value.now)) }
{
    let (peer, number) = parts_of(value)?;
    match with_parts(alloc, peer, number) {
        Ok(order) => Ok(order),
        Err(_) => Err(PlaceFault::Memory),
    }
}

/// Reads the body of `POST /calls`, `{"peer": NAME, "number": DIGITS}`. Other members are ignored. Of two members with one
/// name the last counts.
///
/// Errors are checked in this order: `NotJson`, `NoPeer`, `NoNumber`, `NumberTooLong`. `Memory` is returned if a request
/// for memory was refused, while the body was read or for the order.
pub fn place_of(alloc: Global, body: &[u8]) -> Result<PlaceOrder, PlaceFault>
    ensures ok { IfOk result (λ order. Says body.now (Ok (string_bytes order.peer, string_bytes order.number))) }
    ensures err { IfErr result (IsFaultOf body.now) }
{
    let value = value_of(alloc, body)?;
    order_of(alloc, &value)
}
