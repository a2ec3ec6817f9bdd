//! The answers to orders, as text for people.
use crate::client::asking::{Answered, ask};
use crate::client::order::ControlOrder;
use crate::client::tables::{accounts_table, calls_table, peers_table};
use plain_text::printable;
use serde_json::Value;
use std::alloc::{AllocError, Global};
use std::io;
use std::io::{ErrorKind, Write};
use std::net::Net;

// Writes a refusal.
fn refuse<W: Write>(writer: &mut W, name: &str) -> u8 {
    let _ = writeln!(writer, "refused {name}");
    1
}

// Writes a text. Without one it writes a refusal.
fn show<W: Write>(writer: &mut W, text: Option<String>) -> u8 {
    let Some(text) = text else {
        return refuse(writer, "Control");
    };
    let _ = writer.write_all(text.as_bytes());
    0
}

// Returns the value of an object's member, if it is a number.
fn number_in(value: &Value, key: &str) -> Option<u64> {
    value.get(key).and_then(Value::as_u64)
}

// Returns the line for a call that was placed or hung up.
fn call_line(alloc: Global, what: &str, value: &Value) -> Option<String> {
    let number = number_in(value, "number")?;
    let serial = number_in(value, "serial")?;
    format!(in alloc; "{what} number {number} serial {serial}\n").ok()
}

fn call_text(alloc: Global, what: &str, body: &str) -> Option<String> {
    match Value::from_str(alloc, body) {
        Ok(value) => call_line(alloc, what, &value),
        Err(_) => None,
    }
}

// Returns the line with the service's state and the number of legs that are left.
fn left_text(alloc: Global, what: &str, body: &str) -> Option<String> {
    let value = Value::from_str(alloc, body).ok()?;
    let legs = number_in(&value, "legs")?;
    format!(in alloc; "{what}: {legs} legs are left\n").ok()
}

// Returns the text of an order's answer.
fn text_of(alloc: Global, order: ControlOrder<'_>, body: &str) -> Option<String> {
    match order {
        ControlOrder::Peers => peers_table(alloc, body).ok(),
        ControlOrder::Calls => calls_table(alloc, body).ok(),
        ControlOrder::Accounts => accounts_table(alloc, body).ok(),
        ControlOrder::Call { .. } => call_text(alloc, "calls", body),
        ControlOrder::HangUp(_) => call_text(alloc, "hung up", body),
        ControlOrder::Stop => String::from_str(alloc, "stops\n").ok(),
        ControlOrder::StopGracefully => left_text(alloc, "stops after the last call", body),
        ControlOrder::Drain => left_text(alloc, "drains", body),
        ControlOrder::EndDrain => String::from_str(alloc, "takes calls\n").ok(),
    }
}

// Writes the name of a service's refusal, in printable characters.
fn refuse_by<W: Write>(alloc: Global, writer: &mut W, value: &Value) -> u8 {
    if let Some(Value::String(name)) = value.get("error") {
        if let Ok(name) = printable(alloc, name.as_bytes()) {
            return refuse(writer, name.as_str());
        }
    }
    refuse(writer, "Control")
}

// Writes an answer.
fn show_answer<W: Write>(
    alloc: Global,
    order: ControlOrder<'_>,
    answered: &Answered,
    writer: &mut W,
) -> u8 {
    let body = answered.body.as_str();
    if (200..300).contains(&answered.status) {
        return show(writer, text_of(alloc, order, body));
    }
    match Value::from_str(alloc, body) {
        Ok(value) => refuse_by(alloc, writer, &value),
        Err(_) => refuse(writer, "Control"),
    }
}

// Sends the order and returns the answer, if there is memory for the request.
fn ask_order<N: Net>(
    rt: &N,
    alloc: Global,
    path: &str,
    order: ControlOrder<'_>,
) -> io::Result<Answered> {
    let request = order.request(alloc)?;
    ask(rt, alloc, path, &request)
}

// Returns the reason why there is no answer.
fn reason(error: &io::Error) -> &'static str {
    match error.kind() {
        ErrorKind::NotFound | ErrorKind::ConnectionRefused => "no service is running there",
        ErrorKind::PermissionDenied => "this user may not connect",
        ErrorKind::WouldBlock | ErrorKind::TimedOut => "the service doesn't answer",
        ErrorKind::InvalidData => "the program listening there isn't this service",
        _ => "no answer",
    }
}

/// Sends an order to a running service at its control socket, and writes the answer: tables of peers, calls and accounts,
/// and a line for any other order. Returns the status: 0, or 1 after `refused <name>`.
///
/// `refused Memory`: a request for memory was refused before the answer arrived. `refused Control`: no service answers at
/// that path, or there is no memory to show the answer; standard error has the reason. Any other name is the service's own.
pub fn give_order<N: Net + Eprint, W: Write>(
    rt: &N,
    alloc: Global,
    path: &str,
    order: ControlOrder<'_>,
    writer: &mut W,
) -> u8 {
    match ask_order(rt, alloc, path, order) {
        Ok(answered) => show_answer(alloc, order, &answered, writer),
        Err(error) => match error.kind() {
            ErrorKind::OutOfMemory => refuse(writer, "Memory"),
            _ => {
                let why = reason(&error);
                let _ = eprintln!(rt; "{path}: {why}: {error}");
                refuse(writer, "Control")
            }
        },
    }
}
