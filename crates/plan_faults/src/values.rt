//! Tests of values, by the definitions of a plan.
ghost use Rattle.std.specs.Prelude.{◌≡◌, is_some};
ghost use Rattle.std.specs.List.{list_all};
ghost use Rattle.call_signals.specs.Credential.{is_printable};
ghost use Rattle.toml.specs.View.{view};
ghost use Rattle.peer_plan.specs.Fields.{number_of};
ghost use Rattle.peer_plan.specs.Plan.{is_name, is_name_octet, is_prefix, is_visible};
ghost use Rattle.peer_plan.specs.Reading.{is_credential, plan_format};

use crate::rows::Form;
use toml::Value;

fn is_number(value: &Value, low: u64, high: u64) -> bool
    ensures { result ≡ is_some (number_of low high (view value.now)) }
{
    match value {
        Value::Integer(number) => match u64::try_from(*number) {
            Ok(number) => low <= number && number <= high,
            Err(_) => false,
        },
        _ => false,
    }
}

fn is_version(value: &Value) -> bool
    ensures { result ≡ is_some (plan_format (view value.now)) }
{
    matches!(value, Value::Integer(1 | 2 | 4))
}

// Returns whether digits are a number of an address: 0 to 255, without leading zeros.
fn is_octet(digits: &[u8]) -> bool {
    let all_digits = digits.iter().all(|octet| octet.is_ascii_digit());
    match digits {
        [_] => all_digits,
        [first, _] => all_digits && *first != b'0',
        [b'1', _, _] => all_digits,
        [b'2', second, third] => {
            all_digits && (*second < b'5' || *second == b'5' && *third <= b'5')
        }
        _ => false,
    }
}

// Returns whether a text is four numbers of an address, joined by dots.
pub(crate) fn is_address(text: &[u8]) -> bool {
    let mut count: u64 = 0;
    for digits in text.split(|octet| *octet == b'.') {
        if !is_octet(digits) {
            return false;
        }
        count = count.saturating_add(1);
    }
    count == 4
}

fn is_name_octet(octet: u8) -> bool
    ensures { result ≡ is_name_octet octet }
{
    octet.is_ascii_alphanumeric() || octet == b'-'
}

fn are_name_octets(text: &[u8]) -> bool
    ensures { result ≡ list_all is_name_octet text.now }
{
    text.iter().all(|octet| is_name_octet(*octet))
}

fn is_name(text: &[u8]) -> bool
    ensures { result ≡ is_name text.now }
{
    1 <= text.len() && text.len() <= 32 && are_name_octets(text)
}

fn are_printable(text: &[u8]) -> bool
    ensures { result ≡ list_all is_printable text.now }
{
    text.iter().all(|octet| 0x20 <= *octet && *octet <= 0x7e)
}

fn is_credential(text: &[u8]) -> bool
    ensures { result ≡ is_credential text.now }
{
    1 <= text.len() && text.len() <= 64 && are_printable(text)
}

fn are_visible(text: &[u8]) -> bool
    ensures { result ≡ list_all is_visible text.now }
{
    text.iter().all(|octet| 0x21 <= *octet && *octet <= 0x7e)
}

fn is_prefix(text: &[u8]) -> bool
    ensures { result ≡ is_prefix text.now }
{
    text.len() <= 32 && are_visible(text)
}

// Returns whether a text is the name of a format.
pub(crate) fn is_format(text: &str) -> bool {
    text == "gsm" || text == "ulaw" || text == "alaw"
}

fn are_formats(value: &Value) -> bool {
    let Value::Array(items) = value else {
        return false;
    };
    for item in items {
        match item.as_str() {
            Some(text) if is_format(text) => {}
            _ => return false,
        }
    }
    !items.is_empty()
}

fn are_tables(value: &Value, most: Option<usize>) -> bool {
    match (value, most) {
        (Value::Array(items), Some(most)) => !items.is_empty() && items.len() <= most,
        (Value::Array(_), None) => true,
        _ => false,
    }
}

// Returns whether a text is of a form.
fn is_text(form: Form, text: &[u8]) -> bool {
    match form {
        Form::Address => is_address(text),
        Form::Name => is_name(text),
        Form::User | Form::Secret => is_credential(text),
        Form::Prefix => is_prefix(text),
        _ => true,
    }
}

/// Returns whether a value has a form, in a plan with `workers` workers.
pub(crate) fn is_right(form: Form, value: &Value, workers: u64) -> bool {
    match form {
        Form::Version => is_version(value),
        Form::Number(low, high) => is_number(value, low, high),
        Form::Passes => is_number(value, workers, 64),
        Form::WorkerPlace => is_number(value, 0, workers.saturating_sub(1)),
        Form::Flag => matches!(value, Value::Boolean(_)),
        Form::Formats => are_formats(value),
        Form::Tables(most) => are_tables(value, most),
        _ => match value.as_str() {
            Some(text) => is_text(form, text.as_bytes()),
            None => false,
        },
    }
}
