//! Texts: names, prefixes, addresses, users and secrets.
ghost use Rattle.std.specs.Prelude.{◌≡◌, Ok, Err, None, option_map, Bool};
ghost use Rattle.std.specs.List.{list_all};
ghost use Rattle.toml.specs.Data.{as_str};
ghost use Rattle.toml.specs.View.{view, table_view};
ghost use Rattle.peer_plan.specs.Fields.{Reads, text_of, number_of, value};
ghost use Rattle.peer_plan.specs.Plan.{is_name_octet, is_name, is_visible, is_prefix};
ghost use Rattle.peer_plan.specs.Reading.{is_credential, credential_in, has_secret, absent_user, outbound_secret_in};
ghost use Rattle.peer_plan.specs.Reading.{credentials_in, address_in, endpoint_in};

use crate::address::address;
use crate::endpoint::Endpoint;
use crate::error::PlanError;
use crate::key::Key;
use crate::peer::Credentials;
use crate::reading::fields::{member, number_at, required};
use crate::short_text::ShortText;
use call_signals::Credential;
use toml::{Table, Value};

fn is_name_octet(octet: u8) -> bool
    ensures { result ≡ is_name_octet octet }
{
    octet.is_ascii_alphanumeric() || octet == b'-'
}

fn are_name_octets(text: &[u8]) -> bool
    ensures { result ≡ list_all is_name_octet text.now }
{
    text.iter().all(|octet| is_name_octet(*octet))
}

// Returns whether a text is 1 to 32 letters, digits and dashes.
fn is_name(text: &str) -> bool
    ensures { result ≡ is_name text.now }
{
    1 <= text.len() && text.len() <= 32 && are_name_octets(text.as_bytes())
}

fn are_visible(text: &[u8]) -> bool
    ensures { result ≡ list_all is_visible text.now }
{
    text.iter().all(|octet| 0x21 <= *octet && *octet <= 0x7e)
}

// Returns whether a text is at most 32 octets of visible ASCII.
pub(crate) fn is_prefix(text: &str) -> bool
    ensures { result ≡ is_prefix text.now }
{
    text.len() <= 32 && are_visible(text.as_bytes())
}

// Returns any text at a key.
pub(crate) fn text_at(table: &Table, key: Key) -> Result<&str, PlanError>
    ensures { Reads (λ text. text.now) result (value (table_view table.now) key (Err (PlanError.Missing key)) as_str) }
{
    required(table, key)?.as_str().ok_or(PlanError::Range(key))
}

// Returns the name at a key.
pub(crate) fn name_at(table: &Table, key: Key) -> Result<ShortText, PlanError>
    ensures { result ≡ value (table_view table.now) key (Err (PlanError.Missing key)) (text_of is_name) }
{
    let text = required(table, key)?.as_str().ok_or(PlanError::Range(key))?;
    if is_name(text) {
        Ok(ShortText::new(text))
    } else {
        Err(PlanError::Range(key))
    }
}

fn address_at(table: &Table, key: Key) -> Result<[u8; 4], PlanError>
    ensures { result ≡ value (table_view table.now) key (Err (PlanError.Missing key)) address_in }
{
    let text = required(table, key)?.as_str().ok_or(PlanError::Range(key))?;
    address(text.as_bytes()).ok_or(PlanError::Range(key))
}

// Returns the endpoint that a table has as address and port.
#[tactic(auto, unfolding(crate::specs::Reading::endpoint_in))]
pub(crate) fn endpoint(table: &Table) -> Result<Endpoint, PlanError>
    ensures { result ≡ endpoint_in (table_view table.now) }
{
    let address = address_at(table, Key::Address)?;
    let port = number_at(
        table,
        Key::Port,
        Err(PlanError::Missing(Key::Port)),
        1,
        65_535,
    )?;
    Ok(Endpoint {
        address,
        port: port as u16,
    })
}

fn credential(found: &Value) -> Option<Credential>
    ensures { result ≡ text_of is_credential (view found.now) }
{
    match found {
        Value::String(text) => Credential::new(text.as_str().as_bytes()),
        _ => None,
    }
}

// Returns the credential at a key, or its default if it is absent.
fn credential_at(
    table: &Table,
    key: Key,
    absent: Result<Option<Credential>, PlanError>,
) -> Result<Option<Credential>, PlanError>
    ensures { result ≡ value (table_view table.now) key absent credential_in }
{
    match member(table, key) {
        Some(found) => match credential(found) {
            Some(credential) => Ok(Some(credential)),
            None => Err(PlanError::Range(key)),
        },
        None => absent,
    }
}

// Returns whether a table has a secret, of either direction.
fn has_secret(table: &Table, format: u64) -> bool
    ensures { result ≡ has_secret format (table_view table.now) }
{
    member(table, Key::Secret).is_some()
        || format == 4 && member(table, Key::OutboundSecret).is_some()
}

// Returns the user if it is absent.
fn absent_user(table: &Table, format: u64) -> Result<Option<Credential>, PlanError>
    ensures { result ≡ absent_user format (table_view table.now) }
{
    if has_secret(table, format) {
        Err(PlanError::Missing(Key::User))
    } else {
        Ok(None)
    }
}

// Returns the secret by which the peer's challenges are answered: without one in the plan, that of the other direction.
fn outbound_secret(
    table: &Table,
    format: u64,
    secret: &Option<Credential>,
) -> Result<Option<Credential>, PlanError>
    ensures { result ≡ outbound_secret_in format secret.now (table_view table.now) }
{
    let same = match secret {
        Some(secret) => Some(secret.copied()),
        None => None,
    };
    if format == 4 {
        credential_at(table, Key::OutboundSecret, Ok(same))
    } else {
        Ok(same)
    }
}

// Returns the user and the secrets of a peer: a secret of either direction needs a user.
#[tactic(auto, unfolding(crate::specs::Reading::credentials_in))]
pub(crate) fn credentials(table: &Table, format: u64) -> Result<Credentials, PlanError>
    ensures { result ≡ credentials_in format (table_view table.now) }
{
    let user = credential_at(table, Key::User, absent_user(table, format))?;
    let secret = credential_at(table, Key::Secret, Ok(None))?;
    let outbound_secret = outbound_secret(table, format, &secret)?;
    Ok(Credentials {
        user,
        secret,
        outbound_secret,
    })
}
