//! The requests that clients send.
ghost use Rattle.std.specs.Prelude.{◌≡◌, ◌<◌, length, map, option_copied, option_map, nat_lt, if◌then◌else◌};
ghost use Rattle.std.specs.List.{list_any, find};
ghost use Rattle.httparse.specs.Borrowed.{header_parts};
ghost use Rattle.control_requests.specs.Digits.{up_to};
ghost use Rattle.control_requests.specs.Requests.{same_name, is_named, is_other, length_in, body_length, Reads};
ghost use Rattle.control_requests.specs.declared.request.Reading.TheVariants.{Part, HeadTooLarge};

use crate::digits::number_up_to;
use httparse::{EMPTY_HEADER, Error, Header, Status};

/// The greatest head, in octets.
pub const HEAD_LIMIT: usize = 8192;

/// The greatest body, in octets.
pub const BODY_LIMIT: usize = 4096;

/// The most fields of a head.
pub const FIELD_LIMIT: usize = 32;

/// A whole request, in the octets that hold it.
#[derive(Clone, Copy, PartialEq, Eq)]
pub struct Request<'b> {
    pub method: &'b str,
    pub path: &'b str,
    pub body: &'b [u8],
}

/// The reading of a client's octets so far.
#[derive(Clone, Copy, PartialEq, Eq)]
pub enum Reading<'b> {
    /// A head of at most 8,192 octets, and the body of at most 4,096 octets that it states. Octets after these are ignored.
    Whole(Request<'b>),
    /// More has to come: fewer than 8,192 octets of a head, or a head and fewer octets than it states. So these are fewer than
    /// 12,288 octets.
    Part,
    /// The head has more than 8,192 octets or more than 32 fields.
    HeadTooLarge,
    /// The head states a body of more than 4,096 octets.
    BodyTooLarge,
    /// No request begins like this, or the head doesn't state the length of the body. Then it has a field
    /// `Transfer-Encoding`, a field `Content-Length` that isn't digits alone, or two of these with different values.
    Malformed,
}

fn same_name(found: &str, name: &str) -> bool
    ensures { result ≡ same_name name.now found.now }
{
    found.eq_ignore_ascii_case(name)
}

fn has_field(headers: &[Header<'_>], name: &str) -> bool
    ensures { result ≡ list_any (λ header. is_named name.now (header_parts header)) headers.now }
{
    headers.iter().any(|header| same_name(header.name, name))
}

// Returns the value of the first field of that name.
fn first_value<'b>(headers: &[Header<'b>], name: &str) -> Option<&'b [u8]>
    ensures { option_copied result ≡ option_map (λ header. (header_parts header).1)
        (find (λ header. is_named name.now (header_parts header)) headers.now) }
{
    headers
        .iter()
        .find(|header| same_name(header.name, name))
        .map(|header| header.value)
}

// Returns whether a field of that name has another value.
fn has_other(headers: &[Header<'_>], name: &str, value: &[u8]) -> bool
    ensures { result ≡ list_any (λ header. is_other name.now value.now (header_parts header)) headers.now }
{
    headers.iter().any(|header| same_name(header.name, name) && header.value != value)
}

// Returns the length of the body, capped at 4,097, or `None` if the head doesn't state it.
fn body_length(headers: &[Header<'_>]) -> Option<u64>
    ensures { result ≡ option_map (up_to 4096) (body_length (map header_parts headers.now)) }
{
    length_in(headers)
}

fn length_in(headers: &[Header<'_>]) -> Option<u64>
    ensures { result ≡ option_map (up_to 4096) (length_in header_parts headers.now) }
{
    if has_field(headers, "transfer-encoding") {
        return None;
    }
    let Some(first) = first_value(headers, "content-length") else {
        return Some(0);
    };
    if has_other(headers, "content-length", first) {
        return None;
    }
    number_up_to(BODY_LIMIT as u32, first)
}

// Reads octets without a complete head.
fn without_head<'b>(octets: &[u8]) -> Reading<'b>
    ensures { result ≡ (if nat_lt (length octets.now) 8192 then Part else HeadTooLarge) }
{
    if octets.len() < HEAD_LIMIT {
        Reading::Part
    } else {
        Reading::HeadTooLarge
    }
}

/// Reads the request that these octets begin with (RFC 9112). A request that is too large or malformed is a variant of
/// `Reading`.
pub fn read_request<'b>(octets: &'b [u8]) -> Reading<'b>
    ensures reads { Reads octets.now result }
    ensures bounded { result ≡ Part → length octets.now < 12288 }
{
    let mut headers = [EMPTY_HEADER; FIELD_LIMIT];
    let mut request = httparse::Request::new(&mut headers);
    let head = match request.parse(octets) {
        Ok(Status::Complete(head)) => head,
        Ok(Status::Partial) => return without_head(octets),
        Err(Error::TooManyHeaders) => return Reading::HeadTooLarge,
        Err(_) => return Reading::Malformed,
    };
    if head > HEAD_LIMIT {
        return Reading::HeadTooLarge;
    }
    let (Some(method), Some(path)) = (request.method, request.path) else {
        return Reading::Malformed;
    };
    let Some(length) = body_length(request.headers) else {
        return Reading::Malformed;
    };
    if length > BODY_LIMIT as u64 {
        return Reading::BodyTooLarge;
    }
    match octets.get(head..head + length as usize) {
        Some(body) => Reading::Whole(Request { method, path, body }),
        None => Reading::Part,
    }
}
