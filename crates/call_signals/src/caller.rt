//! The caller, by the information elements of a NEW ("Information Elements").
ghost use Rattle.std.specs.Prelude.{◌≡◌, ◌+◌, ◌≤◌, ◌++◌, length};
ghost use Rattle.std.specs.Option.{ForSome, option_copied};
ghost use Rattle.call_signals.specs.Caller as caller;
ghost use Rattle.call_signals.specs.NewElements.{named};

use crate::new_elements::NewElements;
use arrayvec::ArrayVec;
use iax_frames::Payload;
use info_elements::{CALLING_NAME, CALLING_NUMBER, CALLINGPRES, CALLINGTNS, CALLINGTON, append_to};
use std::marker::Model;

/// The information elements of a NEW about the caller, in their order: CALLING NUMBER, CALLING NAME, CALLINGPRES,
/// CALLINGTON, CALLINGTNS. Each is optional; together they have at most 524 octets. Contracts see these octets.
#[derive(Debug, Drop)]
pub struct Caller {
    octets: ArrayVec<u8, 524>,
}

impl Model for Caller {
    ghost use Rattle.std.specs.Prelude.{List, ℕ, length, ◌≤◌};

    ghost Value = { List ℕ };

    ghost view = { λ caller. caller.octets.items };

    ghost invariant = { λ caller. length caller.octets.items ≤ 524 };
}

// Appends an element, which is left out if there is no text.
fn append_text(payload: &mut Payload, number: u8, text: Option<&[u8]>)
    requires room { length payload.old ≤ 1000 }
    requires short { ForSome text (λ octets. length octets.now ≤ 255) }
    ensures appended { payload.new ≡ payload.old ++ caller.element_if number (option_copied text.entry) }
    ensures short { length payload.new ≤ length payload.old + 257 }
{
    match text {
        Some(text) => append_to(payload, number, text),
        None => {}
    }
}

// Appends an element of one octet, which is left out if there is no value.
fn append_octet(payload: &mut Payload, number: u8, value: Option<u8>)
    requires { length payload.old ≤ 1000 }
    ensures appended { payload.new ≡ payload.old ++ caller.octet_if number value }
    ensures short { length payload.new ≤ length payload.old + 3 }
{
    match value {
        Some(value) => append_to(payload, number, &[value]),
        None => {}
    }
}

// Appends the elements that are carried on with the number.
fn append_rest(payload: &mut Payload, elements: &NewElements)
    requires room { length payload.old ≤ 257 }
    requires name { ForSome elements.now.name (λ text. length text.now ≤ 255) }
    ensures appended { payload.new ≡ payload.old ++ caller.rest_elements (named elements.now) }
    ensures short { length payload.new ≤ length payload.old + 267 }
{
    append_text(payload, CALLING_NAME, elements.name);
    append_octet(payload, CALLINGPRES, elements.presentation);
    append_octet(payload, CALLINGTON, elements.number_type);
    match elements.network {
        Some(network) => append_to(payload, CALLINGTNS, &network.to_be_bytes()),
        None => {}
    }
}

impl Caller {
    // Returns a caller with these octets.
    fn holding(octets: &[u8]) -> Caller
        requires { length octets.now ≤ 524 }
        ensures { result ≡ octets.now }
    {
        let mut copy = ArrayVec::new();
        copy.try_extend_from_slice(octets).unwrap();
        Caller { octets: copy }
    }

    /// Returns a caller with a calling number of at most 255 octets, and nothing else; no element if there is no number.
    pub fn numbered(number: Option<&[u8]>) -> Caller
        requires { ForSome number (λ text. length text.now ≤ 255) }
        ensures { result ≡ caller.numbered (option_copied number.entry) }
    {
        let mut payload = Payload::empty();
        append_text(&mut payload, CALLING_NUMBER, number);
        Caller::holding(payload.as_slice())
    }

    /// Returns the caller by the elements of a NEW, whose number and name have at most 255 octets each. It has all elements
    /// if `carried` is true, otherwise only the number ("Information Elements").
    pub fn of(elements: &NewElements, carried: bool) -> Caller
        requires number { ForSome elements.now.calling (λ text. length text.now ≤ 255) }
        requires name { ForSome elements.now.name (λ text. length text.now ≤ 255) }
        ensures { result ≡ caller.caller_by carried (named elements.now) }
    {
        if !carried {
            return Caller::numbered(elements.calling);
        }
        let mut payload = Payload::empty();
        append_text(&mut payload, CALLING_NUMBER, elements.calling);
        append_rest(&mut payload, elements);
        Caller::holding(payload.as_slice())
    }

    /// Returns the octets of the elements, at most 524.
    pub fn as_slice(&self) -> &[u8]
        ensures value { result.now ≡ self.now }
        ensures short { length self.now ≤ 524 }
    {
        self.octets.as_slice()
    }
}
