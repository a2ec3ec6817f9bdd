//! Information elements in words ("Information Elements").
use crate::ladder::pieces::write_hexadecimal;
use crate::ladder::words::{write_formats, write_octets};
use info_elements::{
    AUTHMETHODS, CALLED_NUMBER, CALLING_NAME, CALLING_NUMBER, CALLINGPRES, CALLINGTNS, CALLINGTON,
    CALLTOKEN, CAPABILITY, CAUSE, CAUSECODE, CHALLENGE, FORMAT, IAX_UNKNOWN, MD5_RESULT, USERNAME,
    VERSION, next_element, u32_in,
};
use plain_text::TextBuffer;

// A receiver's report of a call's media, in a PONG ("RR JITTER" to "RR OOO"). The exchange itself skips these.
const RR_JITTER: u8 = 0x2e;

const RR_LOSS: u8 = 0x2f;

const RR_PKTS: u8 = 0x30;

const RR_DELAY: u8 = 0x31;

const RR_DROPPED: u8 = 0x32;

const RR_OOO: u8 = 0x33;

// The form of an element's value.
#[derive(Clone, Copy)]
enum Form {
    // A number of one octet, of two, and of four.
    Octet,
    Pair,
    Quad,
    // A percentage of one octet, and a count of three ("RR LOSS").
    Loss,
    // The methods of authentication. MD5 is bit 0x0002.
    Methods,
    // Whether the caller ID may be shown, by two bits; the other bits say who verified it.
    Presentation,
    Formats,
    Text,
    Quoted,
    // A secret that nobody may read.
    Hidden,
}

// The kinds of elements: the number, the label, and the form of the value.
const KINDS: [(u8, &str, Form); 23] = [
    (FORMAT, "", Form::Formats),
    (CAPABILITY, "can ", Form::Formats),
    (VERSION, "version ", Form::Pair),
    (AUTHMETHODS, "by ", Form::Methods),
    (CAUSECODE, "cause ", Form::Octet),
    (CALLINGPRES, "presentation ", Form::Presentation),
    (CALLINGTON, "type of number ", Form::Octet),
    (CALLINGTNS, "transit network ", Form::Pair),
    (IAX_UNKNOWN, "unknown subclass ", Form::Octet),
    (CALLED_NUMBER, "", Form::Text),
    (CALLING_NUMBER, "from ", Form::Text),
    (CALLING_NAME, "name ", Form::Text),
    (USERNAME, "user ", Form::Text),
    (CHALLENGE, "challenge ", Form::Text),
    (CAUSE, "", Form::Quoted),
    // The digits would let a reader try secrets.
    (MD5_RESULT, "MD5 result", Form::Hidden),
    // The token would let a reader place calls in another's name for some seconds.
    (CALLTOKEN, "call token", Form::Hidden),
    (RR_JITTER, "RR jitter ", Form::Quad),
    (RR_LOSS, "RR loss ", Form::Loss),
    (RR_PKTS, "RR packets ", Form::Quad),
    (RR_DELAY, "RR delay ", Form::Pair),
    (RR_DROPPED, "RR dropped ", Form::Quad),
    (RR_OOO, "RR out of order ", Form::Quad),
];

// Returns an element's label and the form of its value, if the value has that form.
fn kind_of(number: u8, value: &[u8]) -> Option<(&'static str, Form)> {
    for (known, name, form) in &KINDS {
        if *known == number && fits(*form, value.len()) {
            return Some((*name, *form));
        }
    }
    None
}

fn fits(form: Form, octets: usize) -> bool {
    match form {
        Form::Octet | Form::Presentation => octets == 1,
        Form::Pair | Form::Methods => octets == 2,
        Form::Quad | Form::Loss | Form::Formats => octets == 4,
        Form::Text | Form::Quoted | Form::Hidden => true,
    }
}

// Returns the number in the octets of a value.
fn number_in(value: &[u8]) -> u32 {
    let mut number: u32 = 0;
    for octet in value {
        number = number.wrapping_shl(8) | u32::from(*octet);
    }
    number
}

// Writes a loss: the count, and the percentage.
fn write_loss(number: u32, out: &mut TextBuffer) {
    out.number(u64::from(number & 0xff_ffff));
    out.labelled(" (", u64::from(number >> 24));
    out.text("%)");
}

// Writes a number and its meaning.
fn write_number(form: Form, number: u32, out: &mut TextBuffer) {
    match form {
        Form::Formats => return write_formats(number, out),
        Form::Loss => return write_loss(number, out),
        Form::Methods if number == 2 => return out.text("MD5"),
        Form::Methods => out.text("methods "),
        _ => {}
    }
    out.number(u64::from(number));
    match (form, number & 0x60) {
        (Form::Presentation, 0x20) => out.text(" (withheld)"),
        (Form::Presentation, 0x40) => out.text(" (no number)"),
        _ => {}
    }
}

// Writes an element.
fn write_element(number: u8, value: &[u8], out: &mut TextBuffer) {
    let Some((name, form)) = kind_of(number, value) else {
        out.text("element 0x");
        write_hexadecimal(u32::from(number), 2, out);
        out.labelled(" of ", value.len() as u64);
        return out.text(" octets");
    };
    out.text(name);
    match form {
        Form::Hidden => {}
        Form::Text if !value.is_empty() => write_octets(value, out),
        Form::Text | Form::Quoted => {
            out.text("\"");
            write_octets(value, out);
            out.text("\"");
        }
        _ => write_number(form, number_in(value), out),
    }
}

// Returns whether an element adds nothing: version 2, or a capability equal to the format.
fn is_left_out(number: u8, value: &[u8], elements: &[u8]) -> bool {
    match number {
        VERSION => value == [0, 2].as_slice(),
        CAPABILITY => {
            let format = u32_in(elements, FORMAT);
            format.is_some() && format == u32_in(elements, CAPABILITY)
        }
        _ => false,
    }
}

/// Writes the elements, in their order, each behind a blank or a comma.
pub(crate) fn write_elements(elements: &[u8], out: &mut TextBuffer) {
    let mut gap = " ";
    let mut rest = elements;
    while let Some((number, value, after)) = next_element(rest) {
        if !is_left_out(number, value, elements) {
            out.text(gap);
            write_element(number, value, out);
            gap = ", ";
        }
        rest = after;
    }
    if !rest.is_empty() {
        out.text(gap);
        out.text("an element that is cut");
    }
}
