//! The information elements of a text, and those among octets ("Information Elements").
ghost use Rattle.std.specs.Prelude.{◌≡◌, ◌<◌, ◌≤◌, List, [], ◌∷◌, length, MatchResult, MatchOption, Ok, IfSome, IfNone};
ghost use Rattle.std.specs.Option.{option_copied};
ghost use Rattle.info_elements.specs.Element.{Element, SpellsElements, IsElementCutAt, last_of, u16_in, u32_in, first_element};
ghost use Rattle.info_elements.specs.Element.{elements_of};

use std::marker::Model;

/// The place, in octets from the front of the data, of the element that passes its end.
#[derive(Clone, Copy, Debug, PartialEq, Eq)]
pub struct Cut(pub usize);

/// A text of whole information elements. Contracts see their list.
#[derive(Debug, Drop)]
pub struct Elements<'a> {
    octets: &'a [u8],
}

impl<'a> Model for Elements<'a> {
    ghost use Rattle.std.specs.Prelude.{List};
    ghost use Rattle.info_elements.specs.Element.{Element, SpellsElements, elements_of};

    ghost Value = { List Element };

    ghost view = { λ e. elements_of e.octets.now };

    ghost invariant = { λ e. SpellsElements e.octets.now (elements_of e.octets.now) };
}

// Returns the element at the front, and the octets after it.
fn split_element(octets: &[u8]) -> Option<(u8, &[u8], &[u8])>
    ensures none { IfNone result (first_element octets.now ≡ None) }
    ensures some { IfSome result (λ found. first_element octets.now ≡
        Some (record { number = found.0; value = found.1.now }, found.2.now)) }
    ensures short { IfSome result (λ found. length found.1.now ≤ 255) }
    ensures shorter { IfSome result (λ found. length found.2.now < length octets.now) }
{
    match octets {
        [number, len, rest @ ..] if *len as usize <= rest.len() => {
            let (value, rest) = rest.split_at(*len as usize);
            Some((*number, value, rest))
        }
        _ => None,
    }
}

/// Returns the number and the value, at most 255 octets, of the element at the front, and the octets after it ("Information
/// Elements"). Returns `None` if there is no whole element.
///
/// Repeated calls return each element of the text once, in order.
pub fn next_element(octets: &[u8]) -> Option<(u8, &[u8], &[u8])>
    ensures none { IfNone result (first_element octets.now ≡ None) }
    ensures some { IfSome result (λ found.
        first_element octets.now ≡ Some (record { number = found.0; value = found.1.now }, found.2.now)) }
    ensures ended { IfNone result (elements_of octets.now ≡ []) }
    ensures front { IfSome result (λ found.
        elements_of octets.now ≡ record { number = found.0; value = found.1.now } ∷ elements_of found.2.now) }
    ensures short { IfSome result (λ found. length found.1.now ≤ 255) }
    ensures shorter { IfSome result (λ found. length found.2.now < length octets.now) }
{
    split_element(octets)
}

// Returns the place of the first element that isn't whole.
pub(crate) fn cut_place(octets: &[u8]) -> Option<usize>
    ensures whole { IfNone result (SpellsElements octets.now (elements_of octets.now)) }
    ensures cut { IfSome result (IsElementCutAt octets.now) }
{
    let mut rest = octets;
    while !rest.is_empty() {
        match split_element(rest) {
            Some((_, _, after)) => rest = after,
            None => return Some(octets.len() - rest.len()),
        }
    }
    None
}

impl<'a> Elements<'a> {
    pub(crate) fn new(octets: &'a [u8]) -> Self
        requires { SpellsElements octets.now (elements_of octets.now) }
        ensures { result ≡ elements_of octets.now }
    {
        Elements { octets }
    }

    /// Returns the value, at most 255 octets, of the last element of that number, or `None` if there is none.
    pub fn last(&self, number: u8) -> Option<&'a [u8]>
        ensures last { option_copied result ≡ last_of number self.now }
        ensures short { IfSome result (λ value. length value.now ≤ 255) }
    {
        last_in(self.octets, number)
    }

    /// Returns the number in the last element of that number, or `None` if there is none, or if its value hasn't two
    /// octets.
    pub fn u16_of(&self, number: u8) -> Option<u16>
        ensures { result ≡ u16_in (last_of number self.now) }
    {
        u16_in(self.octets, number)
    }

    /// Returns the number in the last element of that number, or `None` if there is none, or if its value hasn't four
    /// octets.
    pub fn u32_of(&self, number: u8) -> Option<u32>
        ensures { result ≡ u32_in (last_of number self.now) }
    {
        u32_in(self.octets, number)
    }
}

/// Returns the value, at most 255 octets, of the last element of that number, or `None` if there is none. Octets that
/// aren't a whole element end the text.
pub fn last_in(octets: &[u8], number: u8) -> Option<&[u8]>
    ensures last { option_copied result ≡ last_of number (elements_of octets.now) }
    ensures short { IfSome result (λ value. length value.now ≤ 255) }
{
    let mut rest = octets;
    let mut found = None;
    while let Some((first, value, after)) = next_element(rest) {
        if first == number {
            found = Some(value);
        }
        rest = after;
    }
    found
}

/// Returns the number in the last element of that number, or `None` if there is none, or if its value hasn't two octets.
/// Octets that aren't a whole element end the text.
pub fn u16_in(octets: &[u8], number: u8) -> Option<u16>
    ensures { result ≡ u16_in (last_of number (elements_of octets.now)) }
{
    match last_in(octets, number) {
        Some([a, b]) => Some(*a as u16 * 256 + *b as u16),
        _ => None,
    }
}

/// Returns the number in the last element of that number, or `None` if there is none, or if its value hasn't four octets.
/// Octets that aren't a whole element end the text.
pub fn u32_in(octets: &[u8], number: u8) -> Option<u32>
    ensures { result ≡ u32_in (last_of number (elements_of octets.now)) }
{
    match last_in(octets, number) {
        Some([a, b, c, d]) => { Some(u32::from_be_bytes([*a, *b, *c, *d])) }
        _ => None,
    }
}
