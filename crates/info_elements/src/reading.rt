//! Reading a text of information elements ("Information Elements").
ghost use Rattle.std.specs.Prelude.{◌≡◌, ℕ, List, MatchResult, Ok, Err};
ghost use Rattle.info_elements.specs.Element.{Element, SpellsElements, IsElementCutAt};

use crate::element_list::{Cut, Elements, cut_place};

/// Returns the information elements that the octets spell, in their order ("Information Elements"). Nothing is copied.
///
/// `Cut` comes if and only if an element passes the end of the octets, with that element's place.
pub fn elements(octets: &[u8]) -> Result<Elements<'_>, Cut>
    ensures exact { MatchResult result (SpellsElements octets.now) (λ cut. IsElementCutAt octets.now cut.0) }
    ensures only { (es : List Element) → SpellsElements octets.now es → result ≡ Ok es }
    ensures only_cut { (place : ℕ) → IsElementCutAt octets.now place → result ≡ Err (record { 0 = place }) }
{
    match cut_place(octets) {
        Some(place) => Err(Cut(place)),
        None => Ok(Elements::new(octets)),
    }
}
