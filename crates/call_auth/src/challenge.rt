//! The text that a caller has to answer ("CHALLENGE").
ghost use Rattle.std.specs.Prelude.{◌≡◌, ◌↔◌, IsSome, IfSome};
ghost use Rattle.call_auth.specs.Challenge.{IsChallenge};

use arrayvec::ArrayVec;
use std::marker::Model;

/// A text of 1 to 32 octets of printable ASCII without the space, kept in place: it takes no memory.
/// Contracts see its octets as a list.
#[derive(Debug, Drop)]
pub struct Challenge {
    octets: ArrayVec<u8, 32>,
}

impl Model for Challenge {
    ghost use Rattle.std.specs.Prelude.{List, ℕ};
    ghost use Rattle.call_auth.specs.Challenge.{IsChallenge};

    ghost Value = { List ℕ };

    ghost view = { λ c. c.octets.items };

    ghost invariant = { λ c. IsChallenge c.octets.items };
}

impl Challenge {
    /// Returns the challenge of a text, or `None` if the text isn't 1 to 32 octets, each of them 0x21 ..= 0x7e.
    pub fn new(text: &[u8]) -> Option<Challenge>
        ensures found { IsSome result ↔ IsChallenge text.now }
        ensures octets { IfSome result (λ c. c ≡ text.now) }
    {
        if text.is_empty()
            || text.len() > 32
            || !text.iter().all(|octet| octet.is_ascii_graphic())
        {
            return None;
        }
        let mut octets = ArrayVec::new();
        octets.try_extend_from_slice(text).unwrap();
        Some(Challenge { octets })
    }

    /// Returns the octets, 1 to 32 of them.
    pub fn as_slice(&self) -> &[u8]
        ensures octets { result.now ≡ self.now }
        ensures form { IsChallenge self.now }
    {
        self.octets.as_slice()
    }

    /// Returns a copy of the challenge. It takes no memory, so it can't fail.
    pub fn copied(&self) -> Challenge
        ensures { result ≡ self.now }
    {
        let mut octets = ArrayVec::new();
        octets.try_extend_from_slice(self.as_slice()).unwrap();
        Challenge { octets }
    }
}
