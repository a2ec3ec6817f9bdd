//! The values that an exchange draws when it is opened.
ghost use Rattle.std.specs.Prelude.{◌≡◌, replicate, None};

use call_auth::Challenge;

/// The values that an exchange draws when it is opened, in addition to its plan.
#[derive(Drop)]
pub struct Drawn {
    /// The prefix of its challenges, if they have one.
    pub challenge_prefix: Option<Challenge>,
    /// The key of its call tokens. It must stay secret, because it suffices to make them.
    pub token_key: [u8; 32],
    /// What is added to the moments in the timestamps of its POKEs, modulo 2^32.
    pub poke_offset: u32,
}

impl Drawn {
    /// Returns the values of an exchange that draws none: challenges have no prefix, the key is 32 zero octets, and
    /// nothing is added to the timestamps of POKEs.
    pub fn nothing() -> Drawn
        ensures prefix { result.challenge_prefix ≡ None }
        ensures key { result.token_key ≡ replicate 32 0 }
        ensures offset { result.poke_offset ≡ 0 }
    {
        Drawn {
            challenge_prefix: None,
            token_key: [0; 32],
            poke_offset: 0,
        }
    }

    // Returns a copy of the prefix.
    pub(crate) fn prefix(&self) -> Option<Challenge>
        ensures { result ≡ self.now.challenge_prefix }
    {
        match &self.challenge_prefix {
            Some(prefix) => Some(prefix.copied()),
            None => None,
        }
    }
}
