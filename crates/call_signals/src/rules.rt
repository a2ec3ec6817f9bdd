//! The rules of a peer, as a plan has them.
ghost use Rattle.std.specs.Prelude.{◌≡◌, ◌↔◌, IsSome, IfSome, option_copied};
ghost use Rattle.std.specs.List.{list_all};
ghost use Rattle.call_signals.specs.Credential.{IsCredential, is_printable};
ghost use Rattle.call_signals.specs.PeerRules.{is_own};

use crate::format::Formats;
use arrayvec::ArrayVec;
use call_auth::{CallTokens, Challenge};
use std::marker::Model;

/// A user's name or a secret: 1 to 64 octets 0x20 ..= 0x7e. Contracts see its octets.
#[derive(Debug, Drop)]
pub struct Credential {
    octets: ArrayVec<u8, 64>,
}

impl Model for Credential {
    ghost use Rattle.std.specs.Prelude.{List, ℕ};
    ghost use Rattle.call_signals.specs.Credential.{IsCredential};

    ghost Value = { List ℕ };

    ghost view = { λ credential. credential.octets.items };

    ghost invariant = { λ credential. IsCredential credential.octets.items };
}

impl Credential {
    /// Returns the credential of these octets, or `None` if and only if they aren't 1 to 64 octets, each of them 0x20 ..=
    /// 0x7e. It takes no memory.
    pub fn new(octets: &[u8]) -> Option<Credential>
        ensures found { IsSome result ↔ IsCredential octets.now }
        ensures value { IfSome result (λ credential. credential ≡ octets.now) }
    {
        if octets.is_empty() || octets.len() > 64 || !are_printable(octets) {
            return None;
        }
        let mut copy = ArrayVec::new();
        copy.try_extend_from_slice(octets).unwrap();
        Some(Credential { octets: copy })
    }

    /// Returns the octets, 1 to 64.
    pub fn as_slice(&self) -> &[u8]
        ensures value { result.now ≡ self.now }
        ensures credential { IsCredential self.now }
    {
        self.octets.as_slice()
    }

    /// Returns a copy of the credential. It takes no memory.
    pub fn copied(&self) -> Credential
        ensures { result ≡ self.now }
    {
        let mut copy = ArrayVec::new();
        copy.try_extend_from_slice(self.octets.as_slice()).unwrap();
        Credential { octets: copy }
    }
}

/// Returns whether all octets are printable ASCII, 0x20 ..= 0x7e.
pub fn are_printable(octets: &[u8]) -> bool
    ensures { result ≡ list_all is_printable octets.now }
{
    octets.iter().all(|octet| *octet >= 0x20 && *octet <= 0x7e)
}

/// The rules of one peer, as its plan has them.
#[derive(Debug, Drop)]
pub struct PeerRules {
    /// The name that is sent as USERNAME.
    pub user: Option<Credential>,
    /// The secret by which the peer answers MD5 challenges. If there is one, there is a user.
    pub secret: Option<Credential>,
    /// The secret by which the peer's MD5 challenges are answered. If there is one, there is a user.
    pub outbound_secret: Option<Credential>,
    /// The prefix of this exchange's challenges, if it draws them with one. A hardened leg answers no such challenge,
    /// because the answer would serve the peer that was challenged with it.
    pub challenge_prefix: Option<Challenge>,
    /// The source of call tokens, if a NEW opens a leg only with one. `None` if no token is required.
    pub call_tokens: Option<CallTokens>,
    /// The time after its opening at which a leg that waits for the answer to its challenge ends: 1,000 ..= 60,000
    /// milliseconds. Until then its record has at most 32 entries and 4,096 octets of data. `None` sets neither limit.
    pub challenge_ms: Option<u64>,
    /// The formats that the peer may use, at least one.
    pub formats: Formats,
    /// Whether media is sent to the peer in trunk frames.
    pub trunk: bool,
    /// Whether the entries of those trunk frames have timestamps.
    pub trunk_timestamps: bool,
    /// The time for which media waits for a trunk frame to fill: 0 ..= 60 milliseconds. `None` packs all queued media at
    /// each tick.
    pub trunk_ms: Option<u64>,
    /// The time for which a frame waits for its acknowledgement before it is retransmitted: 1 ..= 60,000 milliseconds.
    pub retry_ms: u64,
    /// The greatest number of retransmissions of a frame: 0 ..= 20.
    pub max_retries: u32,
    /// The time after the last PING at which the next is sent: 0 ..= 600,000 milliseconds. 0 disables it.
    pub ping_ms: u64,
    /// The greatest number of entries of a leg's record: 64 ..= 65,536.
    pub record_limit: u32,
    /// The greatest number of octets of data in a leg's record: 65,536 ..= 268,435,456. `None` sets no limit.
    pub record_octets: Option<u32>,
    /// The greatest number of frames that a leg holds: 1 ..= 127.
    pub window: u8,
    /// The time after which a leg that asked for a missing frame by VNAK asks for the same one again: 0 ..= 60,000
    /// milliseconds. With 0 each gap is answered.
    pub vnak_ms: u64,
    /// Whether a POKE that belongs to no call is answered by PONG.
    pub poke: bool,
    /// How often the peer is asked by POKE whether it is there: 0 ..= 600,000 milliseconds, where 0 is never.
    pub qualify_ms: u64,
    /// What is added to the moment in the timestamp of a POKE, modulo 2^32. If it is drawn, nobody who can't see the POKE
    /// knows the timestamp of its PONG. 0 if none is drawn.
    pub poke_offset: u32,
    /// Whether CALLING NAME, CALLINGPRES, CALLINGTON and CALLINGTNS of an offered call are carried on to its far leg.
    pub carries_caller: bool,
    /// Whether a leg notes the cause of its end for its partner. Otherwise each end is normal clearing.
    pub carries_cause: bool,
    /// Whether the format of an offered call is chosen when it is routed, among all common ones. Otherwise it is chosen
    /// before.
    pub routes_format: bool,
    /// Whether legs are hardened against peers that break the rules or forge frames. Then a doomed leg accepts no digits,
    /// and a repeated VNAK is answered only by the oldest held frame. An INVAL ends only a leg that it names, and a
    /// challenge of this exchange that comes back isn't answered.
    pub is_hardened: bool,
}

impl PeerRules {
    /// Returns whether there is a challenge and it begins as those of this exchange do. A peer that is challenged may send
    /// the challenge back, to have it answered.
    pub fn is_own(&self, challenge: Option<&[u8]>) -> bool
        ensures { result ≡ is_own self.now.challenge_prefix (option_copied challenge.entry) }
    {
        match &self.challenge_prefix {
            Some(prefix) => match challenge {
                Some(challenge) => challenge.starts_with(prefix.as_slice()),
                None => false,
            },
            None => false,
        }
    }

    /// Returns a copy of the rules. It takes no memory.
    pub fn copied(&self) -> PeerRules
        ensures { result ≡ self.now }
    {
        PeerRules {
            user: copied(&self.user),
            secret: copied(&self.secret),
            outbound_secret: copied(&self.outbound_secret),
            challenge_prefix: match &self.challenge_prefix {
                Some(prefix) => Some(prefix.copied()),
                None => None,
            },
            call_tokens: self.call_tokens,
            challenge_ms: self.challenge_ms,
            formats: self.formats,
            trunk: self.trunk,
            trunk_timestamps: self.trunk_timestamps,
            trunk_ms: self.trunk_ms,
            retry_ms: self.retry_ms,
            max_retries: self.max_retries,
            ping_ms: self.ping_ms,
            record_limit: self.record_limit,
            record_octets: self.record_octets,
            window: self.window,
            vnak_ms: self.vnak_ms,
            poke: self.poke,
            qualify_ms: self.qualify_ms,
            poke_offset: self.poke_offset,
            carries_caller: self.carries_caller,
            carries_cause: self.carries_cause,
            routes_format: self.routes_format,
            is_hardened: self.is_hardened,
        }
    }
}

fn copied(credential: &Option<Credential>) -> Option<Credential>
    ensures { result ≡ credential.now }
{
    match credential {
        Some(credential) => Some(credential.copied()),
        None => None,
    }
}
