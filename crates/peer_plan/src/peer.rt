//! A peer of a plan.
ghost use Rattle.std.specs.Prelude.{◌≡◌, option_map};
ghost use Rattle.peer_plan.specs.Plan.{with_drawn, with_key};

use crate::drawn::Drawn;
use crate::endpoint::Endpoint;
use crate::short_text::ShortText;
use crate::worker_id::WorkerId;
use call_auth::CallTokens;
use call_signals::{Credential, Formats, PeerRules};

// The values of one peer in a plan.
#[derive(Drop)]
pub(crate) struct Peer {
    pub(crate) name: ShortText,
    pub(crate) endpoint: Endpoint,
    // The worker that serves it.
    pub(crate) worker: WorkerId,
    pub(crate) rules: PeerRules,
    // The count of its call numbers: 1 ..= 512.
    pub(crate) numbers: u16,
}

// Returns the same tokens, with this key.
fn with_key(key: &[u8; 32], tokens: Option<CallTokens>) -> Option<CallTokens>
    ensures { result ≡ option_map (with_key key.now) tokens }
{
    match tokens {
        Some(tokens) => {
            let (key, address) = (*key, tokens.address);
            Some(CallTokens {
                key,
                address,
                port: tokens.port,
            })
        }
        None => None,
    }
}

impl Peer {
    // Takes the values that the exchange drew.
    pub(crate) fn take_drawn(&mut self, drawn: &Drawn)
        ensures { self.new ≡ with_drawn drawn.now self.old }
    {
        self.rules.challenge_prefix = drawn.prefix();
        self.rules.call_tokens = with_key(&drawn.token_key, self.rules.call_tokens);
        self.rules.poke_offset = drawn.poke_offset;
    }
}

// The limits of the legs of all peers.
#[derive(Clone, Copy)]
pub(crate) struct Limits {
    pub(crate) retry_ms: u64,
    pub(crate) max_retries: u32,
    pub(crate) ping_ms: u64,
    pub(crate) record_limit: u32,
    pub(crate) record_octets: Option<u32>,
    pub(crate) vnak_ms: u64,
    pub(crate) trunk_ms: Option<u64>,
    pub(crate) challenge_ms: Option<u64>,
}

// The user's name and the secrets of a peer.
#[derive(Drop)]
pub(crate) struct Credentials {
    pub(crate) user: Option<Credential>,
    pub(crate) secret: Option<Credential>,
    pub(crate) outbound_secret: Option<Credential>,
}

// The way in which media is sent to a peer.
#[derive(Clone, Copy)]
pub(crate) struct Media {
    pub(crate) formats: Formats,
    pub(crate) trunk: bool,
    pub(crate) trunk_timestamps: bool,
}
