//! The keys of a plan.
ghost use Rattle.std.specs.Prelude.{◌≡◌};
ghost use Rattle.peer_plan.specs.Keys.{is_one_of, is_known};

use std::fmt;

/// The tables that a plan is made of: the plan itself, and the tables of its three lists.
#[derive(Clone, Copy, Debug, PartialEq, Eq)]
pub enum Section {
    Plan,
    Worker,
    Peer,
    Route,
}

/// A key of a plan. It is printed as the plan has it.
#[derive(Clone, Copy, Debug, PartialEq, Eq)]
pub enum Key {
    Format,
    RetryMs,
    MaxRetries,
    PingMs,
    RecordLimit,
    RecordOctets,
    VnakMs,
    TrunkMs,
    ChallengeMs,
    /// The list of workers, and the worker of a peer.
    Worker,
    Address,
    Port,
    Passes,
    /// The list of peers, and the peer of a route.
    Peer,
    Name,
    User,
    Secret,
    OutboundSecret,
    Formats,
    Trunk,
    TrunkTimestamps,
    Numbers,
    Window,
    Poke,
    CallToken,
    QualifyMs,
    /// The list of routes.
    Route,
    Prefix,
    Source,
}

impl Key {
    ghost use Rattle.peer_plan.specs.Keys.{key_name};

    /// Returns the key's name in a plan: lower-case ASCII letters and `_`.
    pub fn name(self) -> &'static str
        ensures { result.now ≡ key_name self }
    {
        match self {
            Key::Format => "format",
            Key::RetryMs => "retry_ms",
            Key::MaxRetries => "max_retries",
            Key::PingMs => "ping_ms",
            Key::RecordLimit => "record_limit",
            Key::RecordOctets => "record_octets",
            Key::VnakMs => "vnak_ms",
            Key::TrunkMs => "trunk_ms",
            Key::ChallengeMs => "challenge_ms",
            Key::Worker => "worker",
            Key::Address => "address",
            Key::Port => "port",
            Key::Passes => "passes",
            Key::Peer => "peer",
            Key::Name => "name",
            Key::User => "user",
            Key::Secret => "secret",
            Key::OutboundSecret => "outbound_secret",
            Key::Formats => "formats",
            Key::Trunk => "trunk",
            Key::TrunkTimestamps => "trunk_timestamps",
            Key::Numbers => "numbers",
            Key::Window => "window",
            Key::Poke => "poke",
            Key::CallToken => "call_token",
            Key::QualifyMs => "qualify_ms",
            Key::Route => "route",
            Key::Prefix => "prefix",
            Key::Source => "source",
        }
    }
}

const PLAN_KEYS: [Key; 9] = [
    Key::Format,
    Key::RetryMs,
    Key::MaxRetries,
    Key::PingMs,
    Key::RecordLimit,
    Key::Worker,
    Key::Passes,
    Key::Peer,
    Key::Route,
];

// Those that plan version 4 adds.
const PLAN_KEYS_OF_FORMAT_4: [Key; 4] = [
    Key::RecordOctets,
    Key::VnakMs,
    Key::TrunkMs,
    Key::ChallengeMs,
];

const WORKER_KEYS: [Key; 2] = [Key::Address, Key::Port];

const PEER_KEYS: [Key; 10] = [
    Key::Name,
    Key::Address,
    Key::Port,
    Key::Worker,
    Key::User,
    Key::Secret,
    Key::Formats,
    Key::Trunk,
    Key::TrunkTimestamps,
    Key::Numbers,
];

const PEER_KEYS_OF_FORMAT_4: [Key; 4] = [
    Key::OutboundSecret,
    Key::Poke,
    Key::CallToken,
    Key::QualifyMs,
];

const ROUTE_KEYS: [Key; 2] = [Key::Prefix, Key::Peer];

fn is_one_of(keys: &[Key], name: &str) -> bool
    ensures { result ≡ is_one_of keys.now name.now }
{
    keys.iter().any(|key| key.name() == name)
}

/// Returns whether a plan of version 1, 2 or 4 reads the key of this name in such a table. No other key's value is read.
pub fn is_known(section: Section, format: u64, name: &str) -> bool
    ensures { result ≡ is_known section format name.now }
{
    match section {
        Section::Plan => {
            is_one_of(&PLAN_KEYS, name) || format == 4 && is_one_of(&PLAN_KEYS_OF_FORMAT_4, name)
        }
        Section::Worker => is_one_of(&WORKER_KEYS, name),
        Section::Peer => {
            is_one_of(&PEER_KEYS, name)
                || 2 <= format && Key::Window.name() == name
                || format == 4 && is_one_of(&PEER_KEYS_OF_FORMAT_4, name)
        }
        Section::Route => {
            is_one_of(&ROUTE_KEYS, name) || format == 4 && Key::Source.name() == name
        }
    }
}

impl fmt::Display for Key {
    ghost use Rattle.std.specs.Prelude.{Some};
    ghost use Rattle.peer_plan.specs.Keys.{key_name};

    ghost output = { λ key. Some (key_name key) };

    fn fmt<W: fmt::Write>(&self, f: &mut fmt::Formatter<W>) -> fmt::Result {
        f.write_str(self.name())
    }
}
