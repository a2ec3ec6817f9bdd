//! The list of peers.
ghost use Rattle.std.specs.Prelude.{◌≡◌, ◌≤◌, [], Option};
ghost use Rattle.std.specs.List.{list_any};
ghost use Rattle.toml.specs.View.{table_view, items_view};
ghost use Rattle.peer_plan.specs.Fields.{Gives, each};
ghost use Rattle.peer_plan.specs.Reading.{window_in, poke_in, call_tokens_in, qualify_ms_in, tokens_if, rules_from, peer_in};
ghost use Rattle.peer_plan.specs.Reading.{is_named};
ghost use Rattle.peer_plan.specs.Reading.{has_same_endpoint, has_same_name, is_endpoint, peers_in};

use crate::endpoint::Endpoint;
use crate::error::PlanError;
use crate::key::Key;
use crate::peer::{Credentials, Limits, Media, Peer};
use crate::reading::fields::{flag_at, list_at, number_at};
use crate::reading::media::media;
use crate::reading::texts::{credentials, endpoint, name_at};
use crate::worker_id::WorkerId;
use call_auth::CallTokens;
use call_signals::PeerRules;
use std::alloc::Global;
use toml::{Table, Value};

// Returns the greatest number of frames that a leg holds.
fn window(table: &Table, format: u64) -> Result<u64, PlanError>
    ensures { result ≡ window_in format (table_view table.now) }
{
    if 2 <= format {
        number_at(table, Key::Window, Ok(64), 1, 127)
    } else {
        Ok(64)
    }
}

// Returns whether a POKE that belongs to no call is answered.
fn poke(table: &Table, format: u64) -> Result<bool, PlanError>
    ensures { result ≡ poke_in format (table_view table.now) }
{
    if format == 4 {
        flag_at(table, Key::Poke, true)
    } else {
        Ok(false)
    }
}

// Returns the source of an endpoint's call tokens, if they are required. The key is drawn when the exchange is opened.
fn tokens_if(asked: bool, endpoint: Endpoint) -> Option<CallTokens>
    ensures { result ≡ tokens_if asked endpoint }
{
    if asked {
        let (key, address) = ([0; 32], endpoint.address);
        Some(CallTokens {
            key,
            address,
            port: endpoint.port,
        })
    } else {
        None
    }
}

// Returns the source of a peer's call tokens, if it needs them.
fn call_tokens(
    table: &Table,
    format: u64,
    endpoint: Endpoint,
) -> Result<Option<CallTokens>, PlanError>
    ensures { result ≡ call_tokens_in format endpoint (table_view table.now) }
{
    if format != 4 {
        return Ok(None);
    }
    let asked = flag_at(table, Key::CallToken, false)?;
    Ok(tokens_if(asked, endpoint))
}

// Reads how often a peer is asked whether it is there, in milliseconds.
fn qualify_ms(table: &Table, format: u64) -> Result<u64, PlanError>
    ensures { result ≡ qualify_ms_in format (table_view table.now) }
{
    if format == 4 {
        number_at(table, Key::QualifyMs, Ok(60_000), 0, 600_000)
    } else {
        Ok(0)
    }
}

// Returns the rules of a peer's legs. The prefix of its challenges is drawn when the exchange is opened.
fn rules_from(
    format: u64,
    limits: Limits,
    credentials: Credentials,
    media: Media,
    window: u8,
    poke: bool,
    call_tokens: Option<CallTokens>,
    qualify_ms: u64,
) -> PeerRules
    ensures { result ≡ rules_from format limits credentials media window poke call_tokens qualify_ms }
{
    PeerRules {
        user: credentials.user,
        secret: credentials.secret,
        outbound_secret: credentials.outbound_secret,
        challenge_prefix: None,
        call_tokens,
        challenge_ms: limits.challenge_ms,
        formats: media.formats,
        trunk: media.trunk,
        trunk_timestamps: media.trunk_timestamps,
        trunk_ms: limits.trunk_ms,
        retry_ms: limits.retry_ms,
        max_retries: limits.max_retries,
        ping_ms: limits.ping_ms,
        record_limit: limits.record_limit,
        record_octets: limits.record_octets,
        window,
        vnak_ms: limits.vnak_ms,
        poke,
        qualify_ms,
        carries_caller: format == 4,
        carries_cause: format == 4,
        routes_format: format == 4,
        is_hardened: format == 4,
        poke_offset: 0,
    }
}

#[tactic(auto, unfolding(crate::specs::Reading::peer_in))]
fn peer(table: &Table, format: u64, limits: Limits, workers: u64) -> Result<Peer, PlanError>
    requires some { 1 ≤ workers }
    requires few { workers ≤ 8 }
    ensures { result ≡ peer_in format limits workers (table_view table.now) }
{
    let name = name_at(table, Key::Name)?;
    let endpoint = endpoint(table)?;
    let worker = number_at(
        table,
        Key::Worker,
        Err(PlanError::Missing(Key::Worker)),
        0,
        workers - 1,
    )?;
    let credentials = credentials(table, format)?;
    let media = media(table)?;
    let numbers = number_at(table, Key::Numbers, Ok(64), 1, 512)?;
    let window = window(table, format)?;
    let poke = poke(table, format)?;
    let call_tokens = call_tokens(table, format, endpoint)?;
    let qualify_ms = qualify_ms(table, format)?;
    Ok(Peer {
        name,
        endpoint,
        worker: WorkerId::new(worker as u16),
        rules: rules_from(
            format,
            limits,
            credentials,
            media,
            window as u8,
            poke,
            call_tokens,
            qualify_ms,
        ),
        numbers: numbers as u16,
    })
}

fn each_peer(
    alloc: Global,
    items: &[Value],
    format: u64,
    limits: Limits,
    workers: u64,
) -> Result<Vec<Peer>, PlanError>
    requires some { 1 ≤ workers }
    requires few { workers ≤ 8 }
    ensures { Gives (λ peers. peers.items) result (each Key.Peer (λ _. peer_in format limits workers) [] (items_view items.now)) }
{
    let mut peers = Vec::with_capacity(alloc, items.len())?;
    for item in items {
        let Some(table) = item.as_table() else {
            return Err(PlanError::Range(Key::Peer));
        };
        let next = peer(table, format, limits, workers)?;
        peers.push(next)?;
    }
    Ok(peers)
}

fn is_named(peer: &Peer, name: &str) -> bool
    ensures { result ≡ is_named name.now peer.now }
{
    peer.name.as_str() == name
}

fn has_name(name: &str, peers: &[Peer]) -> bool
    ensures { result ≡ list_any (is_named name.now) peers.now }
{
    peers.iter().any(|peer| is_named(peer, name))
}

// Returns whether two peers have one name.
fn has_same_name(peers: &[Peer]) -> bool
    ensures { result ≡ has_same_name peers.now }
{
    let mut rest = peers;
    'peers: while let Some((peer, others)) = rest.split_first() {
        if has_name(peer.name.as_str(), others) {
            return true;
        }
        rest = others;
    }
    false
}

fn is_at(peer: &Peer, endpoint: Endpoint) -> bool
    ensures { result ≡ is_endpoint peer.now.endpoint endpoint }
{
    peer.endpoint == endpoint
}

fn has_endpoint(endpoint: Endpoint, peers: &[Peer]) -> bool
    ensures { result ≡ list_any (λ other. is_endpoint other.endpoint endpoint) peers.now }
{
    peers.iter().any(|peer| is_at(peer, endpoint))
}

// Returns whether two peers have one endpoint.
fn has_same_endpoint(peers: &[Peer]) -> bool
    ensures { result ≡ has_same_endpoint peers.now }
{
    let mut rest = peers;
    'peers: while let Some((peer, others)) = rest.split_first() {
        if has_endpoint(peer.endpoint, others) {
            return true;
        }
        rest = others;
    }
    false
}

// Returns the peers, 1 to 32, with distinct names and endpoints.
#[tactic(auto, unfolding(crate::specs::Reading::peers_in))]
pub(crate) fn peers(
    alloc: Global,
    table: &Table,
    format: u64,
    limits: Limits,
    workers: u64,
) -> Result<Vec<Peer>, PlanError>
    requires some { 1 ≤ workers }
    requires few { workers ≤ 8 }
    ensures { Gives (λ peers. peers.items) result (peers_in format limits workers (table_view table.now)) }
{
    let items = list_at(table, Key::Peer, 32)?;
    let peers = each_peer(alloc, items, format, limits, workers)?;
    if has_same_name(&peers) {
        return Err(PlanError::SameName);
    }
    if has_same_endpoint(&peers) {
        return Err(PlanError::SameEndpoint);
    }
    Ok(peers)
}
