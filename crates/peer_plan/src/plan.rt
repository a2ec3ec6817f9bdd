//! The plan of an exchange.
ghost use Rattle.std.specs.Prelude.{◌≡◌, ◌≢◌, ◌<◌, ◌≤◌, ◌+◌, ◌*◌, ◌^◌, length, map, All, false, IfOk, IfSome, IfNone, option_map};
ghost use Rattle.std.specs.Prelude.{option_and_then, position, slice_get};
ghost use Rattle.call_signals.specs.PeerRules.{IsPeerRules, IsWithin};
ghost use Rattle.toml.specs.View.{table_view};
ghost use Rattle.peer_plan.specs.Fields.{Gives};
ghost use Rattle.peer_plan.specs.Plan.{IsPlan, IsNearest, fits, range_of, counts_of, total_of, with_drawn};
ghost use Rattle.peer_plan.specs.Reading.{has_way, is_endpoint, plan_in, plan_of};

use crate::drawn::Drawn;
use crate::endpoint::Endpoint;
use crate::error::PlanError;
use crate::number_range::NumberRange;
use crate::peer::Peer;
use crate::reading;
use crate::routes::Routes;
use crate::worker_id::WorkerId;
use call_auth::{CallTokens, Challenge};
use call_book::PeerId;
use call_signals::PeerRules;
use std::alloc::{AllocError, Global};
use std::marker::Model;
use toml::Table;

/// A plan: its workers, its peers with their numbers and rules, and its routes. A peer and a worker are named by their places,
/// from 0 on. `read` makes it from a text and takes memory; nothing else does.
pub struct Plan {
    workers: Vec<Endpoint>,
    passes: u16,
    peers: Vec<Peer>,
    // By peer, in arrays of their own, so that a search reads little memory.
    endpoints: Vec<Endpoint>,
    counts: Vec<u16>,
    routes: Routes,
    // Whether a route for the calls of all isn't for those of the peer to which it leads.
    avoids_return: bool,
}

// Written out, so that an owner proves one call at its drop, not the drop of each field.
impl Drop for Plan {
    fn drop(self) {
        let Plan {
            workers: _,
            passes: _,
            peers: _,
            endpoints: _,
            counts: _,
            routes: _,
            avoids_return: _,
        } = self;
    }
}

impl Model for Plan {
    ghost use Rattle.peer_plan.specs.Plan.{PlanView};

    ghost Value = { PlanView };

    ghost use Rattle.peer_plan.specs.PlanFields.{plan_view, IsSound};

    ghost view = { plan_view };

    ghost invariant = { IsSound };
}

impl Plan {
    ghost use Rattle.peer_plan.specs.declared.peer.Peer.{Peer};
    ghost use Rattle.peer_plan.specs.declared.route.Route.{Route};

    /// Reads the plan of a text in TOML, of version 1, 2 or 4, or returns its first fault.
    ///
    /// The text may have any octets. The keys are checked in the order of `Key`, and lists in their order. In version 4,
    /// unknown keys are checked last.
    ///
    /// Returns `NotToml` before any other fault except `Memory`, which may come at any time. `Missing` and `Range` come key
    /// by key. `SameName`, then `SameEndpoint`, come once all peers are read. For each route `UnknownPeer` comes, for its
    /// target and then for its source, then `SameRoute`. `Unknown` comes last.
    pub fn read(alloc: Global, text: &[u8]) -> Result<Plan, PlanError>
        ensures plan { Gives (λ plan. plan) result (plan_of text.now) }
        ensures sound { IfOk result IsPlan }
    {
        let table = reading::document(alloc, text)?;
        plan_in(alloc, &table)
    }

    /// Returns the endpoints of the workers, 1 to 8.
    pub fn workers(&self) -> &[Endpoint]
        ensures value { result.now ≡ self.now.workers }
        ensures sound { IsPlan self.now }
    {
        &self.workers
    }

    /// Returns the number of passes: at least that of the workers, at most 64.
    pub fn passes(&self) -> u16
        ensures value { result ≡ self.now.passes }
        ensures sound { IsPlan self.now }
    {
        self.passes
    }

    /// Returns the same plan with `passes` passes: at least as many as workers, at most 64.
    pub fn with_passes(self, passes: u16) -> Plan
        requires { IsWithin (length self.workers) 64 passes }
        ensures { result ≡ record self { passes = passes } }
    {
        let Plan {
            workers,
            passes: _,
            peers,
            endpoints,
            counts,
            routes,
            avoids_return,
        } = self;
        Plan {
            workers,
            passes,
            peers,
            endpoints,
            counts,
            routes,
            avoids_return,
        }
    }

    /// Returns the same plan, of an exchange that drew these values when it was opened: the prefix of its challenges, the key
    /// of its call tokens, and the offset of its POKEs' timestamps.
    pub fn with_drawn(self, drawn: &Drawn) -> Plan
        ensures { result ≡ record self { peers = map (with_drawn drawn.now) self.peers } }
    {
        let Plan {
            workers,
            passes,
            mut peers,
            endpoints,
            counts,
            routes,
            avoids_return,
        } = self;
        for peer in peers.iter_mut() {
            peer.take_drawn(drawn);
        }
        Plan {
            workers,
            passes,
            peers,
            endpoints,
            counts,
            routes,
            avoids_return,
        }
    }

    /// Returns the prefix of the exchange's challenges, if they have one.
    pub fn challenge_prefix(&self) -> Option<&Challenge>
        ensures { option_map (λ prefix. prefix.now) result ≡
            option_and_then (λ peer. peer.rules.challenge_prefix) (slice_get self.now.peers 0) }
    {
        match self.peers.first() {
            Some(peer) => peer.rules.challenge_prefix.as_ref(),
            None => None,
        }
    }

    /// Returns what the exchange adds to the moments in the timestamps of its POKEs, modulo 2^32.
    pub fn poke_offset(&self) -> u32
        ensures { (peer : Peer) → slice_get self.now.peers 0 ≡ Some peer → result ≡ peer.rules.poke_offset }
    {
        match self.peers.first() {
            Some(peer) => peer.rules.poke_offset,
            None => 0,
        }
    }

    /// Returns the source of a peer's call tokens, if it needs them.
    pub fn call_tokens(&self, peer: PeerId) -> Option<CallTokens>
        requires { peer < length self.now.peers }
        ensures { option_map (λ peer. peer.rules.call_tokens) (slice_get self.now.peers peer) ≡ Some result }
    {
        self.peers[peer.index()].rules.call_tokens
    }

    /// Returns the number of peers, 1 to 32.
    pub fn peer_count(&self) -> u16
        ensures value { result ≡ length self.now.peers }
        ensures sound { IsPlan self.now }
    {
        self.peers.len() as u16
    }

    /// Returns the number of routes, 0 or more.
    pub fn route_count(&self) -> usize
        ensures { result ≡ length self.now.routes }
    {
        self.routes.len()
    }

    /// Returns the prefix of a route, in the order of the plan: at most 32 octets 0x21 ..= 0x7e.
    pub fn prefix(&self, route: usize) -> &str
        requires { route < length self.now.routes }
        ensures { option_map (λ route. route.prefix) (slice_get self.now.routes route) ≡ Some result.now }
    {
        self.routes.get(route).prefix.as_str()
    }

    /// Returns the peer for whose calls a route is, or `None` if it is for all.
    pub fn source(&self, route: usize) -> Option<PeerId>
        requires { route < length self.now.routes }
        ensures value { option_map (λ route. route.source) (slice_get self.now.routes route) ≡ Some result }
        ensures place { IfSome result (λ source. source < length self.now.peers) }
    {
        self.routes.get(route).source
    }

    /// Returns whether a route for the calls of all isn't for those of the peer to which it leads: true exactly in plan
    /// version 4.
    pub fn avoids_return(&self) -> bool
        ensures { result ≡ self.now.avoids_return }
    {
        self.avoids_return
    }

    /// Whether a route has this prefix, and this peer as its source; with none, whether a route for the calls of all has it.
    /// Takes the time of a binary search of the routes.
    pub fn has_route(&self, prefix: &str, source: Option<PeerId>) -> bool
        ensures { result ≡ has_way prefix.now source self.now.routes }
    {
        self.routes.has(prefix.as_bytes(), source)
    }

    /// Returns the peer to which a route leads.
    pub fn target(&self, route: usize) -> PeerId
        requires { route < length self.now.routes }
        ensures value { option_map (λ route. route.peer) (slice_get self.now.routes route) ≡ Some result }
        ensures place { result < length self.now.peers }
    {
        self.routes.get(route).peer
    }

    /// Returns the count of each peer's numbers, 1 to 512, in the order of the plan.
    pub fn counts(&self) -> &[u16]
        ensures value { result.now ≡ counts_of self.now.peers }
        ensures counts { All (IsWithin 1 512) result.now }
        ensures sound { IsPlan self.now }
    {
        &self.counts
    }

    /// Returns the count of all peers' numbers, at most 16,384. Reads each peer.
    pub fn number_count(&self) -> u16
        ensures { result ≡ total_of (counts_of self.now.peers) }
    {
        total(&self.counts)
    }

    /// Returns the numbers of a peer, which follow those of the peers before it. Reads each of these.
    pub fn range(&self, peer: PeerId) -> NumberRange
        requires { peer < length self.now.peers }
        ensures value { result ≡ range_of (counts_of self.now.peers) peer }
        ensures least { 1 ≤ result.first }
        ensures most { result.first + result.count ≤ 32 * 512 + 1 }
    {
        let (before, rest) = self.counts.split_at(peer.index());
        NumberRange {
            first: 1 + total(before),
            count: rest[0],
        }
    }

    /// Returns the name of a peer: 1 to 32 ASCII letters, digits and dashes.
    pub fn name(&self, peer: PeerId) -> &str
        requires { peer < length self.now.peers }
        ensures { option_map (λ peer. peer.name) (slice_get self.now.peers peer) ≡ Some result.now }
    {
        self.peers[peer.index()].name.as_str()
    }

    /// Returns the IPv4 address and the UDP port of a peer.
    pub fn endpoint(&self, peer: PeerId) -> Endpoint
        requires { peer < length self.now.peers }
        ensures { option_map (λ peer. peer.endpoint) (slice_get self.now.peers peer) ≡ Some result }
    {
        self.peers[peer.index()].endpoint
    }

    /// Returns the worker that serves a peer.
    pub fn worker(&self, peer: PeerId) -> WorkerId
        requires { peer < length self.now.peers }
        ensures value { option_map (λ peer. peer.worker) (slice_get self.now.peers peer) ≡ Some result }
        ensures place { result < length self.now.workers }
    {
        self.peers[peer.index()].worker
    }

    /// Returns the rules that the plan gives the legs of a peer.
    pub fn rules(&self, peer: PeerId) -> &PeerRules
        requires { peer < length self.now.peers }
        ensures value { option_map (λ peer. peer.rules) (slice_get self.now.peers peer) ≡ Some result.now }
        ensures sound { IsPeerRules result.now }
    {
        &self.peers[peer.index()].rules
    }

    /// Returns the peer at an endpoint, or `None` if no peer has it. Reads the endpoint of each peer.
    pub fn peer_at(&self, endpoint: Endpoint) -> Option<PeerId>
        ensures found { IfSome result (λ peer. option_map (λ peer. peer.endpoint) (slice_get self.now.peers peer) ≡
            Some endpoint) }
        ensures none { IfNone result (All (λ peer. peer.endpoint ≢ endpoint) self.now.peers) }
        ensures place { IfSome result (λ peer. peer < length self.now.peers) }
    {
        let place = place_of(&self.endpoints, endpoint)?;
        Some(PeerId::new(place as u16))
    }

    /// Returns the place of the peer at an endpoint, as `peer_at` does, or `None` if no peer has it.
    pub fn peer_of(&self, endpoint: Endpoint) -> Option<u16>
        ensures found { IfSome result (λ peer. option_map (λ peer. peer.endpoint) (slice_get self.now.peers peer) ≡
            Some endpoint) }
        ensures none { IfNone result (All (λ peer. peer.endpoint ≢ endpoint) self.now.peers) }
        ensures place { IfSome result (λ peer. peer < length self.now.peers) }
    {
        match self.peer_at(endpoint) {
            Some(peer) => Some(peer.get()),
            None => None,
        }
    }

    /// Returns the peer to which a call of a peer is routed. The longest prefix of the called number decides, among the
    /// routes for all and those for this caller. Of two prefixes of one length the caller's own leads. In plan version 4 no
    /// route for all leads a call back to its caller: it takes the next nearest. Returns `None` if no such route has a prefix
    /// of the number. Makes two binary searches for each length of a prefix, and takes no memory.
    pub fn route(&self, caller: PeerId, number: &[u8]) -> Option<u16>
        ensures found { IfSome result (λ peer. (route : Route) ×
            IsNearest self.now.avoids_return self.now.routes caller number.now route × (route.peer ≡ peer)) }
        ensures none { IfNone result
            (All (λ route. fits self.now.avoids_return caller number.now route ≡ false) self.now.routes) }
        ensures place { IfSome result (λ peer. peer < length self.now.peers) }
    {
        let route = self.routes.nearest(self.avoids_return, caller, number)?;
        Some(route.peer.get())
    }
}

// Returns the plan of a document.
#[tactic(auto, unfolding(crate::specs::Reading::plan_in))]
fn plan_in(alloc: Global, table: &Table) -> Result<Plan, PlanError>
    ensures plan { Gives (λ plan. plan) result (plan_in (table_view table.now)) }
    ensures sound { IfOk result IsPlan }
{
    let format = reading::format(table)?;
    let limits = reading::limits(table, format)?;
    let workers = reading::workers(alloc, table)?;
    let worker_count = workers.len() as u64;
    let passes = reading::passes(table, worker_count)?;
    let peers = reading::peers(alloc, table, format, limits, worker_count)?;
    let routes = reading::routes(alloc, table, format, &peers)?;
    reading::known(table, format)?;
    let endpoints = endpoints(alloc, &peers)?;
    let counts = counts(alloc, &peers)?;
    Ok(Plan {
        workers,
        passes: passes as u16,
        peers,
        endpoints,
        counts,
        routes,
        avoids_return: format == 4,
    })
}

fn endpoints(alloc: Global, peers: &[Peer]) -> Result<Vec<Endpoint>, AllocError>
    ensures { IfOk result (λ endpoints. endpoints.items ≡ map (λ peer. peer.endpoint) peers.now) }
{
    peers.iter().map(|peer| peer.endpoint).collect(alloc)
}

fn counts(alloc: Global, peers: &[Peer]) -> Result<Vec<u16>, AllocError>
    ensures { IfOk result (λ counts. counts.items ≡ counts_of peers.now) }
{
    peers.iter().map(|peer| peer.numbers).collect(alloc)
}

fn place_of(endpoints: &[Endpoint], endpoint: Endpoint) -> Option<usize>
    ensures place { result ≡ position (λ other. is_endpoint other endpoint) endpoints.now }
    ensures within { IfSome result (λ place. place < length endpoints.now) }
{
    endpoints.iter().position(|other| *other == endpoint)
}

fn total(counts: &[u16]) -> u16
    requires { total_of counts.now < 2 ^ 16 }
    ensures { result ≡ total_of counts.now }
{
    let mut total = 0;
    for &count in counts {
        total += count;
    }
    total
}
