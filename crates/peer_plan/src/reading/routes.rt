//! The list of routes.
ghost use Rattle.std.specs.Prelude.{◌≡◌, ◌≤◌, ◌<◌, [], length, IfOk, IfSome, option_map, position};
ghost use Rattle.toml.specs.View.{view, table_view, items_view};
ghost use Rattle.peer_plan.specs.Fields.{Gives, each};
ghost use Rattle.peer_plan.specs.Reading.{is_named, source_at, source_in, route_in, routes_in};
ghost use Rattle.peer_plan.specs.ReadRoutes.{routes_apart};

use crate::error::PlanError;
use crate::key::Key;
use crate::peer::Peer;
use crate::reading::fields::member;
use crate::reading::texts::{is_prefix, text_at};
use crate::route::Route;
use crate::routes::Routes;
use crate::short_text::ShortText;
use call_book::PeerId;
use std::alloc::{AllocError, Global};
use toml::{Table, Value};

// Returns the place of the peer of a name.
fn peer_named(peers: &[Peer], name: &str) -> Option<usize>
    ensures place { result ≡ position (is_named name.now) peers.now }
    ensures within { IfSome result (λ place. place < length peers.now) }
{
    peers.iter().position(|peer| peer.name.as_str() == name)
}

// Returns the peer for whose calls a route is, if the value names one.
#[tactic(auto, unfolding(crate::specs::Reading::source_at))]
fn source_at(found: Option<&Value>, peers: &[Peer]) -> Result<Option<PeerId>, PlanError>
    requires { length peers.now ≤ 32 }
    ensures { result ≡ source_at peers.now (option_map (λ x. view x.now) found.entry) }
{
    let Some(found) = found else {
        return Ok(None);
    };
    let name = found.as_str().ok_or(PlanError::Range(Key::Source))?;
    let source = peer_named(peers, name).ok_or(PlanError::UnknownPeer)?;
    Ok(Some(PeerId::new(source as u16)))
}

// Returns the peer for whose calls a route of a plan is, if it names one.
fn source(table: &Table, format: u64, peers: &[Peer]) -> Result<Option<PeerId>, PlanError>
    requires { length peers.now ≤ 32 }
    ensures { result ≡ source_in format peers.now (table_view table.now) }
{
    if format == 4 {
        source_at(member(table, Key::Source), peers)
    } else {
        Ok(None)
    }
}

// A single route, which is compared with no other.
#[tactic(auto, unfolding(crate::specs::Reading::route_in))]
fn route(table: &Table, format: u64, peers: &[Peer]) -> Result<Route, PlanError>
    requires { length peers.now ≤ 32 }
    ensures { result ≡ route_in format peers.now [] (table_view table.now) }
{
    let prefix = text_at(table, Key::Prefix)?;
    if !is_prefix(prefix) {
        return Err(PlanError::Range(Key::Prefix));
    }
    let name = text_at(table, Key::Peer)?;
    let peer = peer_named(peers, name).ok_or(PlanError::UnknownPeer)?;
    let source = source(table, format, peers)?;
    Ok(Route {
        prefix: ShortText::new(prefix),
        source,
        peer: PeerId::new(peer as u16),
    })
}

// The routes before the first faulty one, and its fault.
fn each_route(
    alloc: Global,
    items: &[Value],
    format: u64,
    peers: &[Peer],
) -> Result<(Vec<Route>, Option<PlanError>), AllocError>
    requires { length peers.now ≤ 32 }
    ensures { IfOk result (λ read. each Key.Route (route_in format peers.now) [] (items_view items.now) ≡
        routes_apart read.0.items read.1) }
{
    let mut routes = Vec::with_capacity(alloc, items.len())?;
    for item in items {
        let Some(table) = item.as_table() else {
            return Ok((routes, Some(PlanError::Range(Key::Route))));
        };
        match route(table, format, peers) {
            Ok(next) => routes.push(next)?,
            Err(fault) => return Ok((routes, Some(fault))),
        }
    }
    Ok((routes, None))
}

// The routes, unless two of them have one prefix and one source, or the next one has a fault.
fn apart(alloc: Global, routes: Vec<Route>, fault: Option<PlanError>) -> Result<Routes, PlanError>
    ensures { Gives (λ routes. routes) result (routes_apart routes.items fault) }
{
    let routes = Routes::new(alloc, routes)?;
    if routes.has_same() {
        return Err(PlanError::SameRoute);
    }
    match fault {
        Some(fault) => Err(fault),
        None => Ok(routes),
    }
}

// Returns the routes to these peers, none if the plan has no list of them.
#[tactic(auto, unfolding(crate::specs::Reading::routes_in, crate::specs::Fields::each))]
pub(crate) fn routes(
    alloc: Global,
    table: &Table,
    format: u64,
    peers: &[Peer],
) -> Result<Routes, PlanError>
    requires { length peers.now ≤ 32 }
    ensures { Gives (λ routes. routes) result (routes_in format peers.now (table_view table.now)) }
{
    let Some(found) = member(table, Key::Route) else {
        return Ok(Routes::new(alloc, Vec::new(alloc))?);
    };
    let Some(items) = found.as_array() else {
        return Err(PlanError::Range(Key::Route));
    };
    let (routes, fault) = each_route(alloc, items.as_slice(), format, peers)?;
    apart(alloc, routes, fault)
}
