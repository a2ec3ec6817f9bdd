//! The routes of a plan, and the route of a call.
ghost use Rattle.std.specs.Prelude.{ℕ, ◌≡◌, ◌≢◌, ◌≤◌, ◌<◌, true, false, length, slice_get, None, All, Contains};
ghost use Rattle.std.specs.Prelude.{IfSome, IfNone, IfOk};
ghost use Rattle.std.specs.List.{AllPairs};
ghost use Rattle.peer_plan.specs.Plan.{is_open_to, fits, nearness, AreApart, IsNearest};
ghost use Rattle.peer_plan.specs.Reading.{has_way, has_same_way};
ghost use Rattle.peer_plan.specs.RouteIndex.{way_at, way_cmp, IsIndex};

use crate::route::Route;
use call_book::PeerId;
use std::alloc::{AllocError, Global};
use std::cmp::Ordering;
use std::marker::Model;

// Routes in the order of the plan. One is found by its prefix and its source in the time of a binary search.
#[derive(Drop)]
pub(crate) struct Routes {
    list: Vec<Route>,
    // The places of the routes, in the order of their prefixes and sources.
    index: Vec<usize>,
    // How long the longest prefix is, in octets.
    longest: usize,
}

impl Model for Routes {
    ghost use Rattle.std.specs.Prelude.{List};
    ghost use Rattle.peer_plan.specs.declared.route.Route.{Route};
    ghost use Rattle.peer_plan.specs.RouteIndex.{IsIndexed};

    ghost Value = { List Route };

    ghost view = { λ routes. routes.list.items };

    ghost invariant = { λ routes. IsIndexed routes.list.items routes.index.items routes.longest };
}

impl Routes {
    // Takes memory for the index.
    pub(crate) fn new(alloc: Global, list: Vec<Route>) -> Result<Routes, AllocError>
        ensures { IfOk result (λ routes. routes ≡ list.items) }
    {
        let index = sorted(alloc, &list)?;
        let longest = longest(&list);
        Ok(Routes {
            list,
            index,
            longest,
        })
    }

    // Whether two routes have one prefix and one source.
    pub(crate) fn has_same(&self) -> bool
        ensures { result ≡ has_same_way self.now }
    {
        has_same(&self.list, &self.index)
    }

    pub(crate) fn len(&self) -> usize
        ensures { result ≡ length self.now }
    {
        self.list.len()
    }

    pub(crate) fn get(&self, place: usize) -> &Route
        requires { place < length self.now }
        ensures { slice_get self.now place ≡ Some result.now }
    {
        &self.list[place]
    }

    // The route with this prefix and this source.
    fn find(&self, prefix: &[u8], source: Option<PeerId>) -> Option<&Route>
        ensures found { IfSome result (λ route. Contains self.now route.now × (route.now.prefix ≡ prefix.now) ×
            (route.now.source ≡ source)) }
        ensures none { IfNone result (All (λ route. route.prefix ≡ prefix.now → route.source ≢ source) self.now) }
    {
        let place = place_of(&self.list, &self.index, prefix, source)?;
        Some(&self.list[place])
    }

    // Whether a route has this prefix and this source.
    pub(crate) fn has(&self, prefix: &[u8], source: Option<PeerId>) -> bool
        ensures { result ≡ has_way prefix.now source self.now }
    {
        self.find(prefix, source).is_some()
    }

    // The route for the calls of all with this prefix, unless it leads a call back to its caller and returns are avoided.
    fn for_all(&self, avoids_return: bool, prefix: &[u8], caller: PeerId) -> Option<&Route>
        requires { AllPairs AreApart self.now }
        ensures found { IfSome result (λ route. Contains self.now route.now × (route.now.prefix ≡ prefix.now) ×
            (route.now.source ≡ None) × (is_open_to avoids_return caller route.now ≡ true)) }
        ensures none { IfNone result (All (λ route. route.prefix ≡ prefix.now → route.source ≡ None →
            is_open_to avoids_return caller route ≡ false) self.now) }
    {
        let route = self.find(prefix, None)?;
        if avoids_return && route.peer == caller {
            return None;
        }
        Some(route)
    }

    // Of the routes with this prefix that a call of a peer may take, the one with a source, or else the other.
    fn with_prefix(&self, avoids_return: bool, prefix: &[u8], caller: PeerId) -> Option<&Route>
        requires { AllPairs AreApart self.now }
        ensures found { IfSome result (λ route. Contains self.now route.now × (route.now.prefix ≡ prefix.now) ×
            (is_open_to avoids_return caller route.now ≡ true) ×
            All (λ other. other.prefix ≡ prefix.now → is_open_to avoids_return caller other ≡ true →
            nearness other ≤ nearness route.now) self.now) }
        ensures none { IfNone result (All (λ route. route.prefix ≡ prefix.now →
            is_open_to avoids_return caller route ≡ false) self.now) }
    {
        match self.find(prefix, Some(caller)) {
            Some(route) => Some(route),
            None => self.for_all(avoids_return, prefix, caller),
        }
    }

    // Of the routes that a call may take, the one with the longest prefix, and of two of one length the one with a source.
    pub(crate) fn nearest(&self, avoids_return: bool, caller: PeerId, text: &[u8]) -> Option<&Route>
        requires { AllPairs AreApart self.now }
        ensures found { IfSome result (λ route. IsNearest avoids_return self.now caller text.now route.now) }
        ensures none { IfNone result (All (λ route. fits avoids_return caller text.now route ≡ false) self.now) }
    {
        let mut length = self.longest.min(text.len());
        loop {
            if let Some(route) = self.with_prefix(avoids_return, &text[..length], caller) {
                return Some(route);
            }
            if length == 0 {
                return None;
            }
            length -= 1;
        }
    }
}

// The prefix and the source of the route at a place.
fn way_at(routes: &[Route], place: usize) -> (&[u8], Option<PeerId>)
    ensures prefix { result.0.now ≡ (way_at routes.now place).0 }
    ensures source { result.1 ≡ (way_at routes.now place).1 }
{
    match routes.get(place) {
        Some(route) => (route.prefix.as_str().as_bytes(), route.source),
        None => (&[], None),
    }
}

// How the route at a place is ordered to a prefix and a source.
fn compare(routes: &[Route], place: usize, prefix: &[u8], source: Option<PeerId>) -> Ordering
    ensures { result ≡ way_cmp (way_at routes.now place) (prefix.now, source) }
{
    way_at(routes, place).cmp(&(prefix, source))
}

// How the routes at two places are ordered.
fn compare_places(routes: &[Route], place: usize, other: usize) -> Ordering
    ensures { result ≡ way_cmp (way_at routes.now place) (way_at routes.now other) }
{
    let (prefix, source) = way_at(routes, other);
    compare(routes, place, prefix, source)
}

// The places of the routes, in the order of their prefixes and sources.
fn sorted(alloc: Global, routes: &[Route]) -> Result<Vec<usize>, AllocError>
    ensures { IfOk result (λ index. IsIndex routes.now index.items) }
{
    let mut index: Vec<usize> = (0..routes.len()).collect(alloc)?;
    index.sort_unstable_by(|place, other| compare_places(routes, *place, *other));
    Ok(index)
}

// How long the longest prefix is, in octets.
fn longest(routes: &[Route]) -> usize
    ensures { All (λ route. length route.prefix ≤ result) routes.now }
{
    let mut longest: usize = 0;
    for route in routes {
        longest = longest.max(route.prefix.as_str().len());
    }
    longest
}

// The place of the route with a prefix and a source.
fn place_of(
    routes: &[Route],
    index: &[usize],
    prefix: &[u8],
    source: Option<PeerId>,
) -> Option<usize>
    requires { IsIndex routes.now index.now }
    ensures found { IfSome result (λ place. (place < length routes.now) × (way_at routes.now place ≡ (prefix.now, source))) }
    ensures none { IfNone result ((place : ℕ) → place < length routes.now → way_at routes.now place ≢ (prefix.now, source)) }
{
    match index.binary_search_by(|place| compare(routes, *place, prefix, source)) {
        Ok(at) => Some(index[at]),
        Err(_) => None,
    }
}

// Whether two neighbours in an index have one prefix and one source.
fn has_same(routes: &[Route], index: &[usize]) -> bool
    requires { IsIndex routes.now index.now }
    ensures { result ≡ has_same_way routes.now }
{
    for at in 1..index.len() {
        if compare_places(routes, index[at], index[at - 1]).is_eq() {
            return true;
        }
    }
    false
}
