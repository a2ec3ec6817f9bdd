//! The warnings found in a right plan.
ghost use Rattle.std.specs.Prelude.{◌<◌, ◌≤◌, length};

use crate::hints::{Hint, Warning};
use crate::rows::{is_unknown, row_named};
use crate::tables::version_of;
use crate::walk::{Entry, EntryKind, Walk};
use crate::ways::{Way, prefix_count, ways_of};
use call_signals::{Format, Formats};
use peer_plan::{Key, PeerId, Plan, Section};
use plan_report::minutes_of_talk;
use std::alloc::Global;
use toml::Table;

// A day, in minutes.
const DAY: u64 = 1440;

/// The most warnings that are kept.
pub(crate) const MOST_KEPT: usize = 20;

/// The warnings of a plan in the order of its text: the first 20, and the number of those beyond them.
#[derive(Drop)]
pub(crate) struct Warnings<'t> {
    plan: &'t Plan,
    root: &'t Table,
    ways: Vec<Way<'t>>,
    kept: Vec<Warning<'t>>,
    pub(crate) more: u64,
}

// Returns the secret of a peer.
fn secret_of(plan: &Plan, peer: PeerId) -> Option<&[u8]>
    requires { peer < length plan.now.peers }
{
    match &plan.rules(peer).secret {
        Some(secret) => Some(secret.as_slice()),
        None => None,
    }
}

// Returns the first peer before one that has its secret.
fn same_secret(plan: &Plan, peer: PeerId) -> Option<PeerId>
    requires { peer < length plan.now.peers }
{
    let secret = secret_of(plan, peer)?;
    for place in 0..peer.get() {
        let other = PeerId::new(place);
        if secret_of(plan, other) == Some(secret) {
            return Some(other);
        }
    }
    None
}

/// Returns whether a peer has a secret.
pub(crate) fn has_secret(plan: &Plan) -> bool {
    for place in 0..plan.peer_count() {
        let rules = plan.rules(PeerId::new(place));
        if rules.secret.is_some() || rules.outbound_secret.is_some() {
            return true;
        }
    }
    false
}

fn is_led_to(plan: &Plan, peer: PeerId) -> bool {
    for route in 0..plan.route_count() {
        if plan.target(route) == peer {
            return true;
        }
    }
    false
}

// Returns how many peers can't take a route for all, though none has a route with the same prefix for its own calls: one in
// plan version 4, the peer to which the route leads.
fn kept_away(plan: &Plan, route: usize) -> usize
    requires { route < length plan.now.routes }
{
    let is_kept_away = plan.avoids_return()
        && !plan.has_route(plan.prefix(route), Some(plan.target(route)));
    usize::from(is_kept_away)
}

// Returns whether no caller takes a route for all: each peer that could has a route with the same prefix for its own calls.
fn is_unused(plan: &Plan, ways: &[Way<'_>], route: usize) -> bool
    requires { route < length plan.now.routes }
{
    if plan.source(route).is_some() {
        return false;
    }
    let count = prefix_count(ways, plan.prefix(route).as_bytes());
    count.saturating_add(kept_away(plan, route)) > usize::from(plan.peer_count())
}

fn have_common_format(formats: Formats, others: Formats) -> bool {
    for format in [Format::Gsm, Format::Ulaw, Format::Alaw] {
        if formats.contains(format) && others.contains(format) {
            return true;
        }
    }
    false
}

// Returns the first caller that has no format in common with the peer to which a route leads.
fn caller_without_format(plan: &Plan, route: usize) -> Option<PeerId>
    requires { route < length plan.now.routes }
{
    let target = plan.target(route);
    let formats = plan.rules(target).formats;
    for place in 0..plan.peer_count() {
        let caller = PeerId::new(place);
        let is_open = match plan.source(route) {
            Some(source) => source == caller,
            None => true,
        };
        if is_open && !have_common_format(formats, plan.rules(caller).formats) {
            return Some(caller);
        }
    }
    None
}

// Returns the first octet of a prefix that a dialplan reads as a pattern.
fn pattern_octet(prefix: &[u8]) -> Option<u8> {
    for octet in prefix {
        if matches!(*octet, b'_' | b'X' | b'N' | b'Z' | b'.' | b'!') {
            return Some(*octet);
        }
    }
    None
}

impl<'t> Warnings<'t> {
    // Adds a warning of an entry.
    fn warn(&mut self, entry: Entry<'t>, hint: Hint) {
        let warning = Warning {
            hint,
            section: entry.section,
            place: entry.place,
            at: entry.at,
            name: entry.name,
        };
        if self.kept.len() >= MOST_KEPT || self.kept.push(warning).is_err() {
            self.more = self.more.saturating_add(1);
        }
    }

    /// Returns the warnings that are kept.
    pub(crate) fn kept(&self) -> &[Warning<'t>]
        ensures most { length result.now ≤ 20 }
    {
        &self.kept[..self.kept.len().min(MOST_KEPT)]
    }

    // Warns of a record limit that ends calls within a day.
    fn warn_of_record(&mut self, entry: Entry<'t>) {
        let minutes = minutes_of_talk(self.plan);
        if minutes < DAY {
            self.warn(entry, Hint::EndsCalls(minutes));
        }
    }

    fn warn_of_plan(&mut self, entry: Entry<'t>, key: Key) {
        let has_limit = self.root.get(Key::RecordLimit.name()).is_some();
        match key {
            Key::RecordLimit => self.warn_of_record(entry),
            Key::Format if !has_limit => self.warn_of_record(entry),
            _ => {}
        }
    }

    fn warn_of_port(&mut self, entry: Entry<'t>) {
        let Some(endpoint) = self.plan.workers().get(entry.place) else {
            return;
        };
        let port = endpoint.port;
        if port < 1024 {
            self.warn(entry, Hint::LowPort(port));
        }
    }

    fn warn_of_secret(&mut self, entry: Entry<'t>, plan: &Plan, peer: PeerId, key: Key)
        requires { peer < length plan.now.peers }
    {
        let rules = plan.rules(peer);
        let secret = if key == Key::Secret {
            &rules.secret
        } else {
            &rules.outbound_secret
        };
        if let Some(secret) = secret
            && secret.as_slice().len() < 12
        {
            self.warn(entry, Hint::ShortSecret(key));
        }
    }

    fn warn_of_same_secret(&mut self, entry: Entry<'t>, plan: &Plan, peer: PeerId)
        requires { peer < length plan.now.peers }
    {
        if let Some(other) = same_secret(plan, peer) {
            self.warn(entry, Hint::SameSecret(other.get()));
        }
    }

    fn warn_of_peer(&mut self, entry: Entry<'t>, peer: PeerId) {
        if !is_led_to(self.plan, peer) {
            self.warn(entry, Hint::NotLedTo);
        }
    }

    fn warn_of_pattern(&mut self, entry: Entry<'t>, plan: &Plan, route: usize)
        requires { route < length plan.now.routes }
    {
        if let Some(octet) = pattern_octet(plan.prefix(route).as_bytes()) {
            self.warn(entry, Hint::Pattern(octet));
        }
    }

    fn warn_of_route(&mut self, entry: Entry<'t>, plan: &Plan, route: usize)
        requires { route < length plan.now.routes }
    {
        if is_unused(plan, &self.ways, route) {
            return self.warn(entry, Hint::Unused);
        }
        if let Some(caller) = caller_without_format(plan, route) {
            self.warn(entry, Hint::NoCommonFormat(caller.get()));
        }
    }

    // Warns of a key of a peer.
    fn warn_of_peer_key(&mut self, entry: Entry<'t>, key: Key) {
        let Ok(place) = u16::try_from(entry.place) else {
            return;
        };
        let plan = self.plan;
        if place >= plan.peer_count() {
            return;
        }
        let peer = PeerId::new(place);
        match key {
            Key::Secret => {
                self.warn_of_secret(entry, plan, peer, key);
                self.warn_of_same_secret(entry, plan, peer);
            }
            Key::OutboundSecret => self.warn_of_secret(entry, plan, peer, key),
            Key::Name => self.warn_of_peer(entry, peer),
            _ => {}
        }
    }

    fn warn_of_route_key(&mut self, entry: Entry<'t>, key: Key) {
        let plan = self.plan;
        if key == Key::Prefix && entry.place < plan.route_count() {
            self.warn_of_pattern(entry, plan, entry.place);
            self.warn_of_route(entry, plan, entry.place);
        }
    }

    fn warn_of(&mut self, entry: Entry<'t>) {
        let EntryKind::Key = entry.kind else {
            return;
        };
        let version = version_of(self.root);
        // (a right plan of version 4 has no unknown key)
        if version < 4 && is_unknown(entry.section, version, entry.name) {
            return self.warn(entry, Hint::Skipped);
        }
        let Some(row) = row_named(entry.section, version, entry.name) else {
            return;
        };
        match (entry.section, row.key) {
            (Section::Plan, key) => self.warn_of_plan(entry, key),
            (Section::Worker, Key::Port) => self.warn_of_port(entry),
            (Section::Worker, _) => {}
            (Section::Peer, key) => self.warn_of_peer_key(entry, key),
            (Section::Route, key) => self.warn_of_route_key(entry, key),
        }
    }
}

/// Returns the warnings of a plan that was read from a text, with the document of that text.
pub(crate) fn warnings_of<'t>(
    alloc: Global,
    plan: &'t Plan,
    root: &'t Table,
    text: &'t [u8],
) -> Warnings<'t> {
    let mut warnings = Warnings {
        plan,
        root,
        ways: ways_of(alloc, root, version_of(root)),
        kept: Vec::new(alloc),
        more: 0,
    };
    let mut walk = Walk::new(alloc, text);
    for _ in 0..text.len().saturating_add(1) {
        match walk.next() {
            Some(entry) => warnings.warn_of(entry),
            None => return warnings,
        }
    }
    warnings
}
