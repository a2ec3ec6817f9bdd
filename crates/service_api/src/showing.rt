//! The legs of an exchange as rows for clients.
ghost use Rattle.std.specs.Prelude.{◌≡◌, ◌<◌, IfOk, OnOk, length, option_map};
ghost use Rattle.service_api.specs.Calls.{AddsCall, Continues, IsCallRow, LooksUp, LooksUpPartner, TellsAllCalls, TellsCalls};

use call_book::LegName;
use control_requests::{CallEntry, Rows};
use exchange_core::{Exchange, NoGate, Pass, stage_name};
use leg_machine::ElementText;
use peer_lock::{Description, LedgerSet};
use peer_plan::{PeerId, Plan, format_name};
use std::alloc::{AllocError, Global};
use std::sync::Wait;

// Converts a number of a NEW, which may have any octets, to text.
fn number_text(alloc: Global, number: Option<&ElementText>) -> Result<Option<String>, AllocError> {
    match number {
        Some(number) => Ok(Some(String::from_utf8_lossy(alloc, number.as_slice())?)),
        None => Ok(None),
    }
}

// The numbers of a call: the called one, and the one that calls.
#[derive(Drop)]
struct Numbers {
    called: Option<String>,
    calling: Option<String>,
}

impl Numbers {
    // Returns the numbers of a leg.
    fn of(alloc: Global, leg: &Description) -> Result<Numbers, AllocError> {
        let called = number_text(alloc, leg.called.as_ref())?;
        let calling = number_text(alloc, leg.calling.as_ref())?;
        Ok(Numbers { called, calling })
    }
}

/// A leg with its numbers as text, and its partner if it has one.
#[derive(Drop)]
pub(crate) struct ShownLeg {
    leg: Description,
    numbers: Numbers,
    partner: Option<LegName>,
}

// Returns the local number of a partner.
fn partner_number(partner: Option<LegName>) -> Option<u64>
    ensures { result ≡ option_map (λ name. name.number) partner }
{
    match partner {
        Some(name) => Some(u64::from(name.number)),
        None => None,
    }
}

impl ShownLeg {
    // A leg that was looked at. Its partner is looked up, under the lock of the book.
    fn of<J: LedgerSet, R: Wait>(
        rt: &R,
        alloc: Global,
        exchange: &Exchange<NoGate, J>,
        pass: &mut Pass<J>,
        leg: Description,
    ) -> Result<ShownLeg, AllocError>
        ensures { IfOk result (λ found. LooksUpPartner leg found pass.old pass.new) }
    {
        let partner = exchange.partner_of(rt, pass, leg.status.name);
        match Numbers::of(alloc, &leg) {
            Ok(numbers) => Ok(ShownLeg {
                leg,
                numbers,
                partner,
            }),
            Err(error) => Err(error),
        }
    }

    /// Returns the leg with a local number of a peer, or `None` if there is none.
    pub(crate) fn at<J: LedgerSet, R: Wait>(
        rt: &R,
        alloc: Global,
        exchange: &Exchange<NoGate, J>,
        pass: &mut Pass<J>,
        peer: PeerId,
        number: u16,
    ) -> Result<Option<ShownLeg>, AllocError>
        requires { peer < length exchange.now.peers }
        ensures { IfOk result (λ found. LooksUp peer number found pass.old pass.new) }
    {
        match exchange.describe(rt, pass, peer, number) {
            Some(leg) => match ShownLeg::of(rt, alloc, exchange, pass, leg) {
                Ok(leg) => Ok(Some(leg)),
                Err(error) => Err(error),
            },
            None => Ok(None),
        }
    }

    /// Returns the leg's row.
    pub(crate) fn row<'a>(&'a self, plan: &'a Plan, peer: PeerId, now: u64) -> CallEntry<'a>
        requires { peer < length plan.now.peers }
        ensures { IsCallRow plan.now peer now self.now.leg self.now.partner result }
    {
        let Description {
            status,
            format,
            remote,
            opened,
            ..
        } = &self.leg;
        CallEntry {
            number: status.name.number,
            serial: status.name.serial,
            peer: plan.name(peer),
            stage: stage_name(Some(status.stage)),
            called: self.numbers.called.as_deref(),
            calling: self.numbers.calling.as_deref(),
            format: format_name(*format),
            age_ms: now.saturating_sub(*opened),
            remote: remote.map(|number| u64::from(number.get())),
            partner: partner_number(self.partner),
            held: status.held as u64,
            entries: status.entries as u64,
            record_limit: u64::from(plan.rules(peer).record_limit),
        }
    }
}

// Adds a leg of a peer behind the others.
fn push_call<J: LedgerSet, R: Wait>(
    rt: &R,
    alloc: Global,
    exchange: &Exchange<NoGate, J>,
    pass: &mut Pass<J>,
    rows: &mut Rows,
    peer: PeerId,
    leg: Description,
    now: u64,
) -> Result<(), AllocError>
    requires { peer < length exchange.now.peers }
    ensures { OnOk result (AddsCall exchange.now peer now leg pass.old pass.new rows.old rows.new) }
{
    match ShownLeg::of(rt, alloc, exchange, pass, leg) {
        Ok(leg) => rows.push_call(alloc, leg.row(exchange.plan(), peer, now)),
        Err(error) => Err(error),
    }
}

// Adds the leg of a peer with the least local number that is at least this one behind the others. Returns the number from which
// the next leg is looked for, or `None` if there is no such leg.
fn push_next<J: LedgerSet, R: Wait>(
    rt: &R,
    alloc: Global,
    exchange: &Exchange<NoGate, J>,
    pass: &mut Pass<J>,
    rows: &mut Rows,
    peer: PeerId,
    next: u16,
    now: u64,
) -> Result<Option<u16>, AllocError>
    requires { peer < length exchange.now.peers }
    ensures { IfOk result (λ following. Continues exchange.now peer now (record {
      pass = pass.old;
      rows = rows.old;
      next = next;
    }) following pass.new rows.new) }
{
    let Some(leg) = exchange.describe_from(rt, pass, peer, next) else {
        return Ok(None);
    };
    let following = leg.status.name.number.saturating_add(1);
    match push_call(rt, alloc, exchange, pass, rows, peer, leg, now) {
        Ok(()) => Ok(Some(following)),
        Err(error) => Err(error),
    }
}

/// Adds the rows of a peer's legs behind the others, by ascending number. Each row takes the peer's lock once, and the book's for
/// its partner.
#[tactic(auto, using(crate::proofs::Telling::tells_through, crate::proofs::Telling::tells_to_end))]
pub(crate) fn push_calls<J: LedgerSet, R: Wait>(
    rt: &R,
    alloc: Global,
    exchange: &Exchange<NoGate, J>,
    pass: &mut Pass<J>,
    rows: &mut Rows,
    peer: PeerId,
    now: u64,
) -> Result<(), AllocError>
    requires { peer < length exchange.now.peers }
    ensures { OnOk result (TellsCalls exchange.now peer now pass.old pass.new rows.old rows.new) }
{
    let range = exchange.plan().range(peer);
    let mut next = range.first;
    for _legs in 0..range.count {
        match push_next(rt, alloc, exchange, pass, rows, peer, next, now)? {
            Some(following) => next = following,
            None => return Ok(()),
        }
    }
    Ok(())
}

/// Adds the rows of all legs behind the others: peer by peer, and by ascending number.
pub(crate) fn push_all_calls<J: LedgerSet, R: Wait>(
    rt: &R,
    alloc: Global,
    exchange: &Exchange<NoGate, J>,
    pass: &mut Pass<J>,
    rows: &mut Rows,
    now: u64,
) -> Result<(), AllocError>
    ensures { OnOk result (TellsAllCalls exchange.now now (length exchange.now.peers) pass.old pass.new rows.old rows.new) }
{
    for place in 0..exchange.plan().peer_count() {
        let peer = PeerId::new(place);
        push_calls(rt, alloc, exchange, pass, rows, peer, now)?;
    }
    Ok(())
}
