//! The state of one peer, under its lock.
ghost use Rattle.std.specs.Prelude.{◌≡◌, ◌+◌, ◌^◌, ◌<◌, ◌≤◌, [], replicate, None, Some, false};
ghost use Rattle.std.specs.Prelude.{true, count_by, is_some};
ghost use Rattle.std.specs.Prelude.{IfOk, IfErr, OnErr};
ghost use Rattle.call_signals.specs.declared.rules.PeerRules.{PeerRules as PeerRulesValue};
ghost use Rattle.leg_machine.specs.PeerRules.{IsPeerRules};
ghost use Rattle.outbox.specs.Outbox.{no_losses};
ghost use Rattle.peer_accounts.specs.Accounts.{no_accounts, carried};
ghost use Rattle.peer_legs.specs.Legs.{AreLegs, AreLegsOf};
ghost use Rattle.peer_lock.specs.Peer.{WasTakenInto, WasTakenOut, flushed_if};
ghost use Rattle.peer_lock.specs.SoundPeer.{IsSoundPeer};
ghost use Rattle.peer_lock.specs.Statuses.{WasLookedAt, WasRetired};
ghost use Rattle.peer_lock.specs.Trunks.{waits};
ghost use Rattle.memory_requests.specs.Refused.{WasRefused};

use crate::closed::ClosedPeer;
use crate::outboxes::flush_if;
use crate::pokes::Pokes;
use crate::steps::{EndedLeg, LegFacts, Status};
use call_book::{Lease, LegName};
use iax_frames::Out;
use leg_machine::{PeerRules, Replies};
use media_ledger::Share;
use memory_requests::boxed;
use outbox::Outbox;
use peer_accounts::{Account, LedgerSet};
use peer_legs::PeerLegs;
use std::alloc::{AllocError, Global};
use std::marker::Model;
use trunk_packer::Packer;

/// One peer: its legs, its outbox, its trunk queue and its accounts.
///
/// Events come by `datagram`, `datagram_read` and `tick`, openings by `open_in` and `open_out`, a rejected NEW by
/// `reject_new`, and orders by `order`. Each of these is one step, which takes one step credit and gives it to the pass.
/// `take_into` and `take_out` empty the outbox, `retire` gives up a leg that is over, and `part` gives up the shares.
/// `look`, `describe` and `sums` are read-only. `new` makes all room except that of the legs' records. No call waits or
/// reads a clock.
pub struct PeerState<J: LedgerSet> {
    pub(crate) alloc: Global,
    pub(crate) rules: PeerRules,
    pub(crate) legs: PeerLegs,
    pub(crate) outbox: Outbox,
    pub(crate) queue: Packer,
    // The moment at which the oldest entry was queued, in milliseconds.
    pub(crate) since: u64,
    // Whether no NEW opens a leg any more.
    pub(crate) drains: bool,
    pub(crate) pokes: Pokes,
    pub(crate) account: Account<J>,
    // The frames of a leg's step, on their way to the outbox.
    pub(crate) replies: Box<Replies>,
}

// Written out, so that an owner proves one call at its drop, not the drop of each field.
impl<J: LedgerSet> Drop for PeerState<J> {
    fn drop(self) {
        let PeerState {
            alloc: _,
            rules: _,
            legs: _,
            outbox: _,
            queue: _,
            since: _,
            drains: _,
            pokes: _,
            account: _,
            replies: _,
        } = self;
    }
}

impl<J: LedgerSet> Model for PeerState<J> {
    ghost use Rattle.peer_lock.specs.Peer.{PeerView};
    ghost use Rattle.peer_lock.specs.SoundPeer.{IsKept};

    ghost Value = { PeerView };

    ghost view = { λ s. record {
      rules = s.rules;
      legs = s.legs;
      outbox = s.outbox;
      queue = s.queue;
      since = s.since;
      drains = s.drains;
      pokes = s.pokes;
      accounts = s.account;
    } };

    ghost invariant = { λ s.
        IsKept (record {
          rules = s.rules;
          legs = s.legs;
          outbox = s.outbox;
          queue = s.queue;
          since = s.since;
          drains = s.drains;
          pokes = s.pokes;
          accounts = s.account;
        }) };
}

// Reserves the memory of a peer.
fn rooms(
    alloc: Global,
    peer: u16,
    first: u16,
    count: u16,
) -> Result<(PeerLegs, Outbox, Packer, Box<Replies>), AllocError>
    requires first { 1 ≤ first }
    requires some { 1 ≤ count }
    requires most { count ≤ 512 }
    requires within { first + count ≤ 2 ^ 15 }
    ensures legs { IfOk result (λ made. made.0 ≡ record { peer = peer; first = first; places = replicate count None }) }
    ensures outbox { IfOk result (λ made. made.1 ≡ record { waiting = []; lost = no_losses }) }
    ensures queue { IfOk result (λ made. made.2 ≡ []) }
    ensures sound { IfOk result (λ made. AreLegs made.0) }
    ensures ruled { IfOk result (λ made. (rules : PeerRulesValue) → AreLegsOf rules made.0) }
    ensures no_memory { OnErr result WasRefused }
{
    let legs = PeerLegs::new(alloc, peer, first, count)?;
    let outbox = Outbox::new(alloc)?;
    let packer = Packer::new(alloc)?;
    match boxed(alloc, Replies::new()) {
        Ok(replies) => Ok((legs, outbox, packer, replies)),
        Err(_) => Err(AllocError),
    }
}

impl<J: LedgerSet> PeerState<J> {
    /// Returns a peer without a leg, at this place of the plan. It has `count` local numbers, 1 ..= 512, from the first on,
    /// all of them 1 ..= 32,767. The shares are the first ones of a peer. Returns `Err` only if memory was refused; the
    /// shares come back.
    pub fn new(
        alloc: Global,
        peer: u16,
        rules: &PeerRules,
        first: u16,
        count: u16,
        octets: Share<J::Octets>,
        steps: Share<J::Steps>,
    ) -> Result<PeerState<J>, (Share<J::Octets>, Share<J::Steps>, AllocError)>
        requires rules { IsPeerRules rules.now }
        requires first { 1 ≤ first }
        requires some { 1 ≤ count }
        requires most { count ≤ 512 }
        requires within { first + count ≤ 2 ^ 15 }
        requires octets { octets ≡ J.first_octets }
        requires steps { steps ≡ J.first_steps }
        ensures rules { IfOk result (λ state. state.rules ≡ rules.now) }
        ensures legs { IfOk result (λ state. state.legs ≡ record { peer = peer; first = first; places = replicate count None }) }
        ensures outbox { IfOk result (λ state. state.outbox ≡ record { waiting = []; lost = no_losses }) }
        ensures queue { IfOk result (λ state. state.queue ≡ []) }
        ensures accounts { IfOk result (λ state. state.accounts ≡ no_accounts) }
        ensures sound { IfOk result IsSoundPeer }
        ensures shares { IfErr result (λ back. (back.0 ≡ octets) × (back.1 ≡ steps)) }
        ensures no_memory { OnErr result WasRefused }
    {
        match rooms(alloc, peer, first, count) {
            Ok((legs, outbox, queue, replies)) => Ok(PeerState {
                alloc,
                rules: rules.copied(),
                legs,
                outbox,
                queue,
                since: 0,
                drains: false,
                pokes: Pokes::none(),
                account: Account::new(octets, steps),
                replies,
            }),
            Err(error) => Err((octets, steps, error)),
        }
    }

    /// Sets whether the peer drains. While it does, a NEW that belongs to no leg opens none and is answered by REJECT with
    /// cause 42, in every plan version. Current legs continue. It is no step.
    pub fn set_draining(&mut self, drains: bool)
        ensures { self.new ≡ record self.old { drains = drains } }
    {
        self.drains = drains;
    }

    /// Returns the number of the peer's legs, 0 ..= 512.
    pub fn leg_count(&self) -> usize
        ensures count { result ≡ count_by is_some self.now.legs.places }
        ensures most { result ≤ 512 }
    {
        self.legs.leg_count()
    }

    // Sends the whole queue as one trunk frame if `goes` is true.
    pub(crate) fn flush(&mut self, goes: bool)
        requires { goes ≡ true → waits self.old.rules ≡ true }
        ensures { self.new ≡ flushed_if goes self.old }
    {
        flush_if(
            goes,
            self.rules.trunk_timestamps,
            self.since,
            &mut self.outbox,
            &mut self.queue,
            &mut self.account,
        );
    }

    /// Takes the oldest datagram of the outbox, and writes it over this one. If none waits, returns false and changes
    /// nothing.
    pub fn take_into(&mut self, out: &mut Out) -> bool
        ensures { WasTakenInto result out.old out.new self.old self.new }
    {
        self.outbox.take_into(out)
    }

    /// Takes the oldest datagram of the outbox, or returns `None` if none waits.
    pub fn take_out(&mut self) -> Option<Out>
        ensures { WasTakenOut result self.old self.new }
    {
        self.outbox.take_out()
    }

    /// Returns the status of the leg of a local number, or `None` if there is none.
    pub fn look(&self, number: u16) -> Option<Status>
        ensures { WasLookedAt number result self.now }
    {
        self.legs.get(number).map(|named| Status::of(named))
    }

    /// Gives up the leg of a name that has ended and owes nothing: its lease, its record and its other facts. Queued media
    /// of its call is sent before, in plan version 4. That is no step.
    ///
    /// Returns `None` if and only if no such leg has that name.
    pub fn retire(&mut self, name: LegName) -> Option<(Lease, EndedLeg)>
        ensures { WasRetired name result self.old self.new }
    {
        let leg = self.legs.named(name)?.leg();
        if !leg.stage().is_ended() || leg.owes() {
            return None;
        }
        let facts = LegFacts {
            opened: leg.opened(),
            format: leg.format(),
            remote: leg.remote(),
            failure: leg.failure(),
            resent: leg.resent(),
            moments: leg.moments(),
            challenged: leg.was_challenged(),
            authenticated: leg.is_authenticated(),
        };
        let number = self.legs.call_number(name.number);
        let goes = self.rules.trunk_ms.is_some() && self.queue.has_call(number);
        self.flush(goes);
        let (lease, leg) = self.legs.take(name.number).into_parts();
        let history = leg.into_record();
        Some((lease, EndedLeg { facts, history }))
    }

    /// Gives the shares up: returns the peer without them, the share of octets and that of steps.
    pub fn part(self) -> (ClosedPeer<J>, Share<J::Octets>, Share<J::Steps>)
        ensures same { result.0 ≡ self }
        ensures octets { result.1 + self.accounts.accepted ≡ J.first_octets + carried self.accounts }
        ensures steps { result.2 + self.accounts.steps ≡ J.first_steps }
        ensures within { self.accounts.accepted ≤ J.first_octets }
    {
        let PeerState {
            alloc,
            rules,
            legs,
            outbox,
            queue,
            since,
            drains,
            pokes,
            account,
            replies,
        } = self;
        let (account, octets, steps) = account.part();
        let closed = ClosedPeer {
            alloc,
            rules,
            legs,
            outbox,
            queue,
            since,
            drains,
            pokes,
            account,
            replies,
        };
        (closed, octets, steps)
    }
}
