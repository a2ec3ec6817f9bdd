//! A peer without its shares.
ghost use Rattle.std.specs.Prelude.{◌≡◌, ◌+◌, ◌≤◌, option_map};
ghost use Rattle.peer_accounts.specs.Accounts.{carried};
ghost use Rattle.peer_legs.specs.Legs.{leg_at};
ghost use Rattle.peer_lock.specs.SoundPeer.{IsSoundPeer};
ghost use Rattle.peer_lock.specs.Statuses.{status_of};

use crate::pokes::Pokes;
use crate::state::PeerState;
use crate::steps::Status;
use leg_machine::{PeerRules, Replies};
use media_ledger::Share;
use outbox::{Losses, Outbox};
use peer_accounts::{ClosedAccount, LedgerSet};
use peer_legs::PeerLegs;
use std::alloc::Global;
use std::marker::Model;
use trunk_packer::Packer;

/// A peer that gave its shares up. Contracts see it as the peer.
pub struct ClosedPeer<J: LedgerSet> {
    pub(crate) alloc: Global,
    pub(crate) rules: PeerRules,
    pub(crate) legs: PeerLegs,
    pub(crate) outbox: Outbox,
    pub(crate) queue: Packer,
    pub(crate) since: u64,
    pub(crate) drains: bool,
    pub(crate) pokes: Pokes,
    pub(crate) account: ClosedAccount<J>,
    pub(crate) replies: Box<Replies>,
}

// Written out, so that an owner proves one call at its drop, not the drop of each field.
impl<J: LedgerSet> Drop for ClosedPeer<J> {
    fn drop(self) {
        let ClosedPeer {
            alloc: _,
            rules: _,
            legs: _,
            outbox: _,
            queue: _,
            since: _,
            drains: _,
            pokes: _,
            account: _,
            replies: _,
        } = self;
    }
}

impl<J: LedgerSet> Model for ClosedPeer<J> {
    ghost use Rattle.peer_lock.specs.Peer.{PeerView};
    ghost use Rattle.peer_lock.specs.SoundPeer.{IsKept};

    ghost Value = { PeerView };

    ghost view = { λ s. record {
      rules = s.rules;
      legs = s.legs;
      outbox = s.outbox;
      queue = s.queue;
      since = s.since;
      drains = s.drains;
      pokes = s.pokes;
      accounts = s.account;
    } };

    ghost invariant = { λ s.
        IsKept (record {
          rules = s.rules;
          legs = s.legs;
          outbox = s.outbox;
          queue = s.queue;
          since = s.since;
          drains = s.drains;
          pokes = s.pokes;
          accounts = s.account;
        }) };
}

impl<J: LedgerSet> ClosedPeer<J> {
    /// Returns the peer's place in the plan, from 0 on.
    pub fn peer(&self) -> u16
        ensures { result ≡ self.now.legs.peer }
    {
        self.legs.peer()
    }

    /// Returns the status of the leg of a local number, or `None` if there is none.
    pub fn look(&self, number: u16) -> Option<Status>
        ensures status { result ≡ option_map status_of (leg_at self.now.legs number) }
        ensures sound { IsSoundPeer self.now }
    {
        self.legs.get(number).map(|named| Status::of(named))
    }

    /// Returns the media octets accepted from the peer.
    pub fn accepted(&self) -> u64
        ensures { result ≡ self.now.accounts.accepted }
    {
        self.account.sums().accepted
    }

    /// Returns the media octets for the peer that were written into frames.
    pub fn packed(&self) -> u64
        ensures { result ≡ self.now.accounts.packed }
    {
        self.account.sums().packed
    }

    /// Returns the media octets for the peer that wait in the trunk queue.
    pub fn queued(&self) -> u64
        ensures { result ≡ self.now.accounts.queued }
    {
        self.account.sums().queued
    }

    /// Returns the media octets for the peer that were dropped, including quelched ones.
    pub fn dropped(&self) -> u64
        ensures { result ≡ self.now.accounts.dropped }
    {
        self.account.sums().dropped
    }

    /// Returns the part of the dropped media octets that the other side had quelched.
    pub fn quelched(&self) -> u64
        ensures value { result ≡ self.now.accounts.quelched }
        ensures part { result ≤ self.now.accounts.dropped }
    {
        self.account.sums().quelched
    }

    /// Returns the number of datagrams that a full outbox lost.
    pub fn lost(&self) -> Losses
        ensures { result ≡ self.now.outbox.lost }
    {
        self.outbox.lost()
    }

    /// Returns the number of steps that the peer made.
    pub fn steps(&self) -> u64
        ensures { result ≡ self.now.accounts.steps }
    {
        self.account.sums().steps
    }

    /// Returns the peer with its shares again, as `part` gave them.
    pub fn whole(self, octets: Share<J::Octets>, steps: Share<J::Steps>) -> PeerState<J>
        requires octets { octets + self.accounts.accepted ≡ J.first_octets + carried self.accounts }
        requires steps { steps + self.accounts.steps ≡ J.first_steps }
        ensures { result ≡ self }
    {
        let ClosedPeer {
            alloc,
            rules,
            legs,
            outbox,
            queue,
            since,
            drains,
            pokes,
            account,
            replies,
        } = self;
        PeerState {
            alloc,
            rules,
            legs,
            outbox,
            queue,
            since,
            drains,
            pokes,
            account: account.whole(octets, steps),
            replies,
        }
    }
}
