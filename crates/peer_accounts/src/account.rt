//! The accounts of one peer, with the shares that pay for them.
ghost use Rattle.std.specs.Prelude.{◌≡◌, ◌≢◌, ◌+◌, ◌<◌, ◌≤◌, ◌↔◌, IsTrue};
ghost use Rattle.std.specs.Bool.{OnTrue, OnFalse};
ghost use Rattle.peer_accounts.specs.Accounts.{no_accounts, shown, carried, carry_to, stepped, with_accepted};
ghost use Rattle.peer_accounts.specs.Grants.{granted};

use crate::closed_account::ClosedAccount;
use crate::ledger_set::LedgerSet;
use crate::pass::Pass;
use crate::sums::Sums;
use leg_machine::Signal;
use media_ledger::{Share, pass_on};
use std::marker::{Model, PhantomData};

/// The outcome of media that was carried to a peer.
#[derive(Clone, Copy)]
pub enum Carried {
    /// Written into a frame.
    Packed,
    /// Put into the trunk queue.
    Queued,
    /// Dropped because the trunk queue was full.
    Dropped,
    /// Dropped because the other side quelched it.
    Quelched,
}

/// The accounts of one peer. Contracts see their sums.
#[derive(Drop)]
pub struct Account<J: LedgerSet> {
    pub(crate) octets: Share<J::Octets>,
    pub(crate) steps: Share<J::Steps>,
    // The octets that may still be accepted from the peer.
    pub(crate) unspent: u64,
    pub(crate) sums: Sums,
    pub(crate) naming: PhantomData<J>,
}

impl<J: LedgerSet> Model for Account<J> {
    ghost use Rattle.std.specs.Prelude.{◌≡◌, ◌+◌, ◌<◌, ◌≤◌, ◌^◌};
    ghost use Rattle.peer_accounts.specs.Accounts.{Accounts};

    ghost Value = { Accounts };

    ghost view = { λ s. s.sums };

    ghost invariant = { λ s.
        (s.octets + s.sums.accepted ≡ J.first_octets + s.sums.packed + s.sums.queued + s.sums.dropped)
        × (s.sums.quelched ≤ s.sums.dropped) × (s.octets < 2 ^ 64) × (s.unspent + s.sums.accepted ≡ J.first_octets)
        × (s.steps + s.sums.steps ≡ J.first_steps) × (J.first_octets < 2 ^ 64) × (J.first_steps < 2 ^ 64) };
}

impl<J: LedgerSet> Account<J> {
    /// Returns the accounts of a peer before its first step, with the first shares of a peer.
    pub fn new(octets: Share<J::Octets>, steps: Share<J::Steps>) -> Account<J>
        requires octets { octets ≡ J.first_octets }
        requires steps { steps ≡ J.first_steps }
        ensures { result ≡ no_accounts }
    {
        let unspent = octets.amount();
        let _first_steps = steps.amount();
        Account {
            octets,
            steps,
            unspent,
            sums: Sums::default(),
            naming: PhantomData,
        }
    }

    /// Returns whether no step credit is left, so that no step can be made.
    pub fn is_spent(&self) -> bool
        ensures { IsTrue result ↔ (self.now.steps ≡ J.first_steps) }
    {
        self.steps.amount() == 0
    }

    /// Returns the current sums of the accounts.
    pub fn sums(&self) -> Sums
        ensures sums { result ≡ shown self.now }
        ensures part { result.quelched ≤ result.dropped }
    {
        self.sums
    }

    /// Accepts media of n octets, and passes their credit on. Returns false and changes nothing if and only if the peer has
    /// less unspent credit.
    pub fn accept(&mut self, pass: &mut Pass<J>, n: u64) -> bool
        ensures exactly { IsTrue result ↔ (self.old.accepted + n ≤ J.first_octets) }
        ensures counted { OnTrue result (self.new ≡ with_accepted self.old n) }
        ensures credit { OnTrue result (pass.new ≡ record pass.old { octets = pass.old.octets + n }) }
        ensures refused { OnFalse result ((self.new ≡ self.old) × (pass.new ≡ pass.old)) }
    {
        if n > self.unspent {
            return false;
        }
        pass_on(&mut self.octets, &mut pass.octets, n);
        self.unspent -= n;
        self.sums.accepted += n;
        true
    }

    /// Takes the credit of n octets back from the pass, which has it, and counts their outcome. Quelched octets count among
    /// the dropped ones, too.
    pub fn carry(&mut self, pass: &mut Pass<J>, n: u64, outcome: Carried)
        requires { n ≤ pass.old.octets }
        ensures credit { pass.new.octets + n ≡ pass.old.octets }
        ensures steps { pass.new.steps ≡ pass.old.steps }
        ensures counted { self.new ≡ carry_to self.old outcome n }
    {
        pass_on(&mut pass.octets, &mut self.octets, n);
        match outcome {
            Carried::Packed => self.sums.packed += n,
            Carried::Queued => self.sums.queued += n,
            Carried::Dropped => self.sums.dropped += n,
            Carried::Quelched => {
                self.sums.dropped += n;
                self.sums.quelched += n;
            }
        }
    }

    /// Counts n queued octets as written into frames. At least n are queued.
    pub fn pack(&mut self, n: u64)
        requires { n ≤ self.old.queued }
        ensures packed { self.new.packed ≡ self.old.packed + n }
        ensures queued { self.new.queued + n ≡ self.old.queued }
        ensures others { (self.new.accepted ≡ self.old.accepted) × (self.new.dropped ≡ self.old.dropped) ×
            (self.new.quelched ≡ self.old.quelched) × (self.new.steps ≡ self.old.steps) }
    {
        self.sums.queued -= n;
        self.sums.packed += n;
    }

    /// Counts one step, and passes its credit on. Step credit is left.
    pub fn count_step(&mut self, pass: &mut Pass<J>)
        requires { self.old.steps ≢ J.first_steps }
        ensures counted { self.new ≡ stepped self.old }
        ensures credit { pass.new ≡ record pass.old { steps = pass.old.steps + 1 } }
    {
        pass_on(&mut self.steps, &mut pass.steps, 1);
        self.sums.steps += 1;
    }

    /// Accepts a leg's signal. Media is handed up only if there is credit for all of its octets, which is passed on. Other
    /// signals are handed up as they are.
    pub fn grant(&mut self, pass: &mut Pass<J>, signal: Option<Signal>) -> Option<Signal>
        ensures signal { result ≡ (granted J.first_octets self.old.accepted signal).signal }
        ensures counted { self.new ≡ with_accepted self.old (granted J.first_octets self.old.accepted signal).octets }
        ensures credit { pass.new ≡
            record pass.old { octets = pass.old.octets + (granted J.first_octets self.old.accepted signal).octets } }
    {
        match &signal {
            Some(Signal::Media(span)) => {
                if self.accept(pass, span.len() as u64) {
                    signal
                } else {
                    None
                }
            }
            _ => signal,
        }
    }

    /// Gives the shares up: returns the accounts without them, the share of octets and that of steps. They have the credit
    /// that is left; the share of octets also has the credit of the octets carried to the peer.
    pub fn part(self) -> (ClosedAccount<J>, Share<J::Octets>, Share<J::Steps>)
        ensures same { result.0 ≡ self }
        ensures octets { result.1 + self.accepted ≡ J.first_octets + carried self }
        ensures steps { result.2 + self.steps ≡ J.first_steps }
        ensures within { self.accepted ≤ J.first_octets }
    {
        let Account {
            octets,
            steps,
            unspent,
            sums,
            naming,
        } = self;
        let closed = ClosedAccount {
            unspent,
            sums,
            naming,
        };
        (closed, octets, steps)
    }
}
