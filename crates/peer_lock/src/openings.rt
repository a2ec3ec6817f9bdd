//! The step of a peer that opens a leg ("Call Setup"), and the one that rejects a NEW for want of a number ("REJECT").
ghost use Rattle.std.specs.Prelude.{◌≡◌, ◌≢◌, ◌<◌, ◌≤◌, length, map, None, Some, true, IfOk};
ghost use Rattle.std.specs.Prelude.{OnOk, OnErr, ℕ};
ghost use Rattle.iax_frames.specs.FullFrame.{spelling};
ghost use Rattle.peer_accounts.specs.Accounts.{with_step as with_credit};
ghost use Rattle.peer_legs.specs.Legs.{IsLegOf, is_free_name, leg_at, leg_of_remote};
ghost use Rattle.peer_lock.specs.Peer.{handed_up, leg_alone, offer_with};
ghost use Rattle.peer_accounts.specs.HandedUp.{IsNothing};
ghost use Rattle.leg_machine.specs.Openings.{open_out_step};
ghost use Rattle.outbox.specs.Outbox.{put};
ghost use Rattle.peer_lock.specs.Openings.{IsOpening, WasOpenedIn, WasOpenedOut, WasRejected};
ghost use Rattle.peer_lock.specs.Openings.{open_in_refused, open_out_refused, reject_new_refused, with_seated};
ghost use Rattle.memory_requests.specs.Refused.{WasRefused};

use crate::arrivals::hand_up;
use crate::errors::{OpenError, RejectError};
use crate::outboxes::put_all;
use crate::state::PeerState;
use crate::steps::{Rejection, Step};
use crate::unknown_calls::reject_for;
use call_auth::Challenge;
use call_book::{Lease, LegName};
use iax_frames::{CallNumber, Full};
use leg_machine::{Caller, Format, Heard, Judged, Leg};
use peer_accounts::{LedgerSet, Onwards, Pass};
use std::alloc::AllocError;

impl<J: LedgerSet> PeerState<J> {
    // Puts an opened leg into its place.
    fn seat(&mut self, pass: &mut Pass<J>, lease: Lease, leg: Leg)
        requires steps { self.old.accounts.steps ≢ J.first_steps }
        requires free { is_free_name self.old.legs lease ≡ true }
        requires number { leg.state.number ≡ lease.number }
        requires remote { (remote : ℕ) → leg.state.remote ≡ Some remote → leg_of_remote self.old.legs remote ≡ None }
        requires ruled { IsLegOf self.old.rules leg.state }
        ensures peer { self.new ≡ with_seated self.old (record { name = lease; leg = leg.state }) }
        ensures credit { pass.new ≡ with_credit pass.old 0 }
        ensures there { leg_at self.new.legs lease.number ≡ Some (record { name = lease; leg = leg.state }) }
    {
        self.account.count_step(pass);
        self.legs.insert(lease, leg);
    }

    // Returns the reason why no leg can be opened under a name.
    fn opening_refused(&self, name: LegName) -> Option<OpenError>
        ensures { result ≡ open_out_refused self.now J.first_steps name }
    {
        if self.account.is_spent() {
            return Some(OpenError::StepsSpent);
        }
        if !self.legs.is_free(name) {
            return Some(OpenError::NumberBusy);
        }
        None
    }

    // Returns the reason why a NEW opens no leg under a name.
    fn new_refused(&self, name: LegName, frame: &Full) -> Option<OpenError>
        ensures { result ≡ open_in_refused self.now J.first_steps name frame.now.head.source }
    {
        if let Some(refusal) = self.opening_refused(name) {
            return Some(refusal);
        }
        if self.drains {
            return Some(OpenError::Draining);
        }
        if self.legs.of_remote(frame.source()).is_some() {
            return Some(OpenError::RemoteBusy);
        }
        None
    }

    // Returns the call number of a free name.
    fn free_number(&self, name: LegName) -> CallNumber
        requires { is_free_name self.now.legs name ≡ true }
        ensures number { result ≡ name.number }
        ensures some { 1 ≤ result }
    {
        // For the proof: a leg's number isn't 0.
        let _sound = self.legs.count();
        CallNumber::new(name.number)
    }

    /// Opens a leg by a received NEW, under the lease, at the moment `now`, in milliseconds: one step ("Call Setup"). It is
    /// a NEW that `datagram` answers by `NeedsNumber`. The signals handed up are written to the empty list.
    ///
    /// Refusals are checked in this order: `StepsSpent`; `NumberBusy` if a leg has the lease's number or the lease isn't of
    /// this peer; `Draining` if the peer drains; `RemoteBusy` if a leg has the NEW's source; `Memory`, which is returned
    /// only if memory was refused. The lease comes back, and nothing is changed.
    pub fn open_in(
        &mut self,
        pass: &mut Pass<J>,
        lease: Lease,
        frame: &Full,
        now: u64,
        challenge: &Challenge,
        onwards: &mut Onwards,
    ) -> Result<Step, (Lease, OpenError)>
        requires opening { IsOpening frame.now }
        requires nothing { IsNothing onwards.old }
        ensures { WasOpenedIn J.first_steps lease frame.now now challenge.now result self.old self.new pass.old pass.new
            onwards.new }
    {
        let name = lease.name();
        if let Some(refusal) = self.new_refused(name, frame) {
            return Err((lease, refusal));
        }
        if onwards.reserve(1).is_err() {
            return Err((lease, OpenError::Memory));
        }
        let number = self.free_number(name);
        self.replies.clear();
        match Leg::open_in_into(
            self.alloc,
            &self.rules,
            number,
            frame,
            now,
            challenge,
            &mut self.replies,
        ) {
            Ok((leg, heard)) => {
                put_all(&mut self.outbox, &self.replies);
                Ok(self.opened(pass, lease, leg, heard, onwards))
            }
            Err(_) => Err((lease, OpenError::Memory)),
        }
    }

    // Puts an opened leg into its place, and hands up its signal.
    fn opened(
        &mut self,
        pass: &mut Pass<J>,
        lease: Lease,
        leg: Leg,
        heard: Heard,
        onwards: &mut Onwards,
    ) -> Step
        requires steps { self.old.accounts.steps ≢ J.first_steps }
        requires free { is_free_name self.old.legs lease ≡ true }
        requires number { leg.state.number ≡ lease.number }
        requires remote { (remote : ℕ) → leg.state.remote ≡ Some remote → leg_of_remote self.old.legs remote ≡ None }
        requires ruled { IsLegOf self.old.rules leg.state }
        requires room { 1 ≤ onwards.old.room }
        requires nothing { IsNothing onwards.old }
        ensures peer { self.new ≡ with_seated self.old (record { name = lease; leg = leg.state }) }
        ensures credit { pass.new ≡ with_credit pass.old 0 }
        ensures step { result ≡ leg_alone lease heard.judged }
        ensures signals { onwards.new.signals ≡ handed_up lease heard.signal }
        ensures offer { onwards.new.offer ≡ offer_with leg.state heard.signal }
    {
        let name = lease.name();
        self.seat(pass, lease, leg);
        let named = self.legs.get(name.number).unwrap();
        hand_up(onwards, named, heard.signal);
        Step {
            judged: heard.judged,
            touched: Some(name),
            rejected: None,
        }
    }

    // Returns the reason why a NEW isn't rejected.
    fn rejecting_refused(&self, frame: &Full) -> Option<RejectError>
        ensures { result ≡ reject_new_refused self.now J.first_steps frame.now.head.source }
    {
        if !self.rules.is_hardened {
            return Some(RejectError::Unanswered);
        }
        if self.account.is_spent() {
            return Some(RejectError::StepsSpent);
        }
        if self.legs.of_remote(frame.source()).is_some() {
            return Some(RejectError::RemoteBusy);
        }
        None
    }

    /// Rejects a received NEW because no number is free for its leg: one step without a leg ("REJECT"). It is a NEW that
    /// `datagram` answers by `NeedsNumber`.
    ///
    /// Refusals are checked in this order: `Unanswered` if the rules aren't hardened; `StepsSpent`; `RemoteBusy` if a leg
    /// has the NEW's source. Then nothing is changed.
    pub fn reject_new(&mut self, pass: &mut Pass<J>, frame: &Full) -> Result<Step, RejectError>
        requires { IsOpening frame.now }
        ensures { WasRejected J.first_steps frame.now result self.old self.new pass.old pass.new }
    {
        if let Some(refusal) = self.rejecting_refused(frame) {
            return Err(refusal);
        }
        Ok(self.answer_alone(pass, &reject_for(Rejection::NoNumber, frame)))
    }

    // Makes a leg for a name, to call a number of at most 255 octets, and puts its frames into the outbox.
    fn send_new(
        &mut self,
        name: LegName,
        called: &[u8],
        caller: &Caller,
        format: Format,
        now: u64,
    ) -> Result<Leg, AllocError>
        requires called { length called.now ≤ 255 }
        requires free { is_free_name self.old.legs name ≡ true }
        ensures peer { OnOk result
            (self.new ≡
            record self.old {
              outbox =
                  put self.old.outbox (map spelling
                  (open_out_step self.old.rules name.number called.now caller.now format now).replies);
            }) }
        ensures leg { IfOk result (λ leg. leg.state ≡
            (open_out_step self.old.rules name.number called.now caller.now format now).leg) }
        ensures ruled { IfOk result (λ leg. IsLegOf self.old.rules leg.state) }
        ensures err { OnErr result (self.new ≡ self.old) }
        ensures no_memory { OnErr result WasRefused }
    {
        // For the proof: the leg's record is legal.
        leg_machine::laws::steps_send_as_sides();
        let number = self.free_number(name);
        self.replies.clear();
        let leg = Leg::open_out_into(
            self.alloc,
            &self.rules,
            number,
            called,
            caller,
            format,
            now,
            &mut self.replies,
        )?;
        // For the proof: the record's length, and the held frames in it.
        let _legal = leg.window().record();
        let _held = leg.window().held_len();
        put_all(&mut self.outbox, &self.replies);
        Ok(leg)
    }

    /// Places a call under the lease, for a number of at most 255 octets, at the moment `now`, in milliseconds: one step
    /// ("Call Setup").
    ///
    /// Refusals are checked in this order: `StepsSpent`; `NumberBusy` if a leg has the lease's number or the lease isn't of
    /// this peer; `Memory`, which is returned only if memory was refused. The lease comes back, and nothing is changed.
    pub fn open_out(
        &mut self,
        pass: &mut Pass<J>,
        lease: Lease,
        called: &[u8],
        caller: &Caller,
        format: Format,
        now: u64,
    ) -> Result<Step, (Lease, OpenError)>
        requires called { length called.now ≤ 255 }
        ensures { WasOpenedOut J.first_steps lease called.now caller.now format now result self.old self.new pass.old pass.new }
    {
        if let Some(refusal) = self.opening_refused(lease.name()) {
            return Err((lease, refusal));
        }
        match self.send_new(lease.name(), called, caller, format, now) {
            Ok(leg) => {
                let name = lease.name();
                self.seat(pass, lease, leg);
                Ok(Step {
                    judged: Judged::Unnumbered,
                    touched: Some(name),
                    rejected: None,
                })
            }
            Err(_) => Err((lease, OpenError::Memory)),
        }
    }
}
