//! The steps of a peer by which it handles a datagram ("Full Frames", "Mini Frames", "Meta Frames").
ghost use Rattle.std.specs.Prelude.{◌≡◌, ◌≢◌, ◌+◌, ◌-◌, ◌<◌, ◌≤◌, ◌⊎◌, ◌↔◌, [], length, map, true, None, Some, Err, IsSome, IfOk};
ghost use Rattle.std.specs.Prelude.{IfErr, OnOk, OnErr, IsTrue};
ghost use Rattle.leg_machine.specs.Steps.{full_step, heard_of};
ghost use Rattle.leg_machine.specs.Working.{frame_refused, IsFrameRefusal};
ghost use Rattle.peer_accounts.specs.Accounts.{stepped, with_accepted, with_step as with_credit};
ghost use Rattle.peer_accounts.specs.Grants.{granted};
ghost use Rattle.iax_frames.specs.FullFrame.{spelling};
ghost use Rattle.peer_lock.specs.Arrivals as spec_of;
ghost use Rattle.peer_lock.specs.Arrivals.{reached_step, delivered_step, datagram_step, datagram_refused};
ghost use Rattle.peer_legs.specs.Finding.{can_reach, found};
ghost use Rattle.peer_lock.specs.Delivery.{delivery, full_refused, leg_refused};
ghost use Rattle.peer_legs.specs.Legs.{NamedLeg as NamedLegValue, leg_at, with_leg};
ghost use Rattle.peer_accounts.specs.HandedUp.{IsNothing};
ghost use Rattle.peer_lock.specs.Makes.{Makes, IsUnchanged, IsDue, WasHandled};
ghost use Rattle.peer_lock.specs.Peer as spec;
ghost use Rattle.peer_lock.specs.Peer.{handed_up, leg_alone, offer_with, with_sent};
ghost use Rattle.peer_lock.specs.declared.errors.PeerError.{PeerError as PeerErrorValue};
ghost use Rattle.peer_lock.specs.Unworked.{IsSoundFull, IsRefusedFull, IsCutFrame, IsSound, IsRefusedRead, IsShortDatagram};
ghost use Rattle.memory_requests.specs.Refused.{WasRefused};
ghost use Rattle.peer_lock.specs.Asking.{MayAsk};

use crate::errors::PeerError;
use crate::media_arrivals::ENTRIES;
use crate::outboxes::{flush_if, is_ahead, put_all};
use crate::read_datagram::ReadDatagram;
use crate::state::PeerState;
use crate::steps::{Rejection, Step};
use call_signals::codes::FRAME_IAX;
use iax_frames::{Datagram, Full};
use info_elements::{CHALLENGE, elements, last_in};
use leg_machine::{ElementText, Heard, Judged, MediaSpan, Message, PeerRules, Signal, StepError};
use peer_accounts::{LedgerSet, Offer, Onwards, Pass};
use peer_legs::NamedLeg;

// Returns the offer of a leg's offered call.
fn offer_of(named: &NamedLeg) -> Offer
    ensures { result ≡ spec.offer_of named.now.leg }
{
    let leg = named.leg();
    Offer {
        called: ElementText::new(leg.called()),
        caller: leg.caller(),
        format: leg.format(),
        formats: leg.offered_formats(),
    }
}

fn is_auth_req(message: &Message) -> bool
    ensures { result ≡ spec_of.is_auth_req message.now }
{
    matches!(message, Message::AuthReq)
}

// Returns the rejection of a full frame that a leg judged: an AUTHREQ with a challenge of this exchange.
fn reflection(rules: &PeerRules, frame: &Full, judged: Judged) -> Option<Rejection>
    ensures { result ≡ spec_of.reflection rules.now frame.now judged }
{
    let Judged::Taken = judged else {
        return None;
    };
    if is_auth_req(&Message::of(frame)) && rules.is_own(last_in(frame.payload(), CHALLENGE)) {
        Some(Rejection::Reflection)
    } else {
        None
    }
}

// Writes the signals that a leg hands up to the lent list, which is empty and has room for them.
pub(crate) fn hand_up(onwards: &mut Onwards, named: &NamedLeg, signal: Option<Signal>)
    requires room { 1 ≤ onwards.old.room }
    requires empty { onwards.old.signals ≡ [] }
    requires no_offer { onwards.old.offer ≡ None }
    ensures signals { onwards.new.signals ≡ handed_up named.now.name signal }
    ensures offer { onwards.new.offer ≡ offer_with named.now.leg signal }
{
    let Some(signal) = &signal else {
        return;
    };
    if let Signal::Offered = signal {
        onwards.set_offer(offer_of(named));
    }
    onwards.push(named.name(), *signal);
}

impl<J: LedgerSet> PeerState<J> {
    // Gives a full frame to the leg of a number, and puts the leg's frames into the outbox.
    fn deliver(&mut self, number: u16, frame: &Full, now: u64) -> Result<Heard, StepError>
        requires short { length frame.now.payload ≤ 1388 }
        requires there { can_reach self.old.legs frame.now.head.source (leg_at self.old.legs number) ≡ true }
        ensures peer { OnOk result ((named : NamedLegValue) → leg_at self.old.legs number ≡ Some named →
            self.new ≡ record (with_sent self.old named.name.number (map spelling (full_step named.leg frame.now now).replies)) {
              legs = with_leg self.old.legs named.name (full_step named.leg frame.now now).leg;
            }) }
        ensures steps { self.new.accounts.steps ≡ self.old.accounts.steps }
        ensures heard { IfOk result (λ heard. (named : NamedLegValue) → leg_at self.old.legs number ≡ Some named →
            heard ≡ heard_of (full_step named.leg frame.now now)) }
        ensures kept { OnOk result (IsSome (leg_at self.new.legs number)) }
        ensures there { OnOk result ((named : NamedLegValue) → leg_at self.old.legs number ≡ Some named
            → leg_at self.new.legs number ≡ Some (record { name = named.name; leg = (full_step named.leg frame.now now).leg })) }
        ensures unrefused { (named : NamedLegValue) → leg_at self.old.legs number ≡ Some named →
            OnOk result (frame_refused named.leg frame.now ≡ None) }
        ensures refused { (named : NamedLegValue) → leg_at self.old.legs number ≡ Some named →
            IfErr result (IsFrameRefusal (frame_refused named.leg frame.now)) }
        ensures err { OnErr result (self.new ≡ self.old) }
        ensures no_memory { result ≡ Err StepError.Memory → WasRefused }
    {
        // For the proof: each leg is under its own number.
        let _sound = self.legs.count();
        let own = self.legs.call_number(number);
        self.replies.clear();
        let heard = self.legs.full(number, frame, now, &mut self.replies)?;
        let goes = is_ahead(&self.rules, &self.queue, own, &self.replies);
        flush_if(
            goes,
            self.rules.trunk_timestamps,
            self.since,
            &mut self.outbox,
            &mut self.queue,
            &mut self.account,
        );
        put_all(&mut self.outbox, &self.replies);
        Ok(heard)
    }

    // Counts and hands up the signal of a leg's frame.
    fn hand_on(
        &mut self,
        pass: &mut Pass<J>,
        number: u16,
        frame: &Full,
        heard: Heard,
        onwards: &mut Onwards,
    ) -> Step
        requires steps { self.old.accounts.steps ≢ J.first_steps }
        requires there { IsSome (leg_at self.old.legs number) }
        requires room { 1 ≤ onwards.old.room }
        requires nothing { IsNothing onwards.old }
        ensures peer { self.new ≡
            record self.old {
              accounts =
                  with_accepted (stepped self.old.accounts)
                  (granted J.first_octets self.old.accounts.accepted heard.signal).octets;
            } }
        ensures step { (named : NamedLegValue) → leg_at self.old.legs number ≡ Some named →
            result ≡ record (leg_alone named.name heard.judged) {
              rejected = spec_of.reflection self.old.rules frame.now
                  heard.judged;
            } }
        ensures signals { (named : NamedLegValue) → leg_at self.old.legs number ≡ Some named
            → onwards.new.signals ≡ handed_up named.name (granted J.first_octets self.old.accounts.accepted heard.signal).signal }
        ensures offer { (named : NamedLegValue) → leg_at self.old.legs number ≡ Some named
            → onwards.new.offer ≡ offer_with named.leg (granted J.first_octets self.old.accounts.accepted heard.signal).signal }
        ensures credit { pass.new ≡ with_credit pass.old (granted J.first_octets self.old.accounts.accepted heard.signal).octets }
    {
        self.account.count_step(pass);
        let signal = self.account.grant(pass, heard.signal);
        let named = self.legs.get(number).unwrap();
        hand_up(onwards, named, signal);
        Step {
            judged: heard.judged,
            touched: Some(named.name()),
            rejected: reflection(&self.rules, frame, heard.judged),
        }
    }

    // Gives a full frame to the leg of a number.
    fn reach(
        &mut self,
        pass: &mut Pass<J>,
        number: u16,
        frame: &Full,
        now: u64,
        onwards: &mut Onwards,
    ) -> Result<Step, PeerError>
        requires steps { self.old.accounts.steps ≢ J.first_steps }
        requires short { length frame.now.payload ≤ 1388 }
        requires there { can_reach self.old.legs frame.now.head.source (leg_at self.old.legs number) ≡ true }
        requires nothing { IsNothing onwards.old }
        ensures made { IfOk result (λ step. (named : NamedLegValue) → leg_at self.old.legs number ≡ Some named
            → Makes (reached_step J.first_octets self.old named frame.now now) self.new step pass.old pass.new onwards.new) }
        ensures unrefused { OnOk result ((named : NamedLegValue) → leg_at self.old.legs number ≡ Some named →
            leg_refused named frame.now ≡ None) }
        ensures refused { IfErr result (λ e. (named : NamedLegValue) → leg_at self.old.legs number ≡ Some named →
            IsDue (leg_refused named frame.now) e) }
        ensures err { OnErr result (IsUnchanged self.old self.new pass.old pass.new onwards.new) }
        ensures no_memory { result ≡ Err PeerError.Memory → WasRefused }
    {
        if let Some(error) = self.legs.frame_refused(number, frame) {
            return Err(PeerError::from(error));
        }
        onwards.reserve(1)?;
        let heard = self.deliver(number, frame, now)?;
        Ok(self.hand_on(pass, number, frame, heard, onwards))
    }

    // Handles a full frame.
    fn full(
        &mut self,
        pass: &mut Pass<J>,
        frame: &Full,
        now: u64,
        onwards: &mut Onwards,
    ) -> Result<Step, PeerError>
        requires steps { self.old.accounts.steps ≢ J.first_steps }
        requires nothing { IsNothing onwards.old }
        ensures made { IfOk result
            (λ step.
            Makes (delivered_step J.first_octets self.old
            (delivery self.old frame.now now) frame.now now) self.new step pass.old pass.new onwards.new) }
        ensures sound { OnOk result (IsSoundFull frame.now) }
        ensures unrefused { OnOk result (full_refused self.old frame.now now ≡ None) }
        ensures unsound { (e : PeerErrorValue) → IsRefusedFull frame.now e → result ≡ Err e }
        ensures refused { IfErr result (λ e. IsRefusedFull frame.now e ⊎
            (IsSoundFull frame.now × IsDue (full_refused self.old frame.now now) e)) }
        ensures err { OnErr result (IsUnchanged self.old self.new pass.old pass.new onwards.new) }
        ensures no_memory { result ≡ Err PeerError.Memory → WasRefused }
        ensures memory { result ≡ Err PeerError.Memory → IsSome (found self.old.legs frame.now) }
    {
        if frame.payload().len() > 1388 {
            return Err(PeerError::TooLong);
        }
        if frame.source().get() == 0 {
            return Err(PeerError::NoSource);
        }
        if is_cut(frame) {
            return Err(PeerError::Cut);
        }
        match self.legs.find(frame) {
            Some(number) => self.reach(pass, number, frame, now, onwards),
            None => self.come_to_none(pass, frame, now),
        }
    }

    // Handles a datagram that was read.
    fn arrive(
        &mut self,
        pass: &mut Pass<J>,
        datagram: &Datagram,
        now: u64,
        onwards: &mut Onwards,
    ) -> Result<Step, PeerError>
        requires steps { self.old.accounts.steps ≢ J.first_steps }
        requires short { IsShortDatagram datagram.now }
        requires nothing { IsNothing onwards.old }
        ensures made { IfOk result (λ step.
            Makes (datagram_step J.first_octets self.old datagram.now now) self.new step pass.old pass.new onwards.new) }
        ensures sound { OnOk result (IsSound datagram.now) }
        ensures unrefused { OnOk result (datagram_refused self.old datagram.now now ≡ None) }
        ensures unsound { (e : PeerErrorValue) → IsRefusedRead datagram.now e → result ≡ Err e }
        ensures refused { IfErr result (λ e. IsRefusedRead datagram.now e ⊎
            (IsSound datagram.now × IsDue (datagram_refused self.old datagram.now now) e)) }
        ensures err { OnErr result (IsUnchanged self.old self.new pass.old pass.new onwards.new) }
        ensures no_memory { result ≡ Err PeerError.Memory → WasRefused }
        ensures memory { result ≡ Err PeerError.Memory → MayAsk self.old onwards.old.room datagram.now }
    {
        let mut rejected = None;
        match datagram {
            Datagram::Full(frame) => return self.full(pass, frame, now, onwards),
            Datagram::Mini(mini) => {
                let Some(number) = self.legs.of_remote(mini.source()) else {
                    return Err(PeerError::NoCall);
                };
                onwards.reserve(1)?;
                let span = MediaSpan {
                    start: 4,
                    end: 4 + mini.media().len(),
                };
                self.take_media(pass, number, span, onwards);
            }
            Datagram::Video(_) => {}
            Datagram::Trunk(trunk) => {
                onwards.reserve(ENTRIES)?;
                if self.take_entries(pass, trunk, onwards) {
                    rejected = Some(Rejection::ManyEntries);
                }
            }
        }
        self.account.count_step(pass);
        Ok(Step {
            judged: Judged::Unnumbered,
            touched: None,
            rejected,
        })
    }

    /// Handles a datagram of the peer, at most 2,048 octets, at the moment `now`, in milliseconds. It is one step, at the
    /// leg that it concerns, if any. The signals handed up are written to the empty list.
    ///
    /// Refusals are checked in this order, as `PeerError` describes them: `StepsSpent`, `TooLong`, `Short`, `MetaCommand`,
    /// `EntryCut`, `NoSource`, `Cut`, `NeedsNumber`, `NoToken`, `NoCall`, `RecordFull`, `Unaddressed`,
    /// `NewUnacknowledged`, `Memory`. `Memory` is returned only if memory was refused. Then nothing is changed.
    pub fn datagram(
        &mut self,
        pass: &mut Pass<J>,
        octets: &[u8],
        now: u64,
        onwards: &mut Onwards,
    ) -> Result<Step, PeerError>
        requires nothing { IsNothing onwards.old }
        ensures { WasHandled J.first_octets J.first_steps octets.now now result self.old self.new pass.old pass.new
            onwards.old.room onwards.new }
    {
        self.datagram_read(pass, &ReadDatagram::of(octets), now, onwards)
    }

    /// Handles a datagram of the peer that was read, at the moment `now`, in milliseconds: `datagram` without the reading.
    ///
    /// Refusals are checked in the order of `PeerError`, as by `datagram`. `Memory` is returned only if memory was refused.
    /// Then nothing is changed.
    pub fn datagram_read(
        &mut self,
        pass: &mut Pass<J>,
        datagram: &ReadDatagram<'_>,
        now: u64,
        onwards: &mut Onwards,
    ) -> Result<Step, PeerError>
        requires nothing { IsNothing onwards.old }
        ensures { WasHandled J.first_octets J.first_steps datagram.now now result self.old self.new pass.old pass.new
            onwards.old.room onwards.new }
    {
        if self.account.is_spent() {
            return Err(PeerError::StepsSpent);
        }
        if datagram.octets.len() > 2048 {
            return Err(PeerError::TooLong);
        }
        match &datagram.answer {
            Ok(spelled) => self.arrive(pass, spelled, now, onwards),
            Err(error) => Err(PeerError::from(*error)),
        }
    }
}

// Returns whether the last element of an IAX frame passes the end.
fn is_cut(frame: &Full) -> bool
    ensures { IsTrue result ↔ IsCutFrame frame.now }
{
    if frame.frame_type() != FRAME_IAX {
        return false;
    }
    match elements(frame.payload()) {
        Ok(_) => false,
        Err(_) => true,
    }
}
