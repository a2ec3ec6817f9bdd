//! The openings of legs: by a received NEW, of a far leg, and of a call from outside. Also the rejection of a NEW for which
//! no number is free.
ghost use Rattle.std.specs.Option.{ForSome};
ghost use Rattle.std.specs.Prelude.{◌≡◌, ◌+◌, ◌<◌, ◌≤◌, ◌⊎◌, length, None, Option, Some, Err, option_copied, option_map};
ghost use Rattle.std.specs.Prelude.{slice_get, IfNone, IfOk, IfErr, IfSome, IsSome, OnOk, OnErr, OnSome};
ghost use Rattle.call_signals.specs.Format.{lowest_format};
ghost use Rattle.exchange_core.specs.Covered.{TakesCredit};
ghost use Rattle.exchange_core.specs.FirstSteps.{FitsOpenOut};
ghost use Rattle.exchange_core.specs.Newcomers.{SpellsOpening};
ghost use Rattle.call_control.specs.declared.need.Need.TheVariants as needs;
ghost use Rattle.call_control.specs.declared.reply.Reply.TheVariants as replies;
ghost use Rattle.exchange_core.specs.Numbers.{IsCalled};
ghost use Rattle.exchange_core.specs.Traces.{IsCallFor, LacksFormat, Makes, call_of, caller_of};
ghost use Rattle.iax_frames.specs.FullFrame.{SpellsFull};
ghost use Rattle.step_log.specs.Notes.{Notes, without_lease};
ghost use Rattle.step_log.specs.declared.made.Made.TheVariants as mades;
ghost use Rattle.peer_accounts.specs.declared.onwards.Offer.{Offer as OfferValue};
ghost use Rattle.peer_lock.specs.Accounts.{with_step};
ghost use Rattle.peer_lock.specs.Openings.{IsOpening};

use crate::exchange::Exchange;
use crate::gate::Gate;
use crate::resources::{Given, TaskResources};
use crate::routing::format_for;
use call_book::{Lease, LegName, PeerId};
use call_control::StepReply;
use iax_frames::Full;
use leg_machine::{Caller, Format};
use peer_lock::{LedgerSet, Offer, OpenError, ReadDatagram, RejectError, Step};
use peer_plan::Plan;
use std::sync::Wait;
use step_log::Pass;

// Returns the NEW that a datagram is.
fn opening_in<'d, 'o>(datagram: &'d ReadDatagram<'o>) -> &'d Full<'o>
    requires { SpellsOpening datagram.now }
    ensures opening { IsOpening result.now }
    ensures spelled { SpellsFull datagram.now result.now }
{
    datagram.full().unwrap()
}

// The values with which a leg is opened by a NEW of the exchange.
#[derive(Drop)]
struct Outgoing<'a> {
    // The number that is called.
    called: &'a [u8],
    // The caller; unknown for a call from outside.
    caller: Option<&'a Caller>,
    format: Format,
}

// Returns the lowest format of a peer.
fn lowest_format(plan: &Plan, peer: PeerId) -> Format
    requires { peer < length plan.now.peers }
    ensures { option_map (λ peer. lowest_format peer.rules.formats) (slice_get plan.now.peers peer) ≡ Some (Some result) }
{
    match plan.rules(peer).formats.lowest() {
        Some(format) => format,
        None => unreachable!(),
    }
}

// Returns the values for the far leg of an offered call at a peer, or `None` if the peer has no format of the call.
fn outgoing_for<'a>(plan: &Plan, peer: PeerId, offer: &'a Offer) -> Option<Outgoing<'a>>
    requires { peer < length plan.now.peers }
    ensures called { IfSome result (λ call. length call.called.now ≤ 255) }
    ensures is_for { IfSome result (λ call.
        IsCallFor plan.now None (Some offer.now) peer call.called.now (caller_of (option_copied call.caller)) call.format) }
    ensures none { IfNone result (LacksFormat plan.now (Some offer.now) peer) }
{
    let format = format_for(offer, plan.rules(peer).formats)?;
    Some(Outgoing {
        called: offer.called.as_slice(),
        caller: Some(&offer.caller),
        format,
    })
}

// Returns the values for a leg of a peer: for the number called from outside, if there is one, otherwise for the offered
// call.
fn outgoing_at<'a>(
    plan: &Plan,
    peer: PeerId,
    called: Option<&'a [u8]>,
    offer: Option<&'a Offer>,
) -> Option<Outgoing<'a>>
    requires { ForSome called (λ text. IsCalled text.now) }
    ensures peer { OnSome result (peer < length plan.now.peers) }
    ensures called { IfSome result (λ call. length call.called.now ≤ 255) }
    ensures is_for { IfSome result (λ call. IsCallFor plan.now (option_copied called.entry) (option_copied offer.entry) peer
        call.called.now (caller_of (option_copied call.caller)) call.format) }
    ensures none { IfNone result ((length plan.now.peers ≤ peer) ⊎
        ((option_copied called.entry ≡ None) × LacksFormat plan.now (option_copied offer.entry) peer)) }
{
    if peer.get() >= plan.peer_count() {
        return None;
    }
    match called {
        Some(called) => Some(Outgoing {
            called,
            caller: None,
            format: lowest_format(plan, peer),
        }),
        None => outgoing_for(plan, peer, offer?),
    }
}

impl<G: Gate, J: LedgerSet> Exchange<G, J> {
    // Opens a leg under a lease by a NEW of the exchange.
    fn open_out<R: Wait>(
        &self,
        rt: &R,
        pass: &mut Pass<J>,
        lease: Lease,
        call: &Outgoing<'_>,
        now: u64,
    ) -> Result<Step, (Lease, OpenError)>
        requires peer { lease.peer < length self.now.peers }
        requires called { length call.now.called.now ≤ 255 }
        ensures noted { Notes (mades.OpenOut lease.peer lease call.now.called.now
            (caller_of (option_copied call.now.caller)) call.now.format now (without_lease result)) pass.old pass.new }
        ensures credit { OnOk result (pass.new.credit ≡ with_step pass.old.credit 0) }
        ensures lease { IfErr result (λ back. back.0 ≡ lease) }
        ensures fits { IfErr result (λ back. FitsOpenOut (replies.OpenOut (Err back.1))) }
        ensures refused { OnErr result (pass.new.credit ≡ pass.old.credit) }
    {
        let peer = lease.name().owner();
        match call.caller {
            Some(caller) => self
                .locked(rt, peer)
                .open_out(pass, lease, call.called, caller, call.format, now),
            None => {
                let nobody = Caller::numbered(None);
                self.locked(rt, peer)
                    .open_out(pass, lease, call.called, &nobody, call.format, now)
            }
        }
    }

    // Opens a leg under the lease that the call keeps, on this name. It is the leg of a call from outside, if there is one,
    // otherwise the far leg of the offered call.
    pub(crate) fn open_from<R: Wait>(
        &self,
        rt: &R,
        pass: &mut Pass<J>,
        name: LegName,
        offer: Option<&Offer>,
        given: &Given<'_, '_, '_>,
        resources: &mut TaskResources,
    ) -> Result<(), OpenError>
        requires lease { resources.old.lease ≡ Some name }
        requires called { ForSome given.now.called (λ text. IsCalled text.now) }
        ensures noted { Makes (call_of self.now given.entry.now) (option_copied offer.entry) (needs.OpenOut name)
            (replies.OpenOut result) pass.old pass.new }
        ensures credit { OnOk result (pass.new.credit ≡ with_step pass.old.credit 0) ×
            OnErr result (pass.new.credit ≡ pass.old.credit) }
        ensures lease { OnOk result (resources.new.lease ≡ None) × OnErr result (resources.new.lease ≡ resources.old.lease) }
        ensures fits { FitsOpenOut (replies.OpenOut result) }
        ensures rest { (resources.new.denial ≡ resources.old.denial) × (resources.new.retired_legs ≡ resources.old.retired_legs) ×
            (resources.new.named ≡ resources.old.named) }
    {
        let Some(call) = outgoing_at(&self.plan, name.owner(), given.called, offer) else {
            pass.note_unasked();
            return Err(OpenError::NumberBusy);
        };
        let lease = resources.lease.take().unwrap();
        match self.open_out(rt, pass, lease, &call, given.now) {
            Ok(_) => Ok(()),
            Err((lease, error)) => {
                resources.lease = Some(lease);
                Err(error)
            }
        }
    }

    // Opens the leg of the NEW that the datagram spells, under the lease that the call keeps, on this name.
    pub(crate) fn open_given<R: Wait>(
        &self,
        rt: &R,
        pass: &mut Pass<J>,
        name: LegName,
        given: &Given<'_, '_, '_>,
        resources: &mut TaskResources,
    ) -> Result<StepReply, OpenError>
        requires lease { resources.old.lease ≡ Some name }
        requires peer { name.peer < length self.now.peers }
        requires opening { SpellsOpening given.now.datagram }
        requires challenge { IsSome given.now.challenge }
        ensures noted { (offer : Option OfferValue) →
            Makes (call_of self.now given.entry.now) offer (needs.OpenIn name) (replies.OpenIn result) pass.old pass.new }
        ensures credit { OnOk result (pass.new.credit.steps ≡ pass.old.credit.steps + 1) ×
            OnErr result (pass.new.credit ≡ pass.old.credit) }
        // A NEW has no media.
        ensures media { IfOk result (λ heard.
            TakesCredit (length given.entry.now.datagram) pass.old.credit pass.new.credit heard.onwards.signals) }
        ensures lease { OnOk result (resources.new.lease ≡ None) × OnErr result (resources.new.lease ≡ resources.old.lease) }
        ensures rest { (resources.new.denial ≡ resources.old.denial) × (resources.new.retired_legs ≡ resources.old.retired_legs) ×
            (resources.new.named ≡ resources.old.named) }
    {
        let challenge = given.challenge.unwrap();
        let frame = opening_in(&given.datagram);
        let lease = resources.lease.take().unwrap();
        let mut onwards = pass.lend(self.alloc);
        let answer = self
            .locked(rt, name.owner())
            .open_in(pass, lease, frame, given.now, challenge, &mut onwards);
        match answer {
            Ok(step) => Ok(StepReply {
                touched: step.touched,
                rejected: step.rejected,
                onwards,
            }),
            Err((lease, error)) => {
                pass.keep(onwards);
                resources.lease = Some(lease);
                Err(error)
            }
        }
    }

    // Rejects the NEW that the datagram spells, because no number is free for its leg.
    pub(crate) fn reject_given<R: Wait>(
        &self,
        rt: &R,
        pass: &mut Pass<J>,
        peer: PeerId,
        given: &Given<'_, '_, '_>,
    ) -> Result<(), RejectError>
        requires peer { peer < length self.now.peers }
        requires opening { SpellsOpening given.now.datagram }
        ensures noted { (offer : Option OfferValue) →
            Makes (call_of self.now given.entry.now) offer (needs.RejectNew peer) (replies.RejectNew result) pass.old pass.new }
        ensures credit { OnOk result (pass.new.credit ≡ with_step pass.old.credit 0) }
        ensures refused { OnErr result (pass.new.credit ≡ pass.old.credit) }
    {
        let frame = opening_in(&given.datagram);
        let answer = self.locked(rt, peer).reject_new(pass, frame);
        match answer {
            Ok(_) => Ok(()),
            Err(error) => Err(error),
        }
    }
}
