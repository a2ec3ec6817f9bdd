//! Makes each step that a call can need.
ghost use Rattle.std.specs.Option.{ForSome};
ghost use Rattle.std.specs.List.{AllByRecursion};
ghost use Rattle.std.specs.Prelude.{◌≡◌, ℕ, ◌+◌, ◌<◌, ◌≤◌, length, Option, None, Some, Err, true, false, IfOk};
ghost use Rattle.std.specs.Prelude.{IsSome, OnOk, OnErr};
ghost use Rattle.call_book.specs.declared.leg_name.LegName.{LegName as LegNameValue};
ghost use Rattle.call_control.specs.Beginnings.{is_answer, is_made};
ghost use Rattle.call_control.specs.Leases.{lease_needed, lease_after};
ghost use Rattle.call_control.specs.WorkState.{offer_in};
ghost use Rattle.call_control.specs.MediaLeft.{media_of, media_needed, handed_by};
ghost use Rattle.call_control.specs.declared.need.Need.TheVariants as needs;
ghost use Rattle.call_control.specs.declared.reply.Reply.TheVariants as replies;
ghost use Rattle.exchange_core.specs.Covered.{IsCovered};
ghost use Rattle.exchange_core.specs.FirstSteps.{FitsOpenOut, InPlan, IsOfNew, IsOpenedOut, IsOpeningDue, KeepsPeer};
ghost use Rattle.exchange_core.specs.FirstSteps.{named_after};
ghost use Rattle.exchange_core.specs.Newcomers.{SpellsOpening};
ghost use Rattle.exchange_core.specs.Leaving as leaving;
ghost use Rattle.exchange_core.specs.Leaving.{Leaves, leaving_of};
ghost use Rattle.exchange_core.specs.Numbers.{IsCalled};
ghost use Rattle.exchange_core.specs.Traces.{Makes, call_of};
ghost use Rattle.exchange_core.specs.declared.resources.Given.{Given as GivenValue};
ghost use Rattle.step_log.specs.Notes as notes;
ghost use Rattle.peer_lock.specs.Accounts.{with_step};
ghost use Rattle.peer_lock.specs.CarriedMedia.{LiesWithin, handed_octets};
ghost use Rattle.peer_accounts.specs.declared.onwards.Offer.{Offer as OfferValue};

use crate::exchange::Exchange;
use crate::gate::Gate;
use crate::resources::{Given, TaskResources};
use call_book::{Lease, LegName, PeerId, ReserveError, Stale};
use call_control::{Need, Reply, StepReply, Work};
use leg_machine::{Command, MediaSpan, order_of};
use peer_lock::laws::media_is_the_datagrams;
use peer_lock::{LedgerSet, OrderError, Status, StepsSpent};
use std::sync::Wait;
use step_log::Pass;

// Returns the book's answer without the lease that came back.
fn without_lease(answer: Result<Option<LegName>, (Lease, Stale)>) -> Result<Option<LegName>, Stale>
    ensures { result ≡ notes.without_lease answer }
{
    match answer {
        Ok(former) => Ok(former),
        Err((_, stale)) => Err(stale),
    }
}

// Returns the former partner, if the book returned one.
fn former_of(answer: Result<Option<LegName>, Stale>) -> Option<LegName>
    ensures { result ≡ leaving.former_of answer }
{
    match answer {
        Ok(former) => former,
        Err(_) => None,
    }
}

impl<G: Gate, J: LedgerSet> Exchange<G, J> {
    // Gives the datagram to its peer, with room for the signals that it hands up.
    fn datagram_given<R: Wait>(
        &self,
        rt: &R,
        pass: &mut Pass<J>,
        peer: PeerId,
        given: &Given<'_, '_, '_>,
    ) -> Reply
        requires peer { peer < length self.now.peers }
        ensures answer { (is_answer (Some (needs.Datagram peer)) result ≡ true) ×
            (IsOpeningDue result → SpellsOpening given.entry.now.datagram) ×
            FitsOpenOut result }
        ensures noted { (offer : Option OfferValue) →
            Makes (call_of self.now given.entry.now) offer (needs.Datagram peer) result pass.old pass.new }
        ensures steps { (is_made result ≡ true → pass.new.credit.steps ≡ pass.old.credit.steps + 1) ×
            (is_made result ≡ false → pass.new.credit ≡ pass.old.credit) × (IsOpenedOut result → ⊥) }
        ensures media { AllByRecursion (LiesWithin (length given.entry.now.datagram)) (handed_by result) ×
            (pass.old.credit.octets + handed_octets (handed_by result) ≤ pass.new.credit.octets) }
        ensures named { (named : Option LegNameValue) → named_after result named ≡ named }
    {
        media_is_the_datagrams();
        let mut onwards = pass.lend(self.alloc);
        let answer = self
            .locked(rt, peer)
            .datagram_read(pass, &given.datagram, given.now, &mut onwards);
        match answer {
            Ok(step) => Reply::Datagram(Ok(StepReply {
                touched: step.touched,
                rejected: step.rejected,
                onwards,
            })),
            Err(error) => {
                pass.keep(onwards);
                Reply::Datagram(Err(error))
            }
        }
    }

    // Ticks a peer. Returns whether there is no leg to be finished.
    fn tick_given<R: Wait>(
        &self,
        rt: &R,
        pass: &mut Pass<J>,
        peer: PeerId,
        given: &Given<'_, '_, '_>,
    ) -> Result<bool, StepsSpent>
        requires { peer < length self.now.peers }
        ensures noted { (offer : Option OfferValue) →
            Makes (call_of self.now given.entry.now) offer (needs.Tick peer) (replies.Tick result) pass.old pass.new }
        ensures credit { OnOk result (pass.new.credit ≡ with_step pass.old.credit 0) }
        ensures refused { OnErr result (pass.new.credit ≡ pass.old.credit) }
    {
        let answer = self.locked(rt, peer).tick(pass, given.now);
        match answer {
            Ok(report) => Ok(report.is_quiet),
            Err(spent) => Err(spent),
        }
    }

    // Gives an order to the leg of a name, with the octets of its media, for which the pass has the credit. If the peer
    // isn't in the plan, no leg has the name.
    fn act<R: Wait>(
        &self,
        rt: &R,
        pass: &mut Pass<J>,
        name: LegName,
        command: Command<MediaSpan>,
        given: &Given<'_, '_, '_>,
    ) -> Result<(), OrderError>
        requires media { IsCovered (length given.now.datagram) pass.old.credit.octets (media_of name command) }
        ensures noted { (offer : Option OfferValue) →
            Makes (call_of self.now given.entry.now) offer (needs.Order name command) (replies.Order result) pass.old pass.new }
        ensures steps { OnOk result (pass.new.credit.steps ≡ pass.old.credit.steps + 1) }
        ensures octets { OnOk result (pass.new.credit.octets + handed_octets (media_of name command) ≡ pass.old.credit.octets) }
        ensures refused { OnErr result (pass.new.credit ≡ pass.old.credit) }
    {
        if name.peer >= self.plan.peer_count() {
            pass.note_unasked();
            return Err(OrderError::Gone);
        }
        let order = order_of(&command, given.datagram.octets());
        let answer = self
            .locked(rt, name.owner())
            .order(pass, name, &order, given.now);
        match answer {
            Ok(_) => Ok(()),
            Err(error) => Err(error),
        }
    }

    // Returns the status of the leg of a number.
    fn status_at<R: Wait>(
        &self,
        rt: &R,
        pass: &mut Pass<J>,
        peer: PeerId,
        number: u16,
    ) -> Option<Status>
        ensures noted { (given : GivenValue) (offer : Option OfferValue) →
            Makes (call_of self.now given) offer (needs.Look peer number) (replies.Look result) pass.old pass.new }
        ensures credit { pass.new.credit ≡ pass.old.credit }
    {
        if peer.get() >= self.plan.peer_count() {
            pass.note_unasked();
            return None;
        }
        self.locked(rt, peer).look(pass, number)
    }

    // Takes a leg out, if there is memory for its place in the answer.
    fn retire_into<R: Wait>(
        &self,
        rt: &R,
        pass: &mut Pass<J>,
        name: LegName,
        now: u64,
        resources: &mut TaskResources,
    ) -> bool
        ensures noted { (given : GivenValue) (offer : Option OfferValue) →
            Makes (call_of self.now given) offer (needs.Retire name) (replies.Retire result) pass.old pass.new }
        ensures credit { pass.new.credit ≡ pass.old.credit }
        ensures lease { resources.new.lease ≡ lease_after (Some (needs.Retire name)) (replies.Retire result) resources.old.lease }
        ensures left { Leaves now pass.old pass.new (leaving_of resources.old.retired_legs)
            (leaving_of resources.new.retired_legs) }
        ensures rest { (resources.new.denial ≡ resources.old.denial) × (resources.new.named ≡ resources.old.named) }
    {
        if name.peer >= self.plan.peer_count() || !resources.retired_legs.make_room() {
            pass.note_unasked();
            return false;
        }
        let retired = self.locked(rt, name.owner()).retire(pass, name);
        let Some((lease, leg)) = retired else {
            return false;
        };
        resources.take_over(name, lease, leg, now);
        true
    }

    // Reserves a new name, whose lease the call keeps.
    fn reserve_into<R: Wait>(
        &self,
        rt: &R,
        pass: &mut Pass<J>,
        peer: PeerId,
        resources: &mut TaskResources,
    ) -> Result<LegName, ReserveError>
        ensures noted { (given : GivenValue) (offer : Option OfferValue) →
            Makes (call_of self.now given) offer (needs.Reserve peer) (replies.Reserve result) pass.old pass.new }
        ensures credit { pass.new.credit ≡ pass.old.credit }
        ensures peer { IfOk result (λ name. name.peer ≡ peer) }
        ensures lease { resources.new.lease ≡ lease_after (Some (needs.Reserve peer)) (replies.Reserve result)
            resources.old.lease }
        ensures rest { (resources.new.retired_legs ≡ resources.old.retired_legs) × (resources.new.denial ≡ resources.old.denial) }
        ensures named { resources.new.named ≡ named_after (replies.Reserve result) resources.old.named }
    {
        let reserved = self.book.lock(rt).reserve(pass, peer);
        match reserved {
            Ok(lease) => {
                let name = lease.name();
                resources.lease = Some(lease);
                resources.named = Some(name);
                Ok(name)
            }
            Err(error) => Err(error),
        }
    }

    // Returns the lease that the call keeps, on this name, to the book. The leg that was taken out with it has then left. A
    // lease that the book refuses is dropped.
    fn release_from<R: Wait>(
        &self,
        rt: &R,
        pass: &mut Pass<J>,
        _name: LegName,
        resources: &mut TaskResources,
    ) -> Result<Option<LegName>, Stale>
        requires { resources.old.lease ≡ Some _name }
        ensures noted { (given : GivenValue) (offer : Option OfferValue) →
            Makes (call_of self.now given) offer (needs.Release _name) (replies.Release result) pass.old pass.new }
        ensures credit { pass.new.credit ≡ pass.old.credit }
        ensures lease { resources.new.lease ≡ None }
        ensures left { (now : ℕ) → Leaves now pass.old pass.new (leaving_of resources.old.retired_legs)
            (leaving_of resources.new.retired_legs) }
        ensures rest { (resources.new.denial ≡ resources.old.denial) × (resources.new.named ≡ resources.old.named) }
    {
        let lease = resources.lease.take().unwrap();
        let released = self.book.lock(rt).release(pass, lease);
        let answer = without_lease(released);
        resources.retired_legs.part(former_of(answer));
        answer
    }

    // Makes the step that the call needs, and nothing else. The pass has the credit for the media of an order. The call has
    // the lease that the step takes, and the inputs of a first step. Inlined, as `Work::next` is.
    #[inline(always)]
    #[tactic(auto, using(crate::proofs::Leaving::none_leave))]
    pub(crate) fn make<R: Wait>(
        &self,
        rt: &R,
        pass: &mut Pass<J>,
        work: &Work,
        need: Need,
        given: &Given<'_, '_, '_>,
        resources: &mut TaskResources,
    ) -> Reply
        requires media { IsCovered (length given.now.datagram) pass.old.credit.octets (media_needed (Some need)) }
        requires lease { (name : LegNameValue) → lease_needed (Some need) ≡ Some name → resources.old.lease ≡ Some name }
        requires called { ForSome given.now.called (λ text. IsCalled text.now) }
        requires peer { InPlan (length self.now.peers) (Some need) }
        requires opening { IsOfNew (Some need) → SpellsOpening given.now.datagram × IsSome given.now.challenge }
        // The answer fits the need: a name is one of the peer that was meant.
        ensures answer { (is_answer (Some need) result ≡ true) × KeepsPeer (Some need) result ×
            (IsOpeningDue result → SpellsOpening given.entry.now.datagram) ×
            FitsOpenOut result }
        // Exactly this step is noted under the pass, with this answer.
        ensures noted { Makes (call_of self.now given.entry.now) (offer_in work.now.onwards) need result pass.old pass.new }
        // A step of a peer is made if and only if the answer says so.
        ensures steps { (is_made result ≡ true → pass.new.credit.steps ≡ pass.old.credit.steps + 1) ×
            (is_made result ≡ false → pass.new.credit ≡ pass.old.credit) ×
            (IsOpenedOut result → pass.new.credit ≡ with_step pass.old.credit 0) }
        ensures media { AllByRecursion (LiesWithin (length given.entry.now.datagram)) (handed_by result) ×
            (pass.old.credit.octets + handed_octets (handed_by result) ≤ pass.new.credit.octets +
            handed_octets (media_needed (Some need))) }
        ensures resources { (resources.new.lease ≡ lease_after (Some need) result resources.old.lease) ×
            (resources.new.denial ≡ resources.old.denial) × (resources.new.named ≡ named_after result resources.old.named) }
        // The legs that it took out are those of this step.
        ensures left { Leaves given.entry.now.now pass.old pass.new (leaving_of resources.old.retired_legs)
            (leaving_of resources.new.retired_legs) }
    {
        match need {
            Need::Datagram(peer) => self.datagram_given(rt, pass, peer, given),
            Need::RejectNew(peer) => Reply::RejectNew(self.reject_given(rt, pass, peer, given)),
            Need::OpenIn(name) => Reply::OpenIn(self.open_given(rt, pass, name, given, resources)),
            Need::OpenOut(name) => {
                Reply::OpenOut(self.open_from(rt, pass, name, work.offer(), given, resources))
            }
            Need::Order(name, command) => { Reply::Order(self.act(rt, pass, name, command, given)) }
            Need::Tick(peer) => Reply::Tick(self.tick_given(rt, pass, peer, given)),
            Need::Look(peer, number) => Reply::Look(self.status_at(rt, pass, peer, number)),
            Need::Retire(name) => Reply::Retire(self.retire_into(
                rt, pass, name, given.now, resources,
            )),
            Need::Reserve(peer) => Reply::Reserve(self.reserve_into(rt, pass, peer, resources)),
            Need::Bridge(one, other) => {
                Reply::Bridge(self.book.lock(rt).bridge(pass, one, other))
            }
            Need::Partner(name) => Reply::Partner(self.book.lock(rt).partner(pass, name)),
            Need::Release(name) => Reply::Release(self.release_from(rt, pass, name, resources)),
            Need::Route(offered) => Reply::Route(self.route_noted(pass, offered, work.offer())),
        }
    }
}
