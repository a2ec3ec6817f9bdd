//! The steps of a peer, each noted under its pass.
ghost use Rattle.std.specs.Prelude.{◌≡◌, ◌≤◌, length, if◌then◌else◌, None, Some};
ghost use Rattle.call_signals.specs.Order.{kind_of, media_of};
ghost use Rattle.leg_machine.specs.OrderTable.{IsShortMedia};
ghost use Rattle.peer_accounts.specs.HandedUp.{IsNothing};
ghost use Rattle.peer_lock.specs.Makes.{WasHandled};
ghost use Rattle.peer_lock.specs.Openings.{IsOpening, WasOpenedIn, WasOpenedOut, WasRejected};
ghost use Rattle.peer_lock.specs.Orders.{WasOrdered};
ghost use Rattle.peer_lock.specs.Peer.{WasTakenInto, WasTakenOut};
ghost use Rattle.peer_lock.specs.Statuses.{WasRetired};
ghost use Rattle.peer_lock.specs.Ticks.{WasTicked};
ghost use Rattle.step_log.specs.Notes.{Notes, given_up, note, without_lease};
ghost use Rattle.step_log.specs.declared.made.Made.TheVariants as mades;

use crate::made::{Made, noted_answer, push};
use crate::noted_peer::NotedPeer;
use crate::pass::Pass;
use crate::seen::Seen;
use crate::stepped_peers::has_skipped;
use call_auth::Challenge;
use call_book::{Lease, LegName};
use iax_frames::{Full, Octets, Out};
use leg_machine::{Caller, Format, Order};
use peer_lock::{
    EndedLeg, LedgerSet, Onwards, OpenError, OrderError, PeerError, ReadDatagram, RejectError,
    Step, StepsSpent, TickReport,
};

// Returns the octets of an order's media; any other order has none.
fn media_in(order: &Order) -> Octets
    ensures { result ≡ media_of order.now }
{
    match order {
        Order::Media(media) => Octets::of(media),
        _ => Octets::new(),
    }
}

// Returns a leg that was given up, without its lease, as it is noted.
fn seen_of(answer: &Option<(Lease, EndedLeg)>) -> Option<Seen<EndedLeg>>
    ensures { result ≡ given_up answer.now }
{
    match answer {
        Some((_, leg)) => Some(Seen::of(leg)),
        None => None,
    }
}

// Returns a datagram that was taken out, if one was, as it is noted.
fn seen_datagram(taken: &Option<Out>) -> Option<Seen<Out>>
    ensures { result ≡ taken.now }
{
    match taken {
        Some(out) => Some(Seen::of(out)),
        None => None,
    }
}

impl<J: LedgerSet> NotedPeer<J> {
    /// Handles a datagram of the peer that was read, at the moment `now`, in milliseconds: one step, at the leg that it
    /// concerns, if there is one. The signals handed up are written to the empty list. Notes the step with its answer.
    ///
    /// Refusals are checked in the order of `PeerError`. `Memory` is returned only if memory was refused. Then the peer and
    /// the credit are as before.
    #[tactic(auto, using(crate::proofs::Counted::steps_in_longer, crate::proofs::Stepping::with_longer))]
    pub fn datagram_read(
        &mut self,
        pass: &mut Pass<J>,
        datagram: &ReadDatagram<'_>,
        now: u64,
        onwards: &mut Onwards,
    ) -> Result<Step, PeerError>
        requires nothing { IsNothing onwards.old }
        ensures noted { Notes (mades.Datagram self.old.number datagram.now now result onwards.new) pass.old pass.new }
        ensures number { self.new.number ≡ self.old.number }
        ensures state { WasHandled J.first_octets J.first_steps datagram.now now result self.old.state self.new.state
            pass.old.credit pass.new.credit onwards.old.room onwards.new }
    {
        let answer = self
            .state
            .datagram_read(&mut pass.credits, datagram, now, onwards);
        let handed = Seen::of(&*onwards);
        let octets = Octets::of(datagram.octets());
        let made = Made::Datagram(self.number, octets, now, answer, handed);
        push(&mut pass.made, made);
        pass.stepped.step(self.number);
        answer
    }

    /// Opens a leg by a received NEW, under the lease, at the moment `now`, in milliseconds: one step ("Call Setup"). It is
    /// a NEW that `datagram` answers by `NeedsNumber`. The signals handed up are written to the empty list. Notes the step
    /// with its answer.
    ///
    /// Refusals are checked in this order: `StepsSpent`, `NumberBusy`, `RemoteBusy`, `Memory`. `Memory` is returned only if
    /// memory was refused. The lease comes back, and the peer and the credit are as before.
    #[tactic(auto, using(crate::proofs::Counted::steps_in_longer, crate::proofs::Stepping::with_longer))]
    pub fn open_in(
        &mut self,
        pass: &mut Pass<J>,
        lease: Lease,
        frame: &Full,
        now: u64,
        challenge: &Challenge,
        onwards: &mut Onwards,
    ) -> Result<Step, (Lease, OpenError)>
        requires opening { IsOpening frame.now }
        requires nothing { IsNothing onwards.old }
        ensures noted { Notes
            (mades.OpenIn self.old.number lease frame.now.head frame.now.payload now challenge.now
            (without_lease result) onwards.new) pass.old pass.new }
        ensures number { self.new.number ≡ self.old.number }
        ensures state { WasOpenedIn J.first_steps lease frame.now now challenge.now result self.old.state self.new.state
            pass.old.credit pass.new.credit onwards.new }
    {
        let name = lease.name();
        let answer = self
            .state
            .open_in(&mut pass.credits, lease, frame, now, challenge, onwards);
        let handed = Seen::of(&*onwards);
        let made = Made::OpenIn(
            self.number,
            name,
            frame.head(),
            Octets::of(frame.payload()),
            now,
            Seen::of(challenge),
            noted_answer(&answer),
            handed,
        );
        push(&mut pass.made, made);
        pass.stepped.step(self.number);
        answer
    }

    /// Rejects a received NEW because no number is free for its leg: one step without a leg ("REJECT"). It is a NEW that
    /// `datagram_read` answers by `NeedsNumber`. Notes the step with its answer.
    ///
    /// Refusals are checked in this order: `Unanswered`, `StepsSpent`, `RemoteBusy`. Then the peer and the credit are as
    /// before.
    #[tactic(auto, using(crate::proofs::Counted::steps_in_longer, crate::proofs::Stepping::with_longer))]
    pub fn reject_new(&mut self, pass: &mut Pass<J>, frame: &Full) -> Result<Step, RejectError>
        requires { IsOpening frame.now }
        ensures noted { Notes (mades.RejectNew self.old.number frame.now.head frame.now.payload result) pass.old pass.new }
        ensures number { self.new.number ≡ self.old.number }
        ensures state { WasRejected J.first_steps frame.now result self.old.state self.new.state pass.old.credit
            pass.new.credit }
    {
        let answer = self.state.reject_new(&mut pass.credits, frame);
        let made = Made::RejectNew(
            self.number,
            frame.head(),
            Octets::of(frame.payload()),
            answer,
        );
        push(&mut pass.made, made);
        pass.stepped.step(self.number);
        answer
    }

    /// Places a call under the lease, for a number of at most 255 octets, at the moment `now`, in milliseconds: one step
    /// ("Call Setup"). Notes the step with its answer.
    ///
    /// Refusals are checked in this order: `StepsSpent`, `NumberBusy`, `Memory`. `Memory` is returned only if memory was
    /// refused. The lease comes back, and the peer and the credit are as before.
    #[tactic(auto, using(crate::proofs::Counted::steps_in_longer, crate::proofs::Stepping::with_longer))]
    pub fn open_out(
        &mut self,
        pass: &mut Pass<J>,
        lease: Lease,
        called: &[u8],
        caller: &Caller,
        format: Format,
        now: u64,
    ) -> Result<Step, (Lease, OpenError)>
        requires { length called.now ≤ 255 }
        ensures noted { Notes
            (mades.OpenOut self.old.number lease called.now caller.now format now (without_lease result)) pass.old pass.new }
        ensures number { self.new.number ≡ self.old.number }
        ensures state { WasOpenedOut J.first_steps lease called.now caller.now format now result self.old.state
            self.new.state pass.old.credit pass.new.credit }
    {
        let name = lease.name();
        let answer = self
            .state
            .open_out(&mut pass.credits, lease, called, caller, format, now);
        let made = Made::OpenOut(
            self.number,
            name,
            Octets::of(called),
            Seen::of(caller),
            format,
            now,
            noted_answer(&answer),
        );
        push(&mut pass.made, made);
        pass.stepped.step(self.number);
        answer
    }

    /// Gives an order to the leg of a name at the moment `now`, in milliseconds: one step. Media is 1 to 1,380 octets, for
    /// which the pass has the credit. The credit comes back to the peer, which counts whether the media was packed, queued
    /// or dropped. Notes the step with its answer.
    ///
    /// Refusals are checked in this order: `StepsSpent`, `Gone`, `WrongStage`, `WindowFull`, `RecordFull`, `Memory`.
    /// `Memory` is returned only if memory was refused. Then the peer and the credit are as before.
    #[tactic(auto, using(crate::proofs::Counted::steps_in_longer, crate::proofs::Stepping::with_longer))]
    pub fn order(
        &mut self,
        pass: &mut Pass<J>,
        name: LegName,
        order: &Order,
        now: u64,
    ) -> Result<Step, OrderError>
        requires media { IsShortMedia order.now }
        requires credit { length (media_of order.now) ≤ pass.old.credit.octets }
        ensures noted { Notes
            (mades.Order self.old.number name (kind_of order.now) (media_of order.now) now result) pass.old pass.new }
        ensures number { self.new.number ≡ self.old.number }
        ensures state { WasOrdered J.first_steps name order.now now result self.old.state self.new.state pass.old.credit
            pass.new.credit }
    {
        let answer = self.state.order(&mut pass.credits, name, order, now);
        let made = Made::Order(
            self.number,
            name,
            order.kind(),
            media_in(order),
            now,
            answer,
        );
        push(&mut pass.made, made);
        pass.stepped.step(self.number);
        answer
    }

    /// Ticks the peer at the moment `now`, in milliseconds: one step. Each leg is ticked by ascending number, and then the
    /// trunk queue is packed while the outbox has room. Also returns whether a leg is to be finished then. Notes the step
    /// with its answer.
    ///
    /// Returns `StepsSpent` if and only if the peer has no step credit left; then the peer and the credit are as before.
    #[tactic(auto, using(crate::proofs::Counted::steps_in_longer, crate::proofs::Stepping::with_longer))]
    pub fn tick(&mut self, pass: &mut Pass<J>, now: u64) -> Result<TickReport, StepsSpent>
        ensures noted { Notes (mades.Tick self.old.number now result) pass.old pass.new }
        ensures number { self.new.number ≡ self.old.number }
        ensures state { WasTicked J.first_steps now result self.old.state self.new.state pass.old.credit pass.new.credit }
    {
        let answer = self.state.tick(&mut pass.credits, now);
        push(&mut pass.made, Made::Tick(self.number, now, answer));
        pass.stepped.tick(self.number, has_skipped(answer));
        answer
    }

    /// Gives up the leg of a name that has ended and owes nothing: its lease, its record and its other facts. Queued media
    /// of its call is sent before, in plan version 4. It is noted, and is no step of the peer.
    ///
    /// Returns `None` if and only if no such leg has that name; then the peer is as before.
    #[tactic(auto, using(crate::proofs::Counted::steps_in_longer, crate::proofs::Stepping::with_longer))]
    pub fn retire(&mut self, pass: &mut Pass<J>, name: LegName) -> Option<(Lease, EndedLeg)>
        ensures noted { pass.new ≡ note (mades.Retire self.old.number name (given_up result)) pass.old }
        ensures number { self.new.number ≡ self.old.number }
        ensures state { WasRetired name result self.old.state self.new.state }
    {
        let answer = self.state.retire(name);
        let made = Made::Retire(self.number, name, seen_of(&answer));
        push(&mut pass.made, made);
        pass.stepped.step(self.number);
        answer
    }

    /// Takes the oldest datagram of the outbox, or returns `None` if none waits. It is noted, and is no step of the peer.
    #[tactic(auto, using(crate::proofs::Counted::steps_in_longer, crate::proofs::Stepping::with_longer))]
    pub fn take_out(&mut self, pass: &mut Pass<J>) -> Option<Out>
        ensures noted { pass.new ≡ note (mades.TakeOut self.old.number result) pass.old }
        ensures number { self.new.number ≡ self.old.number }
        ensures state { WasTakenOut result self.old.state self.new.state }
    {
        let taken = self.state.take_out();
        let made = Made::TakeOut(self.number, seen_datagram(&taken));
        push(&mut pass.made, made);
        taken
    }

    /// Takes the oldest datagram of the outbox, and writes it over this one. If none waits, returns false and changes
    /// nothing. It is noted, and is no step of the peer.
    #[tactic(auto, using(crate::proofs::Counted::steps_in_longer, crate::proofs::Stepping::with_longer))]
    pub fn take_into(&mut self, pass: &mut Pass<J>, out: &mut Out) -> bool
        ensures noted { pass.new ≡ note (mades.TakeOut self.old.number (if result then Some out.new else None)) pass.old }
        ensures number { self.new.number ≡ self.old.number }
        ensures state { WasTakenInto result out.old out.new self.old.state self.new.state }
    {
        let is_taken = self.state.take_into(out);
        let seen = if is_taken {
            Some(Seen::of(&*out))
        } else {
            None
        };
        push(&mut pass.made, Made::TakeOut(self.number, seen));
        is_taken
    }
}
