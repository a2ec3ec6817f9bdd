//! The steps of a peer by which a leg obeys an order ("Call Setup", "Control Frames", "Mini Frames", "Meta Frames").
ghost use Rattle.std.specs.Prelude.{◌≡◌, ◌≢◌, ◌+◌, ◌-◌, ◌<◌, ◌≤◌, length, None, Some, Err, true, if◌then◌else◌, IsSome};
ghost use Rattle.std.specs.Prelude.{IfOk, IfErr, OnOk, OnErr};
ghost use Rattle.leg_machine.specs.OrderTable.{IsShortMedia, is_voice, wants_memory, media_refused, order_refused};
ghost use Rattle.leg_machine.specs.OrderTable.{order_carried};
ghost use Rattle.leg_machine.specs.Media.{media_sent};
ghost use Rattle.call_signals.specs.declared.outcomes.Judged.TheVariants.{Unnumbered};
ghost use Rattle.peer_legs.specs.Legs.{NamedLeg as NamedLegValue, leg_at};
ghost use Rattle.peer_lock.specs.Peer.{counted, leg_alone};
ghost use Rattle.peer_lock.specs.Orders.{counted_media, queued_media, carries_media, with_media, with_order};
ghost use Rattle.peer_lock.specs.Orders.{from_leg_due, IsOrderRefusal};
ghost use Rattle.call_signals.specs.Order.{media_of};
ghost use Rattle.peer_lock.specs.Orders.{WasOrdered};
ghost use Rattle.iax_frames.specs.TrunkFrame.{head_len};
ghost use Rattle.peer_lock.specs.Trunks.{has_any, most_entries, waits};
ghost use Rattle.trunk_packer.specs.Queue.{call_entries, trunk_octets};
ghost use Rattle.memory_requests.specs.Refused.{WasRefused};

use crate::errors::OrderError;
use crate::outboxes::{flush_if, is_ahead, is_next, put_all};
use crate::state::PeerState;
use crate::steps::Step;
use call_book::LegName;
use iax_frames::CallNumber;
use leg_machine::{Judged, MediaSent, Order};
use peer_accounts::{Carried, LedgerSet, Pass};
use trunk_packer::Packer;

// Returns the moment at which the oldest entry was queued, once there is one more.
fn oldest(queue: &Packer, since: u64, now: u64) -> u64
    ensures { result ≡ (if has_any queue.now then since else now) }
{
    if queue.is_empty() { now } else { since }
}

impl<J: LedgerSet> PeerState<J> {
    // Queues media to wait for a trunk frame, or drops it if the queue is full.
    fn queue_media(
        &mut self,
        pass: &mut Pass<J>,
        number: CallNumber,
        timestamp: u16,
        media: &[u8],
        now: u64,
    )
        requires short { length media.now ≤ 1380 }
        requires credit { length media.now ≤ pass.old.octets }
        requires frame { waits self.old.rules ≡ true → trunk_octets self.old.rules.trunk_timestamps self.old.queue
            + head_len self.old.rules.trunk_timestamps + length media.now ≤ 1400 }
        requires entries { waits self.old.rules ≡ true →
            call_entries number self.old.queue < most_entries self.old.rules.trunk_timestamps }
        ensures peer { self.new ≡
            queued_media self.old (record { number = number; timestamp = timestamp; media = media.now }) now }
        ensures octets { pass.new.octets + length media.now ≡ pass.old.octets }
        ensures steps { pass.new.steps ≡ pass.old.steps }
    {
        let octets = media.len() as u64;
        let since = oldest(&self.queue, self.since, now);
        match self.queue.queue(number, timestamp, media) {
            Ok(()) => {
                self.since = since;
                self.account.carry(pass, octets, Carried::Queued);
            }
            Err(_) => self.account.carry(pass, octets, Carried::Dropped),
        }
    }

    // Sends media on after its leg accepted it, and counts it. Without a full frame it waits for a trunk frame or is sent
    // in a mini frame. The queue is sent first if this begins the next trunk frame.
    fn carry_media(
        &mut self,
        pass: &mut Pass<J>,
        number: CallNumber,
        sent: MediaSent,
        media: &[u8],
        now: u64,
    )
        requires some { 1 ≤ number }
        requires short { length media.now ≤ 1380 }
        requires credit { length media.now ≤ pass.old.octets }
        ensures peer { self.new ≡ counted_media sent self.old number media.now now }
        ensures octets { pass.new.octets + length media.now ≡ pass.old.octets }
        ensures steps { pass.new.steps ≡ pass.old.steps }
    {
        let octets = media.len() as u64;
        match sent {
            MediaSent::Quelched => self.account.carry(pass, octets, Carried::Quelched),
            MediaSent::Voice => self.account.carry(pass, octets, Carried::Packed),
            MediaSent::Mini(timestamp) if self.rules.trunk => {
                let goes = is_next(&self.rules, &self.queue, number, media.len());
                self.flush(goes);
                self.queue_media(pass, number, timestamp, media, now)
            }
            MediaSent::Mini(timestamp) => {
                self.outbox.put_mini(number, timestamp, media);
                self.account.carry(pass, octets, Carried::Packed);
            }
        }
    }

    // Sends media at the leg of a name, and counts it.
    fn order_media(
        &mut self,
        pass: &mut Pass<J>,
        name: LegName,
        media: &[u8],
        now: u64,
    ) -> Result<Step, OrderError>
        requires steps { self.old.accounts.steps ≢ J.first_steps }
        requires there { IsSome (leg_at self.old.legs name.number) }
        requires short { length media.now ≤ 1380 }
        requires credit { length media.now ≤ pass.old.octets }
        ensures peer { (named : NamedLegValue) → leg_at self.old.legs name.number ≡ Some named → named.name ≡ name
            → OnOk result (self.new ≡ counted (carries_media (media_sent named.leg now) self.old named media.now now)) }
        ensures step { IfOk result (λ step. step ≡ leg_alone name Unnumbered) }
        ensures octets { OnOk result (pass.new.octets + length media.now ≡ pass.old.octets) }
        ensures steps { OnOk result (pass.new.steps ≡ pass.old.steps + 1) }
        ensures unrefused { (named : NamedLegValue) → leg_at self.old.legs name.number ≡ Some named →
            OnOk result (from_leg_due (media_refused named.leg now) ≡ None) }
        ensures refused { (named : NamedLegValue) → leg_at self.old.legs name.number ≡ Some named
            → IfErr result (IsOrderRefusal (from_leg_due (media_refused named.leg now))) }
        ensures memory { result ≡ Err OrderError.Memory → (named : NamedLegValue) → leg_at self.old.legs name.number ≡ Some named
            → is_voice (media_sent named.leg now) ≡ true }
        ensures err { OnErr result ((self.new ≡ self.old) × (pass.new ≡ pass.old)) }
        ensures no_memory { result ≡ Err OrderError.Memory → WasRefused }
    {
        let number = self.legs.call_number(name.number);
        let sent = self.send_media(name, media, now)?;
        self.carry_media(pass, number, sent, media, now);
        self.account.count_step(pass);
        Ok(Step {
            judged: Judged::Unnumbered,
            touched: Some(name),
            rejected: None,
        })
    }

    // Gives media to the leg of a name, and puts the full frame that it sends, if it sends one, into the outbox.
    fn send_media(&mut self, name: LegName, media: &[u8], now: u64) -> Result<MediaSent, OrderError>
        requires there { IsSome (leg_at self.old.legs name.number) }
        requires short { length media.now ≤ 1380 }
        ensures peer { (named : NamedLegValue) → leg_at self.old.legs name.number ≡ Some named → named.name ≡ name
            → OnOk result (self.new ≡ with_media (media_sent named.leg now) self.old named media.now now) }
        ensures sent { (named : NamedLegValue) → leg_at self.old.legs name.number ≡ Some named →
            IfOk result (λ sent. sent ≡ media_sent named.leg now) }
        ensures steps { self.new.accounts.steps ≡ self.old.accounts.steps }
        ensures unrefused { (named : NamedLegValue) → leg_at self.old.legs name.number ≡ Some named →
            OnOk result (from_leg_due (media_refused named.leg now) ≡ None) }
        ensures refused { (named : NamedLegValue) → leg_at self.old.legs name.number ≡ Some named
            → IfErr result (IsOrderRefusal (from_leg_due (media_refused named.leg now))) }
        ensures memory { result ≡ Err OrderError.Memory → (named : NamedLegValue) → leg_at self.old.legs name.number ≡ Some named
            → is_voice (media_sent named.leg now) ≡ true }
        ensures err { OnErr result (self.new ≡ self.old) }
        ensures no_memory { result ≡ Err OrderError.Memory → WasRefused }
    {
        let number = self.legs.call_number(name.number);
        self.replies.clear();
        let sent = self.legs.media(name.number, media, now, &mut self.replies)?;
        let goes = is_ahead(&self.rules, &self.queue, number, &self.replies);
        flush_if(
            goes,
            self.rules.trunk_timestamps,
            self.since,
            &mut self.outbox,
            &mut self.queue,
            &mut self.account,
        );
        put_all(&mut self.outbox, &self.replies);
        Ok(sent)
    }

    // Gives another order to the leg of a name, and puts its frames into the outbox.
    fn obey(&mut self, name: LegName, order: &Order, now: u64) -> Result<(), OrderError>
        requires there { IsSome (leg_at self.old.legs name.number) }
        requires media { IsShortMedia order.now }
        ensures peer { (named : NamedLegValue) → leg_at self.old.legs name.number ≡ Some named → named.name ≡ name
            → OnOk result (counted self.new ≡ with_order self.old named (order_carried named.leg order.now now)) }
        ensures steps { self.new.accounts.steps ≡ self.old.accounts.steps }
        ensures unrefused { (named : NamedLegValue) → leg_at self.old.legs name.number ≡ Some named →
            OnOk result (from_leg_due (order_refused named.leg order.now now) ≡ None) }
        ensures refused { (named : NamedLegValue) → leg_at self.old.legs name.number ≡ Some named
            → IfErr result (IsOrderRefusal (from_leg_due (order_refused named.leg order.now now))) }
        ensures memory { result ≡ Err OrderError.Memory → (named : NamedLegValue) → leg_at self.old.legs name.number ≡ Some named
            → wants_memory named.leg order.now now ≡ true }
        ensures err { OnErr result (self.new ≡ self.old) }
        ensures no_memory { result ≡ Err OrderError.Memory → WasRefused }
    {
        let number = self.legs.call_number(name.number);
        self.replies.clear();
        self.legs.order(name.number, order, now, &mut self.replies)?;
        let goes = is_ahead(&self.rules, &self.queue, number, &self.replies);
        flush_if(
            goes,
            self.rules.trunk_timestamps,
            self.since,
            &mut self.outbox,
            &mut self.queue,
            &mut self.account,
        );
        put_all(&mut self.outbox, &self.replies);
        Ok(())
    }

    /// Gives an order to the leg of a name at the moment `now`, in milliseconds: one step. Media is 1 to 1,380 octets, for
    /// which the pass has the credit. The credit comes back to the peer, which counts whether the media was packed, queued
    /// or dropped.
    ///
    /// Refusals are checked in this order: `StepsSpent`, `Gone` if no leg has the name, `WrongStage`, `WindowFull`,
    /// `RecordFull`, `Memory`. `Memory` is returned only if memory was refused. Then nothing is changed.
    pub fn order(
        &mut self,
        pass: &mut Pass<J>,
        name: LegName,
        order: &Order,
        now: u64,
    ) -> Result<Step, OrderError>
        requires media { IsShortMedia order.now }
        requires credit { length (media_of order.now) ≤ pass.old.octets }
        ensures { WasOrdered J.first_steps name order.now now result self.old self.new pass.old pass.new }
    {
        if self.account.is_spent() {
            return Err(OrderError::StepsSpent);
        }
        if self.legs.named(name).is_none() {
            return Err(OrderError::Gone);
        }
        match order {
            Order::Media(media) => self.order_media(pass, name, media, now),
            _ => {
                self.obey(name, order, now)?;
                self.account.count_step(pass);
                Ok(Step {
                    judged: Judged::Unnumbered,
                    touched: Some(name),
                    rejected: None,
                })
            }
        }
    }
}
