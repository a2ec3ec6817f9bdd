//! The orders of the layer above, row by row ("Call Setup", "Control Frames").
ghost use Rattle.std.specs.Prelude.{◌≡◌, ◌+◌, ◌<◌, ◌≤◌, true, [], IfSome, IfNone, None, Some, Err, IfErr, OnOk, OnErr};
ghost use Rattle.seq_window.specs.Window.{held_count, entry_count};
ghost use Rattle.leg_machine.specs.OrderTable as orders;
ghost use Rattle.memory_requests.specs.Refused.{WasRefused};

use crate::machine::Machine;
use crate::media::MediaSent;
use call_signals::{Cause, Order, OrderError, Replies, ReplyFrame, Stage};

/// A row that sends a numbered frame.
#[derive(Clone, Copy)]
pub struct Ordered {
    pub reply: ReplyFrame,
    pub stage: Stage,
    /// It is sent while fewer frames than this are held.
    pub most: usize,
}

fn when(holds: bool, reply: ReplyFrame, stage: Stage, most: usize) -> Option<Ordered>
    ensures row { result ≡ orders.when holds (orders.ordered reply stage most) }
    ensures most { IfSome result (λ row. row.most ≡ most) }
{
    if holds {
        Some(Ordered { reply, stage, most })
    } else {
        None
    }
}

impl Machine {
    ghost use Rattle.leg_machine.specs.Leg.{leg_of, whole_leg, capacity_of, HasRoom};

    // Returns whether the leg refuses digits because it is doomed: a digit that found no room would leave a gap before those
    // after it.
    fn refuses_digits(&self) -> bool
        ensures { result ≡ orders.refuses_digits (leg_of self.now) }
    {
        self.rules.is_hardened && self.doomed
    }

    /// Returns the row of an order that sends a numbered frame. Returns `None` if the stage is a wrong one, for a digit
    /// that a doomed leg refuses, and for any other order.
    pub fn order_row(&self, order: &Order) -> Option<Ordered>
        ensures row { result ≡ orders.order_row (leg_of self.now) order.now }
        ensures most { IfSome result (λ row. row.most ≤ self.now.window.state.width) }
    {
        let stage = self.stage;
        let width = self.window.width() as usize;
        let room = self.local_room();
        match order {
            Order::Accept(format) => when(
                stage.is_offered(),
                ReplyFrame::Accept(*format),
                Stage::Linked,
                width,
            ),
            Order::Reject(cause) => when(
                stage.is_offered(),
                ReplyFrame::Reject(*cause),
                Stage::Closing,
                width,
            ),
            Order::Indicate(indication) => when(
                stage.is_linked(),
                ReplyFrame::Indicate(*indication),
                Stage::Linked,
                room,
            ),
            Order::Answer => when(stage.is_linked(), ReplyFrame::Answer, Stage::Up, room),
            Order::Dtmf(digit) => when(
                stage.is_talking() && !self.refuses_digits(),
                ReplyFrame::Dtmf(*digit),
                stage,
                room,
            ),
            Order::Hangup(cause) => when(
                !stage.is_over(),
                ReplyFrame::Hangup(*cause),
                Stage::Closing,
                width,
            ),
            Order::Media(_) => None,
            Order::Doom(_) => None,
            Order::Paid => None,
        }
    }

    /// Returns the reason why a numbered frame can't be sent now, memory aside. It is `WindowFull` unless fewer than `most`
    /// frames are held, then `RecordFull` if the record is full.
    pub fn sending_refused(&self, most: usize) -> Option<OrderError>
        ensures refused { result ≡ orders.sending_refused (leg_of self.now) most }
        ensures room { IfNone result ((held_count self.now.window.state < most) ×
            (entry_count self.now.window.state + 4 ≤ self.now.window.state.limit)) }
    {
        if most <= self.window.held_len() {
            Some(OrderError::WindowFull)
        } else if self.is_record_full() {
            Some(OrderError::RecordFull)
        } else {
            None
        }
    }

    /// Makes room in the record for a numbered frame, which is sent while fewer than `most` frames are held.
    ///
    /// Refusals are checked in this order: `WindowFull`, `RecordFull` if the record is full, and `Memory`, which never
    /// happens with a spare entry. Then nothing is changed.
    pub fn room_for_sending(&mut self, most: usize) -> Result<(), OrderError>
        ensures leg { leg_of self.new ≡ leg_of self.old }
        ensures room { OnOk result (HasRoom 1 self.new) }
        ensures window { OnOk result (held_count self.new.window.state < most) }
        ensures unrefused { OnOk result (orders.sending_refused (leg_of self.old) most ≡ None) }
        ensures refused { IfErr result (orders.IsRefusal (orders.sending_refused (leg_of self.old) most)) }
        ensures spare { result ≡ Err OrderError.Memory → self.old.window.spare ≡ 0 }
        ensures err { OnErr result (self.new ≡ self.old) }
        ensures capacity { capacity_of (whole_leg self.old) ≤ capacity_of (whole_leg self.new) }
        ensures no_memory { result ≡ Err OrderError.Memory → WasRefused }
    {
        if let Some(refusal) = self.sending_refused(most) {
            return Err(refusal);
        }
        self.window.reserve(1)?;
        Ok(())
    }

    /// Carries out a row.
    fn carry_out(&mut self, row: &Ordered, now: u64, outs: &mut Replies)
        requires room { HasRoom 1 self.old }
        requires window { held_count self.old.window.state < self.old.window.state.width }
        requires empty { outs.old ≡ [] }
        ensures leg { leg_of self.new ≡ (orders.row_carried (leg_of self.old) (Some row.now) now).leg }
        ensures replies { outs.new ≡ (orders.row_carried (leg_of self.old) (Some row.now) now).datagrams }
        ensures capacity { capacity_of (whole_leg self.old) ≤ capacity_of (whole_leg self.new) }
    {
        self.obey(row.stage, now);
        self.agree(&row.reply);
        self.send(row.reply, now, outs);
    }

    // Carries out an order that sends a numbered frame.
    fn row(&mut self, order: &Order, now: u64, outs: &mut Replies) -> Result<(), OrderError>
        requires { outs.old ≡ [] }
        ensures leg { OnOk result (leg_of self.new ≡
            (orders.row_carried (leg_of self.old) (orders.order_row (leg_of self.old) order.now) now).leg) }
        ensures replies { OnOk result (outs.new ≡
            (orders.row_carried (leg_of self.old) (orders.order_row (leg_of self.old) order.now) now).datagrams) }
        ensures unrefused { OnOk result (orders.row_refused (leg_of self.old) (orders.order_row (leg_of self.old) order.now) ≡
            None) }
        ensures refused { IfErr result
            (orders.IsRefusal (orders.row_refused (leg_of self.old) (orders.order_row (leg_of self.old) order.now))) }
        ensures spare { result ≡ Err OrderError.Memory → self.old.window.spare ≡ 0 }
        ensures err { OnErr result (self.new ≡ self.old) }
        ensures none_sent { OnErr result (outs.new ≡ outs.old) }
        ensures capacity { capacity_of (whole_leg self.old) ≤ capacity_of (whole_leg self.new) }
        ensures no_memory { result ≡ Err OrderError.Memory → WasRefused }
    {
        let Some(row) = self.order_row(order) else {
            return Err(OrderError::WrongStage);
        };
        self.room_for_sending(row.most)?;
        self.carry_out(&row, now, outs);
        Ok(())
    }

    /// Dooms the leg, unless it is over.
    fn doom(&mut self, cause: Cause)
        ensures leg { leg_of self.new ≡ orders.doomed (leg_of self.old) cause }
        ensures window { self.new.window ≡ self.old.window }
    {
        if !self.stage.is_over() {
            self.cause = cause;
        }
        self.doomed = self.doomed || !self.stage.is_over();
    }

    /// Clears the debt of a leg that is over.
    fn pay(&mut self)
        ensures leg { leg_of self.new ≡ orders.paid (leg_of self.old) }
        ensures window { self.new.window ≡ self.old.window }
    {
        self.owes = self.owes && !self.stage.is_over();
    }

    /// Carries out an order at the moment `now`, in milliseconds; media has 1 to 1,380 octets. The leg's frames are written
    /// to the empty list.
    ///
    /// Refusals are checked in this order: `WrongStage`, `WindowFull`, `RecordFull`, and `Memory`, which never happens with
    /// a spare entry. Then nothing is changed or written. Doom and Paid are never refused.
    pub fn order(&mut self, order: &Order, now: u64, outs: &mut Replies) -> Result<(), OrderError>
        requires media { orders.IsShortMedia order.now }
        requires empty { outs.old ≡ [] }
        ensures leg { OnOk result (leg_of self.new ≡ (orders.order_carried (leg_of self.old) order.now now).leg) }
        ensures replies { OnOk result (outs.new ≡ (orders.order_carried (leg_of self.old) order.now now).datagrams) }
        ensures unrefused { OnOk result (orders.order_refused (leg_of self.old) order.now now ≡ None) }
        ensures refused { IfErr result (orders.IsRefusal (orders.order_refused (leg_of self.old) order.now now)) }
        ensures memory { result ≡ Err OrderError.Memory → orders.wants_memory (leg_of self.old) order.now now ≡ true }
        ensures spare { result ≡ Err OrderError.Memory → self.old.window.spare ≡ 0 }
        ensures err { OnErr result (self.new ≡ self.old) }
        ensures none_sent { OnErr result (outs.new ≡ outs.old) }
        ensures capacity { capacity_of (whole_leg self.old) ≤ capacity_of (whole_leg self.new) }
        ensures no_memory { result ≡ Err OrderError.Memory → WasRefused }
    {
        match order {
            Order::Media(media) => match self.media_sent(now)? {
                MediaSent::Quelched => Ok(()),
                MediaSent::Voice => self.send_voice(media, now, outs),
                MediaSent::Mini(timestamp) => {
                    self.mini(timestamp, media, outs);
                    Ok(())
                }
            },
            Order::Doom(cause) => {
                self.doom(*cause);
                Ok(())
            }
            Order::Paid => {
                self.pay();
                Ok(())
            }
            _ => self.row(order, now, outs),
        }
    }
}
