//! A leg, with the calls of the layer above.
ghost use Rattle.std.specs.Prelude.{◌≡◌, ◌==◌, ◌≤◌, ◌<◌, ◌↔◌, true, None, Some, Err, [], length, map, All, IfOk, IfErr};
ghost use Rattle.std.specs.Prelude.{OnOk, OnErr};
ghost use Rattle.iax_frames.specs.FullFrame.{spelling};
ghost use Rattle.leg_machine.specs.Leg.{capacity_of};
ghost use Rattle.leg_machine.specs.Media.{media_sent, after_media, media_frames};
ghost use Rattle.leg_machine.specs.Openings.{open_in_step, open_out_step};
ghost use Rattle.leg_machine.specs.OrderTable.{order_refused, media_refused, is_voice, wants_memory, IsRefusal, IsShortMedia};
ghost use Rattle.leg_machine.specs.OrderTable.{order_carried};
ghost use Rattle.call_signals.specs.PeerRules.{IsPeerRules};
ghost use Rattle.leg_machine.specs.Seen.{seen, kind_of, stage_after, stage_ordered, fresh_leg, IsSeenFrame, IsSeenOpening};
ghost use Rattle.leg_machine.specs.Seen.{IsSeenOrder};
ghost use Rattle.leg_machine.specs.Seen.{IsSeenTick};
ghost use Rattle.leg_machine.specs.Steps.{full_step, heard_of};
ghost use Rattle.leg_machine.specs.Ticks.{tick_step};
ghost use Rattle.leg_machine.specs.Tie.{TakesTurn, SendsAtMostOne, TakesFirstTurn, HasSentAtMostOne, IsSending, IsSendingOrMini};
ghost use Rattle.leg_machine.specs.Tie.{IsLegOf};
ghost use Rattle.leg_machine.specs.Working.{frame_refused, IsFrameRefusal};
ghost use Rattle.call_signals.specs.declared.order.Command.TheVariants.{Media};
ghost use Rattle.memory_requests.specs.Refused.{WasRefused};

use crate::machine::Machine;
use crate::media::MediaSent;
use call_auth::Challenge;
use call_signals::openings::{call_format, opening_of};
use call_signals::{
    Caller, Format, Heard, Message, NewElements, Order, OrderError, PeerRules, Replies, Stage,
    StepError,
};
use iax_frames::{CallNumber, Full, Payload};
use std::alloc::{AllocError, Global};
use std::marker::Model;

/// One end of a call with one peer.
///
/// It begins by `open_in` or `open_out`. Events come by `full` and `tick`, orders by `order`; the readers, including
/// `media_in`, don't change it. Each call that can send returns its datagrams. It also has a form with the suffix `_into`
/// that writes them to a list that the caller lends, empty. Media of the layer above has only that form, `media_into`. No
/// call waits or reads a clock: moments are arguments, in milliseconds.
///
/// Contracts see the leg's state, and the number of entries that its record takes without further memory.
#[derive(Drop)]
pub struct Leg {
    pub(crate) machine: Machine,
}

impl Model for Leg {
    ghost use Rattle.leg_machine.specs.Leg.{Leg as State, leg_of, whole_leg};
    ghost use Rattle.leg_machine.specs.Tie.{SendsNumbered};

    ghost Value = { State };

    ghost view = { λ l. whole_leg l.machine };

    // Each sent frame of the record is numbered.
    ghost invariant = { λ l. SendsNumbered (leg_of l.machine) };
}

impl Leg {
    /// Returns a leg for a received NEW ("Call Setup"), under this local number, 1 ..= 32,767, at the moment `now`, in
    /// milliseconds. Its remote number is the NEW's source. Its frames are written to the empty list.
    ///
    /// The NEW has OSeqno 0 and at most 1,388 octets of data. The challenge is sent if the peer has a secret. Returns `Err`
    /// only if memory was refused; then nothing is written.
    pub fn open_in_into(
        alloc: Global,
        rules: &PeerRules,
        number: CallNumber,
        frame: &Full,
        now: u64,
        challenge: &Challenge,
        replies: &mut Replies,
    ) -> Result<(Leg, Heard), AllocError>
        requires rules { IsPeerRules rules.now }
        requires number { 1 ≤ number }
        requires first { frame.now.head.oseqno ≡ 0 }
        requires short { length frame.now.payload ≤ 1388 }
        requires empty { replies.old ≡ [] }
        ensures leg { IfOk result (λ opened. opened.0.state ≡ (open_in_step rules.now number frame.now now challenge.now).leg) }
        ensures replies { OnOk result (replies.new ≡
            map spelling (open_in_step rules.now number frame.now now challenge.now).replies) }
        ensures heard { IfOk result (λ opened. opened.1 ≡ heard_of (open_in_step rules.now number frame.now now challenge.now)) }
        ensures number { IfOk result (λ opened. opened.0.state.number ≡ number) }
        ensures remote { IfOk result (λ opened. opened.0.state.remote ≡ Some frame.now.head.source) }
        ensures ruled { IfOk result (λ opened. IsLegOf rules.now opened.0.state) }
        // The record begins as that of one side of a network may.
        ensures extends_history { IfOk result (λ opened. TakesFirstTurn frame.now opened.0.state) }
        ensures sendings { IfOk result (λ opened. All (IsSending opened.0.state) replies.new) }
        ensures refines_abstract_leg { IfOk result (λ opened. IsSeenOpening (seen opened.0.state) opened.1.signal) }
        ensures none_sent { OnErr result (replies.new ≡ replies.old) }
        ensures no_memory { OnErr result WasRefused }
    {
        let elements = NewElements::read(frame.payload());
        let opening = opening_of(rules, &elements);
        let format = call_format(rules.formats, &elements).unwrap_or(Format::Gsm);
        let mut machine = Machine::new(alloc, rules, number, format, now)?;
        machine.stage = Stage::Offered;
        machine.remote = Some(frame.source());
        machine.challenge = opening.challenge(challenge);
        let effect = opening.effect();
        let heard = machine.take(&effect, frame, &Message::New, now, replies);
        // The window's properties of its record, for proofs alone.
        let _legal = machine.window.record();
        let _held = machine.window.held_len();
        Ok((Leg { machine }, heard))
    }

    /// Returns a leg that sends a NEW ("Call Setup") under this local number, 1 ..= 32,767, at the moment `now`, in
    /// milliseconds. The called number has at most 255 octets. Its frames are written to the empty list.
    ///
    /// Returns `Err` only if memory was refused; then nothing is written.
    pub fn open_out_into(
        alloc: Global,
        rules: &PeerRules,
        number: CallNumber,
        called: &[u8],
        caller: &Caller,
        format: Format,
        now: u64,
        replies: &mut Replies,
    ) -> Result<Leg, AllocError>
        requires rules { IsPeerRules rules.now }
        requires number { 1 ≤ number }
        requires called { length called.now ≤ 255 }
        requires empty { replies.old ≡ [] }
        ensures leg { IfOk result (λ leg. leg.state ≡ (open_out_step rules.now number called.now caller.now format now).leg) }
        ensures replies { OnOk result (replies.new ≡
            map spelling (open_out_step rules.now number called.now caller.now format now).replies) }
        ensures extends_history { IfOk result (λ leg. HasSentAtMostOne leg.state) }
        ensures sendings { IfOk result (λ leg. All (IsSending leg.state) replies.new) }
        ensures refines_abstract_leg { IfOk result (λ leg. seen leg.state ≡ fresh_leg Stage.Waiting) }
        ensures none_sent { OnErr result (replies.new ≡ replies.old) }
        ensures no_memory { OnErr result WasRefused }
    {
        let mut machine = Machine::new(alloc, rules, number, format, now)?;
        let mut elements = Payload::empty();
        machine.write_new(called, caller, &mut elements);
        let frame = machine.new_frame(elements.as_slice(), now);
        machine.send_frame(frame, now, replies);
        Ok(Leg { machine })
    }

    /// Handles a full frame with at most 1,388 octets of data, at the moment `now`, in milliseconds ("Full Frames",
    /// "Message Transport"). The leg's frames are written to the empty list.
    ///
    /// Refusals are checked in this order: `RecordFull` if the record is full (`is_record_full`), whatever the frame is; on
    /// a hardened leg `Unaddressed` for a frame of destination 0 from a peer that knows the leg's number, unless it
    /// repeats, and `NewUnacknowledged` for an answer to a NEW that isn't acknowledged; `Memory` if memory was refused,
    /// which never happens with four spare entries. Then nothing is changed or written.
    pub fn full_into(
        &mut self,
        frame: &Full,
        now: u64,
        replies: &mut Replies,
    ) -> Result<Heard, StepError>
        requires short { length frame.now.payload ≤ 1388 }
        requires empty { replies.old ≡ [] }
        ensures leg { OnOk result (self.new.state ≡ (full_step self.old.state frame.now now).leg) }
        ensures replies { OnOk result (replies.new ≡ map spelling (full_step self.old.state frame.now now).replies) }
        ensures heard { IfOk result (λ heard. heard ≡ heard_of (full_step self.old.state frame.now now)) }
        // The record grows as that of one side of a network does.
        ensures extends_history { OnOk result (TakesTurn self.old.state frame.now self.new.state) }
        // Such a side can send each frame that is sent.
        ensures sendings { OnOk result (All (IsSending self.new.state) replies.new) }
        ensures refines_abstract_leg { IfOk result (λ heard. IsSeenFrame (seen self.old.state) (seen self.new.state)
            heard.signal) }
        ensures unrefused { OnOk result (frame_refused self.old.state frame.now ≡ None) }
        ensures refused { IfErr result (IsFrameRefusal (frame_refused self.old.state frame.now)) }
        ensures memory { result ≡ Err StepError.Memory → self.old.spare < 4 }
        ensures err { OnErr result (self.new ≡ self.old) }
        ensures none_sent { OnErr result (replies.new ≡ replies.old) }
        ensures capacity { capacity_of self.old ≤ capacity_of self.new }
        ensures no_memory { result ≡ Err StepError.Memory → WasRefused }
    {
        self.machine.room_for_frame(frame)?;
        Ok(self.machine.full(frame, now, replies))
    }

    /// Sends media of 1 to 1,380 octets, at the moment `now`, in milliseconds. A full frame is written to the empty list.
    /// For later media the caller writes the mini frame or the trunk entry. Quelched media isn't sent ("Mini Frames", "Meta
    /// Frames").
    ///
    /// Refusals are checked in this order: `WrongStage` if the leg isn't talking; then, only for media that is sent as a
    /// full frame, `WindowFull`, `RecordFull` if the record is full, and `Memory`, which never happens with a spare entry.
    /// Then nothing is changed or written.
    pub fn media_into(
        &mut self,
        media: &[u8],
        now: u64,
        replies: &mut Replies,
    ) -> Result<MediaSent, OrderError>
        requires short { length media.now ≤ 1380 }
        requires empty { replies.old ≡ [] }
        ensures sent { IfOk result (λ sent. sent ≡ media_sent self.old.state now) }
        ensures leg { OnOk result (self.new.state ≡ after_media (media_sent self.old.state now) self.old.state media.now now) }
        ensures replies { OnOk result (replies.new ≡
            map spelling (media_frames (media_sent self.old.state now) self.old.state media.now now)) }
        ensures extends_history { OnOk result (SendsAtMostOne self.old.state self.new.state) }
        ensures sendings { OnOk result (All (IsSending self.new.state) replies.new) }
        ensures refines_abstract_leg { OnOk result (IsSeenOrder (Media tt) (seen self.old.state) (seen self.new.state)) }
        ensures unrefused { OnOk result (media_refused self.old.state now ≡ None) }
        ensures refused { IfErr result (IsRefusal (media_refused self.old.state now)) }
        ensures memory { result ≡ Err OrderError.Memory → is_voice (media_sent self.old.state now) ≡ true }
        ensures spare { result ≡ Err OrderError.Memory → self.old.spare ≡ 0 }
        ensures wrong_stage { (result ≡ Err OrderError.WrongStage) ↔ (stage_after (Media tt) self.old.state.stage ≡ None) }
        ensures err { OnErr result (self.new ≡ self.old) }
        ensures none_sent { OnErr result (replies.new ≡ replies.old) }
        ensures capacity { capacity_of self.old ≤ capacity_of self.new }
        ensures no_memory { result ≡ Err OrderError.Memory → WasRefused }
    {
        let sent = self.machine.media_sent(now)?;
        if sent == MediaSent::Voice {
            self.machine.send_voice(media, now, replies)?;
        }
        Ok(sent)
    }

    /// Carries out an order, at the moment `now`, in milliseconds; media has 1 to 1,380 octets. The leg's frames are
    /// written to the empty list.
    ///
    /// Refusals are checked in this order: `WrongStage` if the leg's stage has no such order, or the leg is doomed and
    /// refuses the digit; then, only for an order that sends a full frame, `WindowFull`, `RecordFull` if the record is
    /// full, and `Memory`, which never happens with a spare entry. Then nothing is changed or written. Doom and Paid are
    /// never refused.
    pub fn order_into(
        &mut self,
        order: &Order,
        now: u64,
        replies: &mut Replies,
    ) -> Result<(), OrderError>
        requires media { IsShortMedia order.now }
        requires empty { replies.old ≡ [] }
        ensures leg { OnOk result (self.new.state ≡ (order_carried self.old.state order.now now).leg) }
        ensures replies { OnOk result (replies.new ≡ (order_carried self.old.state order.now now).datagrams) }
        ensures extends_history { OnOk result (SendsAtMostOne self.old.state self.new.state) }
        ensures sendings { OnOk result (All (IsSendingOrMini self.new.state) replies.new) }
        ensures refines_abstract_leg { OnOk result (IsSeenOrder (kind_of order.now) (seen self.old.state) (seen self.new.state)) }
        ensures unrefused { OnOk result (order_refused self.old.state order.now now ≡ None) }
        ensures refused { IfErr result (IsRefusal (order_refused self.old.state order.now now)) }
        ensures memory { result ≡ Err OrderError.Memory → wants_memory self.old.state order.now now ≡ true }
        ensures spare { result ≡ Err OrderError.Memory → self.old.spare ≡ 0 }
        ensures wrong_stage { (result ≡ Err OrderError.WrongStage) ↔ (stage_ordered self.old.state (kind_of order.now) ≡ None) }
        ensures err { OnErr result (self.new ≡ self.old) }
        ensures none_sent { OnErr result (replies.new ≡ replies.old) }
        ensures capacity { capacity_of self.old ≤ capacity_of self.new }
        ensures no_memory { result ≡ Err OrderError.Memory → WasRefused }
    {
        // A mini frame has the leg's number, which isn't 0.
        let _ = self.machine.number.get();
        self.machine.order(order, now, replies)
    }

    /// Ticks the leg at the moment `now`, in milliseconds ("Message Transport": retransmission; "PING"). Its frames are
    /// written to the empty list.
    ///
    /// Returns the number of frames that were due and had no memory; they stay due. With two spare entries it is 0.
    pub fn tick_into(&mut self, now: u64, replies: &mut Replies) -> u32
        requires { replies.old ≡ [] }
        ensures leg { self.new.state ≡ (tick_step (result == 0) self.old.state now).leg }
        ensures replies { replies.new ≡ map spelling (tick_step (result == 0) self.old.state now).replies }
        ensures skipped { result ≡ (tick_step (result == 0) self.old.state now).skipped }
        ensures spare { 2 ≤ self.old.spare → result ≡ 0 }
        ensures extends_history { SendsAtMostOne self.old.state self.new.state }
        ensures sendings { All (IsSending self.new.state) replies.new }
        ensures refines_abstract_leg { IsSeenTick (seen self.old.state) (seen self.new.state) }
        ensures capacity { capacity_of self.old ≤ capacity_of self.new }
    {
        let grown = self.machine.grow(now);
        self.machine.tick(grown, now, replies)
    }
}
