//! The steps of one of a peer's legs: a full frame, an order, media, or a tick.
ghost use Rattle.std.specs.Option.{ForSome};
ghost use Rattle.std.specs.Prelude.{◌≡◌, ◌==◌, ◌≤◌, length, map};
ghost use Rattle.std.specs.Prelude.{slice_get, slice_set, true, None, Some, Err, [], IfErr, IfNone, IfOk};
ghost use Rattle.std.specs.Prelude.{IsSome, OnErr, OnOk};
ghost use Rattle.call_signals.specs.declared.rules.PeerRules.{PeerRules};
ghost use Rattle.iax_frames.specs.FullFrame.{spelling};
ghost use Rattle.leg_machine.specs.Media.{media_sent, after_media, media_frames};
ghost use Rattle.leg_machine.specs.OrderTable.{order_refused, media_refused, is_voice, wants_memory, IsShortMedia};
ghost use Rattle.leg_machine.specs.OrderTable.{order_carried};
ghost use Rattle.leg_machine.specs.Steps.{full_step, heard_of};
ghost use Rattle.leg_machine.specs.Ticks.{tick_step};
ghost use Rattle.leg_machine.specs.Tie.{TakesTurn, SendsAtMostOne};
ghost use Rattle.leg_machine.specs.Working.{frame_refused, IsFrameRefusal};
ghost use Rattle.peer_legs.specs.Finding.{can_reach};
ghost use Rattle.peer_legs.specs.Legs.{NamedLeg as NamedLegValue};
ghost use Rattle.peer_legs.specs.Steps.{IsAnswer, IsStep};
ghost use Rattle.memory_requests.specs.Refused.{WasRefused};

use crate::named_leg::recorded;
use crate::peer_legs::PeerLegs;
use iax_frames::Full;
use leg_machine::{Heard, MediaSent, Order, OrderError, Replies, StepError};

impl PeerLegs {
    ghost use Rattle.peer_legs.specs.Legs.{AreLegs, AreLegsOf, leg_at, filled, with_leg};

    /// Gives a full frame to the leg of a local number, at the moment `now`, in milliseconds, as `Leg::full_into` handles
    /// it. The leg keeps its number. The frame's source can reach that leg, and its data has at most 1,388 octets. The
    /// leg's frames are written to the empty list.
    ///
    /// Refusals are checked in this order: `RecordFull`, `Unaddressed`, `NewUnacknowledged`, `Memory`. Then the legs are as
    /// before.
    pub fn full(
        &mut self,
        number: u16,
        frame: &Full,
        now: u64,
        replies: &mut Replies,
    ) -> Result<Heard, StepError>
        requires there { can_reach self.old frame.now.head.source (leg_at self.old number) ≡ true }
        requires short { length frame.now.payload ≤ 1388 }
        requires empty { replies.old ≡ [] }
        ensures step { IsStep self.old self.new number result (λ leg. (full_step leg frame.now now).leg) }
        ensures replies { OnOk result ((named : NamedLegValue) → leg_at self.old number ≡ Some named →
            replies.new ≡ map spelling (full_step named.leg frame.now now).replies) }
        ensures heard { IfOk result (λ heard. (named : NamedLegValue) → leg_at self.old number ≡ Some named →
            heard ≡ heard_of (full_step named.leg frame.now now)) }
        // The leg's record grows as that of a side of a network does.
        ensures extends_history { (named : NamedLegValue) → leg_at self.old number ≡ Some named →
            OnOk result (TakesTurn named.leg frame.now (full_step named.leg frame.now now).leg) }
        ensures kept { OnOk result (IsSome (leg_at self.new number)) }
        ensures there { OnOk result ((named : NamedLegValue) → leg_at self.old number ≡ Some named
            → leg_at self.new number ≡ Some (record { name = named.name; leg = (full_step named.leg frame.now now).leg })) }
        ensures unrefused { (named : NamedLegValue) → leg_at self.old number ≡ Some named →
            OnOk result (frame_refused named.leg frame.now ≡ None) }
        ensures refused { (named : NamedLegValue) → leg_at self.old number ≡ Some named →
            IfErr result (IsFrameRefusal (frame_refused named.leg frame.now)) }
        ensures none_sent { OnErr result (replies.new ≡ replies.old) }
        ensures no_memory { result ≡ Err StepError.Memory → WasRefused }
    {
        let index = self.place_of(number);
        let named = self.places[index].as_mut().unwrap();
        let heard = named.leg.full_into(frame, now, replies);
        recorded(&named.leg);
        let remote = named.leg.remote();
        self.rest_until = self.rest_until.min(named.rest_until());
        self.by_remote.note(remote, Some(number));
        heard
    }

    /// Gives an order to the leg with this local number, at the moment `now`, in milliseconds, as `Leg::order_into` carries
    /// it out. Media has 1 to 1,380 octets. The leg's frames are written to the empty list.
    ///
    /// Refusals are checked in this order: `WrongStage`, `WindowFull`, `RecordFull`, `Memory`; then nothing is changed or
    /// written. Doom and Paid are never refused.
    pub fn order(
        &mut self,
        number: u16,
        order: &Order,
        now: u64,
        replies: &mut Replies,
    ) -> Result<(), OrderError>
        requires leg { IsSome (leg_at self.old number) }
        requires media { IsShortMedia order.now }
        requires empty { replies.old ≡ [] }
        ensures step { IsStep self.old self.new number result (λ leg. (order_carried leg order.now now).leg) }
        ensures replies { ForSome (leg_at self.old number) (λ named. OnOk result
            (replies.new ≡ (order_carried named.leg order.now now).datagrams)) }
        ensures extends_history { ForSome (leg_at self.old number) (λ named. OnOk result
            (SendsAtMostOne named.leg (order_carried named.leg order.now now).leg)) }
        ensures answer { ForSome (leg_at self.old number) (λ named.
            IsAnswer result (order_refused named.leg order.now now) (wants_memory named.leg order.now now)) }
        ensures none_sent { OnErr result (replies.new ≡ replies.old) }
        ensures no_memory { result ≡ Err OrderError.Memory → WasRefused }
    {
        let index = self.place_of(number);
        let named = self.places[index].as_mut().unwrap();
        let obeyed = named.leg.order_into(order, now, replies);
        recorded(&named.leg);
        self.rest_until = self.rest_until.min(named.rest_until());
        obeyed
    }

    /// Sends media of 1 to 1,380 octets at the leg with this local number, at the moment `now`, in milliseconds, as
    /// `Leg::media_into` does. A full frame is written to the empty list.
    ///
    /// Refusals are checked in this order: `WrongStage`; then, only for a full frame, `WindowFull`, `RecordFull`, `Memory`.
    /// Then nothing is changed or written.
    pub fn media(
        &mut self,
        number: u16,
        media: &[u8],
        now: u64,
        replies: &mut Replies,
    ) -> Result<MediaSent, OrderError>
        requires leg { IsSome (leg_at self.old number) }
        requires short { length media.now ≤ 1380 }
        requires empty { replies.old ≡ [] }
        ensures sent { ForSome (leg_at self.old number) (λ named. IfOk result
            (λ sent. sent ≡ media_sent named.leg now)) }
        ensures step { IsStep self.old self.new number result
            (λ leg. after_media (media_sent leg now) leg media.now now) }
        ensures replies { ForSome (leg_at self.old number) (λ named. OnOk result
            (replies.new ≡ map spelling (media_frames (media_sent named.leg now) named.leg media.now now))) }
        ensures extends_history { ForSome (leg_at self.old number) (λ named. OnOk result
            (SendsAtMostOne named.leg (after_media (media_sent named.leg now) named.leg media.now now))) }
        ensures answer { ForSome (leg_at self.old number) (λ named.
            IsAnswer result (media_refused named.leg now) (is_voice (media_sent named.leg now))) }
        ensures none_sent { OnErr result (replies.new ≡ replies.old) }
        ensures no_memory { result ≡ Err OrderError.Memory → WasRefused }
    {
        let index = self.place_of(number);
        let named = self.places[index].as_mut().unwrap();
        let sent = named.leg.media_into(media, now, replies);
        recorded(&named.leg);
        self.rest_until = named.rest_after_media(&sent, self.rest_until);
        sent
    }

    /// Ticks the leg at a place, 0 for the first number, at the moment `now`, in milliseconds. The leg's frames are written
    /// to the empty list.
    ///
    /// Returns the number of frames that were due and had no memory; they stay due. Returns 0 if there is no leg.
    pub fn tick(&mut self, index: usize, now: u64, replies: &mut Replies) -> u32
        requires { replies.old ≡ [] }
        ensures leg { ForSome (filled (slice_get self.old.places index)) (λ named.
            self.new ≡ with_leg self.old named.name (tick_step (result == 0) named.leg now).leg) }
        ensures place { ForSome (filled (slice_get self.old.places index)) (λ named.
            self.new.places ≡ slice_set self.old.places index
            (Some (record { name = named.name; leg = (tick_step (result == 0) named.leg now).leg }))) }
        ensures replies { ForSome (filled (slice_get self.old.places index)) (λ named.
            replies.new ≡ map spelling (tick_step (result == 0) named.leg now).replies) }
        ensures skipped { ForSome (filled (slice_get self.old.places index)) (λ named.
            result ≡ (tick_step (result == 0) named.leg now).skipped) }
        ensures extends_history { ForSome (filled (slice_get self.old.places index)) (λ named.
            SendsAtMostOne named.leg (tick_step (result == 0) named.leg now).leg) }
        ensures none { IfNone (filled (slice_get self.old.places index)) (result ≡ 0) }
        ensures none_changed { IfNone (filled (slice_get self.old.places index)) (self.new ≡ self.old) }
        ensures none_sent { IfNone (filled (slice_get self.old.places index)) (replies.new ≡ replies.old) }
        ensures sound { AreLegs self.new }
        ensures ruled { (rules : PeerRules) → AreLegsOf rules self.old → AreLegsOf rules self.new }
    {
        if index >= self.places.len() {
            return 0;
        }
        let Some(named) = &mut self.places[index] else {
            return 0;
        };
        self.rest_until = 0;
        let skipped = named.leg.tick_into(now, replies);
        recorded(&named.leg);
        skipped
    }
}
