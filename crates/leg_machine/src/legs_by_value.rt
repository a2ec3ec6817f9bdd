//! The calls of a leg that return their datagrams. Each uses its form over a lent list.
ghost use Rattle.std.specs.Prelude.{◌≡◌, ◌==◌, ◌≤◌, ◌<◌, ◌↔◌, true, None, Err, length, map, All, option_copied, IfOk, IfErr};
ghost use Rattle.std.specs.Prelude.{OnOk, OnErr};
ghost use Rattle.std.specs.Option.{ForSome};
ghost use Rattle.iax_frames.specs.FullFrame.{spelling};
ghost use Rattle.leg_machine.specs.Leg.{capacity_of};
ghost use Rattle.leg_machine.specs.Onward.{outcome_of, order_outcome, HandsUp};
ghost use Rattle.leg_machine.specs.Openings.{open_in_step, open_out_step};
ghost use Rattle.leg_machine.specs.OrderTable.{order_refused, wants_memory, IsRefusal, IsShortMedia, order_carried};
ghost use Rattle.call_signals.specs.Caller.{numbered};
ghost use Rattle.call_signals.specs.PeerRules.{IsPeerRules};
ghost use Rattle.leg_machine.specs.Seen.{seen, kind_of, stage_ordered, fresh_leg, IsSeenFrame, IsSeenOpening, IsSeenOrder};
ghost use Rattle.leg_machine.specs.Seen.{IsSeenTick};
ghost use Rattle.leg_machine.specs.Steps.{full_step};
ghost use Rattle.leg_machine.specs.Ticks.{tick_step};
ghost use Rattle.leg_machine.specs.Working.{frame_refused, IsFrameRefusal};
ghost use Rattle.leg_machine.specs.Tie.{TakesTurn, SendsAtMostOne, TakesFirstTurn, HasSentAtMostOne, IsSending, IsSendingOrMini};
ghost use Rattle.call_signals.specs.declared.stage.Stage.TheVariants as stages;
ghost use Rattle.memory_requests.specs.Refused.{WasRefused};

use crate::leg::Leg;
use call_auth::Challenge;
use call_signals::{
    Caller, Format, Heard, Judged, Onward, Order, OrderError, Outcome, PeerRules, Replies, Signal,
    StepError, TickOutcome,
};
use iax_frames::{CallNumber, Full};
use std::alloc::{AllocError, Global};

impl Leg {
    ghost use Rattle.leg_machine.specs.Onward.{onward_if};

    // Returns a signal, if there is one, with its values.
    fn onward_if(&self, signal: Option<Signal>) -> Option<Onward>
        ensures { result ≡ onward_if self.now.state signal }
    {
        match signal {
            Some(signal) => Some(self.onward(signal)),
            None => None,
        }
    }

    /// Returns a leg for a received NEW: `open_in_into` with its datagrams in the outcome. Returns `Err` only if memory was
    /// refused.
    pub fn open_in(
        alloc: Global,
        rules: &PeerRules,
        number: CallNumber,
        frame: &Full,
        now: u64,
        challenge: &Challenge,
    ) -> Result<(Leg, Outcome), AllocError>
        requires rules { IsPeerRules rules.now }
        requires number { 1 ≤ number }
        requires first { frame.now.head.oseqno ≡ 0 }
        requires short { length frame.now.payload ≤ 1388 }
        ensures leg { IfOk result (λ opened. opened.0.state ≡ (open_in_step rules.now number frame.now now challenge.now).leg) }
        ensures outcome { IfOk result (λ opened. opened.1 ≡
            outcome_of (open_in_step rules.now number frame.now now challenge.now)) }
        ensures extends_history { IfOk result (λ opened. TakesFirstTurn frame.now opened.0.state) }
        ensures sendings { IfOk result (λ opened. All (IsSending opened.0.state) opened.1.replies) }
        ensures refines_abstract_leg { IfOk result (λ opened.
            HandsUp opened.0.state opened.1.onward (IsSeenOpening (seen opened.0.state))) }
        ensures no_memory { OnErr result WasRefused }
    {
        let mut replies = Replies::new();
        let (leg, heard) = Leg::open_in_into(
            alloc,
            rules,
            number,
            frame,
            now,
            challenge,
            &mut replies,
        )?;
        let onward = leg.onward_if(heard.signal);
        Ok((
            leg,
            Outcome {
                judged: heard.judged,
                replies,
                onward,
            },
        ))
    }

    /// Returns a leg that sends a NEW. A calling number of at most 255 octets is the only element about the caller. It is
    /// `open_out_into` with its datagrams in the outcome. Returns `Err` only if memory was refused.
    pub fn open_out(
        alloc: Global,
        rules: &PeerRules,
        number: CallNumber,
        called: &[u8],
        calling: Option<&[u8]>,
        format: Format,
        now: u64,
    ) -> Result<(Leg, Outcome), AllocError>
        requires rules { IsPeerRules rules.now }
        requires number { 1 ≤ number }
        requires called { length called.now ≤ 255 }
        requires calling { ForSome calling (λ text. length text.now ≤ 255) }
        ensures leg { IfOk result (λ opened. opened.0.state ≡
            (open_out_step rules.now number called.now (numbered (option_copied calling.entry)) format now).leg) }
        ensures outcome { IfOk result (λ opened. opened.1 ≡
            outcome_of (open_out_step rules.now number called.now (numbered (option_copied calling.entry)) format now)) }
        ensures extends_history { IfOk result (λ opened. HasSentAtMostOne opened.0.state) }
        ensures sendings { IfOk result (λ opened. All (IsSending opened.0.state) opened.1.replies) }
        ensures refines_abstract_leg { IfOk result (λ opened. seen opened.0.state ≡ fresh_leg stages.Waiting) }
        ensures no_memory { OnErr result WasRefused }
    {
        let caller = Caller::numbered(calling);
        let mut replies = Replies::new();
        let leg = Leg::open_out_into(
            alloc,
            rules,
            number,
            called,
            &caller,
            format,
            now,
            &mut replies,
        )?;
        Ok((
            leg,
            Outcome {
                judged: Judged::Unnumbered,
                replies,
                onward: None,
            },
        ))
    }

    /// Handles a full frame: `full_into` with its datagrams in the outcome.
    ///
    /// Refusals are checked in this order: `RecordFull`, `Unaddressed`, `NewUnacknowledged`, `Memory`.
    pub fn full(&mut self, frame: &Full, now: u64) -> Result<Outcome, StepError>
        requires { length frame.now.payload ≤ 1388 }
        ensures leg { OnOk result (self.new.state ≡ (full_step self.old.state frame.now now).leg) }
        ensures outcome { IfOk result (λ outcome. outcome ≡ outcome_of (full_step self.old.state frame.now now)) }
        ensures extends_history { OnOk result (TakesTurn self.old.state frame.now self.new.state) }
        ensures sendings { IfOk result (λ outcome. All (IsSending self.new.state) outcome.replies) }
        ensures refines_abstract_leg { IfOk result (λ outcome.
            HandsUp self.new.state outcome.onward (IsSeenFrame (seen self.old.state) (seen self.new.state))) }
        ensures unrefused { OnOk result (frame_refused self.old.state frame.now ≡ None) }
        ensures refused { IfErr result (IsFrameRefusal (frame_refused self.old.state frame.now)) }
        ensures memory { result ≡ Err StepError.Memory → self.old.spare < 4 }
        ensures err { OnErr result (self.new ≡ self.old) }
        ensures capacity { capacity_of self.old ≤ capacity_of self.new }
        ensures no_memory { result ≡ Err StepError.Memory → WasRefused }
    {
        let mut replies = Replies::new();
        let heard = self.full_into(frame, now, &mut replies)?;
        let onward = self.onward_if(heard.signal);
        Ok(Outcome {
            judged: heard.judged,
            replies,
            onward,
        })
    }

    /// Carries out an order: `order_into` with its datagrams in the outcome. Media that is sent as a mini frame is among
    /// them.
    ///
    /// Refusals are checked in this order: `WrongStage`, `WindowFull`, `RecordFull`, `Memory`. Doom and Paid are never
    /// refused.
    pub fn order(&mut self, order: &Order, now: u64) -> Result<Outcome, OrderError>
        requires { IsShortMedia order.now }
        ensures leg { OnOk result (self.new.state ≡ (order_carried self.old.state order.now now).leg) }
        ensures outcome { IfOk result (λ outcome. outcome ≡ order_outcome (order_carried self.old.state order.now now)) }
        ensures extends_history { OnOk result (SendsAtMostOne self.old.state self.new.state) }
        ensures sendings { IfOk result (λ outcome. All (IsSendingOrMini self.new.state) outcome.replies) }
        ensures refines_abstract_leg { OnOk result (IsSeenOrder (kind_of order.now) (seen self.old.state) (seen self.new.state)) }
        ensures unrefused { OnOk result (order_refused self.old.state order.now now ≡ None) }
        ensures refused { IfErr result (IsRefusal (order_refused self.old.state order.now now)) }
        ensures memory { result ≡ Err OrderError.Memory → wants_memory self.old.state order.now now ≡ true }
        ensures spare { result ≡ Err OrderError.Memory → self.old.spare ≡ 0 }
        ensures wrong_stage { (result ≡ Err OrderError.WrongStage) ↔ (stage_ordered self.old.state (kind_of order.now) ≡ None) }
        ensures err { OnErr result (self.new ≡ self.old) }
        ensures capacity { capacity_of self.old ≤ capacity_of self.new }
        ensures no_memory { result ≡ Err OrderError.Memory → WasRefused }
    {
        let mut replies = Replies::new();
        self.order_into(order, now, &mut replies)?;
        Ok(Outcome {
            judged: Judged::Unnumbered,
            replies,
            onward: None,
        })
    }

    /// Ticks the leg: `tick_into` with its datagrams in the outcome.
    pub fn tick(&mut self, now: u64) -> TickOutcome
        ensures leg { self.new.state ≡ (tick_step (result.skipped == 0) self.old.state now).leg }
        ensures replies { result.replies ≡ map spelling (tick_step (result.skipped == 0) self.old.state now).replies }
        ensures skipped { result.skipped ≡ (tick_step (result.skipped == 0) self.old.state now).skipped }
        ensures spare { 2 ≤ self.old.spare → result.skipped ≡ 0 }
        ensures extends_history { SendsAtMostOne self.old.state self.new.state }
        ensures sendings { All (IsSending self.new.state) result.replies }
        ensures refines_abstract_leg { IsSeenTick (seen self.old.state) (seen self.new.state) }
        ensures capacity { capacity_of self.old ≤ capacity_of self.new }
    {
        let mut replies = Replies::new();
        let skipped = self.tick_into(now, &mut replies);
        TickOutcome { replies, skipped }
    }
}
