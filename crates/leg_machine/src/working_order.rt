//! The effect of a full frame, in its working order ("Message Transport").
ghost use Rattle.std.specs.Prelude.{◌≡◌, ◌+◌, ◌<◌, ◌≤◌, ◌++◌, [], true, length, map};
ghost use Rattle.iax_frames.specs.FullFrame.{spelling};
ghost use Rattle.seq_window.specs.Window.{held_count, judged_number, judged_acknowledgement};
ghost use Rattle.leg_machine.specs.Effects.{is_reply, marked};
ghost use Rattle.leg_machine.specs.Steps as steps;
ghost use Rattle.leg_machine.specs.Working as working;
ghost use Rattle.leg_machine.specs.Working.{counts, wants_vnak, heeds_inval, is_unaddressed, handles_unaddressed};
ghost use Rattle.leg_machine.specs.Working.{has_acknowledged, is_early, refusal};

use crate::machine::Machine;
use call_signals::effects::unless_over;
use call_signals::{
    Answering, Effect, Failure, Heard, Judged, Mark, Message, Replies, Signal, StepError,
};
use iax_frames::Full;
use seq_window::{Acknowledged, Received};

impl Machine {
    ghost use Rattle.leg_machine.specs.Leg.{leg_of, whole_leg, capacity_of, HasRoom};

    fn mark(&mut self, mark: Mark)
        ensures leg { leg_of self.new ≡ marked (leg_of self.old) mark }
        ensures window { self.new.window ≡ self.old.window }
    {
        match mark {
            Mark::Nothing => {}
            Mark::Quelches => self.quelched = true,
            Mark::Unquelches => self.quelched = false,
            Mark::Authenticates => self.authenticated = true,
        }
    }

    // Takes the next frame, with this effect.
    fn take_frame(&mut self, effect: &Effect, frame: &Full, message: &Message, now: u64)
        requires room { HasRoom 3 self.old }
        requires short { length frame.now.payload ≤ 1388 }
        ensures leg { leg_of self.new ≡ steps.taken effect.now (leg_of self.old) frame.now message.now now }
        ensures room { HasRoom 2 self.new }
        ensures held { held_count self.new.window.state ≡ held_count self.old.window.state }
        ensures width { self.new.window.state.width ≡ self.old.window.state.width }
        ensures capacity { capacity_of (whole_leg self.old) ≤ capacity_of (whole_leg self.new) }
    {
        self.note_end(effect.stage, frame, message);
        self.enter(effect.stage, now);
        self.mark(effect.mark);
        self.hear(message);
        self.record(frame);
    }

    // Writes the answer to a frame that is recorded.
    fn answer(&mut self, answer: &Answering, frame: &Full, now: u64, outs: &mut Replies)
        requires room { HasRoom 2 self.old }
        requires window { is_reply answer.now ≡ true → held_count self.old.window.state < self.old.window.state.width }
        requires more { length outs.old < 128 }
        ensures leg { leg_of self.new ≡ steps.replied (leg_of self.old) now answer.now }
        ensures replies { outs.new ≡ outs.old ++ map spelling (steps.answers (leg_of self.old) frame.now now answer.now) }
        ensures capacity { capacity_of (whole_leg self.old) ≤ capacity_of (whole_leg self.new) }
    {
        match answer {
            Answering::Answered(reply) => self.send(*reply, now, outs),
            Answering::Acknowledged => self.ack(frame, outs),
            Answering::Silent => {}
        }
    }

    /// Handles the next frame at the moment `now`, in milliseconds, with this effect. Its data has at most 1,388 octets,
    /// there is room for three entries, and the leg's frames are written behind fewer than 128 others. If a numbered answer
    /// finds no room in the window, the frame isn't taken.
    pub fn take(
        &mut self,
        effect: &Effect,
        frame: &Full,
        message: &Message,
        now: u64,
        outs: &mut Replies,
    ) -> Heard
        requires room { HasRoom 3 self.old }
        requires short { length frame.now.payload ≤ 1388 }
        requires more { length outs.old < 128 }
        ensures leg { leg_of self.new ≡ (steps.taken_step effect.now (leg_of self.old) frame.now message.now now).leg }
        ensures replies { outs.new ≡ outs.old ++
            map spelling (steps.taken_step effect.now (leg_of self.old) frame.now message.now now).replies }
        ensures heard { result ≡ steps.heard_of (steps.taken_step effect.now (leg_of self.old) frame.now message.now now) }
        ensures capacity { capacity_of (whole_leg self.old) ≤ capacity_of (whole_leg self.new) }
    {
        if effect.answer.is_reply() && self.window.is_full() {
            return Heard {
                judged: Judged::NoRoom,
                signal: None,
            };
        }
        self.take_frame(effect, frame, message, now);
        self.answer(&effect.answer, frame, now, outs);
        Heard {
            judged: Judged::Taken,
            signal: effect.signal,
        }
    }

    // Returns whether a gap is answered: the last VNAK is at least `vnak_ms` milliseconds old, or asked for another number.
    fn wants_vnak(&self, now: u64) -> bool
        ensures { result ≡ wants_vnak (leg_of self.now) now }
    {
        match self.vnak_sent {
            None => true,
            Some(sent) => self.rules.vnak_ms <= now.saturating_sub(sent),
        }
    }

    // Handles a frame ahead of the expected one: a VNAK asks for that one, or nothing is sent.
    fn answer_gap(&mut self, frame: &Full, now: u64, outs: &mut Replies)
        requires { length outs.old < 128 }
        ensures leg { leg_of self.new ≡ (steps.gap_step (leg_of self.old) frame.now now).leg }
        ensures replies { outs.new ≡ outs.old ++ map spelling (steps.gap_step (leg_of self.old) frame.now now).replies }
        ensures window { self.new.window ≡ self.old.window }
    {
        if self.wants_vnak(now) {
            self.vnak(frame, outs);
            self.vnak_sent = Some(now);
        }
    }

    // Returns the judgement of a frame's number.
    fn judged(&self, frame: &Full) -> Received
        ensures { result ≡ judged_number self.now.window.state.history frame.now.head.oseqno }
    {
        self.window.judge(frame.oseqno())
    }

    // Handles a numbered frame.
    fn judge(&mut self, frame: &Full, message: &Message, now: u64, outs: &mut Replies) -> Heard
        requires room { HasRoom 3 self.old }
        requires short { length frame.now.payload ≤ 1388 }
        requires more { length outs.old < 128 }
        ensures leg { leg_of self.new ≡
            (steps.judged_step (judged_number self.old.window.state.history frame.now.head.oseqno)
            (leg_of self.old) frame.now message.now now).leg }
        ensures replies { outs.new ≡ outs.old ++
            map spelling (steps.judged_step (judged_number self.old.window.state.history frame.now.head.oseqno)
            (leg_of self.old) frame.now message.now now).replies }
        ensures heard { result ≡
            steps.heard_of (steps.judged_step (judged_number self.old.window.state.history frame.now.head.oseqno)
            (leg_of self.old) frame.now message.now now) }
        ensures capacity { capacity_of (whole_leg self.old) ≤ capacity_of (whole_leg self.new) }
    {
        match self.judged(frame) {
            Received::Taken => {
                let effect = self.effect_of(frame, message);
                self.take(&effect, frame, message, now, outs)
            }
            Received::Repeat => {
                self.ack(frame, outs);
                Heard {
                    judged: Judged::Repeat,
                    signal: None,
                }
            }
            Received::Gap => {
                self.answer_gap(frame, now, outs);
                Heard {
                    judged: Judged::Gap,
                    signal: None,
                }
            }
        }
    }

    /// Returns whether a frame has the leg's number, and that of the other side, if that is known.
    pub fn names_leg(&self, frame: &Full) -> bool
        ensures { result ≡ working.names_leg (leg_of self.now) frame.now }
    {
        let is_to = frame.destination() == self.number.get();
        let is_from = self.remote.unwrap_or(frame.source()) == frame.source();
        is_to && is_from
    }

    // Returns whether an INVAL has an effect. A hardened leg heeds only one that names it, and none as long as it waits for
    // the first answer to its NEW: no honest peer answers a NEW by an INVAL.
    fn heeds_inval(&self, frame: &Full) -> bool
        ensures { result ≡ heeds_inval (leg_of self.now) frame.now }
    {
        let names_leg = self.names_leg(frame);
        let is_unanswered = self.stage.is_waiting() && self.remote.is_none();
        !self.rules.is_hardened || (names_leg && !is_unanswered)
    }

    // Handles an INVAL, which is never answered.
    fn invalidate(&mut self, frame: &Full, now: u64) -> Heard
        ensures leg { leg_of self.new ≡ (steps.inval_step (leg_of self.old) frame.now now).leg }
        ensures silent { (steps.inval_step (leg_of self.old) frame.now now).replies ≡ [] }
        ensures heard { result ≡ steps.heard_of (steps.inval_step (leg_of self.old) frame.now now) }
        ensures capacity { capacity_of (whole_leg self.old) ≤ capacity_of (whole_leg self.new) }
    {
        if !self.heeds_inval(frame) {
            return Heard {
                judged: Judged::Unnumbered,
                signal: None,
            };
        }
        let signal = unless_over(self.stage, Signal::Hangup);
        self.fail(Failure::Inval, now);
        Heard {
            judged: Judged::Unnumbered,
            signal,
        }
    }

    // Judges a numbered frame by its number; any other has no further effect.
    fn numbered(&mut self, frame: &Full, message: &Message, now: u64, outs: &mut Replies) -> Heard
        requires room { HasRoom 3 self.old }
        requires short { length frame.now.payload ≤ 1388 }
        requires more { length outs.old < 128 }
        ensures leg { leg_of self.new ≡ (steps.numbered_step (leg_of self.old) frame.now message.now now).leg }
        ensures replies { outs.new ≡ outs.old ++
            map spelling (steps.numbered_step (leg_of self.old) frame.now message.now now).replies }
        ensures heard { result ≡ steps.heard_of (steps.numbered_step (leg_of self.old) frame.now message.now now) }
        ensures capacity { capacity_of (whole_leg self.old) ≤ capacity_of (whole_leg self.new) }
    {
        if message.is_numbered() {
            self.judge(frame, message, now, outs)
        } else {
            Heard {
                judged: Judged::Unnumbered,
                signal: None,
            }
        }
    }

    // Learns the other side's number, judges the acknowledgement, and ends a closing leg that holds nothing. Returns
    // whether the acknowledgement counts.
    fn prepare(&mut self, frame: &Full) -> bool
        requires { HasRoom 4 self.old }
        ensures leg { leg_of self.new ≡ steps.prepared (leg_of self.old) frame.now }
        ensures room { HasRoom 3 self.new }
        ensures counts { result ≡ counts (judged_acknowledgement self.old.window.state.history frame.now.head.iseqno) }
        ensures capacity { capacity_of (whole_leg self.old) ≤ capacity_of (whole_leg self.new) }
    {
        self.learn(frame.source());
        let counts = self.acknowledge(frame.iseqno());
        self.finish_closing();
        counts
    }

    // Handles a full frame that has a destination, or comes to a leg that isn't hardened.
    fn addressed(&mut self, frame: &Full, message: &Message, now: u64, outs: &mut Replies) -> Heard
        requires room { HasRoom 4 self.old }
        requires short { length frame.now.payload ≤ 1388 }
        requires empty { outs.old ≡ [] }
        ensures leg { leg_of self.new ≡ (steps.message_step message.now (leg_of self.old) frame.now now).leg }
        ensures replies { outs.new ≡ map spelling (steps.message_step message.now (leg_of self.old) frame.now now).replies }
        ensures heard { result ≡ steps.heard_of (steps.message_step message.now (leg_of self.old) frame.now now) }
        ensures capacity { capacity_of (whole_leg self.old) ≤ capacity_of (whole_leg self.new) }
    {
        if message.is_inval() {
            return self.invalidate(frame, now);
        }
        let counts = self.prepare(frame);
        if !message.is_vnak() {
            return self.numbered(frame, message, now, outs);
        }
        if counts {
            return self.answer_vnak(frame.iseqno(), now, outs);
        }
        Heard {
            judged: Judged::Unnumbered,
            signal: None,
        }
    }

    // Returns whether a frame has destination 0 and the leg is hardened.
    fn is_unaddressed(&self, frame: &Full) -> bool
        ensures { result ≡ is_unaddressed (leg_of self.now) frame.now }
    {
        self.rules.is_hardened && frame.destination().get() == 0
    }

    // Returns whether the leg handles a frame of destination 0: a numbered one as long as the other side needn't know the
    // leg's number, and later one that repeats.
    fn handles_unaddressed(&self, frame: &Full) -> bool
        ensures { result ≡ handles_unaddressed (leg_of self.now) frame.now }
    {
        let repeats = matches!(self.judged(frame), Received::Repeat);
        Message::of(frame).is_numbered() && (!self.is_named || repeats)
    }

    // Returns whether the other side has acknowledged the leg's first frame, by this frame or by one before it.
    fn has_acknowledged(&self, frame: &Full) -> bool
        ensures { result ≡ has_acknowledged (leg_of self.now) frame.now }
    {
        let removes = removes(self.window.judge_acknowledgement(frame.iseqno()));
        self.is_acknowledged || (!self.is_unaddressed(frame) && removes)
    }

    // Returns whether a frame answers the NEW of a hardened leg that waits, and the NEW isn't acknowledged.
    fn is_early(&self, frame: &Full) -> bool
        ensures { result ≡ is_early (leg_of self.now) frame.now }
    {
        if !self.rules.is_hardened || !self.stage.is_waiting() {
            return false;
        }
        Message::of(frame).answers_new() && !self.has_acknowledged(frame)
    }

    /// Returns the refusal of a frame by its destination and its acknowledgement: `Unaddressed`, then `NewUnacknowledged`.
    /// Only a hardened leg refuses so.
    pub fn refusal(&self, frame: &Full) -> Option<StepError>
        ensures { result ≡ refusal (leg_of self.now) frame.now }
    {
        if self.is_unaddressed(frame) && !self.handles_unaddressed(frame) {
            return Some(StepError::Unaddressed);
        }
        if self.is_early(frame) {
            return Some(StepError::NewUnacknowledged);
        }
        None
    }

    /// Handles a full frame that isn't refused, at the moment `now`, in milliseconds, with at most 1,388 octets of data.
    /// There is room for the entries that it can add to the record. The leg's frames are written to the empty list.
    pub fn full(&mut self, frame: &Full, now: u64, outs: &mut Replies) -> Heard
        requires room { HasRoom 4 self.old }
        requires short { length frame.now.payload ≤ 1388 }
        requires empty { outs.old ≡ [] }
        ensures leg { leg_of self.new ≡ (steps.handled_step (leg_of self.old) frame.now now).leg }
        ensures replies { outs.new ≡ map spelling (steps.handled_step (leg_of self.old) frame.now now).replies }
        ensures heard { result ≡ steps.heard_of (steps.handled_step (leg_of self.old) frame.now now) }
        ensures capacity { capacity_of (whole_leg self.old) ≤ capacity_of (whole_leg self.new) }
    {
        let message = Message::of(frame);
        if self.is_unaddressed(frame) {
            return self.numbered(frame, &message, now, outs);
        }
        self.addressed(frame, &message, now, outs)
    }
}

// Returns whether an acknowledgement removes held frames.
fn removes(judged: Acknowledged) -> bool
    ensures { result ≡ working.removes judged }
{
    match judged {
        Acknowledged::Acked(count) => 0 < count,
        Acknowledged::Ignored => false,
    }
}
