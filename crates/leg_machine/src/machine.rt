//! A leg's own state, and the small changes of its steps.
ghost use Rattle.std.specs.Prelude.{◌≡◌, ◌+◌, ◌<◌, ◌≤◌, ◌^◌, ◌∷◌, ◌++◌, ◌↔◌, [], true, false, length, Err, IfOk, OnOk, OnErr};
ghost use Rattle.iax_frames.specs.FullFrame.{spelling};
ghost use Rattle.seq_window.specs.Record.{frame_of};
ghost use Rattle.seq_window.specs.Window.{held_count, judged_acknowledgement};
ghost use Rattle.call_signals.specs.PeerRules.{IsPeerRules};
ghost use Rattle.leg_machine.specs.Leg.{first_at, local_room, noted};
ghost use Rattle.leg_machine.specs.Openings.{leg_for_call};
ghost use Rattle.leg_machine.specs.Replies as replies;
ghost use Rattle.leg_machine.specs.Working as steps;
ghost use Rattle.memory_requests.specs.Refused.{WasRefused};

use call_auth::Challenge;
use call_signals::codes::{FRAME_IAX, IAX_ACK, IAX_VNAK};
use call_signals::{
    Cause, Failure, Format, Formats, LocalNumber, Message, Moments, PeerRules, Replies, ReplyFrame,
    Stage, ending_cause,
};
use iax_frames::{CallNumber, Full, FullHead, Payload};
use seq_window::{Acknowledged, FrameView, Window};
use std::alloc::{AllocError, Global};

/// The VNAK of the other side that a leg answered last ("IAX Frames").
#[derive(Clone, Copy)]
pub struct AnsweredVnak {
    /// The octet of the number that it asked for: its ISeqno.
    pub number: u8,
    /// The moment at which it came, in milliseconds.
    pub at: u64,
    /// The moment at which the last one came that brought all held frames, in milliseconds.
    pub all_at: u64,
}

/// A leg's fields. Its steps never fail, because the caller of one has reserved room for its entries.
#[derive(Drop)]
pub struct Machine {
    pub rules: PeerRules,
    pub number: LocalNumber,
    pub opened: u64,
    pub stage: Stage,
    pub format: Format,
    pub remote: Option<CallNumber>,
    pub is_named: bool,
    pub is_acknowledged: bool,
    pub owes: bool,
    pub doomed: bool,
    pub cause: Cause,
    pub quelched: bool,
    pub challenge: Option<Challenge>,
    pub authenticated: bool,
    pub voice_taken: Formats,
    pub voice_sent: Option<u32>,
    pub pinged: u64,
    pub vnak_sent: Option<u64>,
    pub vnak_answered: Option<AnsweredVnak>,
    pub failure: Option<Failure>,
    pub resent: u64,
    pub moments: Moments,
    pub window: Window,
}

/// Returns the frame as the record keeps it, without its call numbers and sequence numbers.
pub fn stored<'a>(frame: &'a Full) -> FrameView<'a>
    ensures { frame_of result ≡ steps.stored frame.now }
{
    FrameView {
        ts: frame.timestamp(),
        kind: frame.frame_type(),
        subclass: frame.subclass(),
        payload: frame.payload(),
    }
}

// Returns the moment at which something was first reached.
fn first_at(is_reached: bool, before: Option<u64>, now: u64) -> Option<u64>
    ensures { result ≡ first_at is_reached before now }
{
    if is_reached {
        Some(before.unwrap_or(now))
    } else {
        before
    }
}

// Returns the moments of a leg that enters a stage at this one, by an order, or by a frame or a tick. Only the called side
// accepts and answers a call: by orders if the call was offered, otherwise by frames.
fn noted(is_order: bool, moments: Moments, stage: Stage, now: u64) -> Moments
    ensures { result ≡ noted is_order moments stage now }
{
    let Moments {
        offered,
        accepted,
        answered,
        over,
    } = moments;
    let is_of_called = offered.is_some() == is_order;
    Moments {
        offered: first_at(stage.is_offered(), offered, now),
        accepted: first_at(stage.is_talking() && is_of_called, accepted, now),
        answered: first_at(stage.is_up() && is_of_called, answered, now),
        over: first_at(stage.is_over(), over, now),
    }
}

impl Machine {
    ghost use Rattle.leg_machine.specs.Leg.{leg_of, whole_leg, capacity_of, entered, failed, obeyed, staged, HasRoom};

    /// Returns a leg that was opened at the moment `now`, in milliseconds, under this local number, 1 ..= 32,767, before
    /// its first frame. It waits for an answer to its NEW. Returns `Err` only if memory was refused.
    pub fn new(
        alloc: Global,
        rules: &PeerRules,
        number: CallNumber,
        format: Format,
        now: u64,
    ) -> Result<Machine, AllocError>
        requires rules { IsPeerRules rules.now }
        requires number { 1 ≤ number }
        ensures leg { IfOk result (λ machine. leg_of machine ≡ leg_for_call rules.now number format now) }
        ensures room { IfOk result (HasRoom 4) }
        ensures no_memory { OnErr result WasRefused }
    {
        let mut window = Window::new(alloc, rules.window, rules.record_limit)?;
        window.reserve(4)?;
        Ok(Machine {
            rules: rules.copied(),
            number: LocalNumber::new(number),
            opened: now,
            stage: Stage::Waiting,
            format,
            remote: None,
            is_named: false,
            is_acknowledged: false,
            owes: false,
            doomed: false,
            cause: Cause::NormalClearing,
            quelched: false,
            challenge: None,
            authenticated: false,
            voice_taken: Formats {
                gsm: false,
                ulaw: false,
                alaw: false,
            },
            voice_sent: None,
            pinged: now,
            vnak_sent: None,
            vnak_answered: None,
            failure: None,
            resent: 0,
            moments: Moments {
                offered: None,
                accepted: None,
                answered: None,
                over: None,
            },
            window,
        })
    }

    /// Learns the other side's number from the first frame. A known number stays.
    pub fn learn(&mut self, source: CallNumber)
        ensures leg { leg_of self.new ≡ steps.learnt (leg_of self.old) source }
        ensures window { self.new.window ≡ self.old.window }
    {
        self.remote = Some(self.remote.unwrap_or(source));
    }

    // Changes the stage. The leg owes once it enters the first stage that is Closing or Ended.
    fn set_stage(&mut self, stage: Stage)
        ensures leg { leg_of self.new ≡ staged (leg_of self.old) stage }
        ensures window { self.new.window ≡ self.old.window }
    {
        self.owes = self.owes || (stage.is_over() && !self.stage.is_over());
        self.stage = stage;
    }

    /// Enters a stage by a frame or a tick at the moment `now`, in milliseconds. Notes the moments at which the call was
    /// first offered, accepted, answered and over.
    pub fn enter(&mut self, stage: Stage, now: u64)
        ensures leg { leg_of self.new ≡ entered (leg_of self.old) stage now }
        ensures window { self.new.window ≡ self.old.window }
    {
        self.moments = noted(false, self.moments, stage, now);
        self.set_stage(stage);
    }

    /// Enters a stage by an order at the moment `now`, in milliseconds, and notes the same moments.
    pub fn obey(&mut self, stage: Stage, now: u64)
        ensures leg { leg_of self.new ≡ obeyed (leg_of self.old) stage now }
        ensures window { self.new.window ≡ self.old.window }
    {
        self.moments = noted(true, self.moments, stage, now);
        self.set_stage(stage);
    }

    /// Notes the cause of the leg's end, if it ends by entering this stage, with this frame, and its rules carry causes.
    pub fn note_end(&mut self, stage: Stage, frame: &Full, message: &Message)
        ensures leg { leg_of self.new ≡ steps.end_noted (leg_of self.old) stage frame.now message.now }
        ensures window { self.new.window ≡ self.old.window }
    {
        if self.rules.carries_cause && stage.is_over() && !self.stage.is_over() {
            self.cause = ending_cause(frame, message);
        }
    }

    /// Takes over the format of an ACCEPT; another reply changes nothing.
    pub fn agree(&mut self, reply: &ReplyFrame)
        ensures leg { leg_of self.new ≡ steps.agreed (leg_of self.old) reply.now }
        ensures window { self.new.window ≡ self.old.window }
    {
        if let ReplyFrame::Accept(format) = reply {
            self.format = *format;
        }
    }

    /// Ends the leg at the moment `now`, in milliseconds, because it can't continue, and notes why. A leg that had ended
    /// keeps its failure.
    pub fn fail(&mut self, failure: Failure, now: u64)
        ensures leg { leg_of self.new ≡ failed (leg_of self.old) failure now }
        ensures window { self.new.window ≡ self.old.window }
    {
        if !self.stage.is_ended() {
            self.failure = Some(failure);
        }
        if self.rules.carries_cause && !self.stage.is_over() {
            self.cause = failure.cause();
        }
        self.enter(Stage::Ended, now);
    }

    /// Ends a closing leg that holds nothing.
    pub fn finish_closing(&mut self)
        ensures leg { leg_of self.new ≡ steps.settled (leg_of self.old) }
        ensures window { self.new.window ≡ self.old.window }
    {
        if self.stage.is_closing() && self.window.held_len() == 0 {
            self.set_stage(Stage::Ended);
        }
    }

    /// Judges the acknowledgement of a frame, ISeqno, and returns whether it counts ("Message Transport"). Notes whether it
    /// removes held frames. There is room for four entries.
    pub fn acknowledge(&mut self, iseqno: u8) -> bool
        requires { HasRoom 4 self.old }
        ensures leg { leg_of self.new ≡ steps.acknowledged (leg_of self.old) iseqno }
        ensures room { HasRoom 3 self.new }
        ensures counts { result ≡ steps.counts (judged_acknowledgement self.old.window.state.history iseqno) }
        ensures capacity { capacity_of (whole_leg self.old) ≤ capacity_of (whole_leg self.new) }
    {
        match self.window.acknowledge(iseqno) {
            Ok(Acknowledged::Acked(count)) => {
                self.is_acknowledged = 0 < count || self.is_acknowledged;
                true
            }
            _ => false,
        }
    }

    /// Records the next frame, of at most 1,388 octets of data; there is room for three entries. The next gap is then
    /// another one than before. With the leg's number the frame shows that the other side knows it.
    pub fn record(&mut self, frame: &Full)
        requires room { HasRoom 3 self.old }
        requires short { length frame.now.payload ≤ 1388 }
        ensures leg { leg_of self.new ≡ steps.recorded (leg_of self.old) frame.now }
        ensures room { HasRoom 2 self.new }
        ensures capacity { capacity_of (whole_leg self.old) ≤ capacity_of (whole_leg self.new) }
    {
        let _ = self.window.receive(frame.oseqno(), stored(frame));
        self.vnak_sent = None;
        self.is_named = self.names_leg(frame) || self.is_named;
    }

    /// Notes the format of a voice frame that was taken. Other messages change nothing. The call's own format may still
    /// change.
    pub fn hear(&mut self, message: &Message)
        ensures leg { leg_of self.new ≡ steps.heard (leg_of self.old) message.now }
        ensures window { self.new.window ≡ self.old.window }
    {
        self.voice_taken = Formats {
            gsm: self.voice_taken.gsm || message.is_voice_in(Format::Gsm),
            ulaw: self.voice_taken.ulaw || message.is_voice_in(Format::Ulaw),
            alaw: self.voice_taken.alaw || message.is_voice_in(Format::Alaw),
        };
    }

    /// Writes a frame as this leg sends it, with the octet of its number, behind fewer than 128 others; `again` marks a
    /// retransmission.
    pub fn spell(&self, again: bool, oseqno: u8, frame: FrameView<'_>, outs: &mut Replies)
        requires more { length outs.old < 128 }
        requires short { length frame.payload.now ≤ 1388 }
        ensures { outs.new ≡ outs.old ++ spelling (replies.outgoing (leg_of self.now) again oseqno (frame_of frame.entry)) ∷ [] }
    {
        outs.write(
            &FullHead {
                source: self.number.get(),
                retransmitted: again,
                destination: self.remote.unwrap_or(CallNumber::new(0)),
                timestamp: frame.ts,
                oseqno,
                iseqno: self.window.expected(),
                frame_type: frame.kind,
                subclass: frame.subclass,
            },
            frame.payload,
        );
    }

    fn unnumbered(&self, subclass: u8, timestamp: u32, outs: &mut Replies)
        requires { length outs.old < 128 }
        ensures { outs.new ≡ outs.old ++ spelling (replies.unnumbered (leg_of self.now) subclass timestamp) ∷ [] }
    {
        outs.write(
            &FullHead {
                source: self.number.get(),
                retransmitted: false,
                destination: self.remote.unwrap_or(CallNumber::new(0)),
                timestamp,
                oseqno: self.window.next(),
                iseqno: self.window.expected(),
                frame_type: FRAME_IAX,
                subclass,
            },
            &[],
        );
    }

    /// Writes an ACK of the frame behind fewer than 128 others ("IAX Frames").
    pub fn ack(&self, frame: &Full, outs: &mut Replies)
        requires { length outs.old < 128 }
        ensures { outs.new ≡ outs.old ++ spelling (replies.ack (leg_of self.now) frame.now) ∷ [] }
    {
        self.unnumbered(IAX_ACK, frame.timestamp(), outs);
    }

    /// Writes a VNAK behind fewer than 128 others, because a frame before this one is missing ("IAX Frames").
    pub fn vnak(&self, frame: &Full, outs: &mut Replies)
        requires { length outs.old < 128 }
        ensures { outs.new ≡ outs.old ++ spelling (replies.vnak (leg_of self.now) frame.now) ∷ [] }
    {
        self.unnumbered(IAX_VNAK, frame.timestamp(), outs);
    }

    /// Returns the milliseconds from the opening to the moment `now`, modulo 2^32: the timestamp of a frame that is sent
    /// then.
    pub fn present(&self, now: u64) -> u32
        ensures { result ≡ replies.present_of (leg_of self.now) now }
    {
        (now.saturating_sub(self.opened) % 0x1_0000_0000) as u32
    }

    /// Sends a numbered frame of at most 1,388 octets of data at the moment `now`, in milliseconds. It is written, recorded
    /// and held ("Message Transport"). There is room for it in the window, in the record and in the list.
    pub fn send_frame(&mut self, frame: FrameView<'_>, now: u64, outs: &mut Replies)
        requires room { HasRoom 1 self.old }
        requires short { length frame.payload.now ≤ 1388 }
        requires more { length outs.old < 128 }
        requires window { held_count self.old.window.state < self.old.window.state.width }
        ensures leg { leg_of self.new ≡ steps.sent (leg_of self.old) (frame_of frame.entry) now }
        ensures room { HasRoom 2 self.old → HasRoom 1 self.new }
        ensures out { outs.new ≡ outs.old ++ spelling (replies.outgoing (leg_of self.old) false
            (replies.next_byte (leg_of self.old)) (frame_of frame.entry)) ∷ [] }
        ensures capacity { capacity_of (whole_leg self.old) ≤ capacity_of (whole_leg self.new) }
    {
        self.spell(false, self.window.next(), frame, outs);
        let _ = self.window.send(frame, now);
    }

    /// Sends a reply at the moment `now`, in milliseconds, as a numbered frame (`send_frame`).
    pub fn send(&mut self, reply: ReplyFrame, now: u64, outs: &mut Replies)
        requires room { HasRoom 1 self.old }
        requires more { length outs.old < 128 }
        requires window { held_count self.old.window.state < self.old.window.state.width }
        ensures leg { leg_of self.new ≡ steps.sent (leg_of self.old) (replies.reply_frame (leg_of self.old) now reply) now }
        ensures room { HasRoom 2 self.old → HasRoom 1 self.new }
        ensures out { outs.new ≡ outs.old ++ spelling (replies.outgoing (leg_of self.old) false
            (replies.next_byte (leg_of self.old)) (replies.reply_frame (leg_of self.old) now reply)) ∷ [] }
        ensures capacity { capacity_of (whole_leg self.old) ≤ capacity_of (whole_leg self.new) }
    {
        let mut elements = Payload::empty();
        self.write_elements(&reply, &mut elements);
        let frame = self.reply_frame(&reply, now, elements.as_slice());
        self.send_frame(frame, now, outs);
    }

    /// Returns the number of held frames at which the leg sends only frames that the other side asked for. It is the
    /// window's width less a quarter of it, rounded down.
    pub fn local_room(&self) -> usize
        ensures room { result ≡ local_room self.now.window.state.width }
        ensures most { result ≤ self.now.window.state.width }
    {
        let width = self.window.width() as usize;
        width - width / 4
    }
}
