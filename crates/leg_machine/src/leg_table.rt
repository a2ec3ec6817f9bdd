//! The table of the leg: the effect of a taken frame, row by row ("IAX Frames", "Control Frames", "Call Setup").
ghost use Rattle.std.specs.Prelude.{◌≡◌, option_copied};
ghost use Rattle.leg_machine.specs.LegTable as rows;

use crate::machine::Machine;
use call_auth::{accepts, answer};
use call_signals::effects::{
    goes_on, hung_up, marking, no_effect, rejected, reply_alone, row, unless_over,
};
use call_signals::{
    Answering, Cause, Effect, Format, Mark, MediaSpan, Message, ReplyFrame, Signal, Stage,
};
use iax_frames::Full;
use info_elements::{AUTHMETHODS, CHALLENGE, FORMAT, MD5_RESULT, last_in, u16_in, u32_in};

// Returns whether MD5 is among the methods.
fn asks_md5(methods: Option<u16>) -> bool
    ensures { result ≡ rows.asks_md5 methods }
{
    match methods {
        Some(methods) => methods & 2 == 2,
        None => false,
    }
}

// Returns whether FORMAT is absent or the one offered.
fn is_wanted(format: Format, bits: Option<u32>) -> bool
    ensures { result ≡ rows.is_wanted format bits }
{
    match bits {
        Some(bits) => bits == format.bit(),
        None => true,
    }
}

/// Returns whether `len` octets may be media: 1 ..= 1,380.
pub fn is_media(len: usize) -> bool
    ensures { result ≡ rows.is_media len }
{
    1 <= len && len <= 1380
}

// All stages.
fn any_stage(stage: Stage, frame: &Full, message: &Message) -> Effect
    ensures { result ≡ rows.any_stage stage frame.now message.now }
{
    match message {
        Message::Hangup => row(
            Answering::Acknowledged,
            Stage::Ended,
            unless_over(stage, Signal::Hangup),
        ),
        Message::Ping => reply_alone(stage, ReplyFrame::Pong(frame.timestamp())),
        Message::LagRq => reply_alone(stage, ReplyFrame::LagRp(frame.timestamp())),
        Message::UnknownIax => reply_alone(stage, ReplyFrame::Unsupport(frame.subclass())),
        _ => no_effect(stage),
    }
}

fn auth_rep_row(digits: Option<[u8; 32]>) -> Effect
    ensures { result ≡ rows.auth_rep_row digits }
{
    match digits {
        Some(digits) => marking(
            Answering::Answered(ReplyFrame::AuthRep(digits)),
            Stage::Waiting,
            Mark::Authenticates,
        ),
        None => hung_up(Cause::CallRejected),
    }
}

impl Machine {
    ghost use Rattle.leg_machine.specs.Leg.{leg_of};

    // Returns whether the digits, in either case, are the MD5 answer.
    fn is_answer(&self, digits: Option<&[u8]>) -> bool
        ensures { result ≡ rows.is_answer self.now.challenge self.now.rules.secret (option_copied digits.entry) }
    {
        match &self.challenge {
            Some(challenge) => match &self.rules.secret {
                Some(secret) => match digits {
                    Some(digits) => accepts(challenge.as_slice(), secret.as_slice(), digits),
                    None => false,
                },
                None => false,
            },
            None => false,
        }
    }

    // Returns the answer to a challenge, if there are a challenge and a secret.
    fn answer_if(&self, challenge: Option<&[u8]>) -> Option<[u8; 32]>
        ensures { result ≡ rows.answer_if (option_copied challenge.entry) self.now.rules.outbound_secret }
    {
        match challenge {
            Some(challenge) => match &self.rules.outbound_secret {
                Some(secret) => Some(answer(challenge, secret.as_slice())),
                None => None,
            },
            None => None,
        }
    }

    // Returns whether a peer sends back a challenge of this exchange, to have it answered. A hardened leg doesn't answer
    // it.
    fn is_reflected(&self, frame: &Full) -> bool
        ensures { result ≡ rows.is_reflected self.now.rules frame.now }
    {
        self.rules.is_hardened && self.rules.is_own(last_in(frame.payload(), CHALLENGE))
    }

    // Returns the answer to the first AUTHREQ that asks for MD5, unless its challenge is reflected.
    fn auth_rep_digits(&self, frame: &Full) -> Option<[u8; 32]>
        ensures { result ≡ rows.auth_rep_digits (leg_of self.now) frame.now }
    {
        let asks_md5 = asks_md5(u16_in(frame.payload(), AUTHMETHODS));
        if !self.authenticated && asks_md5 && !self.is_reflected(frame) {
            self.answer_if(last_in(frame.payload(), CHALLENGE))
        } else {
            None
        }
    }

    // AUTHREP in Challenged.
    fn challenged_auth_rep(&self, frame: &Full) -> Effect
        ensures { result ≡ rows.challenged_auth_rep (leg_of self.now) frame.now }
    {
        if self.is_answer(last_in(frame.payload(), MD5_RESULT)) {
            row(Answering::Silent, Stage::Offered, Some(Signal::Offered))
        } else {
            rejected(Cause::CallRejected)
        }
    }

    // ACCEPT in Waiting.
    fn waiting_accept(&self, frame: &Full) -> Effect
        ensures { result ≡ rows.waiting_accept (leg_of self.now) frame.now }
    {
        if is_wanted(self.format, u32_in(frame.payload(), FORMAT)) {
            row(Answering::Acknowledged, Stage::Linked, None)
        } else {
            hung_up(Cause::CallRejected)
        }
    }

    // Voice of the call's format, if it has media.
    fn voice_row(&self, stage: Stage, frame: &Full, voice: Format) -> Effect
        ensures { result ≡ rows.voice_row stage (leg_of self.now) frame.now voice }
    {
        let len = frame.payload().len();
        if voice.is(self.format) && is_media(len) {
            goes_on(
                stage,
                Signal::Media(MediaSpan {
                    start: 12,
                    end: 12 + len,
                }),
            )
        } else {
            no_effect(stage)
        }
    }

    fn challenged(&self, frame: &Full, message: &Message) -> Effect
        ensures { result ≡ rows.challenged (leg_of self.now) frame.now message.now }
    {
        match message {
            Message::AuthRep => self.challenged_auth_rep(frame),
            _ => any_stage(Stage::Challenged, frame, message),
        }
    }

    fn waiting(&self, frame: &Full, message: &Message) -> Effect
        ensures { result ≡ rows.waiting (leg_of self.now) frame.now message.now }
    {
        match message {
            Message::AuthReq => auth_rep_row(self.auth_rep_digits(frame)),
            Message::Accept => self.waiting_accept(frame),
            Message::Reject => goes_on(Stage::Ended, Signal::Hangup),
            _ => any_stage(Stage::Waiting, frame, message),
        }
    }

    // Linked and Up.
    fn talking(&self, stage: Stage, frame: &Full, message: &Message) -> Effect
        ensures { result ≡ rows.talking stage (leg_of self.now) frame.now message.now }
    {
        match message {
            Message::ClearsCall => hung_up(Cause::NormalClearing),
            Message::Dtmf(digit) => goes_on(stage, Signal::Dtmf(*digit)),
            Message::Voice(voice) => self.voice_row(stage, frame, *voice),
            Message::Quelch => marking(Answering::Acknowledged, stage, Mark::Quelches),
            Message::Unquelch => marking(Answering::Acknowledged, stage, Mark::Unquelches),
            _ => any_stage(stage, frame, message),
        }
    }

    fn linked(&self, frame: &Full, message: &Message) -> Effect
        ensures { result ≡ rows.linked (leg_of self.now) frame.now message.now }
    {
        match message {
            Message::Indicates(indication) => goes_on(
                Stage::Linked,
                Signal::Indicated(*indication),
            ),
            Message::Answer => goes_on(Stage::Up, Signal::Answered),
            _ => self.talking(Stage::Linked, frame, message),
        }
    }

    /// Returns the effect of a taken frame: the row of the leg's stage and of the frame's message ("IAX Frames", "Control
    /// Frames").
    pub fn effect_of(&self, frame: &Full, message: &Message) -> Effect
        ensures { result ≡ rows.effect_of (leg_of self.now) frame.now message.now }
    {
        match self.stage {
            Stage::Challenged => self.challenged(frame, message),
            Stage::Waiting => self.waiting(frame, message),
            Stage::Linked => self.linked(frame, message),
            Stage::Up => self.talking(Stage::Up, frame, message),
            Stage::Offered => any_stage(Stage::Offered, frame, message),
            Stage::Closing => any_stage(Stage::Closing, frame, message),
            Stage::Ended => any_stage(Stage::Ended, frame, message),
        }
    }
}
