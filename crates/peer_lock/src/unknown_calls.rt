//! The answers to full frames that belong to no call ("IAX Frames": INVAL; "POKE", "REJECT", "REGREJ"; CALLTOKEN of
//! chan_iax2).
ghost use Rattle.std.specs.Prelude.{◌≡◌, ◌≢◌, true, false, None, Some, IfOk, IfErr, OnOk, OnErr};
ghost use Rattle.peer_accounts.specs.Accounts.{with_step as with_credit};
ghost use Rattle.peer_lock.specs.Arrivals.{answering, delivered_step};
ghost use Rattle.peer_lock.specs.Delivery.{answer_data, closed_to_calls, delivery_refused, legless, let_in, newcomer};
ghost use Rattle.peer_lock.specs.Delivery.{unknown_call, Gets, Pongs};
ghost use Rattle.peer_lock.specs.Delivery as answers;
ghost use Rattle.peer_lock.specs.Makes.{MakesAlone};
ghost use Rattle.peer_lock.specs.Peer.{no_leg};
ghost use Rattle.peer_lock.specs.Pokes.{answers_poke};
ghost use Rattle.peer_lock.specs.declared.errors.PeerError.TheVariants as errors;
ghost use Rattle.peer_lock.specs.declared.unknown_calls.Answer.{Answer as AnswerValue};

use crate::errors::PeerError;
use crate::pokes::{NO_CALL, is_own_pong};
use crate::state::PeerState;
use crate::steps::{Rejection, Step};
use call_auth::CallTokens;
use call_signals::codes::{
    FRAME_IAX, IAX_CALLTOKEN, IAX_INVAL, IAX_PONG, IAX_REGREJ, IAX_REGREL, IAX_REGREQ, IAX_REJECT,
};
use call_signals::reply_elements::append_cause;
use iax_frames::{CallNumber, Full, FullHead, Payload, write_full};
use info_elements::{CALLTOKEN, append_to, last_in};
use leg_machine::{Cause, Judged, Message, PeerRules};
use peer_accounts::{LedgerSet, Pass};

/// The data of an answer.
#[derive(Clone, Copy)]
pub(crate) enum AnswerData {
    Nothing,
    Why(Cause),
    Token([u8; 32]),
}

/// The answer to a frame that belongs to no call, and the rejection in it.
#[derive(Clone, Copy)]
pub(crate) struct Answer {
    pub(crate) head: FullHead,
    pub(crate) rejected: Option<Rejection>,
    pub(crate) says: AnswerData,
}

fn is_new(message: &Message) -> bool
    ensures { result ≡ answers.is_new message.now }
{
    matches!(message, Message::New)
}

fn is_poke(message: &Message) -> bool
    ensures { result ≡ answers.is_poke message.now }
{
    matches!(message, Message::Poke)
}

// Returns whether a frame is REGREQ or REGREL.
fn is_registration(frame: &Full) -> bool
    ensures { result ≡ answers.is_registration frame.now.head }
{
    frame.frame_type() == FRAME_IAX
        && (frame.subclass() == IAX_REGREQ || frame.subclass() == IAX_REGREL)
}

// Returns INVAL from the number that a frame names, to its source.
fn inval_for(frame: &Full) -> Answer
    ensures { result ≡ answers.inval_for frame.now.head }
{
    let head = FullHead {
        source: frame.destination(),
        retransmitted: false,
        destination: frame.source(),
        timestamp: 0,
        oseqno: 0,
        iseqno: 0,
        frame_type: FRAME_IAX,
        subclass: IAX_INVAL,
    };
    Answer {
        head,
        rejected: None,
        says: AnswerData::Nothing,
    }
}

// Returns the head of an IAX frame to the source of another, from a number that no plan has.
fn answer_head(frame: &Full, subclass: u8) -> FullHead
    ensures { result ≡ answers.answer_head frame.now.head subclass }
{
    FullHead {
        source: CallNumber::new(NO_CALL),
        retransmitted: false,
        destination: frame.source(),
        timestamp: frame.timestamp(),
        oseqno: 0,
        iseqno: frame.oseqno().wrapping_add(1),
        frame_type: FRAME_IAX,
        subclass,
    }
}

// Returns PONG for a POKE.
fn pong_for(frame: &Full) -> Answer
    ensures { result ≡ answers.pong_for frame.now.head }
{
    Answer {
        head: answer_head(frame, IAX_PONG),
        rejected: None,
        says: AnswerData::Nothing,
    }
}

// Returns REJECT for a NEW that isn't let in.
pub(crate) fn reject_for(why: Rejection, frame: &Full) -> Answer
    ensures { result ≡ answers.reject_for why frame.now.head }
{
    Answer {
        head: answer_head(frame, IAX_REJECT),
        rejected: Some(why),
        says: AnswerData::Why(Cause::Congestion),
    }
}

// Returns REGREJ for a REGREQ or a REGREL.
fn regrej_for(frame: &Full) -> Answer
    ensures { result ≡ answers.regrej_for frame.now.head }
{
    Answer {
        head: answer_head(frame, IAX_REGREJ),
        rejected: Some(Rejection::Registration),
        // The cause of Q.850 is "facility rejected".
        says: AnswerData::Why(Cause::Other(29)),
    }
}

// Returns CALLTOKEN for a NEW that asks for a call token.
fn token_for(frame: &Full, tokens: &CallTokens, now: u64) -> Answer
    ensures { result ≡ answers.token_for tokens.now frame.now.head now }
{
    let digits = tokens.token_at(now);
    Answer {
        head: answer_head(frame, IAX_CALLTOKEN),
        rejected: Some(Rejection::CallToken),
        says: AnswerData::Token(digits),
    }
}

// Returns the data of an answer.
fn answer_data(says: AnswerData) -> Payload
    ensures { result ≡ answer_data says }
{
    let mut data = Payload::empty();
    match says {
        AnswerData::Nothing => {}
        AnswerData::Why(cause) => append_cause(&mut data, cause),
        AnswerData::Token(digits) => append_to(&mut data, CALLTOKEN, &digits),
    }
    data
}

impl<J: LedgerSet> PeerState<J> {
    // Returns why the peer lets no NEW in. Only a NEW that belongs to no leg asks, because it looks at each number.
    fn closed_to_calls(&self) -> Option<Rejection>
        ensures { result ≡ closed_to_calls self.now }
    {
        if self.drains {
            return Some(Rejection::Draining);
        }
        if self.rules.is_hardened && self.legs.is_crowded() {
            return Some(Rejection::NoNumber);
        }
        None
    }

    // Lets in a NEW that needs no further token, or rejects it.
    fn let_in(&self, frame: &Full) -> Result<Answer, PeerError>
        ensures answer { IfOk result (λ answer. let_in (closed_to_calls self.now) frame.now.head ≡ Gets answer) }
        ensures refused { IfErr result (λ e. Some e ≡ delivery_refused (let_in (closed_to_calls self.now) frame.now.head)) }
    {
        match self.closed_to_calls() {
            Some(why) => Ok(reject_for(why, frame)),
            None => Err(PeerError::NeedsNumber),
        }
    }

    // Returns the answer to a NEW that belongs to no leg. Its token is judged before whether it is let in, so that a draining
    // peer answers only those that have one.
    fn answer_to_new(&self, frame: &Full, now: u64) -> Result<Answer, PeerError>
        ensures answer { IfOk result (λ answer.
            newcomer (closed_to_calls self.now) self.now.rules.call_tokens frame.now now ≡ Gets answer) }
        ensures refused { IfErr result (λ e. Some e ≡
            delivery_refused (newcomer (closed_to_calls self.now) self.now.rules.call_tokens frame.now now)) }
    {
        let Some(tokens) = &self.rules.call_tokens else {
            return self.let_in(frame);
        };
        let Some(token) = last_in(frame.payload(), CALLTOKEN) else {
            return Err(PeerError::NoToken);
        };
        if token.is_empty() {
            return Ok(token_for(frame, tokens, now));
        }
        if tokens.accepts(now, token) {
            self.let_in(frame)
        } else {
            Err(PeerError::NoToken)
        }
    }

    // Returns the answer to a frame that belongs to no leg.
    fn answer_to(&self, frame: &Full, now: u64) -> Result<Answer, PeerError>
        ensures answer { IfOk result (λ answer.
            unknown_call (closed_to_calls self.now) self.now.rules frame.now now ≡ Gets answer) }
        ensures refused { IfErr result (λ e. Some e ≡
            delivery_refused (unknown_call (closed_to_calls self.now) self.now.rules frame.now now)) }
    {
        let message = Message::of(frame);
        if frame.destination().get() == 0 {
            if is_new(&message) && frame.oseqno() == 0 {
                return self.answer_to_new(frame, now);
            }
            if self.rules.poke && is_poke(&message) {
                return Ok(pong_for(frame));
            }
            if self.rules.is_hardened && is_registration(frame) {
                return Ok(regrej_for(frame));
            }
            return Err(PeerError::NoCall);
        }
        if !message.is_numbered() {
            return Err(PeerError::NoCall);
        }
        Ok(inval_for(frame))
    }

    // Sends this answer in a step without a leg.
    pub(crate) fn answer_alone(&mut self, pass: &mut Pass<J>, answer: &Answer) -> Step
        requires { self.old.accounts.steps ≢ J.first_steps }
        ensures peer { self.new ≡ (answering self.old answer.now).peer }
        ensures step { result ≡ (answering self.old answer.now).step }
        ensures credit { pass.new ≡ with_credit pass.old 0 }
    {
        let data = answer_data(answer.says);
        match write_full(&answer.head, data.as_slice()) {
            Ok(out) => self.outbox.put(&out),
            Err(_) => unreachable!(),
        }
        self.account.count_step(pass);
        Step {
            judged: Judged::Unnumbered,
            touched: None,
            rejected: answer.rejected,
        }
    }

    // Answers a full frame that belongs to no leg.
    pub(crate) fn answer_unknown(
        &mut self,
        pass: &mut Pass<J>,
        frame: &Full,
        now: u64,
    ) -> Result<Step, PeerError>
        requires { self.old.accounts.steps ≢ J.first_steps }
        ensures peer { OnOk result ((answer : AnswerValue) → unknown_call (closed_to_calls self.old) self.old.rules frame.now now
            ≡ Gets answer →
            self.new ≡ (answering self.old answer).peer) }
        ensures answer { OnOk result ((answer : AnswerValue) ×
            (unknown_call (closed_to_calls self.old) self.old.rules frame.now now ≡ Gets answer)) }
        ensures step { IfOk result (λ step. (answer : AnswerValue) → unknown_call (closed_to_calls self.old) self.old.rules
            frame.now now
            ≡ Gets answer →
            step ≡ (answering self.old answer).step) }
        ensures credit { OnOk result (pass.new ≡ with_credit pass.old 0) }
        ensures refused { IfErr result (λ e. Some e ≡ delivery_refused (unknown_call (closed_to_calls self.old) self.old.rules
            frame.now
            now)) }
        ensures err { OnErr result ((self.new ≡ self.old) × (pass.new ≡ pass.old)) }
    {
        let answer = self.answer_to(frame, now)?;
        Ok(self.answer_alone(pass, &answer))
    }
    // A PONG to the call number that POKEs have: it counts if it answers the last POKE.
    fn take_pong(&mut self, pass: &mut Pass<J>, frame: &Full, now: u64) -> Result<Step, PeerError>
        requires { self.old.accounts.steps ≢ J.first_steps }
        ensures counts { OnOk result (answers_poke self.old.rules self.old.pokes frame.now.head ≡ true) }
        ensures peer { OnOk result (self.new ≡ (delivered_step J.first_octets self.old Pongs frame.now now).peer) }
        ensures step { IfOk result (λ step. step ≡ no_leg) }
        ensures credit { OnOk result (pass.new ≡ with_credit pass.old 0) }
        ensures refused { IfErr result (λ e. (e ≡ errors.NoCall) × (answers_poke self.old.rules self.old.pokes frame.now.head ≡
            false)) }
        ensures err { OnErr result ((self.new ≡ self.old) × (pass.new ≡ pass.old)) }
    {
        if !self.pokes.is_answer(&self.rules, frame) {
            return Err(PeerError::NoCall);
        }
        self.pokes = self.pokes.answered(now);
        self.account.count_step(pass);
        Ok(Step {
            judged: Judged::Unnumbered,
            touched: None,
            rejected: None,
        })
    }

    // A full frame for which no leg is found.
    pub(crate) fn come_to_none(
        &mut self,
        pass: &mut Pass<J>,
        frame: &Full,
        now: u64,
    ) -> Result<Step, PeerError>
        requires { self.old.accounts.steps ≢ J.first_steps }
        ensures made { IfOk result (λ step. MakesAlone (delivered_step J.first_octets self.old
            (legless (closed_to_calls self.old) self.old.rules self.old.pokes frame.now now) frame.now now) self.new step pass.old
            pass.new) }
        ensures unrefused { OnOk result (delivery_refused
            (legless (closed_to_calls self.old) self.old.rules self.old.pokes frame.now now) ≡ None) }
        ensures refused { IfErr result (λ e. Some e ≡ delivery_refused
            (legless (closed_to_calls self.old) self.old.rules self.old.pokes frame.now now)) }
        ensures err { OnErr result ((self.new ≡ self.old) × (pass.new ≡ pass.old)) }
    {
        if is_own_pong(&self.rules, frame) {
            self.take_pong(pass, frame, now)
        } else {
            self.answer_unknown(pass, frame, now)
        }
    }
}
