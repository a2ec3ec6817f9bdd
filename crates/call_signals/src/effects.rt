//! The rows of the tables.
ghost use Rattle.std.specs.Prelude.{◌≡◌};
ghost use Rattle.call_signals.specs.Effects as effects;

use crate::cause::Cause;
use crate::reply::ReplyFrame;
use crate::signal::Signal;
use crate::stage::Stage;

/// The answer to a taken frame.
#[derive(Clone, Copy)]
pub enum Answering {
    /// By an ACK.
    Acknowledged,
    /// By a numbered frame.
    Answered(ReplyFrame),
    /// By nothing yet.
    Silent,
}

impl Answering {
    /// Returns whether a numbered frame is the answer.
    pub fn is_reply(&self) -> bool
        ensures { result ≡ effects.is_reply self.now }
    {
        matches!(self, Answering::Answered(_))
    }
}

/// The mark that a taken frame sets on a leg.
#[derive(Clone, Copy)]
pub enum Mark {
    /// Nothing is noted.
    Nothing,
    /// The other side quelched media.
    Quelches,
    /// The other side wants media again.
    Unquelches,
    /// An AUTHREQ is answered.
    Authenticates,
}

/// A row: the answer, the stage afterwards, the signal handed up, and the mark.
#[derive(Clone, Copy)]
pub struct Effect {
    pub answer: Answering,
    pub stage: Stage,
    pub signal: Option<Signal>,
    pub mark: Mark,
}

/// Returns a row without a mark: the answer, the stage afterwards, and the signal handed up.
pub fn row(answer: Answering, stage: Stage, signal: Option<Signal>) -> Effect
    ensures { result ≡ effects.row answer stage signal }
{
    Effect {
        answer,
        stage,
        signal,
        mark: Mark::Nothing,
    }
}

/// Returns a row without a signal: the answer, the stage afterwards, and the mark.
pub fn marking(answer: Answering, stage: Stage, mark: Mark) -> Effect
    ensures { result ≡ effects.marking answer stage mark }
{
    Effect {
        answer,
        stage,
        signal: None,
        mark,
    }
}

/// Returns the row of a frame that has none in the table: it is acknowledged, and the leg stays in its stage.
pub fn no_effect(stage: Stage) -> Effect
    ensures { result ≡ effects.no_effect stage }
{
    row(Answering::Acknowledged, stage, None)
}

/// Returns a row in which a numbered frame is the answer, and nothing else happens. If the call is over, the frame is only
/// acknowledged.
pub fn reply_alone(stage: Stage, reply: ReplyFrame) -> Effect
    ensures { result ≡ effects.reply_alone stage reply }
{
    if stage.is_over() {
        no_effect(stage)
    } else {
        row(Answering::Answered(reply), stage, None)
    }
}

/// Returns a row that gives the call up: a HANGUP for this cause is the answer, the leg is closing after it, and `Hangup`
/// is handed up.
pub fn hung_up(cause: Cause) -> Effect
    ensures { result ≡ effects.hung_up cause }
{
    row(
        Answering::Answered(ReplyFrame::Hangup(cause)),
        Stage::Closing,
        Some(Signal::Hangup),
    )
}

/// Returns a row that rejects the call: a REJECT for this cause is the answer, the leg is closing after it, and nothing is
/// handed up.
pub fn rejected(cause: Cause) -> Effect
    ensures { result ≡ effects.rejected cause }
{
    row(
        Answering::Answered(ReplyFrame::Reject(cause)),
        Stage::Closing,
        None,
    )
}

/// Returns a row in which the frame is acknowledged, the leg is in this stage after it, and this signal is handed up.
pub fn goes_on(stage: Stage, signal: Signal) -> Effect
    ensures { result ≡ effects.goes_on stage signal }
{
    row(Answering::Acknowledged, stage, Some(signal))
}

/// Returns this signal, unless the call is over in that stage.
pub fn unless_over(stage: Stage, signal: Signal) -> Option<Signal>
    ensures { result ≡ effects.unless_over stage signal }
{
    if stage.is_over() { None } else { Some(signal) }
}
