//! The failures that end a leg without a HANGUP or a REJECT.
ghost use Rattle.std.specs.Prelude.{◌≡◌};
ghost use Rattle.call_signals.specs.Endings.{failure_cause};

use crate::cause::Cause;

/// The failure that ended a leg without a HANGUP or a REJECT.
#[derive(Clone, Copy, Debug, PartialEq, Eq)]
pub enum Failure {
    /// A frame was retransmitted as often as the peer's rules allow, and wasn't acknowledged ("Message Transport").
    RetriesSpent,
    /// The leg's record had no room for another frame and its answer.
    RecordFull,
    /// The leg's challenge wasn't answered in time.
    ChallengeTimeout,
    /// The other side knows no such call (INVAL, "IAX Frames").
    Inval,
}

impl Failure {
    /// Returns its cause for the leg's partner: `NoUserResponding` if retries are spent, otherwise `NormalClearing`.
    pub fn cause(self) -> Cause
        ensures { result ≡ failure_cause self }
    {
        match self {
            Failure::RetriesSpent => Cause::NoUserResponding,
            Failure::RecordFull => Cause::NormalClearing,
            Failure::ChallengeTimeout => Cause::NormalClearing,
            Failure::Inval => Cause::NormalClearing,
        }
    }
}
