//! Failed authentication, as the row of an ended leg shows it.
ghost use Rattle.std.specs.Prelude.{◌≡◌, ◌≢◌, ◌↔◌, Some};
ghost use Rattle.call_signals.specs.declared.failure.Failure.TheVariants as failures;
ghost use Rattle.service_state.specs.Authentication.{WasAnsweredWrongly, auth_failure_text};
ghost use Rattle.service_state.specs.declared.authentication.AuthFailure.TheVariants.{NoAnswer, WrongAnswer};

use call_records::{CallRow, Ending};
use call_signals::Failure;

/// How the authentication of a call failed ("Authentication").
#[derive(Clone, Copy, Debug, PartialEq, Eq)]
pub enum AuthFailure {
    /// The answer to the challenge was wrong: the call was rejected before it was offered.
    WrongAnswer,
    /// No answer came in time (plan version 4).
    NoAnswer,
}

/// All of these.
pub const AUTH_FAILURES: [AuthFailure; 2] = [AuthFailure::WrongAnswer, AuthFailure::NoAnswer];

impl AuthFailure {
    /// Returns its name in metrics.
    pub fn name(self) -> &'static str
        ensures { result.now ≡ auth_failure_text self }
    {
        match self {
            AuthFailure::WrongAnswer => "WrongAnswer",
            AuthFailure::NoAnswer => "NoAnswer",
        }
    }

    /// Returns how the authentication of an ended leg's call failed, if it did.
    pub fn of(leg: &CallRow) -> Option<AuthFailure>
        ensures no_answer { (result ≡ Some NoAnswer) ↔ (leg.now.failure ≡ Some failures.ChallengeTimeout) }
        ensures wrong_answer { leg.now.failure ≢ Some failures.ChallengeTimeout →
            ((result ≡ Some WrongAnswer) ↔ WasAnsweredWrongly leg.now) }
    {
        if leg.failure == Some(Failure::ChallengeTimeout) {
            return Some(AuthFailure::NoAnswer);
        }
        let is_rejected = match leg.leg.end {
            Some(end) => matches!(end.how, Ending::RejectedHere),
            None => false,
        };
        if is_rejected && leg.challenged && leg.moments.offered.is_none() {
            Some(AuthFailure::WrongAnswer)
        } else {
            None
        }
    }
}
