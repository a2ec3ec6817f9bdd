//! The reason why a call wasn't answered.
ghost use Rattle.std.specs.Prelude.{◌≡◌};
ghost use Rattle.call_records.specs.Reasons as reasons;

use crate::call_end::Ending;
use crate::call_row::CallRow;
use crate::columns::failure_name;

// Returns the reason why the exchange rejected a call whose NEW it had accepted, by the cause that it sent.
fn routing_reason(cause: Option<u8>) -> &'static str
    ensures { result.now ≡ reasons.routing_reason cause }
{
    match cause {
        Some(1) => "no_route",
        Some(28) => "bad_number",
        Some(34) => "no_number",
        Some(21) => "no_common_format",
        _ => "",
    }
}

// Returns whether the peer challenged the exchange, and got no answer.
fn is_unanswered(row: &CallRow) -> bool
    ensures { result ≡ reasons.is_unanswered row.now }
{
    0 < row.leg.challenges_taken && !row.authenticated && row.moments.accepted.is_none()
}

/// Returns the reason why the call of a leg wasn't answered: `wrong_secret`, `no_secret`, `no_common_format`, `no_route`,
/// `bad_number`, `no_number`, `rejected_by_peer`, or the name of the leg's failure. Empty if it was answered, or given up by its caller.
pub fn reason_name(row: &CallRow) -> &'static str
    ensures { result.now ≡ reasons.reason_text row.now }
{
    let Some(end) = row.leg.end else {
        return failure_name(row.failure);
    };
    match end.how {
        Ending::RejectedByPeer => "rejected_by_peer",
        Ending::HungUpByPeer => "",
        Ending::HungUpHere => { if is_unanswered(row) { "no_secret" } else { "" } }
        Ending::RejectedHere => {
            if row.moments.offered.is_some() {
                routing_reason(end.cause)
            } else if row.challenged {
                "wrong_secret"
            } else {
                "no_common_format"
            }
        }
    }
}
