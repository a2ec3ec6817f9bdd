//! The row of a leg that was taken out.
ghost use Rattle.std.specs.Prelude.{◌≡◌, count_by};
ghost use Rattle.call_records.specs.Courses as course;
ghost use Rattle.call_records.specs.SideFrames.{frames_of};
ghost use Rattle.call_records.specs.declared.counted.Counted.TheVariants.{Challenges, Digits};
ghost use Rattle.call_records.specs.declared.side.Side.TheVariants.{Peer, Exchange};
ghost use Rattle.call_signals.specs.NewElements.{new_elements};
ghost use Rattle.seq_window.specs.History.{sent_count, acked_count, taken_count};

use call_records::{CallRecord, CallRow};
use exchange_core::Retired;

/// Returns the row of a leg that was taken out, of the call with this serial, from its record and its other values. Its
/// moments are in milliseconds since the exchange was opened.
pub fn call_row(leg: &Retired, call: u64) -> CallRow
    ensures call { result.call ≡ call }
    ensures name { result.name ≡ leg.now.name }
    ensures partner { result.partner ≡ leg.now.partner }
    ensures facts { (result.format ≡ leg.now.facts.format) × (result.failure ≡ leg.now.facts.failure) ×
        (result.resent ≡ leg.now.facts.resent) × (result.moments ≡ leg.now.facts.moments) ×
        (result.challenged ≡ leg.now.facts.challenged) × (result.authenticated ≡ leg.now.facts.authenticated) }
    ensures challenges { result.leg.challenges_taken ≡
        count_by (course.is_by Challenges Peer) (frames_of leg.now.history.entries) }
    ensures parties { (result.leg.opened_by ≡ course.opener_of (frames_of leg.now.history.entries))
        × (result.leg.called ≡ (new_elements (course.new_data (frames_of leg.now.history.entries))).called)
        × (result.leg.calling ≡ (new_elements (course.new_data (frames_of leg.now.history.entries))).calling) }
    ensures course { (result.leg.accepted ≡
        course.accepted_of (course.opener_of (frames_of leg.now.history.entries)) (frames_of leg.now.history.entries))
        × (result.leg.answered ≡
        course.answered_of (course.opener_of (frames_of leg.now.history.entries)) (frames_of leg.now.history.entries))
        × (result.leg.end ≡ course.end_of (course.opener_of (frames_of leg.now.history.entries))
        (frames_of leg.now.history.entries)) }
    ensures frames { (result.leg.sent ≡ sent_count leg.now.history.entries) ×
        (result.leg.acknowledged ≡ acked_count leg.now.history.entries)
        × (result.leg.taken ≡ taken_count leg.now.history.entries) }
    ensures digits { (result.leg.digits_taken ≡ count_by (course.is_by Digits Peer) (frames_of leg.now.history.entries))
        × (result.leg.digits_sent ≡ count_by (course.is_by Digits Exchange) (frames_of leg.now.history.entries)) }
    ensures moments { (result.opened ≡ leg.now.facts.opened) × (result.ended ≡ leg.now.ended) }
{
    CallRow {
        call,
        name: leg.name,
        partner: leg.partner,
        leg: CallRecord::of(&leg.history),
        format: leg.facts.format,
        failure: leg.facts.failure,
        resent: leg.facts.resent,
        moments: leg.facts.moments,
        challenged: leg.facts.challenged,
        authenticated: leg.facts.authenticated,
        opened: leg.facts.opened,
        ended: leg.ended,
    }
}
