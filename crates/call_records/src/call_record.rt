//! The call of a leg, as the leg's record shows it.
ghost use Rattle.std.specs.Prelude.{◌≡◌, count_by};
ghost use Rattle.seq_window.specs.History.{sent_count, acked_count, taken_count};
ghost use Rattle.call_signals.specs.NewElements.{new_elements};
ghost use Rattle.call_records.specs.SideFrames.{frames_of};
ghost use Rattle.call_records.specs.Courses as course;
ghost use Rattle.call_records.specs.declared.counted.Counted.TheVariants.{Challenges, Digits};
ghost use Rattle.call_records.specs.declared.side.Side.TheVariants.{Peer, Exchange};

use crate::call_end::CallEnd;
use crate::counted::Counted;
use crate::courses;
use crate::courses::Course;
use crate::leg_moment::LegMoment;
use crate::side::Side;
use call_signals::ElementText;
use seq_window::Record;

/// The call of a leg, as the leg's record shows it.
#[derive(Drop)]
pub struct CallRecord {
    /// The side that opened the call; none if the record doesn't begin with a NEW.
    pub opened_by: Option<Side>,
    /// The called number of the NEW, at most 255 octets.
    pub called: Option<ElementText>,
    /// The calling number of the NEW, at most 255 octets.
    pub calling: Option<ElementText>,
    /// The moment of the called side's ACCEPT, if it came before the end.
    pub accepted: Option<LegMoment>,
    /// The moment of the called side's ANSWER, if it came after its ACCEPT and before the end.
    pub answered: Option<LegMoment>,
    /// The end of the call; none if no frame ended it.
    pub end: Option<CallEnd>,
    /// Frames that were sent, each counted once, and the number of these that were acknowledged.
    pub sent: usize,
    pub acknowledged: usize,
    /// Frames accepted from the peer.
    pub taken: usize,
    /// DTMF frames accepted from the peer.
    pub digits_taken: usize,
    /// DTMF frames that were sent.
    pub digits_sent: usize,
    /// AUTHREQ frames accepted from the peer.
    pub challenges_taken: usize,
}

impl CallRecord {
    /// Reads the call from the frames that both sides sent each other, and from nothing else ("Call Setup", "Call Tear
    /// Down"). Moments are in milliseconds since the leg was opened.
    pub fn of(history: &Record) -> CallRecord
        ensures opened_by { result.opened_by ≡ course.opener_of (frames_of history.now.entries) }
        ensures called { result.called ≡ (new_elements (course.new_data (frames_of history.now.entries))).called }
        ensures calling { result.calling ≡ (new_elements (course.new_data (frames_of history.now.entries))).calling }
        ensures accepted { result.accepted
            ≡ course.accepted_of (course.opener_of (frames_of history.now.entries)) (frames_of history.now.entries) }
        ensures answered { result.answered
            ≡ course.answered_of (course.opener_of (frames_of history.now.entries)) (frames_of history.now.entries) }
        ensures end { result.end
            ≡ course.end_of (course.opener_of (frames_of history.now.entries)) (frames_of history.now.entries) }
        ensures sent { result.sent ≡ sent_count history.now.entries }
        ensures acknowledged { result.acknowledged ≡ acked_count history.now.entries }
        ensures taken { result.taken ≡ taken_count history.now.entries }
        ensures digits_taken { result.digits_taken ≡ count_by (course.is_by Digits Peer) (frames_of history.now.entries) }
        ensures digits_sent { result.digits_sent ≡ count_by (course.is_by Digits Exchange) (frames_of history.now.entries) }
        ensures challenges_taken { result.challenges_taken ≡
            count_by (course.is_by Challenges Peer) (frames_of history.now.entries) }
    {
        let opened_by = courses::opener(history);
        let elements = courses::elements_of_new(history);
        let Course {
            accepted,
            answered,
            end,
        } = courses::course_of(history, opened_by);
        CallRecord {
            opened_by,
            called: ElementText::of(elements.called),
            calling: ElementText::of(elements.calling),
            accepted,
            answered,
            end,
            sent: history.sent_count(),
            acknowledged: history.acked_count(),
            taken: history.taken_count(),
            digits_taken: courses::count(history, Counted::Digits, Side::Peer),
            digits_sent: courses::count(history, Counted::Digits, Side::Exchange),
            challenges_taken: courses::count(history, Counted::Challenges, Side::Peer),
        }
    }

    /// Returns the milliseconds from the answer to the end, if one clock measured both: then the called side hung up.
    /// Returns `None` if the call wasn't answered or hasn't ended, if two clocks measured them, or if the end is the
    /// earlier one.
    pub fn talk_ms(&self) -> Option<u32>
        ensures { result ≡ course.talk_ms self.now.answered self.now.end }
    {
        match (self.answered, self.end) {
            (Some(answered), Some(end)) => answered.ms_to(end.at),
            _ => None,
        }
    }
}
