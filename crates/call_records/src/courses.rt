//! The course of a call, by the frames of a leg.
ghost use Rattle.std.specs.Prelude.{◌≡◌, ◌≤◌, count_by, length, IfSome};
ghost use Rattle.std.specs.Option.{ForSome, option_copied};
ghost use Rattle.call_signals.specs.NewElements.{named, new_elements};
ghost use Rattle.call_records.specs.SideFrames.{frames_of};
ghost use Rattle.call_records.specs.Courses as course;

use crate::call_end::CallEnd;
use crate::counted::Counted;
use crate::leg_moment::LegMoment;
use crate::side::Side;
use crate::side_frames::{SideFrameView, SideFrames};
use call_signals::{Message, NewElements};
use seq_window::Record;

// Returns the side that opened the call.
pub(crate) fn opener(history: &Record) -> Option<Side>
    ensures { result ≡ course.opener_of (frames_of history.now.entries) }
{
    let frame = SideFrames::of(history).next()?;
    if matches!(frame.meaning(), Message::New) {
        Some(frame.by)
    } else {
        None
    }
}

// Returns the data of its NEW.
fn new_data(history: &Record) -> &[u8]
    ensures { result.now ≡ course.new_data (frames_of history.now.entries) }
{
    match SideFrames::of(history).next() {
        Some(frame) if matches!(frame.meaning(), Message::New) => frame.frame.payload,
        _ => &[],
    }
}

// Returns the elements of its NEW.
pub(crate) fn elements_of_new(history: &Record) -> NewElements<'_>
    ensures elements { named result ≡ new_elements (course.new_data (frames_of history.now.entries)) }
    ensures called { IfSome result.called (λ text. length text.now ≤ 255) }
    ensures calling { IfSome result.calling (λ text. length text.now ≤ 255) }
{
    NewElements::read(new_data(history))
}

// The course of a call: the moments at which it was accepted and answered, and its end.
#[derive(Clone, Copy)]
pub(crate) struct Course {
    pub(crate) accepted: Option<LegMoment>,
    pub(crate) answered: Option<LegMoment>,
    pub(crate) end: Option<CallEnd>,
}

// Returns the course of the call that this side opened.
pub(crate) fn course_of(history: &Record, opener: Option<Side>) -> Course
    ensures accepted { result.accepted ≡ course.accepted_of opener (frames_of history.now.entries) }
    ensures answered { result.answered ≡ course.answered_of opener (frames_of history.now.entries) }
    ensures end { result.end ≡ course.end_of opener (frames_of history.now.entries) }
{
    let mut frames = SideFrames::of(history);
    let mut accepted = None;
    let mut answered = None;
    while let Some(frame) = frames.next() {
        if let Some(how) = frame.ending(opener, accepted.is_some()) {
            return Course {
                accepted,
                answered,
                end: Some(frame.end(how)),
            };
        }
        if accepted.is_none() {
            if frame.accepts(opener) {
                accepted = Some(frame.moment());
            }
        } else if answered.is_none() && frame.answers(opener) {
            answered = Some(frame.moment());
        }
    }
    Course {
        accepted,
        answered,
        end: None,
    }
}

// Returns the number of frames of this kind that a side sent.
pub(crate) fn count(history: &Record, kind: Counted, side: Side) -> usize
    ensures { result ≡ count_by (course.is_by kind side) (frames_of history.now.entries) }
{
    let mut frames = SideFrames::of(history);
    let mut count = 0;
    while let Some(frame) = frames.next() {
        if frame.is_by(kind, side) {
            count += 1;
        }
    }
    count
}
