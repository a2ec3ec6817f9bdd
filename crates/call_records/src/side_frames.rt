//! The frames that both sides of a leg sent each other, one after another.
ghost use Rattle.std.specs.Prelude.{◌≡◌, ◌+◌, ◌<◌, ◌≤◌, List, [], ◌∷◌, ◌++◌, length, drop, MatchOption, IfSome, IfNone, OnSome};
ghost use Rattle.std.specs.Option.{option_map, option_to_list};
ghost use Rattle.seq_window.specs.Entry.{Entry};
ghost use Rattle.seq_window.specs.Record.{entry_of};
ghost use Rattle.call_records.specs.SideFrames.{frames_of, meaning_of, side_frame_of};
ghost use Rattle.call_records.specs.Courses as course;

use crate::call_end::{CallEnd, Ending};
use crate::counted::Counted;
use crate::leg_moment::LegMoment;
use crate::side::Side;
use call_signals::Message;
use info_elements::{CAUSECODE, last_in};
use seq_window::{EntryView, FrameView, Record};
use std::marker::Model;

/// A frame of a record, borrowed from it, and the side that sent it.
#[derive(Clone, Copy)]
pub struct SideFrameView<'a> {
    pub by: Side,
    pub frame: FrameView<'a>,
}

/// Reads the frames of a record one after another. Contracts see the remaining ones.
#[derive(Drop)]
pub struct SideFrames<'a> {
    history: &'a Record,
    // The place of the next entry.
    place: usize,
}

impl<'a> Model for SideFrames<'a> {
    ghost use Rattle.std.specs.Prelude.{List};
    ghost use Rattle.call_records.specs.SideFrames.{SideFrame};

    ghost Value = { List SideFrame };

    ghost use Rattle.call_records.specs.Reader.{frames_left, IsReader};

    ghost view = { frames_left };

    ghost invariant = { IsReader };
}

// Returns the entry at a place of a record.
fn entry_at(history: &Record, place: usize) -> Option<EntryView<'_>>
    ensures some { IfSome result (λ entry.
        drop place history.now.entries ≡ entry_of entry ∷ drop (place + 1) history.now.entries) }
    ensures within { OnSome result (place < length history.now.entries) }
    ensures none { IfNone result (drop place history.now.entries ≡ []) }
{
    history.entry(place)
}

// Returns the frame of an entry, if it has one.
fn frame_in(entry: EntryView<'_>) -> Option<SideFrameView<'_>>
    ensures { (entries : List Entry)
        → frames_of (entry_of entry.entry ∷ entries) ≡ option_to_list (option_map side_frame_of result) ++ frames_of entries }
{
    match entry {
        EntryView::Sent(frame) => Some(SideFrameView {
            by: Side::Exchange,
            frame,
        }),
        EntryView::Taken(frame) => Some(SideFrameView {
            by: Side::Peer,
            frame,
        }),
        EntryView::Acked(_) => None,
    }
}

impl<'a> SideFrames<'a> {
    /// Returns the frames of a record, at most 65,536, from the first on.
    pub fn of(history: &'a Record) -> SideFrames<'a>
        ensures frames { result ≡ frames_of history.now.entries }
        ensures few { length result ≤ 65536 }
    {
        let _most = history.len();
        SideFrames { history, place: 0 }
    }

    /// Returns the next frame, or `None` if none is left.
    pub fn next(&mut self) -> Option<SideFrameView<'a>>
        ensures { MatchOption result ((self.old ≡ []) × (self.new ≡ [])) (λ frame. self.old ≡ side_frame_of frame ∷ self.new) }
    {
        while let Some(entry) = entry_at(self.history, self.place) {
            self.place += 1;
            if let Some(frame) = frame_in(entry) {
                return Some(frame);
            }
        }
        None
    }
}

impl<'a> SideFrameView<'a> {
    // Returns its message.
    pub(crate) fn meaning(&self) -> Message
        ensures { result ≡ meaning_of (side_frame_of self.now) }
    {
        Message::of_octets(self.frame.kind, self.frame.subclass)
    }

    // Returns whether it accepts a call that this side opened.
    pub(crate) fn accepts(&self, opener: Option<Side>) -> bool
        ensures { result ≡ course.accepts opener (side_frame_of self.now) }
    {
        self.by.is_called(opener) && matches!(self.meaning(), Message::Accept)
    }

    // Returns whether it answers a call that this side opened.
    pub(crate) fn answers(&self, opener: Option<Side>) -> bool
        ensures { result ≡ course.answers opener (side_frame_of self.now) }
    {
        self.by.is_called(opener) && matches!(self.meaning(), Message::Answer)
    }

    // Returns how it ends a call that this side opened, if it does. `accepted` says whether the call was accepted before.
    pub(crate) fn ending(&self, opener: Option<Side>, accepted: bool) -> Option<Ending>
        ensures { result ≡ course.ending_of opener accepted (side_frame_of self.now) }
    {
        match (self.by, self.meaning()) {
            (Side::Exchange, Message::Hangup) => Some(Ending::HungUpHere),
            (Side::Peer, Message::Hangup) => Some(Ending::HungUpByPeer),
            (Side::Exchange, Message::Reject) => Some(Ending::RejectedHere),
            (Side::Peer, Message::Reject) if Side::Peer.is_called(opener) && !accepted => {
                Some(Ending::RejectedByPeer)
            }
            _ => None,
        }
    }

    // Returns whether it is of this kind and of this side.
    pub(crate) fn is_by(&self, kind: Counted, side: Side) -> bool
        ensures { result ≡ course.is_by kind side (side_frame_of self.now) }
    {
        side.is(self.by) && kind.has(&self.meaning())
    }

    // Returns its moment.
    pub(crate) fn moment(&self) -> LegMoment
        ensures { result ≡ course.moment_of (side_frame_of self.now) }
    {
        LegMoment {
            ms: self.frame.ts,
            clock: self.by,
        }
    }

    // Returns its CAUSECODE.
    pub(crate) fn cause(&self) -> Option<u8>
        ensures { result ≡ course.cause_in (side_frame_of self.now) }
    {
        match last_in(self.frame.payload, CAUSECODE) {
            Some([code]) => Some(*code),
            _ => None,
        }
    }

    // Returns the end of the call that it ends in this way.
    pub(crate) fn end(&self, how: Ending) -> CallEnd
        ensures { result ≡ course.end_by (side_frame_of self.now) how }
    {
        CallEnd {
            how,
            at: self.moment(),
            cause: self.cause(),
        }
    }
}
