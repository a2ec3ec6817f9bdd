//! The record of a leg: the frames that it sent, the acknowledgements, and the frames that it took.

ghost use Rattle.std.specs.Prelude.{◌≡◌, ◌+◌, ◌-◌, ◌*◌, ◌<◌, ◌≤◌, ◌==◌, [], ◌∷◌, ◌++◌, length, slice_get, Some, IsOk, OnOk};
ghost use Rattle.std.specs.Prelude.{OnErr, max};
ghost use Rattle.std.specs.Prelude.{sum_by};
ghost use Rattle.std.specs.Option.{option_map};
ghost use Rattle.seq_window.specs.Entry.{Sent as EntrySent};
ghost use Rattle.seq_window.specs.History.{sent_count, acked_count, taken_count, data_octets};
ghost use Rattle.seq_window.specs.Record.{entry_of, frame_of, octets_of, IsSent};
ghost use Rattle.seq_window.specs.RecordFields.{frame_at, entry_at, counted_by, head_len, EndsBelow};
ghost use Rattle.std.specs.Vec.{vec_capacity};
ghost use Rattle.memory_requests.specs.Refused.{WasRefused};

use memory_requests::{octets_of, reserve};
use std::alloc::{AllocError, Global};
use std::marker::Model;

/// One entry of a record, borrowed from it.
#[derive(Clone, Copy, Debug)]
pub enum EntryView<'a> {
    /// This frame was sent with the next sequence number.
    Sent(FrameView<'a>),
    /// This number of held frames was acknowledged.
    Acked(u32),
    /// This frame of the other side was taken.
    Taken(FrameView<'a>),
}

/// A full frame of a record, borrowed from it.
#[derive(Clone, Copy, Debug)]
pub struct FrameView<'a> {
    /// In milliseconds from the opening of the call.
    pub ts: u32,
    /// The type ("Frame Types").
    pub kind: u8,
    /// The octet of C and subclass.
    pub subclass: u8,
    /// At most 1,388 octets.
    pub payload: &'a [u8],
}

// An entry without the octets of its frame.
#[derive(Clone, Copy)]
enum Head {
    Sent(FrameHead),
    Acked(u32),
    Taken(FrameHead),
}

#[derive(Clone, Copy)]
struct FrameHead {
    ts: u32,
    kind: u8,
    subclass: u8,
    // The place of its octets among those of the record.
    start: u32,
    len: u16,
}

// The counts of a record's entries.
#[derive(Clone, Copy)]
enum Count {
    Sent,
    Acked,
    Taken,
}

impl Head {
    // Returns the number of frames that the entry adds to this count.
    fn counts(&self, count: Count) -> u32
        ensures { result ≡ counted_by count self.now }
    {
        match (count, self) {
            (Count::Sent, Head::Sent(_)) => 1,
            (Count::Acked, Head::Acked(frames)) => *frames,
            (Count::Taken, Head::Taken(_)) => 1,
            _ => 0,
        }
    }
}

/// The frames that a leg sent, the acknowledgements, and the frames that it took, in order.
///
/// Frames are stored at their own length. Contracts see a list of entries, and the number of entries that it takes without
/// further memory.
#[derive(Drop)]
pub struct Record {
    heads: Vec<Head>,
    // The octets of all frames, one after another.
    octets: Vec<u8>,
    // The number of entries for which there is still room.
    spare: usize,
}

// The greatest number of octets that a frame carries.
const MAX_PAYLOAD: usize = 1388;
// The greatest number of entries of a record.
const MAX_ENTRIES: usize = 65536;

impl Model for Record {
    ghost use Rattle.seq_window.specs.Record.{RecordState};

    ghost Value = { RecordState };

    ghost use Rattle.seq_window.specs.RecordFields.{record_of, IsRecord};

    ghost view = { record_of };

    ghost invariant = { IsRecord };
}

impl Record {
    /// Returns an empty record.
    pub(crate) fn new(alloc: Global) -> Self
        ensures { result ≡ record { entries = []; spare = 0 } }
    {
        Record {
            heads: Vec::new(alloc),
            octets: Vec::new(alloc),
            spare: 0,
        }
    }

    /// Returns the number of entries, at most 65,536.
    pub fn len(&self) -> usize
        ensures len { result ≡ length self.now.entries }
        ensures most { result ≤ 65536 }
    {
        self.heads.len()
    }

    /// Returns whether there is no entry.
    pub fn is_empty(&self) -> bool
        ensures { result ≡ (length self.now.entries == 0) }
    {
        self.heads.is_empty()
    }

    /// Returns the number of entries that it takes without further memory.
    pub(crate) fn spare(&self) -> usize
        ensures { result ≡ self.now.spare }
    {
        self.spare
    }

    /// Makes room for `count` more entries. No record has more than 65,536, but a greater count is asked for as well.
    pub(crate) fn reserve(&mut self, count: usize) -> Result<(), AllocError>
        ensures entries { self.new.entries ≡ self.old.entries }
        ensures spare { OnOk result (self.new.spare ≡ max self.old.spare count) }
        ensures had_room { count ≤ self.old.spare → IsOk result }
        ensures err { OnErr result (self.new ≡ self.old) }
        ensures no_memory { count ≤ 65536 → OnErr result WasRefused }
    {
        if count <= self.spare {
            return Ok(());
        }
        if count <= MAX_ENTRIES {
            reserve(&mut self.heads, count)?;
            reserve_octets(&mut self.octets, count)?;
        } else {
            self.heads.reserve(count)?;
            let needed = octets_of(count, MAX_PAYLOAD)?;
            self.octets.reserve(needed)?;
        }
        self.spare = count;
        Ok(())
    }

    /// Adds an entry, whose frame has at most 1,388 octets. It may ask for memory only if no entry is spare.
    pub(crate) fn push(&mut self, added: EntryView<'_>) -> Result<(), AllocError>
        requires few { length self.old.entries < 65536 }
        requires short { length (octets_of added) ≤ 1388 }
        ensures ok { OnOk result (self.new ≡
            record { entries = self.old.entries ++ entry_of added.entry ∷ []; spare = self.old.spare - 1 }) }
        ensures memory { OnErr result (self.old.spare ≡ 0) }
        ensures err { OnErr result (self.new ≡ self.old) }
        ensures no_memory { OnErr result WasRefused }
    {
        self.reserve(1)?;
        let head = push_head(&mut self.octets, added);
        self.heads.push_reserved(head);
        self.spare -= 1;
        Ok(())
    }

    /// Returns the entry at a place, 0 for the first, or `None` if there is none.
    pub fn entry(&self, place: usize) -> Option<EntryView<'_>>
        ensures { option_map entry_of result ≡ slice_get self.now.entries place }
    {
        match *self.heads.get(place)? {
            Head::Sent(head) => Some(EntryView::Sent(frame_in(self.octets.as_slice(), head))),
            Head::Acked(count) => Some(EntryView::Acked(count)),
            Head::Taken(head) => Some(EntryView::Taken(frame_in(self.octets.as_slice(), head))),
        }
    }

    /// Returns the frame of the entry at a place, which is one of a sent frame.
    pub(crate) fn sent_frame(&self, place: usize) -> FrameView<'_>
        requires { IsSent (slice_get self.now.entries place) }
        ensures entry { slice_get self.now.entries place ≡ Some (EntrySent (frame_of result)) }
        ensures short { length result.payload.now ≤ 1388 }
    {
        match self.heads.as_slice()[place] {
            Head::Sent(head) => frame_in(self.octets.as_slice(), head),
            _ => unreachable!(),
        }
    }

    /// Returns the number of frames that were sent with a number.
    pub fn sent_count(&self) -> usize
        ensures { result ≡ sent_count self.now.entries }
    {
        count_in(self.heads.as_slice(), Count::Sent)
    }

    /// Returns the number of sent frames that were acknowledged: the sum over the entries.
    pub fn acked_count(&self) -> usize
        ensures { result ≡ acked_count self.now.entries }
    {
        count_in(self.heads.as_slice(), Count::Acked)
    }

    /// Returns the number of frames taken from the other side.
    pub fn taken_count(&self) -> usize
        ensures { result ≡ taken_count self.now.entries }
    {
        count_in(self.heads.as_slice(), Count::Taken)
    }

    /// Returns the octets of data of all frames, sent and taken.
    pub fn data_octets(&self) -> usize
        ensures octets { result ≡ data_octets self.now.entries }
        ensures most { result ≤ 1388 * 65536 }
    {
        self.octets.as_slice().len()
    }
}

// Makes room for the octets of `count` more frames. A request for memory also asks for room for one more frame of the
// greatest length. Most frames are short, so many of them fit without another request, which would move all octets.
fn reserve_octets(octets: &mut Vec<u8>, count: usize) -> Result<(), AllocError>
    requires few { count ≤ 65536 }
    ensures octets { octets.new.items ≡ octets.old.items }
    ensures room { OnOk result (length octets.new.items + 1388 * count ≤ vec_capacity octets.new) }
    ensures kept { vec_capacity octets.old ≤ vec_capacity octets.new }
    ensures no_memory { OnErr result WasRefused }
{
    let needed = count * MAX_PAYLOAD;
    if octets.capacity() - octets.len() < needed {
        reserve(octets, needed + MAX_PAYLOAD)?;
    }
    Ok(())
}

// Returns the sum of this count over entries.
fn count_in(heads: &[Head], counted: Count) -> usize
    requires { length heads.now ≤ 65536 }
    ensures { result ≡ sum_by (counted_by counted) heads.now }
{
    let mut count = 0;
    for head in heads {
        count += head.counts(counted) as usize;
    }
    count
}

// Returns the frame of a head among the octets of a record.
fn frame_in(octets: &[u8], head: FrameHead) -> FrameView<'_>
    requires { head.start + head.len ≤ length octets.now }
    ensures frame { frame_of result ≡ frame_at octets.now head }
    ensures len { length result.payload.now ≡ head.len }
{
    let start = head.start as usize;
    FrameView {
        ts: head.ts,
        kind: head.kind,
        subclass: head.subclass,
        payload: &octets[start..start + head.len as usize],
    }
}

// Appends the octets of an entry's frame, at most 1,388, and returns the entry's head. There is room for them.
fn push_head(octets: &mut Vec<u8>, added: EntryView<'_>) -> Head
    requires room { length octets.old.items + 1388 ≤ vec_capacity octets.old }
    requires few { length octets.old.items ≤ 1388 * 65536 }
    requires short { length (octets_of added) ≤ 1388 }
    ensures octets { octets.new.items ≡ octets.old.items ++ octets_of added.entry }
    ensures entry { entry_at octets.new.items result ≡ entry_of added.entry }
    ensures within { EndsBelow (length octets.new.items) result }
    ensures len { head_len result ≡ length (octets_of added.entry) }
    ensures capacity { vec_capacity octets.old ≤ vec_capacity octets.new }
{
    match added {
        EntryView::Sent(frame) => Head::Sent(push_octets(octets, frame)),
        EntryView::Acked(count) => Head::Acked(count),
        EntryView::Taken(frame) => Head::Taken(push_octets(octets, frame)),
    }
}

// Appends the octets of a frame, at most 1,388, for which there is room.
fn push_octets(octets: &mut Vec<u8>, frame: FrameView<'_>) -> FrameHead
    requires room { length octets.old.items + 1388 ≤ vec_capacity octets.old }
    requires few { length octets.old.items ≤ 1388 * 65536 }
    requires short { length frame.payload.now ≤ 1388 }
    ensures octets { octets.new.items ≡ octets.old.items ++ frame.entry.payload.now }
    ensures frame { frame_at octets.new.items result ≡ frame_of frame.entry }
    ensures start { result.start ≡ length octets.old.items }
    ensures len { result.len ≡ length frame.entry.payload.now }
    ensures fits { result.len ≤ 1388 }
    ensures capacity { vec_capacity octets.old ≤ vec_capacity octets.new }
{
    let payload = frame.payload;
    let start = octets.len() as u32;
    let appended = octets.extend_from_slice(payload);
    prove!(appended.is_ok());
    FrameHead {
        ts: frame.ts,
        kind: frame.kind,
        subclass: frame.subclass,
        start,
        len: payload.len() as u16,
    }
}
