//! The window of one leg.

ghost use Rattle.std.specs.Prelude.{◌≡◌, ℕ, ◌+◌, ◌*◌, ◌≤◌, ◌<◌, ◌↔◌, [], length, IfOk, IfSome, OnOk, OnErr, IsOk, IsTrue, Some};
ghost use Rattle.std.specs.Option.{option_map};
ghost use Rattle.seq_window.specs.Sequence.{byte_of};
ghost use Rattle.seq_window.specs.History.{sent_count, taken_count, acked_count, data_octets, IsLegal};
ghost use Rattle.seq_window.specs.Record.{frame_of};
ghost use Rattle.seq_window.specs.HeldFrame.{held_of};
ghost use Rattle.seq_window.specs.Window.{held_count, entry_count, is_full, judged_acknowledgement, count_of, judged_number};
ghost use Rattle.seq_window.specs.Window.{after_sending, after_acknowledgement, after_receiving, held_at, after_hastening};
ghost use Rattle.seq_window.specs.Window.{after_touching_all, first_due, tries_at, after_marking, resent, after_resent};
ghost use Rattle.seq_window.specs.Window.{IsPlaceBelow};
ghost use Rattle.memory_requests.specs.Refused.{WasRefused};

use crate::errors::{RecordError, SendError};
use crate::history::{EntryView, FrameView, Record};
use crate::judgements::{Acknowledged, Received, Resent};
use resend_queue::{Held, Resend};
use std::alloc::{AllocError, Global};
use std::marker::Model;

/// The window of one leg: the frames that it holds for retransmission, and its record.
///
/// Contracts see the record, and the sending of each held frame. The held frames and their numbers follow from the record:
/// they are those that were sent and not yet acknowledged. Only the record stores them.
#[derive(Drop)]
pub struct Window {
    history: Record,
    // For each held frame, the place of its entry in the record.
    held: Resend<u32>,
    width: u8,
    limit: u32,
    // The octet of the next number that is sent.
    next: u8,
    // The octet of the oldest held frame's number, or of the next number if no frame is held.
    oldest: u8,
    // The octet of the next number that is expected.
    expected: u8,
}

impl Model for Window {
    ghost use Rattle.seq_window.specs.Window.{Window as State};

    ghost Value = { State };

    ghost use Rattle.seq_window.specs.WindowFields.{window_of, IsSound};

    ghost view = { window_of };

    ghost invariant = { IsSound };
}

impl Window {
    ghost use Rattle.seq_window.specs.declared.judgements.Received.TheVariants as received;

    /// Returns a window that holds at most `width` frames, 1 ..= 127, and records at most `record_limit` entries, 64 ..=
    /// 65,536. Returns `Err` only if memory was refused.
    pub fn new(alloc: Global, width: u8, record_limit: u32) -> Result<Window, AllocError>
        requires some { 1 ≤ width }
        requires narrow { width ≤ 127 }
        requires least { 64 ≤ record_limit }
        requires most { record_limit ≤ 65536 }
        ensures state { IfOk result (λ w. w.state ≡ record { history = []; width = width; limit = record_limit; sendings = [] }) }
        ensures no_memory { OnErr result WasRefused }
    {
        let held = Resend::new(alloc, width)?;
        Ok(Window {
            history: Record::new(alloc),
            held,
            width,
            limit: record_limit,
            next: 0,
            oldest: 0,
            expected: 0,
        })
    }

    /// Records a frame, of at most 1,388 octets, as sent at the moment `now`, in milliseconds, and holds it ("Message
    /// Transport"). Returns the octet of its number, OSeqno.
    ///
    /// Refusals are checked in this order. `WindowFull`: the number of held frames is the width. `RecordFull`: the record
    /// has reached its limit. `Memory`: memory was refused, which never happens with a reserved entry. Then nothing is
    /// changed.
    pub fn send(&mut self, frame: FrameView<'_>, now: u64) -> Result<u8, SendError>
        requires short { length frame.payload.now ≤ 1388 }
        ensures ok { IfOk result (λ number. number ≡ byte_of (sent_count self.old.state.history)) }
        ensures state { OnOk result (self.new.state ≡ after_sending self.old.state (frame_of frame.entry) now) }
        ensures spare { OnOk result (self.old.spare ≤ self.new.spare + 1) }
        ensures capacity { OnOk result (0 < self.old.spare →
            self.new.spare + entry_count self.new.state ≡ self.old.spare + entry_count self.old.state) }
        ensures reserved { 0 < self.old.spare → entry_count self.old.state < self.old.state.limit →
            held_count self.old.state < self.old.state.width → IsOk result }
        ensures window_full { (result ≡ Err SendError.WindowFull) ↔ (held_count self.old.state ≡ self.old.state.width) }
        ensures record_full { (result ≡ Err SendError.RecordFull) ↔
            (held_count self.old.state < self.old.state.width) × (entry_count self.old.state ≡ self.old.state.limit) }
        ensures memory { result ≡ Err SendError.Memory → self.old.spare ≡ 0 }
        ensures err { OnErr result (self.new ≡ self.old) }
        ensures no_memory { result ≡ Err SendError.Memory → WasRefused }
    {
        if self.is_full() {
            return Err(SendError::WindowFull);
        }
        if self.free_entries() == 0 {
            return Err(SendError::RecordFull);
        }
        let place = self.history.len() as u32;
        let Ok(()) = self.history.push(EntryView::Sent(frame)) else {
            return Err(SendError::Memory);
        };
        let number = self.next;
        let pushed = self.held.push(Held {
            number,
            frame: place,
            last: now,
            tries: 0,
        });
        let fits = pushed.is_ok();
        prove!(fits);
        self.next = number.wrapping_add(1);
        Ok(number)
    }

    /// Removes the held frames that the other side acknowledges by ISeqno, if the octet can be such a number ("Message
    /// Transport"). An acknowledgement that removes nothing has no entry and isn't refused.
    ///
    /// Refusals are checked in this order: `RecordFull` if the record has reached its limit, `Memory` if memory was
    /// refused, which never happens with a reserved entry. Then nothing is changed.
    pub fn acknowledge(&mut self, iseq: u8) -> Result<Acknowledged, RecordError>
        ensures ok { IfOk result (λ answer. answer ≡ judged_acknowledgement self.old.state.history iseq) }
        ensures state { OnOk result (self.new.state ≡ after_acknowledgement self.old.state iseq) }
        ensures spare { OnOk result (self.old.spare ≤ self.new.spare + 1) }
        ensures capacity { OnOk result (0 < self.old.spare →
            self.new.spare + entry_count self.new.state ≡ self.old.spare + entry_count self.old.state) }
        ensures reserved { 0 < self.old.spare → entry_count self.old.state < self.old.state.limit → IsOk result }
        ensures record_full { (result ≡ Err RecordError.RecordFull) ↔
            (0 < count_of (judged_acknowledgement self.old.state.history iseq)) ×
            (entry_count self.old.state ≡ self.old.state.limit) }
        ensures memory { result ≡ Err RecordError.Memory →
            (0 < count_of (judged_acknowledgement self.old.state.history iseq)) × (self.old.spare ≡ 0) }
        ensures err { OnErr result (self.new ≡ self.old) }
        ensures no_memory { result ≡ Err RecordError.Memory → WasRefused }
    {
        let judged = self.judge_acknowledgement(iseq);
        let Acknowledged::Acked(count) = judged else {
            return Ok(judged);
        };
        if count == 0 {
            return Ok(judged);
        }
        if self.free_entries() == 0 {
            return Err(RecordError::RecordFull);
        }
        let Ok(()) = self.history.push(EntryView::Acked(count)) else {
            return Err(RecordError::Memory);
        };
        self.held.drop_front(count as usize);
        self.oldest = iseq;
        Ok(judged)
    }

    /// Judges an acknowledgement by its ISeqno ("Message Transport"), as `acknowledge` does. The steps from the oldest held
    /// number to the acknowledged one count, up to the number of held frames.
    pub fn judge_acknowledgement(&self, iseq: u8) -> Acknowledged
        ensures { result ≡ judged_acknowledgement self.now.state.history iseq }
    {
        let distance = iseq.wrapping_sub(self.oldest);
        if distance as usize <= self.held.len() {
            Acknowledged::Acked(u32::from(distance))
        } else {
            Acknowledged::Ignored
        }
    }

    /// Judges a numbered frame by its OSeqno ("Message Transport"). The octet denotes the number nearest to the expected
    /// one, from 128 below it to 127 above it.
    pub fn judge(&self, oseq: u8) -> Received
        ensures { result ≡ judged_number self.now.state.history oseq }
    {
        match oseq.wrapping_sub(self.expected) {
            0 => Received::Taken,
            1..=127 => Received::Gap,
            _ => Received::Repeat,
        }
    }

    /// Judges a numbered frame, of at most 1,388 octets, by its OSeqno, and records it if it is the next one ("Message
    /// Transport"). An out-of-order frame returns `Gap` or `Repeat`, not an error.
    ///
    /// Refusals are checked in this order: `RecordFull` if the record has reached its limit, `Memory` if memory was
    /// refused, which never happens with a reserved entry. Then nothing is changed.
    pub fn receive(&mut self, oseq: u8, frame: FrameView<'_>) -> Result<Received, RecordError>
        requires short { length frame.payload.now ≤ 1388 }
        ensures ok { IfOk result (λ received. received ≡ judged_number self.old.state.history oseq) }
        ensures state { OnOk result (self.new.state ≡ after_receiving self.old.state oseq (frame_of frame.entry)) }
        ensures spare { OnOk result (self.old.spare ≤ self.new.spare + 1) }
        ensures capacity { OnOk result (0 < self.old.spare →
            self.new.spare + entry_count self.new.state ≡ self.old.spare + entry_count self.old.state) }
        ensures reserved { 0 < self.old.spare → entry_count self.old.state < self.old.state.limit → IsOk result }
        ensures record_full { (result ≡ Err RecordError.RecordFull) ↔
            (judged_number self.old.state.history oseq ≡ received.Taken) × (entry_count self.old.state ≡ self.old.state.limit) }
        ensures memory { result ≡ Err RecordError.Memory →
            (judged_number self.old.state.history oseq ≡ received.Taken) × (self.old.spare ≡ 0) }
        ensures err { OnErr result (self.new ≡ self.old) }
        ensures no_memory { result ≡ Err RecordError.Memory → WasRefused }
    {
        let judged = self.judge(oseq);
        if judged != Received::Taken {
            return Ok(judged);
        }
        if self.free_entries() == 0 {
            return Err(RecordError::RecordFull);
        }
        let Ok(()) = self.history.push(EntryView::Taken(frame)) else {
            return Err(RecordError::Memory);
        };
        self.expected = self.expected.wrapping_add(1);
        Ok(Received::Taken)
    }

    /// Retransmits the first held frame that was last sent at least `retry_ms` milliseconds before `now`, if it was
    /// retransmitted fewer than `max_retries` times ("Message Transport").
    pub fn resend(&mut self, now: u64, retry_ms: u64, max_retries: u32) -> Resent
        ensures resent { result ≡ resent self.old.state now retry_ms max_retries }
        ensures state { self.new.state ≡ after_resent (resent self.old.state now retry_ms max_retries) self.old.state now }
        ensures spare { self.new.spare ≡ self.old.spare }
        ensures place { IsPlaceBelow (held_count self.new.state) result }
    {
        match self.first_due(now, retry_ms) {
            None => Resent::Nothing,
            Some(place) => {
                if max_retries <= self.tries(place) {
                    Resent::Spent
                } else {
                    self.mark(place, now);
                    Resent::Again(place)
                }
            }
        }
    }

    // Returns the first place that is due.
    fn first_due(&self, now: u64, retry_ms: u64) -> Option<usize>
        ensures value { result ≡ first_due now retry_ms self.now.state.sendings }
        ensures place { IfSome result (λ place. place < held_count self.now.state) }
    {
        self.held.due(now, retry_ms)
    }

    // Returns the number of times that a held frame was retransmitted because it was due.
    fn tries(&self, place: usize) -> u32
        requires { place < held_count self.now.state }
        ensures { result ≡ tries_at place self.now.state.sendings }
    {
        self.held_frame(place).tries
    }

    // Marks the frame at a place as retransmitted at this moment, as one more try.
    fn mark(&mut self, place: usize, now: u64)
        requires { place < held_count self.old.state }
        ensures state { self.new.state ≡ after_marking self.old.state place now }
        ensures count { held_count self.new.state ≡ held_count self.old.state }
        ensures spare { self.new.spare ≡ self.old.spare }
    {
        self.held.mark(place, now);
    }

    /// Marks the held frame at a place, 0 for the oldest, as retransmitted at the moment `moment`, in milliseconds, with one
    /// try fewer if it has any. A moment in the past has it due sooner, and that try counts in place of one before.
    pub fn hasten(&mut self, place: usize, moment: u64)
        requires { place < held_count self.old.state }
        ensures state { self.new.state ≡ after_hastening self.old.state place moment }
        ensures spare { self.new.spare ≡ self.old.spare }
    {
        self.held.hasten(place, moment);
    }

    /// Marks each held frame as retransmitted at the moment `now`, in milliseconds. That is no try.
    pub fn touch_all(&mut self, now: u64)
        ensures state { self.new.state ≡ after_touching_all self.old.state now }
        ensures spare { self.new.spare ≡ self.old.spare }
    {
        self.held.touch_all(now);
    }

    /// Reserves room for `count` more entries: this number of calls of `send`, `acknowledge` and `receive` isn't refused
    /// for memory. Returns `Err` only if memory was refused, and never if there is that room already; then nothing is
    /// changed. No record has more than 65,536 entries, but a greater count is asked for as well.
    pub fn reserve(&mut self, count: usize) -> Result<(), AllocError>
        ensures state { self.new.state ≡ self.old.state }
        ensures ok { OnOk result (count ≤ self.new.spare) }
        ensures spare { self.old.spare ≤ self.new.spare }
        ensures had_room { count ≤ self.old.spare → IsOk result }
        ensures err { OnErr result (self.new ≡ self.old) }
        ensures no_memory { count ≤ 65536 → OnErr result WasRefused }
    {
        self.history.reserve(count)
    }

    /// Returns the held frame at a place, 0 for the oldest, borrowed from the record, or `None` if there is none.
    pub fn held(&self, place: usize) -> Option<Held<FrameView<'_>>>
        ensures { option_map held_of result ≡ held_at self.now.state place }
    {
        if place < self.held.len() {
            Some(self.held_frame(place))
        } else {
            None
        }
    }

    /// Returns the held frame at a place, 0 for the oldest, which is below `held_len`, borrowed from the record: at most
    /// 1,388 octets.
    pub fn held_frame(&self, place: usize) -> Held<FrameView<'_>>
        requires { place < held_count self.now.state }
        ensures held { held_at self.now.state place ≡ Some (held_of result) }
        ensures short { length result.frame.payload.now ≤ 1388 }
    {
        let held = self.held.get(place).unwrap();
        Held {
            number: held.number,
            frame: self.history.sent_frame(held.frame as usize),
            last: held.last,
            tries: held.tries,
        }
    }

    /// Returns the number of held frames, 0 ..= the window's width.
    pub fn held_len(&self) -> usize
        ensures value { result ≡ held_count self.now.state }
        // They are those that the record has as sent and not acknowledged.
        ensures held { result + acked_count self.now.state.history ≡ sent_count self.now.state.history }
        ensures width { result ≤ self.now.state.width }
        ensures most { result ≤ 127 }
    {
        self.held.len()
    }

    /// Returns whether the number of held frames is the window's width.
    pub fn is_full(&self) -> bool
        ensures { result ≡ is_full self.now.state }
    {
        self.width as usize <= self.held_len()
    }

    /// Returns the number of entries that the record may still have, 0 ..= its limit.
    pub fn free_entries(&self) -> usize
        ensures { result + entry_count self.now.state ≡ self.now.state.limit }
    {
        self.limit as usize - self.history.len()
    }

    /// Returns the octets of data of all frames of the record, 0 ..= 90,963,968.
    pub fn data_octets(&self) -> usize
        ensures octets { result ≡ data_octets self.now.state.history }
        ensures most { result ≤ 1388 * 65536 }
    {
        self.history.data_octets()
    }

    /// Returns the number of entries that the record takes without further memory.
    pub fn spare(&self) -> usize
        ensures { result ≡ self.now.spare }
    {
        self.history.spare()
    }

    /// Returns the octet of the next number, the OSeqno of a frame that is sent now.
    pub fn next(&self) -> u8
        ensures { result ≡ byte_of (sent_count self.now.state.history) }
    {
        self.next
    }

    /// Returns the octet of the next expected number, the ISeqno of a frame that is sent now.
    pub fn expected(&self) -> u8
        ensures { result ≡ byte_of (taken_count self.now.state.history) }
    {
        self.expected
    }

    /// Returns the greatest number of held frames, 1 ..= 127.
    pub fn width(&self) -> u8
        ensures width { result ≡ self.now.state.width }
        ensures some { 1 ≤ result }
        ensures most { result ≤ 127 }
    {
        self.width
    }

    /// Returns the record: the sent frames, the acknowledgements, and the taken frames.
    pub fn record(&self) -> &Record
        ensures entries { result.now.entries ≡ self.now.state.history }
        ensures legal { IsLegal self.now.state.width self.now.state.limit self.now.state.history }
    {
        &self.history
    }

    /// Returns the whole record, when the window is given up.
    pub fn into_record(self) -> Record
        ensures entries { result.entries ≡ self.state.history }
        ensures legal { IsLegal self.state.width self.state.limit self.state.history }
    {
        let Window { history, .. } = self;
        history
    }
}
