//! The trunk queue of a peer ("Meta Frames").
ghost use Rattle.std.specs.Prelude.{◌≡◌, ℕ, ◌+◌, ◌<◌, ◌≤◌, ◌↔◌, ◌^◌, List, [], ◌∷◌, ◌++◌, length, slice_index, IsTrue, IsOk};
ghost use Rattle.std.specs.Prelude.{nat_le, IfOk, OnOk, OnErr, Some, IsNone, IfNone, IfSome};
ghost use Rattle.iax_frames.specs.TrunkFrame.{IsTrunk, head_len, is_timed};
ghost use Rattle.trunk_packer.specs.Queue.{QueueEntry, media_octets, HasRoom, IsFull, PacksFront};
ghost use Rattle.trunk_packer.specs.Queue.{call_entries, has_call, trunk_octets, trunk_spelling};
ghost use Rattle.trunk_packer.specs.Stored.{stored, IsStored, first_stored};
ghost use Rattle.trunk_packer.specs.Packing.{AppendsFront};
ghost use Rattle.memory_requests.specs.Refused.{WasRefused};

use crate::pieces::Pieces;
use crate::stored::split_entry;
use circular_buffer::HeapCircularBuffer;
use iax_frames::{CallNumber, Out, write_trunk};
use memory_requests::ring_with_capacity;
use std::alloc::{AllocError, Global};
use std::marker::Model;

/// The greatest number of entries in a queue.
const MAX_ENTRIES: usize = 256;
/// The greatest number of octets of media in a queue.
const MAX_QUEUED: usize = 16384;
/// The greatest number of octets of media in an entry.
const MAX_MEDIA: usize = 1380;
/// The octets of a full queue: 6 before the media of each of its 256 entries, and the media.
const CAPACITY: usize = 17920;

/// The reason why media isn't queued, in the order in which causes are checked.
#[derive(Clone, Copy, Debug, PartialEq, Eq)]
pub enum QueueError {
    /// The media has more than 1,380 octets.
    TooLong,
    /// The queue has 256 entries, or the media would bring it past 16,384 octets of media.
    QueueFull,
}

/// The media that waits for a trunk frame, in order. Contracts see its list of entries.
///
/// Only `new` takes memory. `queue` adds an entry at the end, and `pack` takes as many from the front as a trunk frame
/// holds. The others are read-only.
#[derive(Drop)]
pub struct Packer {
    // Each entry is its number, the length of its media and its timestamp, two octets each, and the media.
    octets: HeapCircularBuffer<u8>,
    entries: usize,
    media: usize,
}

impl Model for Packer {
    ghost use Rattle.std.specs.Prelude.{◌≡◌, List};
    ghost use Rattle.trunk_packer.specs.Queue.{QueueEntry};
    ghost use Rattle.trunk_packer.specs.Stored.{queue_in, HoldsQueue};

    ghost Value = { List QueueEntry };

    ghost view = { λ p. queue_in p.octets.items };

    ghost invariant = { λ p. (p.octets.capacity ≡ 17920) × HoldsQueue p.octets.items p.entries p.media };
}

impl Packer {
    /// Returns an empty queue, with room for 256 entries and 16,384 octets of media. Returns `Err` only if memory was
    /// refused.
    pub fn new(alloc: Global) -> Result<Packer, AllocError>
        ensures empty { IfOk result (λ packer. packer ≡ []) }
        ensures no_memory { OnErr result WasRefused }
    {
        Ok(Packer {
            octets: ring_with_capacity(alloc, CAPACITY)?,
            entries: 0,
            media: 0,
        })
    }

    /// Returns the number of queued entries, 0 ..= 256, and the octets of their media, 0 ..= 16,384.
    pub fn queued(&self) -> (usize, u64)
        ensures entries { result.0 ≡ length self.now }
        ensures octets { result.1 ≡ media_octets self.now }
        ensures few_entries { result.0 ≤ 256 }
        ensures few_octets { result.1 ≤ 16384 }
    {
        (self.entries, self.media as u64)
    }

    /// Returns whether nothing is queued.
    pub fn is_empty(&self) -> bool
        ensures { IsTrue result ↔ (self.now ≡ []) }
    {
        self.entries == 0
    }

    // Returns the number of queued entries of a call, 0 ..= 256.
    fn call_entries(&self, number: CallNumber) -> usize
        ensures entries { result ≡ call_entries number self.now }
        ensures few { result ≤ length self.now }
    {
        let (front, back) = self.octets.as_slices();
        let mut left = Pieces { front, back };
        let mut entries = 0;
        while let Some((entry, rest)) = split_entry(&left) {
            if entry.is_of(number) {
                entries += 1;
            }
            left = rest;
        }
        entries
    }

    /// Returns whether media of a call is queued.
    pub fn has_call(&self, number: CallNumber) -> bool
        ensures { result ≡ has_call number self.now }
    {
        self.call_entries(number) > 0
    }

    /// Returns whether at least `count` entries of a call are queued.
    pub fn has_entries(&self, number: CallNumber, count: usize) -> bool
        ensures { result ≡ nat_le count (call_entries number self.now) }
    {
        self.entries >= count && self.call_entries(number) >= count
    }

    /// Returns the length in octets of a trunk frame of the whole queue. `timed` says whether its entries have timestamps.
    pub fn frame_len(&self, timed: bool) -> usize
        ensures len { result ≡ trunk_octets timed self.now }
        ensures few { result ≤ 17928 }
    {
        8 + self.entries * entry_head_len(timed) + self.media
    }

    /// Queues media of a call with the low 16 bits of its timestamp, in milliseconds. It takes no memory.
    ///
    /// Refusals are checked in this order: `TooLong` if the media has more than 1,380 octets, `QueueFull` if it has no
    /// room; then nothing is changed.
    pub fn queue(
        &mut self,
        number: CallNumber,
        timestamp: u16,
        media: &[u8],
    ) -> Result<(), QueueError>
        ensures too_long { (result ≡ Err QueueError.TooLong) ↔ (1380 < length media.now) }
        ensures full { (result ≡ Err QueueError.QueueFull) ↔ ((length media.now ≤ 1380) × IsFull self.old (length media.now)) }
        ensures room { IsOk result ↔ ((length media.now ≤ 1380) × HasRoom self.old (length media.now)) }
        ensures queued { OnOk result (self.new ≡ self.old ++
            (record { number = number; timestamp = timestamp; media = media.now }) ∷ []) }
        ensures counted { OnOk result (media_octets self.new ≡ media_octets self.old + length media.now) }
        ensures err { OnErr result (self.new ≡ self.old) }
    {
        if media.len() > MAX_MEDIA {
            return Err(QueueError::TooLong);
        }
        if self.entries == MAX_ENTRIES || media.len() > MAX_QUEUED - self.media {
            return Err(QueueError::QueueFull);
        }
        push_entry(&mut self.octets, number, timestamp, media);
        self.entries += 1;
        self.media += media.len();
        Ok(())
    }

    /// Takes as many entries from the front as fit in one trunk frame of at most 1,400 octets. Returns the frame and the
    /// octets of media in it, or `None` if nothing is queued. `timed` says whether the entries have timestamps. The frame's
    /// timestamp is the moment `now`, in milliseconds, modulo 2^32. It takes no memory.
    pub fn pack(&mut self, now: u64, timed: bool) -> Option<(Out, u64)>
        ensures none { IsNone result ↔ (self.old ≡ []) }
        ensures same { IfNone result (self.new ≡ self.old) }
        ensures packed { IfSome result (λ packed. PacksFront timed now self.old self.new packed.0) }
        ensures counted { IfSome result (λ packed. media_octets self.old ≡ packed.1 + media_octets self.new) }
        ensures some { IfSome result (λ _. length self.new < length self.old) }
    {
        if self.is_empty() {
            return None;
        }
        let mut out = write_trunk((now % (1 << 32)) as u32, timed);
        let (mut entries, mut media) = (0, 0);
        let (front, back) = self.octets.as_slices();
        let mut left = Pieces { front, back };
        while let Some((len, rest)) = append_front(&mut out, &left) {
            entries += 1;
            media += len;
            left = rest;
        }
        let kept = left.len();
        self.octets.truncate_front(kept);
        self.entries -= entries;
        self.media -= media;
        Some((out, media as u64))
    }

    /// Takes the whole queue, which fits in one trunk frame of at most 1,400 octets. Returns the frame and the octets of
    /// media in it, or `None` if nothing is queued. `timed` says whether the entries have timestamps. The frame's timestamp
    /// is the moment `now`, in milliseconds, modulo 2^32. It takes no memory.
    pub fn pack_whole(&mut self, now: u64, timed: bool) -> Option<(Out, u64)>
        requires fits { trunk_octets timed self.old ≤ 1400 }
        ensures none { IsNone result ↔ (self.old ≡ []) }
        ensures same { IfNone result (self.new ≡ self.old) }
        ensures frame { IfSome result (λ packed. packed.0 ≡ trunk_spelling timed now self.old) }
        ensures media { IfSome result (λ packed. packed.1 ≡ media_octets self.old) }
        ensures empty { IfSome result (λ _. self.new ≡ []) }
    {
        let (out, media) = self.pack(now, timed)?;
        Some((out, media))
    }
}

/// Returns the length in octets of an entry's head in a trunk frame: 4, or 6 with timestamps ("Meta Frames").
pub fn entry_head_len(timed: bool) -> usize
    ensures len { result ≡ head_len timed }
    ensures few { result ≤ 6 }
{
    if timed { 6 } else { 4 }
}

// Appends an entry, for which there is room.
fn push_entry(octets: &mut HeapCircularBuffer<u8>, number: CallNumber, timestamp: u16, media: &[u8])
    requires room { length octets.old.items + 6 + length media.now ≤ octets.old.capacity }
    requires short { length media.now ≤ 1380 }
    ensures octets { octets.new.items ≡ octets.old.items ++
        stored (record { number = number; timestamp = timestamp; media = media.now }) }
    ensures capacity { octets.new.capacity ≡ octets.old.capacity }
    ensures entry { IsStored (record { number = number; timestamp = timestamp; media = media.now }) }
{
    let number = number.get().to_be_bytes();
    let len = (media.len() as u16).to_be_bytes();
    let timestamp = timestamp.to_be_bytes();
    octets.fill_from_slice(&[
        number[0],
        number[1],
        len[0],
        len[1],
        timestamp[0],
        timestamp[1],
    ]);
    octets.fill_from_slice(media);
}

// Appends the entry at the front to a trunk frame, and returns the octets of its media and the rest. Changes nothing if
// there is none, or if it doesn't fit.
fn append_front<'a>(out: &mut Out, octets: &Pieces<'a>) -> Option<(usize, Pieces<'a>)>
    requires trunk { IsTrunk out.old }
    requires short { length octets.now < 2 ^ 63 }
    ensures none { IfNone result ((e : QueueEntry) (rest : List ℕ) → first_stored octets.now ≡ Some (e, rest)
        → 1400 < length out.old + head_len (is_timed (slice_index out.old 3)) + length e.media) }
    ensures same { IfNone result (out.new ≡ out.old) }
    ensures some { IfSome result (λ found.
        AppendsFront (is_timed (slice_index out.old 3)) out.old out.new octets.now found.0 found.1) }
{
    match split_entry(octets) {
        Some((entry, rest)) => match entry.append_to(out) {
            Ok(()) => Some((entry.media_len(), rest)),
            Err(_) => None,
        },
        None => None,
    }
}
