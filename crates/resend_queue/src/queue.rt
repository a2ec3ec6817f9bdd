//! The frames that wait, the oldest first.

ghost use Rattle.std.specs.Prelude.{◌≡◌, ℕ, ◌*◌, ◌≤◌, ◌<◌, ◌↔◌, ◌++◌, ◌∷◌, ◌==◌, [], length, drop, map, position, slice_get};
ghost use Rattle.std.specs.Prelude.{option_copied, IfOk, IfSome, OnOk, OnErr, IfErr, IsOk};
ghost use Rattle.resend_queue.specs.Timing.{is_due, marked, hastened, touched, changed_at};
ghost use Rattle.std.specs.Mem.{type_size};
ghost use Rattle.memory_requests.specs.Refused.{WasRefused};
ghost use Rattle.memory_requests.specs.Requests.{most_octets};
ghost use Rattle.resend_queue.specs.contracts.held_frame.Held.{the_row};

use crate::held_frame::Held;
use circular_buffer::HeapCircularBuffer;
use iax_frames::Frame;
use memory_requests::ring_with_capacity;
use std::alloc::{AllocError, Global};
use std::marker::Model;

/// The queue already holds as many frames as its width.
#[derive(Clone, Copy, Debug, PartialEq, Eq)]
pub struct NoPlace;

/// Frames that wait for their acknowledgement, in the order of their sequence numbers: whole ones, or the places at which
/// their owner finds them.
///
/// Contracts see them as a list, the oldest first, and the greatest number of frames. Only `new` takes memory.
#[derive(Drop)]
pub struct Resend<F = Frame> {
    ring: HeapCircularBuffer<Held<F>>,
}

impl<F> Model for Resend<F> {
    ghost use Rattle.resend_queue.specs.Queue.{Queue};

    ghost Value = { Queue F };

    ghost view = { λ q. record { held = q.ring.items; width = q.ring.capacity } };
}

impl<F: Drop> Resend<F> {
    /// Returns an empty queue with room for `width` frames, 1 ..= 127, of at most 90,965,356 octets together. Returns `Err`
    /// only if memory was refused.
    pub fn new(alloc: Global, width: u8) -> Result<Self, AllocError>
        requires some { 1 ≤ width }
        requires most { width ≤ 127 }
        requires small { width * type_size (the_row F.row) ≤ most_octets }
        ensures empty { IfOk result (λ q. q ≡ record { held = []; width = width }) }
        ensures no_memory { OnErr result WasRefused }
    {
        let ring = ring_with_capacity(alloc, width as usize)?;
        Ok(Resend { ring })
    }

    /// Returns the number of waiting frames, 0 ..= the queue's width.
    pub fn len(&self) -> usize
        ensures len { result ≡ length self.now.held }
        ensures within { result ≤ self.now.width }
    {
        self.ring.len()
    }

    /// Returns whether no frame waits.
    pub fn is_empty(&self) -> bool
        ensures { result ≡ (length self.now.held == 0) }
    {
        self.ring.is_empty()
    }

    /// Adds a frame as the youngest.
    ///
    /// Returns `NoPlace` if and only if the number of waiting frames is the queue's width; the frame comes back, and
    /// nothing is changed.
    pub fn push(&mut self, held: Held<F>) -> Result<(), (Held<F>, NoPlace)>
        ensures variant { IsOk result ↔ (length self.old.held < self.old.width) }
        ensures ok { OnOk result (self.new ≡ record { held = self.old.held ++ held ∷ []; width = self.old.width }) }
        ensures err { IfErr result (λ e. (e.0 ≡ held) × (self.new ≡ self.old)) }
    {
        match self.ring.try_push_back(held) {
            Ok(()) => Ok(()),
            Err(held) => Err((held, NoPlace)),
        }
    }

    /// Drops the `count` oldest frames. The queue has to hold at least that number.
    pub fn drop_front(&mut self, count: usize)
        requires { count ≤ length self.old.held }
        ensures { self.new ≡ record { held = drop count self.old.held; width = self.old.width } }
    {
        let len = self.len();
        self.ring.truncate_front(len - count);
    }

    /// Returns the place, 0 for the oldest, of the first frame that was last sent at least `retry_ms` milliseconds before
    /// `now`. Returns `None` if no frame is due ("Message Transport": retransmission).
    pub fn due(&self, now: u64, retry_ms: u64) -> Option<usize>
        ensures first { result ≡ position (is_due now retry_ms) self.now.held }
        ensures place { IfSome result (λ place. place < length self.now.held) }
    {
        self.ring
            .iter()
            .position(|held| now >= held.last && now - held.last >= retry_ms)
    }

    /// Returns the frame at a place, 0 for the oldest, or `None` if there is none.
    pub fn get(&self, place: usize) -> Option<&Held<F>>
        ensures { option_copied result ≡ slice_get self.now.held place }
    {
        self.ring.get(place)
    }

    /// Marks the frame at a place, 0 for the oldest, as retransmitted at the moment `now`, in milliseconds. That counts as
    /// a try, up to 2^32 - 1 tries.
    pub fn mark(&mut self, place: usize, now: u64)
        requires { place < length self.old.held }
        ensures { self.new ≡ record { held = changed_at (marked now) place self.old.held; width = self.old.width } }
    {
        let held = self.ring.get_mut(place).unwrap();
        held.last = now;
        held.tries = held.tries.saturating_add(1);
    }

    /// Marks the frame at a place, 0 for the oldest, as retransmitted at the moment `moment`, in milliseconds, with one try
    /// fewer if it has any. A moment in the past has it due sooner, and that try counts in place of one before.
    pub fn hasten(&mut self, place: usize, moment: u64)
        requires { place < length self.old.held }
        ensures { self.new ≡ record { held = changed_at (hastened moment) place self.old.held; width = self.old.width } }
    {
        let held = self.ring.get_mut(place).unwrap();
        held.last = moment;
        held.tries = held.tries.saturating_sub(1);
    }

    // Marks the frame at a place, 0 for the oldest, as retransmitted at the moment `now`, in milliseconds. That is no try.
    fn touch(&mut self, place: usize, now: u64)
        requires { place < length self.old.held }
        ensures { self.new ≡ record { held = changed_at (touched now) place self.old.held; width = self.old.width } }
    {
        self.ring.get_mut(place).unwrap().last = now;
    }

    /// Marks each frame as retransmitted at the moment `now`, in milliseconds. That is no try.
    pub fn touch_all(&mut self, now: u64)
        ensures { self.new ≡ record { held = map (touched now) self.old.held; width = self.old.width } }
    {
        for place in 0..self.len() {
            self.touch(place, now);
        }
    }
}
