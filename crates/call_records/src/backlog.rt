//! Rows that wait to be written.
ghost use Rattle.std.specs.Prelude.{◌≡◌, ◌<◌, ◌↔◌, ◌==◌, [], length, slice_get, option_copied, IfOk, IsTrue};
ghost use Rattle.call_records.specs.Backlog.{with_row, without_front};

use circular_buffer::HeapCircularBuffer;
use std::alloc::{AllocError, Global};
use std::marker::Model;

/// Rows that wait to be written, in order, in bounded memory. Without room a row is lost, and counted.
///
/// Only `new` takes memory. Contracts see the rows, the oldest first, the capacity, and the number of lost rows.
#[derive(Drop)]
pub struct Backlog<T: Drop> {
    ring: HeapCircularBuffer<T>,
    lost: u64,
}

impl<T: Drop> Model for Backlog<T> {
    ghost use Rattle.call_records.specs.Backlog.{BacklogState, backlog_code};

    ghost Value = { BacklogState T };

    ghost coded = { backlog_code T.code };

    ghost view = { λ b. record { waiting = b.ring.items; capacity = b.ring.capacity; lost = b.lost } };
}

impl<T: Drop> Backlog<T> {
    /// Returns an empty backlog with room for `capacity` rows.
    ///
    /// Returns `AllocError` if a request for memory was refused.
    pub fn new(alloc: Global, capacity: usize) -> Result<Backlog<T>, AllocError>
        ensures { IfOk result (λ backlog. backlog ≡ record { waiting = []; capacity = capacity; lost = 0 }) }
    {
        Ok(Backlog {
            ring: HeapCircularBuffer::with_capacity(alloc, capacity)?,
            lost: 0,
        })
    }

    /// Returns the number of waiting rows, at most the capacity.
    pub fn len(&self) -> usize
        ensures { result ≡ length self.now.waiting }
    {
        self.ring.len()
    }

    /// Returns whether no row waits.
    pub fn is_empty(&self) -> bool
        ensures { result ≡ (length self.now.waiting == 0) }
    {
        self.ring.is_empty()
    }

    /// Returns the number of lost rows, modulo 2^64.
    pub fn lost(&self) -> u64
        ensures { result ≡ self.now.lost }
    {
        self.lost
    }

    /// Adds a row at the end, or counts it as lost if there is no room. Returns whether it was added.
    pub fn push(&mut self, row: T) -> bool
        ensures kept { IsTrue result ↔ (length self.old.waiting < self.old.capacity) }
        ensures after { self.new ≡ with_row self.old row }
    {
        match self.ring.try_push_back(row) {
            Ok(()) => true,
            Err(_row) => {
                self.lost = self.lost.wrapping_add(1);
                false
            }
        }
    }

    /// Returns the oldest row, which stays, or `None` if no row waits.
    pub fn front(&self) -> Option<&T>
        ensures { option_copied result ≡ slice_get self.now.waiting 0 }
    {
        self.ring.front()
    }

    /// Removes and returns the oldest row, or `None` if no row waits.
    pub fn take(&mut self) -> Option<T>
        ensures row { result ≡ slice_get self.old.waiting 0 }
        ensures after { self.new ≡ without_front self.old }
    {
        self.ring.pop_front()
    }
}
