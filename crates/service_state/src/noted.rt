//! Events that are kept one by one until the log takes them.
use std::alloc::{AllocError, Global};
use std::mem;
use std::sync::atomic::{AtomicU64, Ordering};
use std::sync::{Mutex, Wait};

/// A list to which threads add without waiting. An event is lost if the list is full or another thread has locked it.
#[derive(Drop)]
pub(crate) struct Noted<T: Drop> {
    list: Mutex<Vec<T>>,
    // The number of lost events, modulo 2^64.
    lost: AtomicU64,
}

impl<T: Drop> Noted<T> {
    /// Returns a list with room for `room` events.
    ///
    /// `AllocError`: a request for memory was refused.
    pub(crate) fn new(alloc: Global, room: usize) -> Result<Noted<T>, AllocError> {
        let list = Vec::with_capacity(alloc, room)?;
        Ok(Noted {
            list: Mutex::new(list),
            lost: AtomicU64::new(0),
        })
    }

    /// Adds an event, or counts it as lost.
    pub(crate) fn note(&self, one: T) {
        if let Some(mut list) = self.list.try_lock() {
            if list.len() < list.capacity() && list.push(one).is_ok() {
                return;
            }
        }
        self.lost.fetch_add(1, Ordering::Relaxed);
    }

    /// Takes the events. The list `spare` replaces theirs, with its content.
    pub(crate) fn take<R: Wait>(&self, rt: &R, spare: Vec<T>) -> Vec<T> {
        let mut list = self.list.lock(rt);
        mem::replace(&mut *list, spare)
    }

    /// Returns the number of lost events, modulo 2^64.
    pub(crate) fn lost(&self) -> u64 {
        self.lost.load(Ordering::Relaxed)
    }
}
