//! A value behind a lock.
ghost use Rattle.std.specs.Prelude.{◌≡◌};

use std::marker::Model;
use std::ops::Deref;
use std::snapshot::Snapshot;
use std::sync::Mutex;

/// A value behind a lock. Contracts see it as the value that was put there first. No clause can say what it is
/// later, because others may have taken the lock.
#[derive(Drop)]
pub(crate) struct Locked<T> {
    lock: Mutex<T>,
    first: Snapshot<T>,
}

impl<T> Model for Locked<T> {
    ghost Value = { T };

    ghost view = { λ l. l.first.value };
}

// Gives the lock. A method that took the lock would add two instructions to each use.
impl<T> Deref for Locked<T> {
    type Target = Mutex<T>;

    #[inline(always)]
    fn deref(&self) -> &Mutex<T> {
        &self.lock
    }
}

impl<T> Locked<T> {
    // Puts a value behind a new lock.
    pub(crate) fn new(value: T) -> Locked<T>
        ensures { result ≡ value }
    {
        let first = Snapshot::of(&value);
        Locked {
            lock: Mutex::new(value),
            first,
        }
    }

    // Returns the value that was put there first. Only contracts see it.
    pub(crate) fn first(&self) -> &Snapshot<T>
        ensures { result.now.value ≡ self.now }
    {
        &self.first
    }

    // Returns the value at its end.
    pub(crate) fn into_inner(self) -> T {
        let Locked { lock, first: _ } = self;
        lock.into_inner()
    }
}

const _: () = prove!(std::mem::size_of::<Locked<u64>>() == std::mem::size_of::<Mutex<u64>>());
