//! The outlet by which a thread hands rows to another one without waiting for it.
ghost use Rattle.std.specs.Prelude.{◌≡◌, ◌≤◌, [], ◌∷◌, ◌++◌, if◌then◌else◌, length, IsFalse};
ghost use Rattle.call_files.specs.Outlets.{all_of};
ghost use Rattle.rtrb.specs.Ring.{sent};

use call_records::Backlog;
use rtrb::{Producer, PushError};
use std::marker::Model;
use std::mem;

/// A ring to another thread, and the rows for which it had no room, in their order. These go into the ring before any later
/// row. Contracts see the rows that went into the ring, those that are kept, and how many may be.
#[derive(Drop)]
pub struct Outlet<T: Drop> {
    ring: Producer<T>,
    kept: Backlog<T>,
}

impl<T: Drop> Model for Outlet<T> {
    ghost use Rattle.call_files.specs.Outlets.{Handed, handed_code};
    ghost use Rattle.rtrb.specs.Ring.{sent};

    ghost Value = { Handed T };

    ghost coded = { handed_code T.code };

    ghost view = { λ outlet. record { gone = sent outlet.ring; kept = outlet.kept.waiting; room = outlet.kept.capacity } };
}

impl<T: Drop> Outlet<T> {
    /// Returns an outlet with a ring, and room for rows that are kept. Rows already in `kept` count as kept.
    pub fn new(ring: Producer<T>, kept: Backlog<T>) -> Outlet<T>
        ensures { result ≡ record { gone = sent ring; kept = kept.waiting; room = kept.capacity } }
    {
        Outlet { ring, kept }
    }

    // Moves the oldest kept row into the ring. Returns false if none is kept or the ring has no room.
    #[tactic(auto, using(crate::proofs::RowLaws::front_goes_on, crate::proofs::RowLaws::nobody_goes_on))]
    fn pass_one(&mut self) -> bool
        ensures rows { all_of self.new ≡ all_of self.old }
        ensures room { self.new.room ≡ self.old.room }
    {
        if self.ring.is_full() {
            return false;
        }
        match self.kept.take() {
            Some(row) => {
                self.ring.push_reserved(row);
                true
            }
            None => false,
        }
    }

    // Moves the kept rows into the ring, as far as it has room.
    fn pass_on(&mut self)
        ensures rows { all_of self.new ≡ all_of self.old }
        ensures room { self.new.room ≡ self.old.room }
    {
        for _ in 0..self.kept.len() {
            if !self.pass_one() {
                return;
            }
        }
    }

    /// Hands a row over, or keeps it. Returns false if the ring had no room and as many rows are kept as may be; then it is
    /// lost.
    pub fn hand_over(&mut self, row: T) -> bool
        ensures rows { all_of self.new ≡ (if result then all_of self.old ++ row ∷ [] else all_of self.old) }
        ensures full { IsFalse result → self.old.room ≤ length self.new.kept }
        ensures room { self.new.room ≡ self.old.room }
    {
        self.pass_on();
        if !self.kept.is_empty() {
            return self.kept.push(row);
        }
        match self.ring.push(row) {
            Ok(()) => true,
            Err(PushError::Full(row)) => self.kept.push(row),
        }
    }

    /// Returns the number of rows that are kept because the ring had no room for them.
    pub fn kept(&self) -> usize
        ensures { result ≡ length self.now.kept }
    {
        self.kept.len()
    }

    /// Takes the kept rows, which all come after those in the ring. The empty `spare` replaces them.
    pub fn take_kept(&mut self, spare: Backlog<T>) -> Backlog<T>
        requires { spare.waiting ≡ [] }
        ensures rows { result.waiting ≡ self.old.kept }
        ensures after { self.new ≡ record self.old { kept = []; room = spare.capacity } }
    {
        mem::replace(&mut self.kept, spare)
    }
}
