//! The batches that a thread has handed over, until the writer takes them.
ghost use Rattle.std.specs.Prelude.{◌≡◌, ◌++◌, ◌<◌, [], vec_len, vec_capacity};
ghost use Rattle.trace_writer.specs.Noted.{marks_of, octets_of};

use crate::mark::Batch;
use std::alloc::{AllocError, Global};
use std::mem;

// The number of batches between a thread and the writer, not counting the one that the thread fills. While the writer is
// held up by five that it took, five more are left. One of these may be nearly empty; the other four hold 16,384 calls.
const BATCHES: usize = 10;

/// The batches that a thread has handed over, and spare ones for its next notes.
#[derive(Drop)]
pub(crate) struct Handed {
    alloc: Global,
    batches: Vec<Batch>,
    spare: Vec<Batch>,
}

impl Handed {
    /// Returns a state in which nothing was handed over.
    ///
    /// Returns `AllocError` if a request for memory was refused.
    pub(crate) fn new(alloc: Global) -> Result<Handed, AllocError> {
        let mut spare = Vec::with_capacity(alloc, BATCHES + 1)?;
        for _ in 0..BATCHES {
            if spare.push(Batch::new(alloc)?).is_err() {
                return Err(AllocError);
            }
        }
        Ok(Handed {
            alloc,
            batches: Handed::list(alloc)?,
            spare,
        })
    }

    /// Returns a list with room for all batches of a thread.
    ///
    /// Returns `AllocError` if a request for memory was refused.
    pub(crate) fn list(alloc: Global) -> Result<Vec<Batch>, AllocError> {
        Vec::with_capacity(alloc, BATCHES + 1)
    }

    // Returns a spare batch for the next notes, or one without room if none is spare.
    fn next(&mut self) -> Batch
        ensures marks { result.marks.items ≡ [] }
        ensures octets { result.octets.items ≡ [] }
        ensures batches { self.new.batches ≡ self.old.batches }
    {
        match self.spare.pop() {
            Some(batch) => {
                let mut batch = batch;
                batch.clear();
                batch
            }
            None => Batch::without_room(self.alloc),
        }
    }

    /// Hands over the notes of a thread, behind all that was handed over before. The thread continues with an empty batch,
    /// which has no room if none is spare. No note is lost: if the batch can't be handed over, the thread keeps it.
    pub(crate) fn hand_over(&mut self, noted: &mut Batch)
        ensures marks { marks_of self.new.batches.items ++ noted.new.marks.items
            ≡ marks_of self.old.batches.items ++ noted.old.marks.items }
        ensures octets { octets_of self.new.batches.items ++ noted.new.octets.items
            ≡ octets_of self.old.batches.items ++ noted.old.octets.items }
        ensures handed { vec_len self.old.batches < vec_capacity self.old.batches
            → (noted.new.marks.items ≡ []) × (noted.new.octets.items ≡ []) }
    {
        if !noted.is_empty() {
            // There is room for one more batch.
            if self.batches.reserve(1).is_ok() {
                let next = self.next();
                self.batches.push_reserved(mem::replace(noted, next));
            }
        } else if !noted.has_room(1, 0) {
            *noted = self.next();
        }
    }

    /// Gives the last batch back to a thread, which continues to fill it. It does so only if the writer hasn't taken the
    /// batch and has another to take. No note is lost: the other batches come before the thread's.
    pub(crate) fn resume(&mut self, noted: &mut Batch)
        ensures marks { marks_of self.new.batches.items ++ noted.new.marks.items
            ≡ marks_of self.old.batches.items ++ noted.old.marks.items }
        ensures octets { octets_of self.new.batches.items ++ noted.new.octets.items
            ≡ octets_of self.old.batches.items ++ noted.old.octets.items }
    {
        if self.batches.len() < 2 || !noted.is_empty() {
            return;
        }
        if let Some(last) = self.batches.pop() {
            let empty = mem::replace(noted, last);
            if empty.has_room(1, 0) {
                let _ = self.spare.push(empty);
            }
        }
    }

    /// Takes the batches that were handed over, in their order. In return the writer gives back its own, which are all
    /// written.
    pub(crate) fn trade(&mut self, batches: &mut Vec<Batch>)
        ensures taken { batches.new.items ≡ self.old.batches.items }
        ensures left { self.new.batches.items ≡ [] }
    {
        if self.spare.append(batches).is_err() {
            batches.clear();
        }
        mem::swap(&mut self.batches, batches);
    }
}
