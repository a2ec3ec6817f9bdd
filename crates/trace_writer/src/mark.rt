//! The note of a call of the exchange, until it is written.
ghost use Rattle.std.specs.Prelude.{◌≡◌, ◌++◌, ◌+◌, ◌∷◌, [], List, length, if◌then◌else◌};
ghost use Rattle.std.specs.Bool.{OnTrue};
ghost use Rattle.trace_writer.specs.Shares.{is_refused};
ghost use Rattle.trace_writer.specs.declared.mark.Mark.{Mark};
ghost use Rattle.trace_writer.specs.declared.mark.Input.TheVariants.{Nothing};

use peer_plan::Endpoint;
use std::alloc::{AllocError, Global};

// The room of a batch.
const MARKS: usize = 4096;

const OCTETS: usize = 1_048_576;

/// The input of a call of the exchange. A peer is named by its place in the plan.
#[derive(Clone, Copy)]
pub(crate) enum Input {
    /// A datagram of a peer. The first `challenge` octets are the challenge of its moment.
    Datagram { peer: u16, challenge: u8 },
    /// A datagram of a peer that wasn't handed to the exchange because the service drains.
    TurnedAway { peer: u16, challenge: u8 },
    /// A datagram of a peer that the exchange refused before it reserved a number for it.
    Refused { peer: u16, challenge: u8 },
    /// A datagram of an endpoint that no peer has.
    Stranger { from: Endpoint },
    /// A tick of each peer of the worker.
    Tick,
    /// The datagrams that waited for the worker's peers were sent: to the peers whose bits are set, or to none. The socket
    /// didn't take `lost` of them.
    Send { peers: u32, lost: u32 },
    /// A call was placed to a peer. The octets are the called number.
    Call { peer: u16 },
    /// The leg of this number hung up.
    HangUp { number: u16 },
    /// All peers drain from here on, or none does.
    Drain { drains: bool },
    /// A call without effect.
    Nothing,
    /// No call is up. The octets are the lines that give each peer the order of its free numbers.
    Rest,
}

impl Input {
    /// Returns whether the exchange refused the datagram and is as if it had never come. A replay without it is the same.
    pub(crate) fn is_refused(self) -> bool
        ensures { result ≡ is_refused self }
    {
        matches!(
            self,
            Input::Stranger { .. } | Input::TurnedAway { .. } | Input::Refused { .. }
        )
    }
}

/// A call of the exchange.
#[derive(Clone, Copy)]
pub(crate) struct Mark {
    /// The number of calls that had begun before it.
    pub(crate) number: u64,
    /// Its moment, in milliseconds since the exchange was opened.
    pub(crate) now: u64,
    pub(crate) input: Input,
    /// Whether another call was open at the same time.
    pub(crate) is_beside: bool,
    /// The number of calls before it that weren't noted.
    pub(crate) lost: u64,
    /// The number of its octets.
    pub(crate) octets: usize,
}

impl Mark {
    /// Returns the mark as that of a call without effect.
    pub(crate) fn emptied(self) -> Mark
        ensures { result ≡ record self { input = Nothing } }
    {
        let mut mark = self;
        mark.input = Input::Nothing;
        mark
    }
}

/// Marks in the order of their numbers, and their octets one after another.
#[derive(Drop)]
pub(crate) struct Batch {
    pub(crate) marks: Vec<Mark>,
    pub(crate) octets: Vec<u8>,
}

impl Batch {
    /// Returns an empty batch with room for 4,096 marks and 1 MiB of octets.
    pub(crate) fn new(alloc: Global) -> Result<Batch, AllocError> {
        Ok(Batch {
            marks: Vec::with_capacity(alloc, MARKS)?,
            octets: Vec::with_capacity(alloc, OCTETS)?,
        })
    }

    /// Returns an empty batch without room. It takes no memory.
    pub(crate) fn without_room(alloc: Global) -> Batch
        ensures marks { result.marks.items ≡ [] }
        ensures octets { result.octets.items ≡ [] }
    {
        Batch {
            marks: Vec::new(alloc),
            octets: Vec::new(alloc),
        }
    }

    /// Returns whether there is room for `marks` more marks with `octets` octets.
    pub(crate) fn has_room(&self, marks: usize, octets: usize) -> bool {
        marks <= self.marks.capacity().saturating_sub(self.marks.len())
            && octets <= self.octets.capacity().saturating_sub(self.octets.len())
    }

    /// Returns whether there are no marks.
    pub(crate) fn is_empty(&self) -> bool
        ensures marks { OnTrue result (self.now.marks.items ≡ []) }
        ensures octets { OnTrue result (self.now.octets.items ≡ []) }
    {
        self.marks.is_empty() && self.octets.is_empty()
    }

    /// Adds a mark with its octets, which come in two pieces. Without room it changes nothing and returns false.
    #[inline(always)]
    pub(crate) fn push(&mut self, mark: Mark, front: &[u8], back: &[u8]) -> bool
        ensures marks { self.new.marks.items ≡ (if result
            then self.old.marks.items ++ record mark { octets = length front.now + length back.now } ∷ []
            else self.old.marks.items) }
        ensures octets { self.new.octets.items
            ≡ (if result then self.old.octets.items ++ front.now ++ back.now else self.old.octets.items) }
    {
        let mut mark = mark;
        mark.octets = front.len() + back.len();
        if !self.has_room(1, mark.octets)
            || self.octets.reserve(mark.octets).is_err()
            || self.marks.push(mark).is_err()
        {
            return false;
        }
        let _ = self.octets.extend_from_slice(front);
        let _ = self.octets.extend_from_slice(back);
        true
    }

    /// Ends the call of the last mark: sets its input, and whether another call was open at the same time.
    #[inline(always)]
    pub(crate) fn end_last(&mut self, input: Input, is_beside: bool)
        ensures marks { (before : List Mark) (mark : Mark) → self.old.marks.items ≡ before ++ mark ∷ []
            → self.new.marks.items ≡ before ++ record mark { input = input; is_beside = is_beside } ∷ [] }
        ensures none { self.old.marks.items ≡ [] → self.new.marks.items ≡ [] }
        ensures octets { self.new.octets.items ≡ self.old.octets.items }
    {
        if let Some(mark) = self.marks.pop() {
            let mut mark = mark;
            mark.input = input;
            mark.is_beside = is_beside;
            self.marks.push_reserved(mark);
        }
    }

    /// Removes all marks.
    pub(crate) fn clear(&mut self)
        ensures marks { self.new.marks.items ≡ [] }
        ensures octets { self.new.octets.items ≡ [] }
    {
        self.marks.clear();
        self.octets.clear();
    }
}
