//! The judgements of sequence numbers and acknowledgements, and the result of a search for due frames.

/// The judgement of an acknowledgement, the octet ISeqno.
#[derive(Clone, Copy, Debug, PartialEq, Eq)]
pub enum Acknowledged {
    /// It counts, and removes this number of held frames.
    Acked(u32),
    /// It has no effect.
    Ignored,
}

/// The judgement of a sequence number, the octet OSeqno.
#[derive(Clone, Copy, Debug, PartialEq, Eq)]
pub enum Received {
    /// It is the next number.
    Taken,
    /// It came before.
    Repeat,
    /// A number before it is missing.
    Gap,
}

/// The result of a search for a held frame that is due.
#[derive(Clone, Copy, Debug, PartialEq, Eq)]
pub enum Resent {
    /// None is due.
    Nothing,
    /// The frame at this place is retransmitted.
    Again(usize),
    /// The first frame that is due has had all its tries.
    Spent,
}
