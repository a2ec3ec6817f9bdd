//! Full frames ("Full Frames").
ghost use Rattle.std.specs.Prelude.{◌≡◌};
ghost use Rattle.iax_frames.specs.FullFrame.{subclass_meaning};

use crate::call_number::CallNumber;
use std::marker::Model;

/// The head of a full frame.
#[derive(Clone, Copy, Debug, PartialEq, Eq)]
pub struct FullHead {
    /// The sender's number of the call.
    pub source: CallNumber,
    /// R: the frame is a retransmission.
    pub retransmitted: bool,
    /// The receiver's number of the call, 0 if the sender doesn't know it yet.
    pub destination: CallNumber,
    /// Milliseconds since the sender's side of the call began, modulo 2^32.
    pub timestamp: u32,
    /// OSeqno: the frame's sequence number, modulo 256 ("Message Transport").
    pub oseqno: u8,
    /// ISeqno: the sequence number that the sender expects next, modulo 256 ("Message Transport").
    pub iseqno: u8,
    /// The type ("Frame Types").
    pub frame_type: u8,
    /// The octet of C and subclass.
    pub subclass: u8,
}

/// A full frame in the octets of a datagram.
#[derive(Debug, Drop)]
pub struct Full<'a> {
    head: FullHead,
    payload: &'a [u8],
}

impl<'a> Model for Full<'a> {
    ghost use Rattle.iax_frames.specs.FullFrame.{FullFrame};

    ghost Value = { FullFrame };

    ghost view = { λ f. record { head = f.head; payload = f.payload.now } };
}

/// Returns the subclass that an octet of C and subclass means ("Full Frames"): if C is clear, the seven bits behind it; if
/// C is set, 2 to the power of these, or `None` if that isn't below 2^64.
pub fn subclass_meaning(octet: u8) -> Option<u64>
    ensures { result ≡ subclass_meaning octet }
{
    if octet < 128 {
        Some(octet as u64)
    } else if octet < 192 {
        Some(1 << (octet - 128))
    } else {
        None
    }
}

impl<'a> Full<'a> {
    pub(crate) fn new(head: FullHead, payload: &'a [u8]) -> Self
        ensures { result ≡ record { head = head; payload = payload.now } }
    {
        Full { head, payload }
    }

    /// Returns the fields of the twelve octets in front of the data.
    pub fn head(&self) -> FullHead
        ensures { result ≡ self.now.head }
    {
        let Full { head, .. } = self;
        *head
    }

    /// Returns the sender's number of the call, 0 ..= 32,767.
    pub fn source(&self) -> CallNumber
        ensures { result ≡ self.now.head.source }
    {
        self.head.source
    }

    /// Returns R: whether the frame is a retransmission.
    pub fn retransmitted(&self) -> bool
        ensures { result ≡ self.now.head.retransmitted }
    {
        self.head.retransmitted
    }

    /// Returns the receiver's number of the call, 0 if the sender doesn't know it yet.
    pub fn destination(&self) -> CallNumber
        ensures { result ≡ self.now.head.destination }
    {
        self.head.destination
    }

    /// Returns the milliseconds since the sender's side of the call began, modulo 2^32.
    pub fn timestamp(&self) -> u32
        ensures { result ≡ self.now.head.timestamp }
    {
        self.head.timestamp
    }

    /// Returns OSeqno: the frame's sequence number ("Message Transport").
    pub fn oseqno(&self) -> u8
        ensures { result ≡ self.now.head.oseqno }
    {
        self.head.oseqno
    }

    /// Returns ISeqno: the sequence number that the sender expects next ("Message Transport").
    pub fn iseqno(&self) -> u8
        ensures { result ≡ self.now.head.iseqno }
    {
        self.head.iseqno
    }

    /// Returns the type of the frame ("Frame Types").
    pub fn frame_type(&self) -> u8
        ensures { result ≡ self.now.head.frame_type }
    {
        self.head.frame_type
    }

    /// Returns the octet of C and subclass.
    pub fn subclass(&self) -> u8
        ensures { result ≡ self.now.head.subclass }
    {
        self.head.subclass
    }

    /// Returns the meaning of the octet of C and subclass, if that is below 2^64.
    pub fn meaning(&self) -> Option<u64>
        ensures { result ≡ subclass_meaning self.now.head.subclass }
    {
        subclass_meaning(self.head.subclass)
    }

    /// Returns the data behind the head, which may be empty.
    pub fn payload(&self) -> &'a [u8]
        ensures { result.now ≡ self.now.payload }
    {
        self.payload
    }
}
