//! The numbered frames that a leg sends, and the list to which a step writes its datagrams.
ghost use Rattle.std.specs.Prelude.{◌≡◌, ◌+◌, ◌<◌, ◌≤◌, ◌^◌, [], ◌∷◌, ◌++◌, ◌==◌, length, slice_get, take, option_copied};
ghost use Rattle.iax_frames.specs.Datagram.{IsFrame};
ghost use Rattle.iax_frames.specs.FullFrame.{spelling};
ghost use Rattle.iax_frames.specs.MiniFrame.{mini_spelling};
ghost use Rattle.call_signals.specs.ReplyFrame.{type_of, subclass_of, indication_subclass, timestamp_of};

use crate::cause::Cause;
use crate::codes::{
    CONTROL_ANSWER, CONTROL_PROCEEDING, CONTROL_PROGRESS, CONTROL_RINGING, FRAME_CONTROL,
    FRAME_DTMF, FRAME_IAX, IAX_ACCEPT, IAX_AUTHREP, IAX_AUTHREQ, IAX_HANGUP, IAX_LAGRP, IAX_PING,
    IAX_PONG, IAX_REJECT, IAX_UNSUPPORT,
};
use crate::format::Format;
use crate::signal::{Digit, Indication};
use arrayvec::ArrayVec;
use iax_frames::{CallNumber, FullHead, Out, full_head, mini_head};
use std::marker::Model;

/// A numbered frame that answers another, or that an order or a tick sends.
#[derive(Clone, Copy)]
pub enum ReplyFrame {
    AuthReq,
    /// With the digits of the MD5 answer.
    AuthRep([u8; 32]),
    Accept(Format),
    Reject(Cause),
    Hangup(Cause),
    /// With the octet of C and subclass as it came.
    Unsupport(u8),
    Ping,
    /// With the timestamp of the PING.
    Pong(u32),
    /// With the timestamp of the LAGRQ.
    LagRp(u32),
    Indicate(Indication),
    Answer,
    Dtmf(Digit),
}

impl ReplyFrame {
    /// Returns the type of the frame ("Frame Types").
    pub fn frame_type(&self) -> u8
        ensures { result ≡ type_of self.now }
    {
        match self {
            ReplyFrame::Dtmf(_) => FRAME_DTMF,
            ReplyFrame::Indicate(_) => FRAME_CONTROL,
            ReplyFrame::Answer => FRAME_CONTROL,
            _ => FRAME_IAX,
        }
    }

    /// Returns the subclass of the frame, below 128.
    pub fn subclass(&self) -> u8
        ensures { result ≡ subclass_of self.now }
    {
        match self {
            ReplyFrame::AuthReq => IAX_AUTHREQ,
            ReplyFrame::AuthRep(_) => IAX_AUTHREP,
            ReplyFrame::Accept(_) => IAX_ACCEPT,
            ReplyFrame::Reject(_) => IAX_REJECT,
            ReplyFrame::Hangup(_) => IAX_HANGUP,
            ReplyFrame::Unsupport(_) => IAX_UNSUPPORT,
            ReplyFrame::Ping => IAX_PING,
            ReplyFrame::Pong(_) => IAX_PONG,
            ReplyFrame::LagRp(_) => IAX_LAGRP,
            ReplyFrame::Indicate(indication) => indication.subclass(),
            ReplyFrame::Answer => CONTROL_ANSWER,
            ReplyFrame::Dtmf(digit) => digit.get(),
        }
    }

    /// Returns the timestamp that a PONG or a LAGRP carries, otherwise the present one; milliseconds, modulo 2^32.
    pub fn timestamp(&self, present: u32) -> u32
        ensures { result ≡ timestamp_of self.now present }
    {
        match self {
            ReplyFrame::Pong(timestamp) => *timestamp,
            ReplyFrame::LagRp(timestamp) => *timestamp,
            _ => present,
        }
    }
}

impl Indication {
    /// Returns the subclass of the control frame, below 128 ("Control Frames").
    pub fn subclass(self) -> u8
        ensures { result ≡ indication_subclass self }
    {
        match self {
            Indication::Ringing => CONTROL_RINGING,
            Indication::Progress => CONTROL_PROGRESS,
            Indication::Proceeding => CONTROL_PROCEEDING,
        }
    }
}

/// The datagrams that one step sends, at most 128. Contracts see the octets of each.
///
/// The caller of a step lends an empty list, reads it, and clears it for the next step. New datagrams overwrite old ones,
/// so a datagram costs no more than its own octets.
#[derive(Debug, Drop)]
pub struct Replies {
    // The places from `len` on are for later ones.
    outs: ArrayVec<Out, 128>,
    len: usize,
}

impl Model for Replies {
    ghost use Rattle.std.specs.Prelude.{ℕ, List, ◌≤◌, length, take};

    ghost Value = { List (List ℕ) };

    ghost view = { λ r. take r.len r.outs.items };

    ghost invariant = { λ r. r.len ≤ length r.outs.items };
}

// Writes a datagram at a place behind `place` others, of octets that come in two pieces.
fn put_at(outs: &mut ArrayVec<Out, 128>, place: usize, front: &[u8], back: &[u8])
    requires place { place ≤ length outs.old.items }
    requires room { place < 128 }
    requires frame { IsFrame (front.now ++ back.now) }
    requires fits { length front.now + length back.now ≤ 1400 }
    ensures put { take (place + 1) outs.new.items ≡ take place outs.old.items ++ (front.now ++ back.now) ∷ [] }
    ensures there { place < length outs.new.items }
{
    if outs.len() == place {
        outs.push(Out::default());
    }
    outs.as_mut_slice()[place].replace(front, back);
}

impl Replies {
    /// Returns an empty list of datagrams.
    pub fn new() -> Replies
        ensures { result ≡ [] }
    {
        Replies {
            outs: ArrayVec::new(),
            len: 0,
        }
    }

    /// Writes a full frame, of at most 1,388 octets of data, behind fewer than 128 others.
    pub fn write(&mut self, head: &FullHead, payload: &[u8])
        requires room { length self.old < 128 }
        requires short { length payload.now ≤ 1388 }
        ensures { self.new ≡ self.old ++ spelling (record { head = head.now; payload = payload.now }) ∷ [] }
    {
        self.put(&full_head(*head), payload);
    }

    /// Writes a mini frame, from call number 1 ..= 32,767 and with at most 1,396 octets of media, behind fewer than 128 others.
    pub fn write_mini(&mut self, number: CallNumber, timestamp: u16, media: &[u8])
        requires room { length self.old < 128 }
        requires some { 0 < number }
        requires short { length media.now ≤ 1396 }
        ensures { self.new ≡ self.old ++
            mini_spelling (record { source = number; timestamp = timestamp; media = media.now }) ∷ [] }
    {
        self.put(&mini_head(number, timestamp), media);
    }

    // Adds a datagram, of octets that come in two pieces.
    fn put(&mut self, front: &[u8], back: &[u8])
        requires room { length self.old < 128 }
        requires frame { IsFrame (front.now ++ back.now) }
        requires fits { length front.now + length back.now ≤ 1400 }
        ensures { self.new ≡ self.old ++ (front.now ++ back.now) ∷ [] }
    {
        put_at(&mut self.outs, self.len, front, back);
        self.len += 1;
    }

    /// Removes all datagrams.
    pub fn clear(&mut self)
        ensures { self.new ≡ [] }
    {
        self.len = 0;
    }

    /// Returns the number of datagrams, at most 128.
    pub fn len(&self) -> usize
        ensures { result ≡ length self.now }
    {
        self.len
    }

    /// Returns whether there are no datagrams.
    pub fn is_empty(&self) -> bool
        ensures { result ≡ (length self.now == 0) }
    {
        self.len == 0
    }

    /// Returns the datagram at a place, 0 for the first, or `None` if there is none.
    pub fn get(&self, place: usize) -> Option<&Out>
        ensures { option_copied result ≡ slice_get self.now place }
    {
        self.outs.as_slice()[..self.len].get(place)
    }
}
