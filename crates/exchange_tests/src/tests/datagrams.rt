//! Datagrams as peers send them, and how they are spoilt by a fixed generator.

use crate::tests::desk::WEST_PLACE;
use layer_tests::frames::WEST_NEW;

/// The longest datagram, in octets.
const LONGEST: usize = 64;

/// Numbers by xorshift: a fixed sequence for each seed that isn't 0.
#[derive(Drop)]
pub struct Dice {
    seed: u64,
}

impl Dice {
    pub fn new(seed: u64) -> Dice {
        Dice { seed }
    }

    /// Returns a number below the bound, or 0 if that is 0.
    pub fn below(&mut self, bound: u64) -> u64 {
        self.seed ^= self.seed.wrapping_shl(13);
        self.seed ^= self.seed >> 7;
        self.seed ^= self.seed.wrapping_shl(17);
        (self.seed >> 16).checked_rem(bound).unwrap_or(0)
    }

    /// Returns a place below the bound.
    pub fn place(&mut self, bound: usize) -> usize {
        usize::try_from(self.below(bound as u64)).unwrap_or(0)
    }
}

/// A datagram of at most 64 octets, and the peer that it comes from.
#[derive(Clone, Copy)]
pub struct Sent {
    pub peer: u16,
    octets: [u8; LONGEST],
    len: usize,
}

impl Sent {
    /// Returns these octets, part after part; those past the 64th are left out.
    pub fn of(peer: u16, parts: &[&[u8]]) -> Sent {
        let mut sent = Sent {
            peer,
            octets: [0; LONGEST],
            len: 0,
        };
        for part in parts {
            sent.put(part);
        }
        sent
    }

    // Adds octets behind the others.
    fn put(&mut self, octets: &[u8]) {
        for octet in octets {
            if let Some(at) = self.octets.get_mut(self.len) {
                *at = *octet;
                self.len = self.len.saturating_add(1);
            }
        }
    }

    pub fn octets(&self) -> &[u8] {
        match self.octets.as_slice().split_at_checked(self.len) {
            Some((octets, _)) => octets,
            None => &[],
        }
    }

    /// Returns the octet at a place, or 0 if there is none.
    pub fn octet(&self, place: usize) -> u8 {
        self.octets().get(place).copied().unwrap_or(0)
    }

    /// Returns whether it is a full frame ("Full Frames").
    pub fn is_full(&self) -> bool {
        self.octet(0) >= 0x80
    }

    /// Returns the destination call number of a full frame.
    pub fn destination(&self) -> u16 {
        u16::from_be_bytes([self.octet(2) & 0x7f, self.octet(3)])
    }

    // Turns one bit.
    fn with_turned_bit(self, dice: &mut Dice) -> Sent {
        let mut sent = self;
        let place = dice.place(sent.len);
        let bit = dice.below(8);
        if let Some(at) = sent.octets.get_mut(place) {
            *at ^= 1u8.wrapping_shl(u32::try_from(bit).unwrap_or(0));
        }
        sent
    }

    // Cuts the end off.
    fn cut(self, dice: &mut Dice) -> Sent {
        let len = dice.place(self.len);
        Sent { len, ..self }
    }

    // Replaces two octets by those of another datagram, or the peer by another.
    fn crossed(self, other: &Sent, dice: &mut Dice) -> Sent {
        let mut sent = self;
        let place = dice.place(14);
        if place >= 12 {
            sent.peer = 1u16.saturating_sub(sent.peer);
            return sent;
        }
        for near in [place, place.saturating_add(1)] {
            if let Some(at) = sent.octets.get_mut(near) {
                *at = other.octet(near);
            }
        }
        sent
    }

    /// Returns it unchanged in three of six cases. Otherwise a bit is turned, octets are cut, or fields are replaced by
    /// those of the other.
    pub fn spoilt(self, other: &Sent, dice: &mut Dice) -> Sent {
        match dice.below(6) {
            0 => self.with_turned_bit(dice),
            1 => self.cut(dice),
            2 => self.crossed(other, dice),
            _ => self,
        }
    }
}

/// A peer's state of one of its calls, by the exchange's number of it.
#[derive(Clone, Copy)]
pub struct Call {
    pub peer: u16,
    pub number: u16,
    /// The peer's number of the call; 0 if there is none.
    pub source: u16,
    /// The next OSeqno of the peer.
    pub next: u8,
    /// The next OSeqno that the peer expects.
    pub expected: u8,
}

/// Types, subclasses and data of frames that are sent on a call, as in a full frame ("Full Frames"). Few of them end a
/// call.
static FRAMES: [&[u8]; 24] = [
    // ACK, VNAK, PING, LAGRQ, POKE.
    b"\x06\x04",
    b"\x06\x04",
    b"\x06\x04",
    b"\x06\x04",
    b"\x06\x04",
    b"\x06\x12",
    b"\x06\x02",
    b"\x06\x0b",
    b"\x06\x1e",
    // ACCEPT of mu-law, RINGING, ANSWER.
    b"\x06\x07\x09\x04\x00\x00\x00\x04",
    b"\x06\x07\x09\x04\x00\x00\x00\x04",
    b"\x04\x03",
    b"\x04\x04",
    b"\x04\x04",
    // QUELCH, UNQUELCH, DTMF, voice.
    b"\x06\x1c",
    b"\x06\x1d",
    b"\x01\x35",
    b"\x01\x23",
    b"\x02\x04\xee",
    b"\x02\x04\xff\xfe",
    // An unknown IAX frame, HANGUP, INVAL, BUSY.
    b"\x06\x3f\x01",
    b"\x06\x05",
    b"\x06\x0a",
    b"\x04\x05",
];

impl Call {
    /// Returns a full frame of the call.
    pub fn full(&self, now: u64, dice: &mut Dice) -> Sent {
        let frame = FRAMES.get(dice.place(FRAMES.len())).copied();
        let source = (self.source | 0x8000).to_be_bytes();
        let number = self.number.to_be_bytes();
        let timestamp = u32::try_from(now).unwrap_or(0).to_be_bytes();
        let numbers = [self.next, self.expected];
        let rest = frame.unwrap_or(b"\x06\x04");
        Sent::of(self.peer, &[&source, &number, &timestamp, &numbers, rest])
    }

    /// Returns a mini frame of the call ("Mini Frames").
    pub fn mini(&self) -> Sent {
        let source = self.source.to_be_bytes();
        Sent::of(self.peer, &[&source, b"\x00\x14\xaa\xbb\xcc"])
    }

    /// Returns a trunk frame of this call and another ("Meta Trunk Frames").
    pub fn trunk(&self, other: &Call) -> Sent {
        let head = b"\x00\x00\x01\x01\x00\x00\x00\x14\x00\x02";
        let own = self.source.to_be_bytes();
        let others = other.source.to_be_bytes();
        Sent::of(
            self.peer,
            &[
                head,
                &own,
                b"\x00\x14\xaa\xbb\x00\x01",
                &others,
                b"\x00\x14\xcc",
            ],
        )
    }
}

/// Returns a NEW of the west for 300.
pub fn new_call(source: u16) -> Sent {
    let source = (source | 0x8000).to_be_bytes();
    Sent::of(WEST_PLACE, &[&source, WEST_NEW.split_at(2).1])
}
