//! The lines of six worked calls, joined. Their plan has no secrets.
use crate::tests::desk::{EAST_PLACE, WEST_PLACE};
use layer_tests::frames::{EAST_ACCEPT, EAST_ANSWER, WEST_ACK, WEST_NEW};

/// One input of an exchange.
#[derive(Clone, Copy)]
pub enum Line {
    /// A datagram comes from a peer.
    Datagram(u16, &'static [u8]),
    /// A call to the peer in the east is placed.
    Call(&'static [u8]),
    /// The leg of a number is hung up; nothing happens if there is none.
    HangUp(u16),
    /// Time advances at both peers.
    Tick,
}

const NEW_200: &[u8] =
    b"\x80\x07\x00\x00\x00\x00\x00\x00\x00\x00\x06\x01\x0b\x02\x00\x02\x01\x03\x32\x30\x30\x09\x04\x00\x00\x00\x04\x08\x04\x00\
    \x00\x00\x04";

// From call number 8.
const OTHER_NEW: &[u8] =
    b"\x80\x08\x00\x00\x00\x00\x00\x00\x00\x00\x06\x01\x0b\x02\x00\x02\x01\x03\x33\x30\x30\x09\x04\x00\x00\x00\x04\x08\x04\x00\
    \x00\x00\x04";

// The west has the first frame of leg 1.
const FIRST_ACK: &[u8] = b"\x80\x07\x00\x01\x00\x00\x00\x00\x01\x01\x06\x04";

/// How many lines there are.
pub const COUNT: usize = 31;

/// The lines, in the order of the calls.
pub static LINES: [Line; COUNT] = [
    // A number that leads nowhere.
    Line::Datagram(WEST_PLACE, NEW_200),
    Line::Datagram(WEST_PLACE, FIRST_ACK),
    // A whole call.
    Line::Datagram(WEST_PLACE, WEST_NEW),
    Line::Datagram(WEST_PLACE, FIRST_ACK),
    Line::Datagram(EAST_PLACE, EAST_ACCEPT),
    Line::Datagram(EAST_PLACE, EAST_ANSWER),
    Line::Datagram(WEST_PLACE, WEST_ACK),
    Line::Datagram(
        WEST_PLACE,
        b"\x80\x07\x00\x01\x00\x00\x00\x64\x01\x02\x06\x05",
    ),
    Line::Datagram(
        EAST_PLACE,
        b"\x80\x09\x00\x05\x00\x00\x00\x64\x02\x02\x06\x04",
    ),
    // Media of two calls, which goes out as one trunk frame.
    Line::Datagram(WEST_PLACE, WEST_NEW),
    Line::Datagram(WEST_PLACE, OTHER_NEW),
    Line::Datagram(EAST_PLACE, EAST_ACCEPT),
    Line::Datagram(
        EAST_PLACE,
        b"\x80\x0a\x00\x06\x00\x00\x00\x03\x00\x01\x06\x07\x09\x04\x00\x00\x00\x04",
    ),
    Line::Datagram(
        EAST_PLACE,
        b"\x80\x09\x00\x05\x00\x00\x00\x14\x01\x01\x02\x04\xff",
    ),
    Line::Datagram(
        EAST_PLACE,
        b"\x80\x0a\x00\x06\x00\x00\x00\x14\x01\x01\x02\x04\xee",
    ),
    Line::Datagram(EAST_PLACE, b"\x00\x09\x00\x14\xaa\xbb\xcc"),
    Line::Datagram(EAST_PLACE, b"\x00\x0a\x00\x14\xdd"),
    Line::Tick,
    // A HANGUP and an ANSWER of a call that no leg has.
    Line::Datagram(
        WEST_PLACE,
        b"\x80\x07\x00\x63\x00\x00\x00\x0a\x05\x03\x06\x05",
    ),
    Line::Datagram(
        WEST_PLACE,
        b"\x80\x07\x00\x63\x00\x00\x00\x0a\x05\x03\x06\x04",
    ),
    // A call that is placed, challenged, hung up, and hung up again; and a number that is too long.
    Line::Call(b"300"),
    Line::Datagram(
        EAST_PLACE,
        b"\x80\x09\x00\x05\x00\x00\x00\x02\x00\x01\x06\x08\x0e\x02\x00\x02\x0f\x01\x61\x06\x04\x62\x65\x74\x61",
    ),
    Line::HangUp(5),
    Line::HangUp(5),
    Line::Call(b"33333333333333333333333333333333333333333333333333333333333333333"),
    // A call in which a digit is relayed.
    Line::Datagram(WEST_PLACE, WEST_NEW),
    Line::Datagram(WEST_PLACE, FIRST_ACK),
    Line::Datagram(EAST_PLACE, EAST_ACCEPT),
    Line::Datagram(EAST_PLACE, EAST_ANSWER),
    Line::Datagram(WEST_PLACE, WEST_ACK),
    Line::Datagram(
        WEST_PLACE,
        b"\x80\x07\x00\x01\x00\x00\x00\x20\x01\x02\x01\x35",
    ),
];
