//! Datagrams that come from the peers, each at its moment: a peer in the west calls 300, which leads east.
use crate::tests::desk::{Desk, EAST, WEST};
use exchange_core::Gate;
use layer_tests::frames::{EAST_ACCEPT, EAST_ANSWER, WEST_ACK, WEST_NEW};
use peer_lock::LedgerSet;
use peer_plan::Endpoint;
use std::sync::Wait;

/// The moment of a datagram, the endpoint from which it comes, and its octets.
pub type Arrival = (u64, Endpoint, &'static [u8]);

// The west calls 300.
const CALLED: Arrival = (0, WEST, WEST_NEW);

// It has the ACCEPT.
const ACCEPT_TAKEN: Arrival = (
    10,
    WEST,
    b"\x80\x07\x00\x01\x00\x00\x00\x00\x01\x01\x06\x04",
);

// The east accepts.
const ACCEPTS: Arrival = (10, EAST, EAST_ACCEPT);

// It answers.
const ANSWERS: Arrival = (20, EAST, EAST_ANSWER);

// The west has the answer.
const ANSWER_TAKEN: Arrival = (20, WEST, WEST_ACK);

// It hangs up.
const HANGS_UP: Arrival = (
    100,
    WEST,
    b"\x80\x07\x00\x01\x00\x00\x00\x64\x01\x02\x06\x05",
);

// The east has the HANGUP.
const HANGUP_TAKEN: Arrival = (
    100,
    EAST,
    b"\x80\x09\x00\x05\x00\x00\x00\x64\x02\x02\x06\x04",
);

// An octet of voice comes from the east.
const VOICE: Arrival = (
    20,
    EAST,
    b"\x80\x09\x00\x05\x00\x00\x00\x14\x02\x01\x02\x04\xff",
);

/// The call from its first datagram to its last.
pub static WHOLE_CALL: [Arrival; 7] = [
    CALLED,
    ACCEPT_TAKEN,
    ACCEPTS,
    ANSWERS,
    ANSWER_TAKEN,
    HANGS_UP,
    HANGUP_TAKEN,
];

/// The call until both legs are up, and a voice frame from the east.
pub static UP_WITH_VOICE: [Arrival; 6] = [
    CALLED,
    ACCEPT_TAKEN,
    ACCEPTS,
    ANSWERS,
    ANSWER_TAKEN,
    VOICE,
];

/// The call until both legs are up; then a voice frame and a mini frame from the east, and a digit from the west.
pub static MEDIA_AND_DIGIT: [Arrival; 8] = [
    CALLED,
    ACCEPT_TAKEN,
    ACCEPTS,
    ANSWERS,
    ANSWER_TAKEN,
    VOICE,
    (20, EAST, b"\x00\x09\x00\x14\xaa\xbb\xcc"),
    (
        30,
        WEST,
        b"\x80\x07\x00\x01\x00\x00\x00\x20\x01\x03\x01\x35",
    ),
];

/// The datagrams to the west in the whole call, in order.
pub static TO_WEST: [&[u8]; 3] = [
    b"\x80\x01\x00\x07\x00\x00\x00\x00\x00\x01\x06\x07\x09\x04\x00\x00\x00\x04",
    b"\x80\x01\x00\x07\x00\x00\x00\x14\x01\x01\x04\x04",
    b"\x80\x01\x00\x07\x00\x00\x00\x64\x02\x02\x06\x04",
];

/// The datagrams to the east, in order.
pub static TO_EAST: [&[u8]; 4] = [
    b"\x80\x05\x00\x00\x00\x00\x00\x00\x00\x00\x06\x01\x0b\x02\x00\x02\x01\x03\x33\x30\x30\x09\x04\x00\x00\x00\x04\x08\x04\x00\
    \x00\x00\x04",
    b"\x80\x05\x00\x09\x00\x00\x00\x03\x01\x01\x06\x04",
    b"\x80\x05\x00\x09\x00\x00\x00\x0d\x01\x02\x06\x04",
    b"\x80\x05\x00\x09\x00\x00\x00\x64\x01\x02\x06\x05\x16\x0f\x6e\x6f\x72\x6d\x61\x6c\x20\x63\x6c\x65\x61\x72\x69\x6e\x67\x2a\
    \x01\x10",
];

/// Hands these datagrams to the exchange, one after another, whatever the answers.
pub fn hear_all<R: Wait, G: Gate, J: LedgerSet>(
    desk: &mut Desk<'_, R, G, J>,
    arrivals: &[Arrival],
) {
    for arrival in arrivals {
        let (at, from, octets) = *arrival;
        let _told = desk.datagram(from, octets, at);
    }
}
