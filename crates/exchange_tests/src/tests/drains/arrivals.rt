//! A call that is challenged, rings, is answered and hung up, and the stages of its two legs. The challenge is `a`.
use crate::tests::arrivals::Arrival;
use crate::tests::desk::{EAST, WEST};
use call_signals::Stage;
use layer_tests::frames::{EAST_ACCEPT, WEST_NEW};

/// How many datagrams come.
pub const COUNT: usize = 10;

/// The datagrams, in order.
pub static CHALLENGED_CALL: [Arrival; COUNT] = [
    (0, WEST, WEST_NEW),
    // The west answers the challenge: RFC 1321 has the digest of `abc`.
    (
        10,
        WEST,
        b"\x80\x07\x00\x01\x00\x00\x00\x0a\x01\x01\x06\x09\x10\x20\x39\x30\x30\x31\x35\x30\x39\x38\x33\x63\x64\x32\x34\x66\x62\x30\
        \x64\x36\x39\x36\x33\x66\x37\x64\x32\x38\x65\x31\x37\x66\x37\x32",
    ),
    // It has the ACCEPT.
    (
        10,
        WEST,
        b"\x80\x07\x00\x01\x00\x00\x00\x0a\x02\x02\x06\x04",
    ),
    (20, EAST, EAST_ACCEPT),
    // The east rings.
    (
        30,
        EAST,
        b"\x80\x09\x00\x05\x00\x00\x00\x14\x01\x01\x04\x03",
    ),
    (
        30,
        WEST,
        b"\x80\x07\x00\x01\x00\x00\x00\x1e\x02\x03\x06\x04",
    ),
    // It answers.
    (
        40,
        EAST,
        b"\x80\x09\x00\x05\x00\x00\x00\x1e\x02\x01\x04\x04",
    ),
    (
        40,
        WEST,
        b"\x80\x07\x00\x01\x00\x00\x00\x28\x02\x04\x06\x04",
    ),
    // The west hangs up.
    (
        100,
        WEST,
        b"\x80\x07\x00\x01\x00\x00\x00\x64\x02\x04\x06\x05",
    ),
    (
        100,
        EAST,
        b"\x80\x09\x00\x05\x00\x00\x00\x64\x03\x02\x06\x04",
    ),
];

/// The stages of the leg 1, of the west, and of the leg 5, of the east, after each datagram.
pub static STAGES: [(Option<Stage>, Option<Stage>); COUNT] = [
    (Some(Stage::Challenged), None),
    (Some(Stage::Linked), Some(Stage::Waiting)),
    (Some(Stage::Linked), Some(Stage::Waiting)),
    (Some(Stage::Linked), Some(Stage::Linked)),
    (Some(Stage::Linked), Some(Stage::Linked)),
    (Some(Stage::Linked), Some(Stage::Linked)),
    (Some(Stage::Up), Some(Stage::Up)),
    (Some(Stage::Up), Some(Stage::Up)),
    (None, Some(Stage::Closing)),
    (None, None),
];
