//! Frames of a call, as octets, and NEWs also in hexadecimal digits. The west calls from call number 7, the exchange calls
//! the east under local number 5, and the east answers under call number 9.

/// A NEW for 300 from call number 7, in hexadecimal digits.
pub const NEW_300: &str = "8007000000000000000006010b0200020103333030090400000004080400000004";

/// The west calls 300: the NEW of `NEW_300`.
pub const WEST_NEW: &[u8] =
    b"\x80\x07\x00\x00\x00\x00\x00\x00\x00\x00\x06\x01\x0b\x02\x00\x02\x01\x03\x33\x30\x30\x09\x04\x00\x00\x00\x04\x08\x04\x00\
    \x00\x00\x04";

/// The east accepts.
pub const EAST_ACCEPT: &[u8] =
    b"\x80\x09\x00\x05\x00\x00\x00\x03\x00\x01\x06\x07\x09\x04\x00\x00\x00\x04";

/// The east answers.
pub const EAST_ANSWER: &[u8] = b"\x80\x09\x00\x05\x00\x00\x00\x0d\x01\x01\x04\x04";

/// The west has the ACCEPT and the ANSWER, at 20.
pub const WEST_ACK: &[u8] = b"\x80\x07\x00\x01\x00\x00\x00\x14\x01\x02\x06\x04";
