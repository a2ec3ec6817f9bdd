//! The numbers of information elements ("Information Elements").

/// The called number: a text.
pub const CALLED_NUMBER: u8 = 0x01;
/// The calling number: a text.
pub const CALLING_NUMBER: u8 = 0x02;
/// The caller's name: a text.
pub const CALLING_NAME: u8 = 0x04;
/// A user's name: a text.
pub const USERNAME: u8 = 0x06;
/// All formats that can be used: the bits of formats in 4 octets.
pub const CAPABILITY: u8 = 0x08;
/// The format that is wanted: its bit in 4 octets.
pub const FORMAT: u8 = 0x09;
/// The version of the protocol: 2, in 2 octets.
pub const VERSION: u8 = 0x0b;
/// The methods of authentication: 2 octets, in which bit 0x0002 is MD5.
pub const AUTHMETHODS: u8 = 0x0e;
/// The challenge: a text.
pub const CHALLENGE: u8 = 0x0f;
/// The answer: 32 hexadecimal digits.
pub const MD5_RESULT: u8 = 0x10;
/// The cause of a call's end: a text.
pub const CAUSE: u8 = 0x16;
/// The unknown subclass: 1 octet.
pub const IAX_UNKNOWN: u8 = 0x17;
/// Whether the calling number may be shown, and who verified it: 1 octet.
pub const CALLINGPRES: u8 = 0x26;
/// The type of the calling number: 1 octet.
pub const CALLINGTON: u8 = 0x27;
/// The transit network that the caller chose: 2 octets.
pub const CALLINGTNS: u8 = 0x28;
/// The cause of a call's end: 1 octet.
pub const CAUSECODE: u8 = 0x2a;
/// A call token: a text, empty in a request for one (chan_iax2's; RFC 5456 has none).
pub const CALLTOKEN: u8 = 0x36;
