//! The codes of frames, by their names ("Frame Types", "Control Frames", "IAX Frames"). They are the octets of a full
//! frame's type, and of its subclass if C is clear. Those of elements are in `info_elements`, those of formats and causes
//! in `formats` and `causes`.

/// A digit: the subclass is its character.
pub const FRAME_DTMF: u8 = 1;
/// Voice: the subclass is the bit of its format.
pub const FRAME_VOICE: u8 = 2;
/// A control frame: the state of the call.
pub const FRAME_CONTROL: u8 = 4;
/// An IAX frame: the call's own signalling.
pub const FRAME_IAX: u8 = 6;

/// The call has ended.
pub const CONTROL_HANGUP: u8 = 1;
/// The called side rings.
pub const CONTROL_RINGING: u8 = 3;
/// The called side has answered.
pub const CONTROL_ANSWER: u8 = 4;
/// The called side is busy.
pub const CONTROL_BUSY: u8 = 5;
/// No line to the called side is free.
pub const CONTROL_CONGESTION: u8 = 8;
/// The call continues, with tones or announcements.
pub const CONTROL_PROGRESS: u8 = 0x0e;
/// The call is being set up.
pub const CONTROL_PROCEEDING: u8 = 0x0f;

/// The sender asks for a call.
pub const IAX_NEW: u8 = 1;
/// The sender checks that the other side is there. A PONG answers it.
pub const IAX_PING: u8 = 2;
/// The answer to a PING and to a POKE.
pub const IAX_PONG: u8 = 3;
/// All frames before ISeqno have been received.
pub const IAX_ACK: u8 = 4;
/// The call ends.
pub const IAX_HANGUP: u8 = 5;
/// A call is refused.
pub const IAX_REJECT: u8 = 6;
/// A call is accepted.
pub const IAX_ACCEPT: u8 = 7;
/// The caller has to authenticate itself.
pub const IAX_AUTHREQ: u8 = 8;
/// The answer to an AUTHREQ.
pub const IAX_AUTHREP: u8 = 9;
/// There is no such call.
pub const IAX_INVAL: u8 = 0x0a;
/// The sender measures the time to the other side and back. A LAGRP answers it.
pub const IAX_LAGRQ: u8 = 0x0b;
/// The answer to a LAGRQ.
pub const IAX_LAGRP: u8 = 0x0c;
/// The sender asks to be registered at its address.
pub const IAX_REGREQ: u8 = 0x0d;
/// A registration, or its end, is refused.
pub const IAX_REGREJ: u8 = 0x10;
/// The sender asks for its registration to end.
pub const IAX_REGREL: u8 = 0x11;
/// Retransmit the frames from ISeqno on.
pub const IAX_VNAK: u8 = 0x12;
/// The sender checks that the other side of a transfer can be reached.
pub const IAX_TXCNT: u8 = 0x17;
/// The answer to a TXCNT.
pub const IAX_TXACC: u8 = 0x18;
/// The sender wants no media.
pub const IAX_QUELCH: u8 = 0x1c;
/// The sender wants media again.
pub const IAX_UNQUELCH: u8 = 0x1d;
/// The sender checks that the other side is there, outside any call. A PONG answers it.
pub const IAX_POKE: u8 = 0x1e;
/// The sender received a frame that it doesn't know.
pub const IAX_UNSUPPORT: u8 = 0x21;
/// The caller has to send its NEW again, with the call token in this frame (chan_iax2's; RFC 5456 has none).
pub const IAX_CALLTOKEN: u8 = 0x28;
