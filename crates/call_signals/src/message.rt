//! The meaning of a full frame, by its type and the meaning of C and subclass.
ghost use Rattle.std.specs.Prelude.{◌≡◌, ◌<◌, ◌^◌};
ghost use Rattle.iax_frames.specs.FullFrame.{subclass_meaning};
ghost use Rattle.call_signals.specs.Message as meaning;

use crate::codes::{
    CONTROL_ANSWER, CONTROL_BUSY, CONTROL_CONGESTION, CONTROL_HANGUP, CONTROL_PROCEEDING,
    CONTROL_PROGRESS, CONTROL_RINGING, FRAME_CONTROL, FRAME_DTMF, FRAME_IAX, FRAME_VOICE,
    IAX_ACCEPT, IAX_ACK, IAX_AUTHREP, IAX_AUTHREQ, IAX_HANGUP, IAX_INVAL, IAX_LAGRP, IAX_LAGRQ,
    IAX_NEW, IAX_PING, IAX_POKE, IAX_PONG, IAX_QUELCH, IAX_REJECT, IAX_TXACC, IAX_TXCNT,
    IAX_UNQUELCH, IAX_UNSUPPORT, IAX_VNAK,
};
use crate::format::Format;
use crate::signal::{Digit, Indication};
use iax_frames::{Full, subclass_meaning};

/// The meaning of a full frame ("Frame Types", "Control Frames", "IAX Frames").
#[derive(Clone, Copy, Debug, PartialEq, Eq)]
pub enum Message {
    New,
    Ping,
    Pong,
    Ack,
    Hangup,
    Reject,
    Accept,
    AuthReq,
    AuthRep,
    Inval,
    LagRq,
    LagRp,
    Vnak,
    TxCnt,
    TxAcc,
    Quelch,
    Unquelch,
    Poke,
    Unsupport,
    /// Any other IAX frame.
    UnknownIax,
    /// Control frames that end the call: HANGUP, BUSY, CONGESTION.
    ClearsCall,
    Indicates(Indication),
    Answer,
    Dtmf(Digit),
    Voice(Format),
    /// Any other frame.
    Other,
}

impl Message {
    /// Returns the meaning of the frame ("Frame Types", "Control Frames", "IAX Frames").
    pub fn of(frame: &Full) -> Message
        ensures { result ≡ meaning.message_of frame.now.head }
    {
        Message::of_octets(frame.frame_type(), frame.subclass())
    }

    /// Returns the meaning of a full frame of this type with this octet of C and subclass ("Frame Types", "Control Frames",
    /// "IAX Frames").
    pub fn of_octets(frame_type: u8, octet: u8) -> Message
        ensures { result ≡ meaning.message_by frame_type (subclass_meaning octet) }
    {
        match subclass_meaning(octet) {
            Some(subclass) => Message::by_type(frame_type, subclass),
            None => {
                if frame_type == FRAME_IAX {
                    Message::UnknownIax
                } else {
                    Message::Other
                }
            }
        }
    }

    fn by_type(frame_type: u8, subclass: u64) -> Message
        ensures { result ≡ meaning.by_type frame_type subclass }
    {
        match frame_type {
            FRAME_DTMF => Message::of_dtmf(subclass),
            FRAME_VOICE => Message::of_voice(subclass),
            FRAME_CONTROL => Message::of_control(subclass),
            FRAME_IAX => Message::of_iax(subclass),
            _ => Message::Other,
        }
    }

    fn of_dtmf(subclass: u64) -> Message
        ensures { result ≡ meaning.dtmf_message subclass }
    {
        if subclass < 128 {
            Message::Dtmf(Digit::new(subclass as u8))
        } else {
            Message::Other
        }
    }

    fn of_voice(subclass: u64) -> Message
        ensures { result ≡ meaning.voice_message subclass }
    {
        match Format::of_bit(subclass) {
            Some(format) => Message::Voice(format),
            None => Message::Other,
        }
    }

    fn of_control(subclass: u64) -> Message
        ensures { result ≡ meaning.control_message subclass }
    {
        match u8::try_from(subclass) {
            Ok(CONTROL_HANGUP) => Message::ClearsCall,
            Ok(CONTROL_RINGING) => Message::Indicates(Indication::Ringing),
            Ok(CONTROL_ANSWER) => Message::Answer,
            Ok(CONTROL_BUSY) => Message::ClearsCall,
            Ok(CONTROL_CONGESTION) => Message::ClearsCall,
            Ok(CONTROL_PROGRESS) => Message::Indicates(Indication::Progress),
            Ok(CONTROL_PROCEEDING) => Message::Indicates(Indication::Proceeding),
            _ => Message::Other,
        }
    }

    fn of_iax(subclass: u64) -> Message
        ensures { result ≡ meaning.iax_message subclass }
    {
        match u8::try_from(subclass) {
            Ok(IAX_NEW) => Message::New,
            Ok(IAX_PING) => Message::Ping,
            Ok(IAX_PONG) => Message::Pong,
            Ok(IAX_ACK) => Message::Ack,
            Ok(IAX_HANGUP) => Message::Hangup,
            Ok(IAX_REJECT) => Message::Reject,
            Ok(IAX_ACCEPT) => Message::Accept,
            Ok(IAX_AUTHREQ) => Message::AuthReq,
            Ok(IAX_AUTHREP) => Message::AuthRep,
            Ok(IAX_INVAL) => Message::Inval,
            Ok(IAX_LAGRQ) => Message::LagRq,
            Ok(IAX_LAGRP) => Message::LagRp,
            Ok(IAX_VNAK) => Message::Vnak,
            Ok(IAX_TXCNT) => Message::TxCnt,
            Ok(IAX_TXACC) => Message::TxAcc,
            Ok(IAX_QUELCH) => Message::Quelch,
            Ok(IAX_UNQUELCH) => Message::Unquelch,
            Ok(IAX_POKE) => Message::Poke,
            Ok(IAX_UNSUPPORT) => Message::Unsupport,
            _ => Message::UnknownIax,
        }
    }

    /// Returns whether it advances the sequence numbers ("Message Transport"): all but ACK, INVAL, VNAK, TXCNT and TXACC
    /// do.
    pub fn is_numbered(&self) -> bool
        ensures { result ≡ meaning.is_numbered self.now }
    {
        !matches!(
            self,
            Message::Ack | Message::Inval | Message::Vnak | Message::TxCnt | Message::TxAcc
        )
    }

    /// Returns whether it is an INVAL ("IAX Frames").
    pub fn is_inval(&self) -> bool
        ensures { result ≡ meaning.is_inval self.now }
    {
        matches!(self, Message::Inval)
    }

    /// Returns whether it is a VNAK ("IAX Frames").
    pub fn is_vnak(&self) -> bool
        ensures { result ≡ meaning.is_vnak self.now }
    {
        matches!(self, Message::Vnak)
    }

    /// Returns whether it is an ACCEPT, AUTHREQ, REJECT or HANGUP, which answer a NEW ("Call Setup").
    pub fn answers_new(&self) -> bool
        ensures { result ≡ meaning.answers_new self.now }
    {
        matches!(
            self,
            Message::Accept | Message::AuthReq | Message::Reject | Message::Hangup
        )
    }

    /// Returns whether it is voice in this format.
    pub fn is_voice_in(&self, format: Format) -> bool
        ensures { result ≡ meaning.is_voice_in format self.now }
    {
        match self {
            Message::Voice(voice) => (*voice).is(format),
            _ => false,
        }
    }

    /// Returns its name as RFC 5456 writes it ("Frame Types", "Control Frames", "IAX Frames"), or a description if it has
    /// no one name, in ASCII.
    pub fn name(&self) -> &'static str
        ensures { result.now ≡ meaning.name_of self.now }
    {
        match self {
            Message::New => "NEW",
            Message::Ping => "PING",
            Message::Pong => "PONG",
            Message::Ack => "ACK",
            Message::Hangup => "HANGUP",
            Message::Reject => "REJECT",
            Message::Accept => "ACCEPT",
            Message::AuthReq => "AUTHREQ",
            Message::AuthRep => "AUTHREP",
            Message::Inval => "INVAL",
            Message::LagRq => "LAGRQ",
            Message::LagRp => "LAGRP",
            Message::Vnak => "VNAK",
            Message::TxCnt => "TXCNT",
            Message::TxAcc => "TXACC",
            Message::Quelch => "QUELCH",
            Message::Unquelch => "UNQUELCH",
            Message::Poke => "POKE",
            Message::Unsupport => "UNSUPPORT",
            Message::UnknownIax => "unknown IAX frame",
            Message::ClearsCall => "clearing control frame",
            Message::Indicates(indication) => indication.name(),
            Message::Answer => "ANSWER",
            Message::Dtmf(_) => "DTMF",
            Message::Voice(_) => "VOICE",
            Message::Other => "other frame",
        }
    }
}
