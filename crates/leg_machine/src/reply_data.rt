//! The frames that a leg sends, with their data.
ghost use Rattle.std.specs.Prelude.{◌≡◌, ◌≤◌, [], length};
ghost use Rattle.seq_window.specs.Record.{frame_of};
ghost use Rattle.leg_machine.specs.Replies as replies;

use crate::machine::Machine;
use call_signals::codes::{FRAME_IAX, FRAME_VOICE, IAX_NEW};
use call_signals::reply_elements::{append_auth_req, append_cause, append_new};
use call_signals::{Caller, ReplyFrame};
use iax_frames::Payload;
use info_elements::{FORMAT, IAX_UNKNOWN, MD5_RESULT, append_to};
use seq_window::FrameView;

impl Machine {
    ghost use Rattle.leg_machine.specs.Leg.{leg_of};
    ghost use Rattle.std.specs.Prelude.{unwrap_or};

    // Returns the challenge that was sent.
    fn challenge_text(&self) -> &[u8]
        ensures value { result.now ≡ unwrap_or self.now.challenge [] }
        ensures short { length result.now ≤ 255 }
    {
        match &self.challenge {
            Some(challenge) => challenge.as_slice(),
            None => &[],
        }
    }

    /// Writes the elements of a reply to the empty list.
    pub fn write_elements(&self, reply: &ReplyFrame, elements: &mut Payload)
        requires { elements.old ≡ [] }
        ensures { elements.new ≡ replies.data_of (leg_of self.now) reply.now }
    {
        match reply {
            ReplyFrame::AuthReq => append_auth_req(
                elements,
                &self.rules.user,
                self.challenge_text(),
            ),
            ReplyFrame::AuthRep(digits) => append_to(elements, MD5_RESULT, digits),
            ReplyFrame::Accept(format) => append_to(elements, FORMAT, &format.bit().to_be_bytes()),
            ReplyFrame::Reject(cause) => append_cause(elements, *cause),
            ReplyFrame::Hangup(cause) => append_cause(elements, *cause),
            ReplyFrame::Unsupport(octet) => append_to(elements, IAX_UNKNOWN, &[*octet]),
            ReplyFrame::Ping => {}
            ReplyFrame::Pong(_) => {}
            ReplyFrame::LagRp(_) => {}
            ReplyFrame::Indicate(_) => {}
            ReplyFrame::Answer => {}
            ReplyFrame::Dtmf(_) => {}
        }
    }

    /// Returns a reply as a frame of the moment `now`, in milliseconds, with its elements.
    pub fn reply_frame<'a>(&self, reply: &ReplyFrame, now: u64, elements: &'a [u8]) -> FrameView<'a>
        requires { elements.now ≡ replies.data_of (leg_of self.now) reply.now }
        ensures { frame_of result ≡ replies.reply_frame (leg_of self.now) now reply.now }
    {
        FrameView {
            ts: reply.timestamp(self.present(now)),
            kind: reply.frame_type(),
            subclass: reply.subclass(),
            payload: elements,
        }
    }

    /// Writes the elements of the NEW of an outgoing call to the empty list ("Call Setup"). The called number has at most
    /// 255 octets.
    pub fn write_new(&self, called: &[u8], caller: &Caller, elements: &mut Payload)
        requires called { length called.now ≤ 255 }
        requires empty { elements.old ≡ [] }
        ensures { elements.new ≡ replies.new_elements self.now.rules.user called.now caller.now self.now.format }
    {
        append_new(elements, &self.rules.user, called, caller, self.format);
    }

    /// Returns the NEW of an outgoing call, at the moment `now`, in milliseconds, with its elements ("Call Setup").
    pub fn new_frame<'a>(&self, elements: &'a [u8], now: u64) -> FrameView<'a>
        ensures { frame_of result ≡ replies.new_frame_with (leg_of self.now) now elements.now }
    {
        FrameView {
            ts: self.present(now),
            kind: FRAME_IAX,
            subclass: IAX_NEW,
            payload: elements,
        }
    }

    /// Returns media as a full frame of voice in the leg's format, at the moment `now`, in milliseconds ("Voice Frames").
    pub fn voice_frame<'a>(&self, media: &'a [u8], now: u64) -> FrameView<'a>
        ensures { frame_of result ≡ replies.voice_frame (leg_of self.now) now media.now }
    {
        FrameView {
            ts: self.present(now),
            kind: FRAME_VOICE,
            subclass: self.format.bit() as u8,
            payload: media,
        }
    }
}
