//! The kinds of frames that are counted in a record.
ghost use Rattle.std.specs.Prelude.{◌≡◌};
ghost use Rattle.call_records.specs.Courses.{is_of_kind};

use call_signals::Message;

/// A kind of frames.
#[derive(Clone, Copy)]
pub enum Counted {
    /// Digits ("DTMF").
    Digits,
    /// Challenges ("AUTHREQ").
    Challenges,
}

impl Counted {
    // Returns whether a frame with this meaning is of the kind.
    pub(crate) fn has(self, message: &Message) -> bool
        ensures { result ≡ is_of_kind self message.now }
    {
        match self {
            Counted::Digits => matches!(message, Message::Dtmf(_)),
            Counted::Challenges => matches!(message, Message::AuthReq),
        }
    }
}
