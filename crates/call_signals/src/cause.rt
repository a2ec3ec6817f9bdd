//! The causes for which a call ends ("Information Elements": CAUSE and CAUSECODE).
ghost use Rattle.std.specs.Prelude.{◌≡◌, ◌≤◌, length, IfSome, option_copied};
ghost use Rattle.call_signals.specs.Cause.{cause_code, cause_of_code, cause_text, name_of_code, unnamed_text};

use crate::signal::ElementText;
use arrayvec::ArrayVec;

/// The cause for which a leg rejects or hangs up, by the codes of Q.850.
#[derive(Clone, Copy, Debug, PartialEq, Eq)]
pub enum Cause {
    /// No route leads to the number.
    UnallocatedNumber,
    /// The call ended normally.
    NormalClearing,
    /// The other side is busy.
    UserBusy,
    /// The other side is silent.
    NoUserResponding,
    /// The call is rejected.
    CallRejected,
    /// There is no number for one more leg.
    NoChannelAvailable,
    /// The other side has no room for the call.
    Congestion,
    /// Another cause, by its code, 0 ..= 255.
    Other(u8),
}

// Returns the text of a code by the table of Q.850, one row for each code. The texts are this project's, of at most 41 octets.
fn name_of_code(code: u8) -> Option<&'static [u8]>
    ensures value { option_copied result ≡ name_of_code code }
    ensures short { IfSome result (λ text. length text.now ≤ 41) }
{
    match code {
        1 => Some(b"unallocated number"),
        3 => Some(b"no route to destination"),
        16 => Some(b"normal clearing"),
        17 => Some(b"user busy"),
        18 => Some(b"no user responding"),
        19 => Some(b"no answer from user"),
        20 => Some(b"subscriber absent"),
        21 => Some(b"call rejected"),
        22 => Some(b"number changed"),
        27 => Some(b"destination out of order"),
        28 => Some(b"invalid number format"),
        31 => Some(b"normal, unspecified"),
        34 => Some(b"no channel available"),
        38 => Some(b"network out of order"),
        41 => Some(b"temporary failure"),
        42 => Some(b"switching equipment congestion"),
        44 => Some(b"requested channel not available"),
        58 => Some(b"bearer capability not presently available"),
        88 => Some(b"incompatible destination"),
        102 => Some(b"recovery on timer expiry"),
        111 => Some(b"protocol error, unspecified"),
        127 => Some(b"interworking, unspecified"),
        _ => None,
    }
}

// Returns the text of a code that has no row: `cause N`.
fn unnamed_text(code: u8) -> ElementText
    ensures { result ≡ unnamed_text code }
{
    let mut text: ArrayVec<u8, 9> = ArrayVec::new();
    text.try_extend_from_slice(b"cause ").unwrap();
    if code >= 100 {
        text.push(b'0' + code / 100);
    }
    if code >= 10 {
        text.push(b'0' + code / 10 % 10);
    }
    text.push(b'0' + code % 10);
    ElementText::new(text.as_slice())
}

impl Cause {
    /// Returns the cause of this code of a CAUSECODE ("Information Elements"): `Other` if the code has no variant here.
    pub fn of_code(code: u8) -> Cause
        ensures { result ≡ cause_of_code code }
    {
        match code {
            1 => Cause::UnallocatedNumber,
            16 => Cause::NormalClearing,
            17 => Cause::UserBusy,
            18 => Cause::NoUserResponding,
            21 => Cause::CallRejected,
            34 => Cause::NoChannelAvailable,
            42 => Cause::Congestion,
            _ => Cause::Other(code),
        }
    }

    /// Returns the code of a CAUSECODE, 0 ..= 255 ("Information Elements").
    pub fn code(self) -> u8
        ensures { result ≡ cause_code self }
    {
        match self {
            Cause::UnallocatedNumber => 1,
            Cause::NormalClearing => 16,
            Cause::UserBusy => 17,
            Cause::NoUserResponding => 18,
            Cause::CallRejected => 21,
            Cause::NoChannelAvailable => 34,
            Cause::Congestion => 42,
            Cause::Other(code) => code,
        }
    }

    /// Returns the text of a CAUSE: that of the code's row in Q.850, or `cause N`.
    pub fn text(self) -> ElementText
        ensures { result ≡ cause_text self }
    {
        let code = self.code();
        match name_of_code(code) {
            Some(text) => ElementText::new(text),
            None => unnamed_text(code),
        }
    }
}
