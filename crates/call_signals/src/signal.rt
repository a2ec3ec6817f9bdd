//! The signals that a leg hands up, and the progress that it reports to the other side.
ghost use Rattle.std.specs.Prelude.{◌≡◌, ◌<◌, ◌≤◌, ◌==◌, length};
ghost use Rattle.std.specs.Option.{ForSome, option_copied};

use crate::format::Format;
use arrayvec::ArrayVec;
use std::marker::Model;

/// A digit of DTMF ("DTMF Frames"): 0 ..= 127. Contracts see its number.
#[derive(Clone, Copy, Debug, PartialEq, Eq)]
pub struct Digit {
    digit: u8,
}

impl Model for Digit {
    ghost use Rattle.std.specs.Prelude.{ℕ, ◌<◌};

    ghost Value = { ℕ };

    ghost view = { λ d. d.digit };

    ghost invariant = { λ d. d.digit < 128 };

    ghost inverse = { λ n. record { digit = n } };
}

impl Digit {
    /// Returns the digit of this number, 0 ..= 127.
    pub fn new(digit: u8) -> Digit
        requires { digit < 128 }
        ensures { result ≡ digit }
    {
        Digit { digit }
    }

    /// Returns the number, 0 ..= 127.
    pub fn get(self) -> u8
        ensures value { result ≡ self }
        ensures fits { result < 128 }
    {
        self.digit
    }
}

/// The progress of a call that isn't answered yet ("Control Frames").
#[derive(Clone, Copy, Debug, PartialEq, Eq)]
pub enum Indication {
    Ringing,
    Progress,
    Proceeding,
}

impl Indication {
    ghost use Rattle.call_signals.specs.Signal.{indication_name};

    /// Returns its name, as RFC 5456 writes it ("Control Frames"), in ASCII.
    pub fn name(&self) -> &'static str
        ensures { result.now ≡ indication_name self.now }
    {
        match self {
            Indication::Ringing => "RINGING",
            Indication::Progress => "PROGRESS",
            Indication::Proceeding => "PROCEEDING",
        }
    }
}

/// The place of media in a datagram: octets from `start` up to `end`, without `end`.
#[derive(Clone, Copy, Debug, PartialEq, Eq)]
pub struct MediaSpan {
    pub start: usize,
    pub end: usize,
}

impl MediaSpan {
    ghost use Rattle.call_signals.specs.Signal.{span_len};

    /// Returns the number of the span's octets.
    pub fn len(self) -> usize
        ensures { result ≡ span_len self }
    {
        self.end.saturating_sub(self.start)
    }

    /// Returns whether the span has no octets.
    pub fn is_empty(self) -> bool
        ensures { result ≡ (span_len self == 0) }
    {
        self.len() == 0
    }
}

/// A signal that a leg hands up, without the texts of an offer, which the leg keeps.
#[derive(Clone, Copy, Debug, PartialEq, Eq)]
pub enum Signal {
    /// The other side's call: `Leg::called`, `Leg::calling` and `Leg::format` have its values.
    Offered,
    Indicated(Indication),
    Answered,
    Dtmf(Digit),
    Media(MediaSpan),
    Hangup,
}

/// A text of at most 255 octets, as an information element holds it. Contracts see its octets.
#[derive(Debug, Drop)]
pub struct ElementText {
    octets: ArrayVec<u8, 255>,
}

impl Model for ElementText {
    ghost use Rattle.std.specs.Prelude.{List, ℕ, length, ◌≤◌};

    ghost Value = { List ℕ };

    ghost view = { λ text. text.octets.items };

    ghost invariant = { λ text. length text.octets.items ≤ 255 };
}

impl ElementText {
    /// Returns a copy of at most 255 octets.
    pub fn new(octets: &[u8]) -> ElementText
        requires { length octets.now ≤ 255 }
        ensures { result ≡ octets.now }
    {
        let mut copy = ArrayVec::new();
        copy.try_extend_from_slice(octets).unwrap();
        ElementText { octets: copy }
    }

    /// Returns a copy of a text of at most 255 octets, if there is one.
    pub fn of(text: Option<&[u8]>) -> Option<ElementText>
        requires { ForSome text (λ octets. length octets.now ≤ 255) }
        ensures { result ≡ option_copied text.entry }
    {
        match text {
            Some(text) => Some(ElementText::new(text)),
            None => None,
        }
    }

    /// Returns the octets, at most 255.
    pub fn as_slice(&self) -> &[u8]
        ensures value { result.now ≡ self.now }
        ensures short { length self.now ≤ 255 }
    {
        self.octets.as_slice()
    }
}

/// A signal that a leg hands up, with its values.
#[derive(Debug, Drop)]
pub enum Onward {
    /// The other side's call: the called number, the calling number, and the format.
    Offered {
        called: ElementText,
        calling: Option<ElementText>,
        format: Format,
    },
    Ringing,
    Progress,
    Proceeding,
    Answered,
    Dtmf(Digit),
    Media(MediaSpan),
    Hangup,
}
