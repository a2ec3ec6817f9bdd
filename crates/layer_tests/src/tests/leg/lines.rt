//! The events of a leg, line by line.
use crate::tests::leg::{Tested, Wish, octets_of};
use crate::tests::same::{Place, same_at};
use leg_machine::{Digit, Heard, Judged, MediaSpan, Signal, Stage};
use std::process::Abort;

/// The signal of a frame.
#[derive(Clone, Copy)]
pub enum Handed {
    Nothing,
    /// The digit 5.
    Digit,
    /// The octet of media behind the head.
    Media,
}

/// An event of a leg and its result, apart from the datagrams.
#[derive(Clone, Copy)]
pub enum Event {
    /// A full frame comes, the text of the line: its judgement, and its signal.
    Frame(Judged, Handed),
    /// An order is given, and not refused.
    Order(Wish),
}

/// A line: the moment; the event, with the octets of its frame; the datagram that is sent, or nothing; and the stage
/// afterwards.
#[derive(Clone, Copy)]
pub struct Line {
    pub at: u64,
    pub event: Event,
    pub text: &'static str,
    pub said: &'static str,
    pub stage: Stage,
}

/// A leg of a NEW for 300 accepts the call at moment 0, gets the acknowledgement, and answers at 20.
pub static ANSWERING: [Line; 3] = [
    Line {
        at: 0,
        event: Event::Order(Wish::Accept),
        text: "",
        said: "800100070000000000010607090400000004",
        stage: Stage::Linked,
    },
    Line {
        at: 10,
        event: Event::Frame(Judged::Unnumbered, Handed::Nothing),
        text: "800700010000000001010604",
        said: "",
        stage: Stage::Linked,
    },
    Line {
        at: 20,
        event: Event::Order(Wish::Answer),
        text: "",
        said: "800100070000001401010404",
        stage: Stage::Up,
    },
];

fn signal_of(handed: Handed) -> Option<Signal> {
    match handed {
        Handed::Nothing => None,
        Handed::Digit => Some(Signal::Dtmf(Digit::new(0x35))),
        Handed::Media => Some(Signal::Media(MediaSpan { start: 12, end: 13 })),
    }
}

impl Tested {
    // Returns the octets of the only datagram of the last step, or none if there is no datagram, or more than one.
    fn said(&self) -> &[u8] {
        match self.replies.get(0) {
            Some(out) if self.replies.len() == 1 => out.octets(),
            _ => &[],
        }
    }

    /// Checks that the last step sent this datagram, or none, and no other; and that the leg is in this stage.
    pub fn shows(&self, rt: &impl Abort, at: Place<'_>, said: &str, stage: Stage) {
        let octets = octets_of(rt, self.alloc, said);
        let count = usize::from(!octets.is_empty());
        let found = (self.leg.stage(), self.replies.len(), self.said());
        same_at(rt, at, &found, &(stage, count, octets.as_slice()));
    }

    // Plays this event.
    fn happens(&mut self, rt: &impl Abort, at: Place<'_>, line: &Line) {
        match line.event {
            Event::Frame(judged, handed) => {
                let octets = octets_of(rt, self.alloc, line.text);
                let found = self.hears(rt, at, line.at, &octets);
                let signal = signal_of(handed);
                same_at(rt, at, &found, &Ok(Heard { judged, signal }));
            }
            Event::Order(wish) => {
                same_at(rt, at, &self.grants(rt, at, line.at, wish), &Ok(()));
            }
        }
    }

    /// Plays all events of a case, line by line.
    pub fn plays(&mut self, rt: &impl Abort, case: &str, lines: &[Line]) {
        for (step, line) in lines.iter().enumerate() {
            let at = Place { case, step };
            self.happens(rt, at, line);
            self.shows(rt, at, line.said, line.stage);
        }
    }
}
