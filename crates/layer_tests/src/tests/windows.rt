//! Windows of sequence numbers.
ghost use Rattle.std.specs.Prelude.{◌≤◌, length};

use crate::tests::same::{Place, holds_at};
use seq_window::{Acknowledged, FrameView, Received, Resent, SendError, Window};
use std::alloc::Global;
use std::process::Abort;

/// An event of a window and its judgement, or a part of its visible state.
#[derive(Clone, Copy)]
enum Step {
    /// This number of frames is sent, and each is acknowledged.
    Turns(u32),
    /// This number of frames is sent.
    Sends(u32),
    /// No frame can be sent.
    IsFull,
    /// This number of frames comes, each as it is expected.
    Takes(u32),
    /// An acknowledgement comes.
    Acknowledges(u8, Acknowledged),
    /// A frame comes.
    Receives(u8, Received),
    /// The first frame that has waited for 1,000 ms at this moment is retransmitted, once.
    Resends(u64, Resent),
    /// All held frames are retransmitted at this moment.
    Touches(u64),
    /// This number of frames is held, the oldest under this number.
    Holds(usize, Option<u8>),
    /// The number of the next frame to be sent, and the record's counts of sent, acknowledged and taken frames.
    Counts(u8, [usize; 3]),
}

/// The events of a window for 64 frames, or for 127.
#[derive(Clone, Copy)]
struct Case {
    name: &'static str,
    is_wide: bool,
    steps: &'static [Step],
}

static CASES: [Case; 7] = [
    Case {
        name: "acknowledgement counts",
        is_wide: true,
        steps: &[
            Step::Sends(3),
            Step::Acknowledges(2, Acknowledged::Acked(2)),
            Step::Holds(1, Some(2)),
            Step::Acknowledges(4, Acknowledged::Ignored),
            Step::Acknowledges(2, Acknowledged::Acked(0)),
            // Three sent, two acknowledged by the one that counts.
            Step::Counts(3, [3, 2, 0]),
        ],
    },
    Case {
        name: "acknowledgement after wrap",
        is_wide: true,
        steps: &[
            Step::Turns(250),
            Step::Sends(8),
            Step::Counts(2, [258, 250, 0]),
            Step::Acknowledges(1, Acknowledged::Acked(7)),
            Step::Holds(1, Some(1)),
            Step::Counts(2, [258, 257, 0]),
        ],
    },
    Case {
        name: "gap and repeat",
        is_wide: false,
        steps: &[
            Step::Takes(3),
            Step::Receives(5, Received::Gap),
            Step::Receives(3, Received::Taken),
            Step::Receives(4, Received::Taken),
            Step::Receives(5, Received::Taken),
            Step::Receives(5, Received::Repeat),
            Step::Counts(0, [0, 0, 6]),
        ],
    },
    Case {
        name: "numbers past a wrap",
        is_wide: true,
        steps: &[
            Step::Turns(300),
            Step::Counts(44, [300, 300, 0]),
            Step::Holds(0, None),
            Step::Acknowledges(44, Acknowledged::Acked(0)),
            Step::Acknowledges(45, Acknowledged::Ignored),
        ],
    },
    Case {
        name: "ahead and behind",
        is_wide: false,
        steps: &[
            Step::Takes(261),
            Step::Receives(5, Received::Taken),
            // 127 ahead, and 128 behind.
            Step::Receives(133, Received::Gap),
            Step::Receives(134, Received::Repeat),
        ],
    },
    Case {
        name: "widest window",
        is_wide: true,
        steps: &[
            Step::Sends(127),
            Step::IsFull,
            Step::Acknowledges(127, Acknowledged::Acked(127)),
            // 128 behind.
            Step::Acknowledges(255, Acknowledged::Ignored),
        ],
    },
    Case {
        name: "resends until spent",
        is_wide: true,
        steps: &[
            Step::Sends(2),
            Step::Resends(999, Resent::Nothing),
            Step::Touches(500),
            Step::Resends(1500, Resent::Again(0)),
            Step::Resends(2500, Resent::Spent),
        ],
    },
];

/// Returns a PING with two octets of data, which no leg would send: a window doesn't read its frames.
pub fn frame() -> FrameView<'static>
    ensures { length result.payload.now ≤ 1388 }
{
    FrameView {
        ts: 20,
        kind: 6,
        subclass: 2,
        payload: b"ab",
    }
}

// Returns whether `count` frames are sent, each under the next number, and each is acknowledged if `are_acknowledged`.
fn sends_all(window: &mut Window, count: u32, are_acknowledged: bool) -> bool {
    for _ in 0..count {
        let number = window.next();
        let is_sent = window.send(frame(), 0) == Ok(number);
        let next = number.wrapping_add(1);
        let is_right = !are_acknowledged || window.acknowledge(next) == Ok(Acknowledged::Acked(1));
        if !is_sent || !is_right {
            return false;
        }
    }
    true
}

// Returns whether `count` frames come, each as it is expected.
fn takes_all(window: &mut Window, count: u32) -> bool {
    for _ in 0..count {
        let number = window.expected();
        if window.receive(number, frame()) != Ok(Received::Taken) {
            return false;
        }
    }
    true
}

// Returns the count of held frames, and the number of the oldest.
fn held(window: &Window) -> (usize, Option<u8>) {
    match window.held(0) {
        Some(held) => (window.held_len(), Some(held.number)),
        None => (window.held_len(), None),
    }
}

// Returns the number of the next frame, and the record's counts of sent, acknowledged and taken frames.
fn counts(window: &Window) -> (u8, [usize; 3]) {
    let record = window.record();
    let counts = [
        record.sent_count(),
        record.acked_count(),
        record.taken_count(),
    ];
    (window.next(), counts)
}

// Returns whether this event has its result, or is visible.
fn makes(window: &mut Window, step: Step) -> bool {
    match step {
        Step::Turns(count) => sends_all(window, count, true),
        Step::Sends(count) => sends_all(window, count, false),
        Step::IsFull => window.send(frame(), 0) == Err(SendError::WindowFull),
        Step::Takes(count) => takes_all(window, count),
        Step::Acknowledges(iseq, judged) => window.acknowledge(iseq) == Ok(judged),
        Step::Receives(oseq, judged) => window.receive(oseq, frame()) == Ok(judged),
        Step::Resends(now, resent) => window.resend(now, 1000, 1) == resent,
        Step::Touches(now) => {
            window.touch_all(now);
            true
        }
        Step::Holds(count, oldest) => held(window) == (count, oldest),
        Step::Counts(next, frames) => counts(window) == (next, frames),
    }
}

// Plays all events of a window.
fn plays(rt: &impl Abort, alloc: Global, case: &Case) {
    let width = if case.is_wide { 127 } else { 64 };
    let mut window = Window::new(alloc, width, 4096).expect(rt, "a window");
    for (step, made) in case.steps.iter().enumerate() {
        let at = Place {
            case: case.name,
            step,
        };
        let is_so = makes(&mut window, *made);
        holds_at(rt, at, is_so);
    }
}

#[test]
fn steps_of_a_window(rt: HostRuntime) {
    for case in &CASES {
        plays(&rt, rt.alloc(), case);
    }
}
