//! A leg and a window. Any one of their requests for memory may be refused.
//!
//! Each test passes whichever request is refused, and if none is. A refused call changes nothing, and the same call then
//! has the result that it would have had. `.ci/refusals` refuses the requests one at a time.

use crate::frames::NEW_300;
use crate::tests::leg::lines::{ANSWERING, Event, Handed, Line};
use crate::tests::leg::{Tested, Wish, leg_of};
use crate::tests::same::{Place, same, same_at};
use crate::tests::windows::frame;
use leg_machine::{Judged, Stage};
use seq_window::{Acknowledged, Received, Window};
use std::alloc::Global;
use std::process::Abort;

/// A digit and media come, a digit and media are sent, and the call is hung up.
static TALK: [Line; 5] = [
    Line {
        at: 32,
        event: Event::Frame(Judged::Taken, Handed::Digit),
        text: "800700010000002001020135",
        said: "800100070000002002020604",
        stage: Stage::Up,
    },
    Line {
        at: 40,
        event: Event::Frame(Judged::Taken, Handed::Media),
        text: "800700010000002802020204ff",
        said: "800100070000002802030604",
        stage: Stage::Up,
    },
    Line {
        at: 50,
        event: Event::Order(Wish::Digit),
        text: "",
        said: "800100070000003202030135",
        stage: Stage::Up,
    },
    Line {
        at: 60,
        event: Event::Order(Wish::Media),
        text: "",
        said: "800100070000003c03030204aa",
        stage: Stage::Up,
    },
    Line {
        at: 70,
        event: Event::Order(Wish::Hangup),
        text: "",
        said: "800100070000004604030605160f6e6f726d616c20636c656172696e672a0110",
        stage: Stage::Closing,
    },
];

// Returns the leg of a NEW for 300 that answered the call. It sends a PING after `ping_ms` milliseconds, and never at 0.
fn talking(rt: &impl Abort, alloc: Global, ping_ms: u16) -> Tested {
    let mut tested = leg_of(rt, alloc, ping_ms, NEW_300);
    tested.plays(rt, "the call is answered", &ANSWERING);
    tested
}

#[test]
fn any_growth_of_a_leg_refused(rt: HostRuntime) {
    talking(&rt, rt.alloc(), 0).plays(&rt, "talk", &TALK);
}

// The leg is Up, and sends four digits. Then its record has no room for a further frame: two more entries need memory. Then
// these requests are made.
fn fills(rt: &impl Abort, tested: &mut Tested, last: &[Wish]) {
    asks(rt, tested, "four digits", &[Wish::Digit; 4]);
    asks(rt, tested, "the last wish", last);
}

// Makes these requests to the leg, which grants them.
fn asks(rt: &impl Abort, tested: &mut Tested, case: &str, wishes: &[Wish]) {
    for (step, wish) in wishes.iter().enumerate() {
        let at = Place { case, step };
        same_at(rt, at, &tested.grants(rt, at, 20, *wish), &Ok(()));
    }
}

/// A case: the leg sends a PING after `ping_ms` milliseconds, and gets the last wishes. It sends a frame in the tick of 30,
/// or in that of 40 if its growth was refused. Then it is in the stage.
#[derive(Clone, Copy)]
struct Skipped<'a> {
    ping_ms: u16,
    last: &'a [Wish],
    at_30: &'a str,
    at_40: &'a str,
    stage: Stage,
}

static PING: Skipped<'static> = Skipped {
    ping_ms: 30,
    last: &[],
    at_30: "800100070000001e06010602",
    at_40: "800100070000002806010602",
    stage: Stage::Up,
};

static HANGUP: Skipped<'static> = Skipped {
    ping_ms: 0,
    last: &[Wish::Doom],
    at_30: "800100070000001e06010605160f6e6f726d616c20636c656172696e672a0110",
    at_40: "800100070000002806010605160f6e6f726d616c20636c656172696e672a0110",
    stage: Stage::Closing,
};

// The frame is sent in the tick of 30 or of 40.
fn goes_out(rt: &impl Abort, tested: &mut Tested, case: &Skipped<'_>) {
    let at = Place {
        case: "the ticks of 30 and 40",
        step: 0,
    };
    let skipped = tested.waits(30);
    if skipped == 0 {
        tested.shows(rt, at, case.at_30, case.stage);
        return;
    }
    same_at(rt, at, &skipped, &1);
    tested.shows(rt, at, "", Stage::Up);
    same_at(rt, at, &tested.waits(40), &0);
    tested.shows(rt, at, case.at_40, case.stage);
}

fn plays(rt: &impl Abort, alloc: Global, case: &Skipped<'_>) {
    let mut tested = talking(rt, alloc, case.ping_ms);
    fills(rt, &mut tested, case.last);
    goes_out(rt, &mut tested, case);
}

#[test]
fn ping_without_memory(rt: HostRuntime) {
    plays(&rt, rt.alloc(), &PING);
}

#[test]
fn hangup_without_memory(rt: HostRuntime) {
    plays(&rt, rt.alloc(), &HANGUP);
}

// Returns the visible state of a window: the numbers of the next frame and of the expected one, and the counts of held
// frames and of the record's entries.
fn look_at(window: &Window) -> (u8, u8, usize, usize) {
    (
        window.next(),
        window.expected(),
        window.held_len(),
        window.record().len(),
    )
}

/// An event of a window under a number, with its judgement.
#[derive(Clone, Copy)]
enum Turn {
    Sends,
    Receives,
    IsAcknowledged,
}

// Returns whether the event has its result, or `None` if it is refused.
fn turns(window: &mut Window, turn: Turn, number: u8) -> Option<bool> {
    match turn {
        Turn::Sends => Some(window.send(frame(), 20).ok()? == number),
        Turn::Receives => Some(window.receive(number, frame()).ok()? == Received::Taken),
        Turn::IsAcknowledged => {
            let next = number.wrapping_add(1);
            Some(window.acknowledge(next).ok()? == Acknowledged::Acked(1))
        }
    }
}

// Plays the event, again if memory is refused.
fn takes_part(rt: &impl Abort, window: &mut Window, turn: Turn, number: u8) {
    let before = look_at(window);
    let mut answer = turns(window, turn, number);
    if answer.is_none() {
        same(rt, &look_at(window), &before);
        answer = turns(window, turn, number);
    }
    same(rt, &(number, answer), &(number, Some(true)));
}

// Returns a window for eight frames; the call is repeated if memory is refused.
fn window_at_last(rt: &impl Abort, alloc: Global) -> Window {
    match Window::new(alloc, 8, 64) {
        Ok(window) => window,
        Err(_) => Window::new(alloc, 8, 64).expect(rt, "a window"),
    }
}

// A frame is sent under this number, one comes under it, and the former is acknowledged.
fn takes_turn(rt: &impl Abort, window: &mut Window, number: u8) {
    for turn in [Turn::Sends, Turn::Receives, Turn::IsAcknowledged] {
        takes_part(rt, window, turn, number);
    }
}

#[test]
fn any_growth_of_a_window_refused(rt: HostRuntime) {
    let mut window = window_at_last(&rt, rt.alloc());
    for number in 0..16u8 {
        takes_turn(&rt, &mut window, number);
    }
    same(&rt, &look_at(&window), &(16, 16, 0, 48));
}
