//! A leg under test: it gets full frames, orders and ticks, and sends datagrams. Any one request for memory may be refused;
//! a refused call left all as it was, and is repeated once.
ghost use Rattle.std.specs.Prelude.{◌≡◌, ◌≤◌, [], length, IfSome};
ghost use Rattle.call_signals.specs.PeerRules.{IsPeerRules};
ghost use Rattle.leg_machine.specs.OrderTable.{IsShortMedia};

mod lines;
mod refused_memory;

use crate::tests::same::{Place, holds_at};
use call_auth::Challenge;
use iax_frames::{CallNumber, Datagram, Full, read};
use leg_machine::{
    Cause, Digit, Format, Formats, Heard, Leg, Order, OrderError, PeerRules, Replies, Stage,
    StepError,
};
use std::alloc::Global;
use std::process::Abort;

/// Returns the rules of a peer in mu-law, with the defaults of a plan except for the time between its PINGs.
pub fn rules(ping_ms: u16) -> PeerRules
    ensures { IsPeerRules result }
{
    PeerRules {
        user: None,
        secret: None,
        outbound_secret: None,
        challenge_prefix: None,
        call_tokens: None,
        challenge_ms: None,
        formats: Formats {
            gsm: false,
            ulaw: true,
            alaw: false,
        },
        trunk: false,
        trunk_timestamps: false,
        trunk_ms: None,
        retry_ms: 1000,
        max_retries: 4,
        ping_ms: u64::from(ping_ms),
        record_limit: 4096,
        record_octets: None,
        window: 64,
        vnak_ms: 0,
        poke: false,
        qualify_ms: 0,
        carries_caller: false,
        carries_cause: false,
        routes_format: false,
        is_hardened: false,
        poke_offset: 0,
    }
}

/// Returns the octets of a text; the call is repeated if memory is refused.
pub fn octets_of(rt: &impl Abort, alloc: Global, text: &str) -> Vec<u8> {
    match hex::decode(alloc, text) {
        Ok(octets) => octets,
        Err(_) => hex::decode(alloc, text).expect(rt, "octets"),
    }
}

// Returns the full frame of a datagram.
fn full_of(octets: &[u8]) -> Option<Full<'_>>
    ensures { IfSome result (λ frame. length frame.payload ≤ 1388) }
{
    match read(octets) {
        Ok(Datagram::Full(frame)) => {
            if frame.payload().len() > 1388 {
                None
            } else {
                Some(frame)
            }
        }
        _ => None,
    }
}

/// A leg, and the list to which it writes.
#[derive(Drop)]
pub struct Tested {
    pub leg: Leg,
    pub replies: Box<Replies>,
    pub alloc: Global,
}

// Returns the leg under local number 1 that a NEW opens at moment 0, if there is memory for it.
fn opened(alloc: Global, ping_ms: u16, frame: &Full<'_>) -> Option<Tested>
    requires { length frame.now.payload ≤ 1388 }
{
    let number = CallNumber::new(1);
    let challenge = Challenge::new(b"a")?;
    let mut replies = Box::new(alloc, Replies::new()).ok()?;
    if frame.oseqno() != 0 {
        return None;
    }
    let rules = rules(ping_ms);
    match Leg::open_in_into(alloc, &rules, number, frame, 0, &challenge, &mut replies) {
        Ok((leg, _)) => Some(Tested {
            leg,
            replies,
            alloc,
        }),
        Err(_) => None,
    }
}

/// Returns the leg that a NEW opens, which sends a PING after `ping_ms` milliseconds.
pub fn leg_of(rt: &impl Abort, alloc: Global, ping_ms: u16, new: &str) -> Tested {
    let octets = octets_of(rt, alloc, new);
    let frame = full_of(&octets).expect(rt, "a full frame");
    match opened(alloc, ping_ms, &frame) {
        Some(tested) => tested,
        None => opened(alloc, ping_ms, &frame).expect(rt, "a leg"),
    }
}

/// A request of the layer above to a leg.
#[derive(Clone, Copy)]
pub enum Wish {
    Accept,
    Answer,
    /// The digit 5.
    Digit,
    /// The octet 0xaa of media.
    Media,
    Hangup,
    Doom,
}

/// Returns the order for a leg of a call in mu-law.
pub fn order_of(wish: Wish) -> Order<'static>
    ensures { IsShortMedia result }
{
    match wish {
        Wish::Accept => Order::Accept(Format::Ulaw),
        Wish::Answer => Order::Answer,
        Wish::Digit => Order::Dtmf(Digit::new(0x35)),
        Wish::Media => Order::Media(b"\xaa"),
        Wish::Hangup => Order::Hangup(Cause::NormalClearing),
        Wish::Doom => Order::Doom(Cause::NormalClearing),
    }
}

/// The visible state of a leg: its stage and the peer's number; whether it owes an answer, and whether it is doomed; the
/// number of the next frame, and of the expected one; the count of held frames, and of the record's entries.
pub type Look = (Stage, Option<CallNumber>, [bool; 2], [u8; 2], [usize; 2]);

impl Tested {
    /// Returns the visible state of the leg.
    pub fn look(&self) -> Look {
        let window = self.leg.window();
        (
            self.leg.stage(),
            self.leg.remote(),
            [self.leg.owes(), self.leg.doomed()],
            [window.next(), window.expected()],
            [window.held_len(), window.record().len()],
        )
    }

    /// Returns whether the leg is as it was, and nothing is sent.
    pub fn is_as(&self, before: &Look) -> bool {
        self.look() == *before && self.replies.len() == 0
    }

    // A full frame is given to the leg.
    fn takes(&mut self, frame: &Full<'_>, time: u64) -> Result<Heard, StepError>
        requires { length frame.now.payload ≤ 1388 }
    {
        self.replies.clear();
        self.leg.full_into(frame, time, &mut self.replies)
    }

    /// Gives a full frame to the leg, again if memory is refused.
    pub fn hears(
        &mut self,
        rt: &impl Abort,
        at: Place<'_>,
        time: u64,
        octets: &[u8],
    ) -> Result<Heard, StepError> {
        let frame = full_of(octets).expect(rt, "a full frame");
        let before = self.look();
        let heard = self.takes(&frame, time);
        if heard != Err(StepError::Memory) {
            return heard;
        }
        holds_at(rt, at, self.is_as(&before));
        self.takes(&frame, time)
    }

    // Gives an order.
    fn obeys(&mut self, wish: Wish, time: u64) -> Result<(), OrderError> {
        self.replies.clear();
        self.leg
            .order_into(&order_of(wish), time, &mut self.replies)
    }

    /// Gives a request to the leg, again if memory is refused.
    pub fn grants(
        &mut self,
        rt: &impl Abort,
        at: Place<'_>,
        time: u64,
        wish: Wish,
    ) -> Result<(), OrderError> {
        let before = self.look();
        let answer = self.obeys(wish, time);
        if answer != Err(OrderError::Memory) {
            return answer;
        }
        holds_at(rt, at, self.is_as(&before));
        self.obeys(wish, time)
    }

    /// Ticks the leg. Returns the number of frames that had no memory.
    pub fn waits(&mut self, time: u64) -> u32 {
        self.replies.clear();
        self.leg.tick_into(time, &mut self.replies)
    }
}
