//! The events of a peer, step by step.
ghost use Rattle.std.specs.Prelude.{◌≡◌, length};
ghost use Rattle.call_signals.specs.Order.{media_of};

use crate::tests::leg::{Wish, octets_of, order_of};
use crate::tests::peer::desk::{Desk, opening_of};
use crate::tests::same::{Place, holds_at};
use call_auth::Challenge;
use call_book::{Lease, LegName, PeerId};
use iax_frames::Full;
use leg_machine::{Judged, MediaSpan, Order, Signal, Stage};
use peer_lock::{LedgerSet, OpenError, OrderError, PeerError, Step as Stepped};
use std::process::Abort;

/// An event of a peer and its result, or a part of its visible state. The leg is the one under number 1.
#[derive(Clone, Copy)]
pub enum Step {
    /// A NEW opens a leg under the next lease of the book, whose number the leg has.
    Opens(&'static str),
    /// A datagram comes at a moment, with this judgement.
    Comes(u64, &'static str, Judged),
    /// It is taken; the leg's media at these octets of it is handed up, or nothing is.
    Media(u64, &'static str, Option<(usize, usize)>),
    /// The leg gets an order at a moment.
    Order(u64, Wish),
    /// A tick is answered, or not.
    Tick(u64, bool),
    /// This datagram is the oldest of the outbox, and is taken out; or there is none.
    Says(&'static str),
    /// The leg is in this stage.
    Stage(Stage),
    /// The pass has this number of octets.
    Octets(u64),
    /// The pass has this number of steps.
    Steps(u64),
}

// Returns the octets of an order's media.
fn octets_in(order: &Order<'_>) -> u64
    ensures { result ≡ length (media_of order.now) }
{
    match order {
        Order::Media(octets) => octets.len() as u64,
        _ => 0,
    }
}

impl<J: LedgerSet> Desk<J> {
    ghost use Rattle.std.specs.Prelude.{◌≤◌, OnErr};
    ghost use Rattle.leg_machine.specs.OrderTable.{IsShortMedia};
    ghost use Rattle.peer_lock.specs.Openings.{IsOpening};

    // Opens a leg by the NEW, under the lease, again if memory is refused. Returns the name of the leg.
    fn opens_at_last(
        &mut self,
        frame: &Full<'_>,
        lease: Lease,
        challenge: &Challenge,
    ) -> Option<LegName>
        requires { IsOpening frame.now }
    {
        let before = self.look();
        match self.opens_for(frame, lease, challenge) {
            Ok(step) => step.touched,
            Err((lease, OpenError::Memory)) if self.is_as(&before) => {
                self.opens_for(frame, lease, challenge).ok()?.touched
            }
            Err(_) => None,
        }
    }

    // Returns whether the NEW of a text opens a leg under the next lease of the book, whose name it has.
    fn opens(&mut self, rt: &impl Abort, text: &str) -> bool {
        let octets = octets_of(rt, self.alloc, text);
        let frame = opening_of(&octets).expect(rt, "a NEW");
        let challenge = Challenge::new(b"a").expect(rt, "a challenge");
        let lease = self.book.reserve(PeerId::new(0)).expect(rt, "a number");
        let name = lease.name();
        self.opens_at_last(&frame, lease, &challenge) == Some(name)
    }

    // Gives a datagram to the peer, again if memory is refused and all is as it was.
    fn comes(&mut self, rt: &impl Abort, time: u64, text: &str) -> Result<Stepped, PeerError> {
        let octets = octets_of(rt, self.alloc, text);
        let before = self.look();
        let found = self.takes(&octets, time);
        if found == Err(PeerError::Memory) && self.is_as(&before) {
            return self.takes(&octets, time);
        }
        found
    }

    // Returns the judgement of a datagram, if it is accepted.
    fn judged(&mut self, rt: &impl Abort, time: u64, text: &str) -> Option<Judged> {
        Some(self.comes(rt, time, text).ok()?.judged)
    }

    // Returns the first signal handed up: the number of the leg, and the signal.
    fn handed_up(&self) -> Option<(u16, Signal)> {
        let (name, signal) = self.onwards.get(0)?;
        Some((name.number, signal))
    }

    // Returns whether a datagram is accepted, and the leg's media at these octets of it is handed up, or nothing.
    fn hands_up(
        &mut self,
        rt: &impl Abort,
        time: u64,
        text: &str,
        media: Option<(usize, usize)>,
    ) -> bool {
        let wanted = match media {
            Some((start, end)) => Some((1, Signal::Media(MediaSpan { start, end }))),
            None => None,
        };
        self.judged(rt, time, text).is_some() && self.handed_up() == wanted
    }

    // Gives an order to the leg.
    fn orders(&mut self, time: u64, order: &Order<'_>) -> Result<Stepped, OrderError>
        requires media { IsShortMedia order.now }
        requires credit { length (media_of order.now) ≤ self.old.pass.octets }
        ensures { OnErr result (self.new.pass.octets ≡ self.old.pass.octets) }
    {
        let Some(status) = self.state.look(1) else {
            return Err(OrderError::Gone);
        };
        self.state.order(&mut self.pass, status.name, order, time)
    }

    // Returns whether there is credit for the request and the leg obeys, again if memory is refused and all is as it was.
    fn obeys(&mut self, time: u64, wish: Wish) -> bool {
        let order = order_of(wish);
        if octets_in(&order) > self.pass.octets() {
            return false;
        }
        let before = self.look();
        match self.orders(time, &order) {
            Ok(_) => true,
            Err(OrderError::Memory) => { self.is_as(&before) && self.orders(time, &order).is_ok() }
            Err(_) => false,
        }
    }

    // Returns whether this datagram is the oldest of the outbox, or there is none.
    fn says(&mut self, rt: &impl Abort, text: &str) -> bool {
        let octets = octets_of(rt, self.alloc, text);
        match self.state.take_out() {
            Some(out) => out.octets() == octets.as_slice(),
            None => octets.is_empty(),
        }
    }

    // Returns whether this is visible at the peer.
    fn shows(&mut self, rt: &impl Abort, step: Step) -> bool {
        match step {
            Step::Says(text) => self.says(rt, text),
            Step::Stage(stage) => match self.state.look(1) {
                Some(status) => status.stage == stage,
                None => false,
            },
            Step::Octets(octets) => self.pass.octets() == octets,
            Step::Steps(steps) => self.pass.steps() == steps,
            _ => false,
        }
    }

    // Returns whether this event has its result, or is visible.
    fn makes(&mut self, rt: &impl Abort, step: Step) -> bool {
        match step {
            Step::Opens(text) => self.opens(rt, text),
            Step::Comes(time, text, judged) => self.judged(rt, time, text) == Some(judged),
            Step::Media(time, text, media) => self.hands_up(rt, time, text, media),
            Step::Order(time, wish) => self.obeys(time, wish),
            Step::Tick(time, answered) => {
                self.state.tick(&mut self.pass, time).is_ok() == answered
            }
            _ => self.shows(rt, step),
        }
    }

    /// Plays all events of a case, step by step.
    pub fn plays(&mut self, rt: &impl Abort, case: &str, steps: &[Step]) {
        for (step, made) in steps.iter().enumerate() {
            let at = Place { case, step };
            let is_so = self.makes(rt, *made);
            holds_at(rt, at, is_so);
        }
    }
}
