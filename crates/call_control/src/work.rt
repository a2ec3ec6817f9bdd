//! The steps of one call.
ghost use Rattle.std.specs.Prelude.{◌≡◌, ◌+◌, ◌≤◌, ◌^◌, Option, None, Some, option_copied, is_some};
ghost use Rattle.call_control.specs.Beginnings.{beginning_at};
ghost use Rattle.call_control.specs.Work as work;

use crate::need::Need;
use crate::place::Place;
use crate::reply::StepReply;
use call_book::{LegName, PeerId};
use leg_machine::{Cause, Command, Signal};
use peer_lock::{Offer, Onwards};
use std::marker::Model;

/// The steps of one call of an exchange: of a received datagram, of a tick, of a call or a hang-up from outside.
///
/// `next` returns the step to be made, and `told` takes its answer. Neither takes memory or waits.
#[derive(Drop)]
pub struct Work {
    place: Place,
    // The list of the last step of a peer. Its last `signals_left` signals aren't passed on yet.
    onwards: Option<Onwards>,
    signals_left: usize,
    // The leg that is finished after them.
    touched: Option<LegName>,
    // Of a tick: the peer, the next number, and how many numbers are left.
    peer: PeerId,
    number: u16,
    numbers_left: u16,
}

impl Model for Work {
    ghost use Rattle.call_control.specs.WorkState.{WorkState};

    ghost Value = { WorkState };

    ghost use Rattle.call_control.specs.WorkInside.{work_inside, IsWork};

    ghost view = { work_inside };

    ghost invariant = { IsWork };
}

impl Work {
    ghost use Rattle.call_control.specs.WorkState.{begun, offer_in, first_of, without_first};

    /// Returns the steps of a datagram from this peer.
    pub fn of_datagram(peer: PeerId) -> Work
        ensures { result ≡ begun (work.of_datagram peer) }
    {
        Work::at(Place::Datagram(peer))
    }

    /// Returns the steps of a tick at this peer, whose call numbers are the next `count` from `first` on.
    pub fn of_tick(peer: PeerId, first: u16, count: u16) -> Work
        requires { first + count ≤ 2 ^ 16 }
        ensures { result ≡ begun (work.of_tick peer first count) }
    {
        Work {
            peer,
            number: first,
            numbers_left: count,
            ..Work::at(Place::Tick(peer))
        }
    }

    /// Returns the steps of a call from outside to this peer.
    pub fn of_call(peer: PeerId) -> Work
        ensures { result ≡ begun (work.of_call peer) }
    {
        Work::at(Place::ReserveCall(peer))
    }

    /// Returns the steps by which the leg of this name is hung up from outside.
    pub fn of_hang_up(name: LegName) -> Work
        ensures { result ≡ begun (work.of_hang_up name) }
    {
        Work {
            touched: Some(name),
            ..Work::at(Place::HangUp(name))
        }
    }

    // Returns a call at this place, without further work.
    fn at(place: Place) -> Work
        ensures { result ≡ begun (work.at place work.nothing_left) }
    {
        Work {
            place,
            onwards: None,
            signals_left: 0,
            touched: None,
            peer: PeerId::new(0),
            number: 0,
            numbers_left: 0,
        }
    }

    /// Returns the step to be made next, or `None` at the end.
    // Inlined, as the functions that take an answer are: a step and an answer are many variants wide. Without inlining, each of
    // a mini frame's four is copied through memory, and the processor waits for values that it has just written.
    #[inline(always)]
    pub fn next(&self) -> Option<Need>
        ensures { result ≡ work.next_of self.now.work }
    {
        match self.place {
            Place::Datagram(peer) => Some(Need::Datagram(peer)),
            Place::ReserveIn(peer) | Place::ReserveOut(_, peer, _) | Place::ReserveCall(peer) => {
                Some(Need::Reserve(peer))
            }
            Place::RejectNew(peer) => Some(Need::RejectNew(peer)),
            Place::OpenIn(name) => Some(Need::OpenIn(name)),
            Place::OpenOut(_, name) | Place::OpenCall(name) => Some(Need::OpenOut(name)),
            Place::GiveBack(name) | Place::Undoing(_, name) | Place::Freeing(name, _) => {
                Some(Need::Release(name))
            }
            Place::Routing(offered) => Some(Need::Route(offered)),
            Place::Rejecting(offered, cause) => Some(Need::Order(offered, Command::Reject(cause))),
            Place::Bridging(offered, target, _) => Some(Need::Bridge(offered, target)),
            Place::Accepting(offered, _, format) => Some(Need::Order(
                offered,
                Command::Accept(format),
            )),
            Place::Checking(name) | Place::Finding(name, _) | Place::FindingPartner(name, _) => {
                Some(Need::Partner(name))
            }
            Place::Dooming(name, cause) => Some(Need::Order(name, Command::Doom(cause))),
            Place::Passing(partner, command) => Some(Need::Order(partner, command)),
            Place::Looking(name) => Some(Need::Look(name.owner(), name.number)),
            Place::LookingAt(peer, number) => Some(Need::Look(peer, number)),
            Place::HangingUp(_, partner, cause) => {
                Some(Need::Order(partner, Command::Hangup(cause)))
            }
            Place::Paying(name, _) => Some(Need::Order(name, Command::Paid)),
            Place::Retiring(name, _) => Some(Need::Retire(name)),
            Place::Tick(peer) => Some(Need::Tick(peer)),
            Place::HangUp(name) => {
                Some(Need::Order(name, Command::Hangup(Cause::NormalClearing)))
            }
            Place::End => None,
        }
    }

    /// Returns the offer of the offered call, or `None` if the last step of a peer handed none up.
    pub fn offer(&self) -> Option<&Offer>
        ensures { option_copied result ≡ offer_in self.now.onwards }
    {
        match &self.onwards {
            Some(onwards) => onwards.offer(),
            None => None,
        }
    }

    /// Returns the list that the last step of a peer wrote, for reuse, when the work is given up, or `None` if there is
    /// none.
    pub fn into_onwards(self) -> Option<Onwards>
        ensures { result ≡ self.onwards }
    {
        let Work {
            place: _,
            onwards,
            signals_left: _,
            touched: _,
            peer: _,
            number: _,
            numbers_left: _,
        } = self;
        onwards
    }

    /// Returns whether no step of a peer was made yet, and none was refused.
    pub fn is_beginning(&self) -> bool
        ensures { result ≡ is_some (beginning_at self.now.work.place) }
    {
        match self.place {
            Place::Datagram(_) | Place::ReserveIn(_) => true,
            Place::RejectNew(_) | Place::OpenIn(_) => true,
            Place::Tick(_) | Place::HangUp(_) => true,
            Place::ReserveCall(_) | Place::OpenCall(_) => true,
            _ => false,
        }
    }

    // Returns the place of the call.
    pub(crate) fn place(&self) -> Place
        ensures { result ≡ self.now.work.place }
    {
        self.place
    }

    // Moves the call to this place.
    pub(crate) fn go_to(&mut self, place: Place)
        ensures { self.new ≡ record self.old { work = work.at place self.old.work.rest } }
    {
        self.place = place;
    }

    // Ends the call.
    pub(crate) fn end(&mut self)
        ensures { self.new ≡ record self.old { work = work.ended } }
    {
        self.place = Place::End;
        self.signals_left = 0;
        self.touched = None;
        self.numbers_left = 0;
    }

    // Takes the list of a step of a peer that was made.
    #[inline(always)]
    pub(crate) fn take_reply(&mut self, heard: StepReply)
        ensures work { self.new.work ≡ work.after_heard heard self.old.work.rest }
        ensures onwards { self.new.onwards ≡ Some heard.onwards }
    {
        let StepReply {
            touched,
            rejected: _,
            onwards,
        } = heard;
        self.signals_left = onwards.len();
        self.onwards = Some(onwards);
        self.touched = touched;
        self.advance();
    }

    // Continues with the next signal, then with the touched leg, then with the next number of a tick.
    pub(crate) fn advance(&mut self)
        ensures { self.new ≡ record self.old { work = work.advance self.old.work.rest } }
    {
        while let Some((name, signal)) = self.take_signal() {
            if let Some(place) = Place::for_signal(name, signal) {
                self.go_to(place);
                return;
            }
        }
        if let Some(name) = self.touched.take() {
            self.place = Place::Looking(name);
        } else if self.numbers_left > 0 {
            self.place = Place::LookingAt(self.peer, self.number);
            self.numbers_left -= 1;
            if self.numbers_left > 0 {
                self.number += 1;
            }
        } else {
            self.place = Place::End;
        }
    }

    // Takes the next signal that isn't passed on yet.
    fn take_signal(&mut self) -> Option<(LegName, Signal)>
        ensures signal { result ≡ first_of self.old.work.rest.onward }
        ensures work { self.new ≡ record self.old { work = without_first self.old.work } }
    {
        let Some(onwards) = &self.onwards else {
            return None;
        };
        let signal = onwards.get(onwards.len() - self.signals_left)?;
        self.signals_left -= 1;
        Some(signal)
    }
}
