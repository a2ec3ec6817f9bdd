//! Two peers and a book without locks, and a driver that makes the steps which the work of a call names.

use crate::tests::desk::WEST_PLACE;
use crate::tests::steps_by_hand::made::{Given, Gone, Made};
use crate::tests::steps_by_hand::peer_steps::{formats_of, is_hardened};
use call_auth::Challenge;
use call_book::{CallBook, Lease, LegName, PeerId};
use call_control::{Need, Reply, Route, Work};
use call_signals::are_printable;
use iax_frames::Out;
use peer_lock::{ClosedPeer, LedgerSet, Offer, Pass, PeerState, Status};
use peer_plan::Plan;
use std::alloc::Global;
use std::process::Abort;

/// The two peers of a plan.
#[derive(Drop)]
pub struct Peers<J: LedgerSet> {
    pub west: PeerState<J>,
    pub east: PeerState<J>,
}

impl<J: LedgerSet> Peers<J> {
    /// Returns the peer at a place.
    pub fn at(&mut self, peer: u16) -> &mut PeerState<J> {
        if peer == WEST_PLACE {
            &mut self.west
        } else {
            &mut self.east
        }
    }

    /// Sets whether both drain.
    pub fn set_draining(&mut self, drains: bool) {
        self.west.set_draining(drains);
        self.east.set_draining(drains);
    }
}

/// The peers of a plan, their book and a pass, without locks.
#[derive(Drop)]
pub struct Plain<'p, J: LedgerSet> {
    pub alloc: Global,
    pub plan: &'p Plan,
    pub challenge: Challenge,
    pub peers: Peers<J>,
    pub book: CallBook,
    pub pass: Pass<J>,
    /// The lease that the present call holds.
    pub lease: Option<Lease>,
    /// The leg that the present call has removed and not yet released.
    pub leaving: Option<Gone>,
    /// The place of the step, from 0 on, before which the peers begin to drain in the next call.
    pub drains_before: Option<u64>,
}

impl<J: LedgerSet> Plain<'_, J> {
    // Finds where the call of a leg leads.
    fn routes(&self, rt: &impl Abort, offered: LegName, offer: Option<&Offer>) -> Route {
        let Some(offer) = offer else {
            return Route::Nowhere;
        };
        let is_bad = !are_printable(offer.called.as_slice());
        if is_bad && is_hardened(rt, self.plan, offered.owner().get()) {
            return Route::BadNumber;
        }
        let Some(peer) = self.plan.route(offered.owner(), offer.called.as_slice()) else {
            return Route::Nowhere;
        };
        let formats = formats_of(rt, self.plan, peer);
        match offer.formats.of_both(formats).among(offer.format) {
            Some(format) => Route::To(PeerId::new(peer), format),
            None => Route::WithoutFormat,
        }
    }

    // Reserves a name of a peer. The call holds its lease from now on.
    fn reserves(&mut self, peer: PeerId) -> Reply {
        match self.book.reserve(peer) {
            Ok(lease) => {
                let name = lease.name();
                self.lease = Some(lease);
                Reply::Reserve(Ok(name))
            }
            Err(error) => Reply::Reserve(Err(error)),
        }
    }

    // Gives back the lease that the call holds. A leg that was removed with it is gone.
    fn releases(&mut self, rt: &impl Abort, made: &mut Made) -> Reply {
        let lease = self.lease.take().expect(rt, "a lease");
        let answer = match self.book.release(lease) {
            Ok(former) => Ok(former),
            Err((_, stale)) => Err(stale),
        };
        if let Some(mut gone) = self.leaving.take() {
            gone.partner = answer.ok().flatten();
            made.gone.push(gone).expect(rt, "room for a leg");
        }
        Reply::Release(answer)
    }

    // Makes the named step.
    fn makes(
        &mut self,
        rt: &impl Abort,
        need: Need,
        work: &Work,
        given: &Given<'_>,
        made: &mut Made,
    ) -> Reply {
        match need {
            Need::Reserve(peer) => self.reserves(peer),
            Need::Bridge(one, other) => Reply::Bridge(self.book.bridge(one, other)),
            Need::Partner(name) => Reply::Partner(self.book.partner(name)),
            Need::Release(_) => self.releases(rt, made),
            Need::Route(offered) => Reply::Route(self.routes(rt, offered, work.offer())),
            _ => self.steps(rt, need, work, given),
        }
    }

    /// Makes each step that the work of a call names. A call that made no step is refused by its last refusal.
    pub fn carry_out(&mut self, rt: &impl Abort, work: Work, given: &Given<'_>) -> Made {
        let mut work = work;
        let mut made = Made::nothing(self.alloc);
        let first = self.pass.steps();
        for place in 0..1000 {
            if self.drains_before == Some(place) {
                self.peers.set_draining(true);
            }
            let Some(need) = work.next() else {
                made.steps = self.pass.steps().wrapping_sub(first);
                if made.steps > 0 {
                    made.refused = None;
                    made.disobeyed = None;
                }
                made.asked = place;
                return made;
            };
            let reply = self.makes(rt, need, &work, given, &mut made);
            made.note(&reply);
            work.told(reply);
        }
        panic!(rt; "a call ends");
    }

    /// Returns the peers without their shares, the book, and the octets that are left in the pass.
    pub fn close(self) -> (ClosedPeer<J>, ClosedPeer<J>, CallBook, u64) {
        let Plain {
            alloc: _,
            plan: _,
            challenge: _,
            peers,
            book,
            pass,
            lease: _,
            leaving: _,
            drains_before: _,
        } = self;
        let Peers { west, east } = peers;
        let (west, _, _) = west.part();
        let (east, _, _) = east.part();
        (west, east, book, pass.octets())
    }

    /// Takes the oldest datagram for a peer, or returns `None` if none waits.
    pub fn take_out(&mut self, peer: u16) -> Option<Out> {
        self.peers.at(peer).take_out()
    }

    /// Returns the status of the leg of a number, or `None` if there is none.
    pub fn status(&mut self, peer: u16, number: u16) -> Option<Status> {
        self.peers.at(peer).look(number)
    }
}
