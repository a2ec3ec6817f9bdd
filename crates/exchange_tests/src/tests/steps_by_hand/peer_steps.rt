//! The steps of peers without locks.
ghost use Rattle.std.specs.Prelude.{◌≡◌, length, IfSome, IsTrue};
ghost use Rattle.call_signals.specs.Order.{media_of};
ghost use Rattle.leg_machine.specs.OrderTable.{IsShortMedia};
ghost use Rattle.peer_lock.specs.Openings.{IsOpening};
ghost use Rattle.peer_lock.specs.Unworked.{IsCutFrame};

use crate::tests::steps_by_hand::made::{Given, Gone};
use crate::tests::steps_by_hand::plain::Plain;
use call_book::{LegName, PeerId};
use call_control::{Need, Reply, StepReply, Work};
use iax_frames::{Datagram, Full, read};
use info_elements::elements;
use leg_machine::{Caller, Command, Formats, MediaSpan, Message, Order, order_of};
use peer_lock::{LedgerSet, Offer, Onwards, OpenError, OrderError, PeerError, RejectError};
use peer_plan::Plan;
use std::process::Abort;

// Returns whether no element passes the end of a frame.
fn is_whole(frame: &Full) -> bool
    ensures { IsTrue result → IsCutFrame frame.now → ⊥ }
{
    match elements(frame.payload()) {
        Ok(_) => true,
        Err(_) => false,
    }
}

// Returns the NEW of a datagram, if it can open a leg.
fn opening_of(octets: &[u8]) -> Option<Full<'_>>
    ensures { IfSome result IsOpening }
{
    let Ok(Datagram::Full(frame)) = read(octets) else {
        return None;
    };
    let is_short = frame.payload().len() <= 1388;
    let is_first = frame.source().get() != 0
        && frame.destination().get() == 0
        && frame.oseqno() == 0;
    if is_short && is_first && is_whole(&frame) && matches!(Message::of(&frame), Message::New) {
        Some(frame)
    } else {
        None
    }
}

/// Returns the formats of a peer.
pub fn formats_of(rt: &impl Abort, plan: &Plan, peer: u16) -> Formats {
    assert!(rt; peer < plan.peer_count(), "a peer of the plan");
    plan.rules(PeerId::new(peer)).formats
}

// Returns whether the rules of a peer of the plan harden its legs.
pub fn is_hardened(rt: &impl Abort, plan: &Plan, peer: u16) -> bool {
    assert!(rt; peer < plan.peer_count(), "a peer of the plan");
    plan.rules(PeerId::new(peer)).is_hardened
}

// Counts the octets of media in an order: none, or 1 to 1,380.
fn octets_in(rt: &impl Abort, order: &Order<'_>) -> u64
    ensures octets { result ≡ length (media_of order.now) }
    ensures short { IsShortMedia order.now }
{
    match order {
        Order::Media(octets) => {
            assert!(rt;
                !octets.is_empty() && octets.len() <= 1380,
                "1 to 1,380 octets"
            );
            octets.len() as u64
        }
        _ => 0,
    }
}

impl<J: LedgerSet> Plain<'_, J> {
    // Gives a datagram to its peer.
    fn hears(&mut self, peer: u16, given: &Given<'_>) -> Result<StepReply, PeerError> {
        let mut onwards = Onwards::new(self.alloc);
        let state = self.peers.at(peer);
        let step = state.datagram(&mut self.pass, given.octets, given.now, &mut onwards)?;
        Ok(StepReply {
            touched: step.touched,
            rejected: step.rejected,
            onwards,
        })
    }

    // Opens a leg for the NEW of a datagram, under the lease that the call holds.
    fn opens_in(
        &mut self,
        rt: &impl Abort,
        peer: u16,
        given: &Given<'_>,
    ) -> Result<StepReply, OpenError> {
        let lease = self.lease.take().expect(rt, "a lease");
        let frame = opening_of(given.octets).expect(rt, "a NEW");
        let mut onwards = Onwards::new(self.alloc);
        let state = self.peers.at(peer);
        let (pass, challenge) = (&mut self.pass, &self.challenge);
        match state.open_in(pass, lease, &frame, given.now, challenge, &mut onwards) {
            Ok(step) => Ok(StepReply {
                touched: step.touched,
                rejected: step.rejected,
                onwards,
            }),
            Err((lease, error)) => {
                self.lease = Some(lease);
                Err(error)
            }
        }
    }

    // Rejects the NEW of a datagram: there is no number for it.
    fn rejects(&mut self, rt: &impl Abort, peer: u16, octets: &[u8]) -> Result<(), RejectError> {
        let frame = opening_of(octets).expect(rt, "a NEW");
        let _step = self.peers.at(peer).reject_new(&mut self.pass, &frame)?;
        Ok(())
    }

    // Opens a leg for the number of a placed call or for an offer, under the lease that the call holds.
    fn opens_out(
        &mut self,
        rt: &impl Abort,
        peer: u16,
        offer: Option<&Offer>,
        given: &Given<'_>,
    ) -> Result<(), OpenError> {
        let lease = self.lease.take().expect(rt, "a lease");
        let nobody = Caller::numbered(None);
        let formats = formats_of(rt, self.plan, peer);
        let (called, caller, format) = match (given.called, offer) {
            (Some(called), _) => (called, &nobody, formats.lowest()),
            (None, Some(offer)) => {
                let format = offer.formats.of_both(formats).among(offer.format);
                (offer.called.as_slice(), &offer.caller, format)
            }
            (None, None) => panic!(rt; "a number"),
        };
        assert!(rt; called.len() <= 255, "a number of at most 255 octets");
        let format = format.expect(rt, "a format");
        let (state, pass) = (self.peers.at(peer), &mut self.pass);
        match state.open_out(pass, lease, called, caller, format, given.now) {
            Ok(_) => Ok(()),
            Err((lease, error)) => {
                self.lease = Some(lease);
                Err(error)
            }
        }
    }

    // Gives an order to a leg.
    fn orders(
        &mut self,
        rt: &impl Abort,
        name: LegName,
        command: Command<MediaSpan>,
        given: &Given<'_>,
    ) -> Result<(), OrderError> {
        let order = match &command {
            Command::Media(span) => {
                Order::Media(given.octets.get(span.start..span.end).expect(rt, "media"))
            }
            other => order_of(other, given.octets),
        };
        let octets = octets_in(rt, &order);
        assert!(rt; octets <= self.pass.octets(), "credit for media");
        let (state, pass) = (self.peers.at(name.peer), &mut self.pass);
        let _step = state.order(pass, name, &order, given.now)?;
        Ok(())
    }

    // Removes a leg, if it has ended.
    fn retires(&mut self, name: LegName) -> bool {
        let Some((lease, leg)) = self.peers.at(name.peer).retire(name) else {
            return false;
        };
        self.lease = Some(lease);
        self.leaving = Some(Gone {
            name,
            partner: None,
            facts: leg.facts,
            history: leg.history,
        });
        true
    }

    /// Makes the named step of a peer.
    pub fn steps(&mut self, rt: &impl Abort, need: Need, work: &Work, given: &Given<'_>) -> Reply {
        match need {
            Need::Datagram(peer) => Reply::Datagram(self.hears(peer.get(), given)),
            Need::OpenIn(name) => Reply::OpenIn(self.opens_in(rt, name.peer, given)),
            Need::RejectNew(peer) => Reply::RejectNew(self.rejects(rt, peer.get(), given.octets)),
            Need::OpenOut(name) => {
                Reply::OpenOut(self.opens_out(rt, name.peer, work.offer(), given))
            }
            Need::Order(name, command) => Reply::Order(self.orders(rt, name, command, given)),
            Need::Tick(peer) => {
                let report = self.peers.at(peer.get()).tick(&mut self.pass, given.now);
                Reply::Tick(report.map(|report| report.is_quiet))
            }
            Need::Look(peer, number) => Reply::Look(self.peers.at(peer.get()).look(number)),
            Need::Retire(name) => Reply::Retire(self.retires(name)),
            _ => panic!(rt; "a step of a peer"),
        }
    }
}
