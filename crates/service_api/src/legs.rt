//! The legs of an exchange, found and hung up by their local numbers.
ghost use Rattle.std.specs.Prelude.{◌≡◌, ◌<◌, IfErr, IfSome, None, OnOk, length};
ghost use Rattle.exchange_core.specs.Denial.{denied_since};
ghost use Rattle.service_api.specs.Orders.{CountsLegs, FindsLeg, IsKept};

use crate::desk::ApiHandler;
use call_book::LegName;
use exchange_core::{Event, Exchange, NoGate, Pass, Retired, Watch, order_error_name};
use leg_machine::Stage;
use peer_lock::{LedgerSet, Status};
use peer_plan::PeerId;
use service_state::ServiceWatch;
use std::sync::Wait;

// Returns whether a leg in this stage still has to be hung up.
fn is_open(stage: Stage) -> bool {
    match stage {
        Stage::Closing | Stage::Ended => false,
        _ => true,
    }
}

// Reports the legs that an order of a client took out. Its thread comes behind the workers.
fn tell_retired(watch: &ServiceWatch, workers: usize, legs: &[Retired]) {
    let thread = u16::try_from(workers).unwrap_or(u16::MAX);
    for leg in legs {
        watch.observe(Event::Retired {
            peer: leg.name.owner(),
        });
        watch.note_retired(thread, leg);
    }
}

// The status of the leg of a peer with the least local number that is at least this one.
fn status_from<J: LedgerSet, R: Wait>(
    rt: &R,
    exchange: &Exchange<NoGate, J>,
    pass: &mut Pass<J>,
    peer: PeerId,
    number: u16,
) -> Option<Status>
    requires { peer < length exchange.now.peers }
{
    match exchange.describe_from(rt, pass, peer, number) {
        Some(leg) => Some(leg.status),
        None => None,
    }
}

impl<'x, J: LedgerSet> ApiHandler<'x, J> {
    /// Hangs up a leg. The caller wakes the workers. `Err` is the name of the refusal.
    pub(crate) fn hang_up<R: Wait>(
        &mut self,
        rt: &R,
        name: LegName,
        now: u64,
    ) -> Result<(), &'static str>
        ensures hung_up { OnOk result (denied_since self.old.pass self.new.pass ≡ None) }
        ensures kept { IfErr result (λ why. IsKept why.now self.old.pass self.new.pass) }
    {
        let exchange = self.exchange;
        if name.peer >= exchange.plan().peer_count() {
            return Err("NoLeg");
        }
        if let Some(lane) = &mut self.lane {
            lane.begin_hang_up(rt, now, name.number);
        }
        let answer = exchange.hang_up(rt, &mut self.pass, name, now);
        if let Some(lane) = &mut self.lane {
            lane.end_order(rt);
        }
        match answer {
            Ok(answer) => {
                tell_retired(self.watch, exchange.plan().workers().len(), &answer.retired);
                Ok(())
            }
            Err(error) => Err(order_error_name(error)),
        }
    }

    /// Hangs up the legs of a peer that are still up. Returns the number of its legs.
    pub(crate) fn hang_up_peer<R: Wait>(&mut self, rt: &R, peer: PeerId, now: u64) -> u32 {
        let exchange = self.exchange;
        if peer.get() >= exchange.plan().peer_count() {
            return 0;
        }
        let range = exchange.plan().range(peer);
        let mut legs: u32 = 0;
        let mut next = range.first;
        for _ in 0..range.count {
            let Some(status) = status_from(rt, exchange, &mut self.pass, peer, next) else {
                break;
            };
            legs = legs.saturating_add(1);
            if is_open(status.stage) {
                let _ = self.hang_up(rt, status.name, now);
            }
            next = status.name.number.saturating_add(1);
        }
        if legs > 0 {
            self.watch.wake_all();
        }
        legs
    }
}

/// Returns the number of legs of all peers. Peers are asked one after another.
#[tactic(auto, using(crate::proofs::Adding::counts_more))]
pub(crate) fn count_all<J: LedgerSet, R: Wait>(
    rt: &R,
    exchange: &Exchange<NoGate, J>,
    pass: &mut Pass<J>,
) -> u32
    ensures { CountsLegs (length exchange.now.peers) result pass.old pass.new }
{
    let mut legs: u32 = 0;
    for place in 0..exchange.plan().peer_count() {
        let peer = PeerId::new(place);
        let count = exchange.leg_count(rt, pass, peer);
        legs = legs.saturating_add(u32::from(count));
    }
    legs
}

// Returns whether no peer has a leg, and no media waits for a trunk frame.
fn is_at_rest<J: LedgerSet, R: Wait>(
    rt: &R,
    exchange: &Exchange<NoGate, J>,
    pass: &mut Pass<J>,
) -> bool {
    for place in 0..exchange.plan().peer_count() {
        let peer = PeerId::new(place);
        if exchange.leg_count(rt, pass, peer) > 0 || exchange.sums(rt, pass, peer).queued > 0 {
            return false;
        }
    }
    true
}

/// Returns the serial of the next leg if no peer has a leg and no media waits for a trunk frame.
pub(crate) fn serial_at_rest<J: LedgerSet, R: Wait>(
    rt: &R,
    exchange: &Exchange<NoGate, J>,
    pass: &mut Pass<J>,
) -> Option<u64> {
    if is_at_rest(rt, exchange, pass) {
        Some(exchange.next_serial(rt, pass))
    } else {
        None
    }
}

/// Returns the leg with a local number, and the peer that has the number. Takes that peer's lock once.
pub(crate) fn find_leg<J: LedgerSet, R: Wait>(
    rt: &R,
    exchange: &Exchange<NoGate, J>,
    pass: &mut Pass<J>,
    number: u16,
) -> Option<(PeerId, LegName)>
    ensures place { IfSome result (λ found. found.0 < length exchange.now.peers) }
    ensures found { FindsLeg exchange.now number result pass.old pass.new }
{
    let peer = exchange.plan().owner_of(number)?;
    let leg = exchange.status(rt, pass, peer, number)?;
    Some((peer, leg.name))
}
