//! The losses on the way to a peer.
ghost use Rattle.std.specs.Prelude.{◌≡◌, ◌<◌, length};
ghost use Rattle.exchange_core.specs.Losses.{LooksForLosses, frames_of};

use crate::exchange::Exchange;
use crate::gate::NoGate;
use call_book::PeerId;
use peer_lock::{LedgerSet, Losses};
use std::sync::Wait;
use step_log::Pass;

/// The losses on the way to a peer, because too much waited, since the exchange was opened.
#[derive(Clone, Copy, Debug, Default, PartialEq, Eq)]
pub struct PeerLosses {
    /// Frames for which its outbox had no room.
    pub outbox: Losses,
    /// Octets of media dropped because its trunk queue had no room. Quelched octets aren't counted.
    pub queue: u64,
}

impl PeerLosses {
    /// Returns the frames of all kinds that its outbox lost, modulo 2^64.
    pub fn frames(&self) -> u64
        ensures { result ≡ frames_of self.now.outbox }
    {
        let Losses { full, mini, trunk } = self.outbox;
        full.wrapping_add(mini).wrapping_add(trunk)
    }
}

/// Returns the losses on the way to a peer of the plan, by two noted queries.
pub fn losses_of<J: LedgerSet, R: Wait>(
    rt: &R,
    exchange: &Exchange<NoGate, J>,
    pass: &mut Pass<J>,
    peer: PeerId,
) -> PeerLosses
    requires { peer < length exchange.now.peers }
    ensures { LooksForLosses peer result pass.old pass.new }
{
    let sums = exchange.sums(rt, pass, peer);
    PeerLosses {
        outbox: exchange.lost(rt, pass, peer),
        queue: sums.dropped - sums.quelched,
    }
}
