//! The names and values in the words of a script's line.
ghost use Rattle.std.specs.Prelude.{◌<◌, ◌≤◌, length, IfOk};

use crate::ScriptLine;
use crate::viewer::{PeerOfPlan, Stop};
use peer_plan::{Endpoint, PeerId, Plan, peer_named};
use std::alloc::Global;
use std::net::SocketAddrV4;
use std::str;

/// Returns the first peer of the plan with a name. A script has to name a peer of the plan.
pub(crate) fn peer_of(plan: &Plan, name: &[u8]) -> Result<PeerId, Stop>
    ensures { IfOk result (λ peer. peer < length plan.now.peers) }
{
    match peer_named(plan, name) {
        Some(peer) => Ok(peer),
        None => Err(Stop::Script),
    }
}

/// Returns the places of the peers that a line names, as the first and the end of a range. If it names none, they are those
/// of all peers.
pub(crate) fn places_of(plan: &Plan, line: &ScriptLine<'_>) -> Result<(u16, u16), Stop>
    ensures { IfOk result (λ places. places.1 ≤ length plan.now.peers) }
{
    let count = plan.peer_count();
    match line {
        ScriptLine::TickOf(name) | ScriptLine::SendTo(name) => match peer_of(plan, name) {
            Ok(peer) => Ok((peer.get(), peer.get() + 1)),
            Err(stop) => Err(stop),
        },
        _ => Ok((0, count)),
    }
}

/// The sender of a datagram.
#[derive(Clone, Copy)]
pub(crate) struct Sender<'p> {
    pub(crate) from: Endpoint,
    /// The peer of that endpoint; none if the sender is a stranger.
    pub(crate) peer: Option<PeerOfPlan<'p>>,
}

/// Returns the sender of a line's datagram: the peer that it names, or the endpoint, which no peer may have.
pub(crate) fn sender_of<'p>(plan: &'p Plan, line: &ScriptLine<'_>) -> Result<Sender<'p>, Stop> {
    match line {
        ScriptLine::Rx(name, _) => {
            let peer = PeerOfPlan::at(plan, peer_of(plan, name)?);
            Ok(Sender {
                from: peer.endpoint,
                peer: Some(peer),
            })
        }
        ScriptLine::Stranger(text, _) => {
            let from = endpoint_of(text)?;
            match plan.peer_of(from) {
                Some(_) => Err(Stop::Script),
                None => Ok(Sender { from, peer: None }),
            }
        }
        _ => Err(Stop::Script),
    }
}

/// Returns the octets that these hexadecimal digits spell.
pub(crate) fn octets_of(alloc: Global, digits: &[u8]) -> Result<Vec<u8>, Stop> {
    match hex::decode(alloc, digits) {
        Ok(octets) => Ok(octets),
        Err(hex::FromHexError::OutOfMemory) => Err(Stop::Memory),
        Err(_) => Err(Stop::Script),
    }
}

/// Returns the key that 64 hexadecimal digits spell.
pub(crate) fn key_of(digits: &[u8]) -> Option<[u8; 32]> {
    let mut key = [0; 32];
    match hex::decode_to_slice(digits, &mut key) {
        Ok(()) => Some(key),
        Err(_) => None,
    }
}

// Returns the endpoint that a text names, as `192.0.2.1:4569`.
fn endpoint_of(text: &[u8]) -> Result<Endpoint, Stop> {
    let Ok(text) = str::from_utf8(text) else {
        return Err(Stop::Script);
    };
    match text.parse::<SocketAddrV4>() {
        Ok(address) => Ok(Endpoint {
            address: address.ip().octets(),
            port: address.port(),
        }),
        Err(_) => Err(Stop::Script),
    }
}
