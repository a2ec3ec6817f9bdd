//! Observer of a script replay.
ghost use Rattle.std.specs.Prelude.{◌≡◌, ◌<◌, length, Some, option_and_then, option_map, slice_get};
ghost use Rattle.exchange_commands.specs.declared.viewer.Stop.TheVariants as stops;

use crate::ScriptLine;
use exchange_core::{Refusal, Retired};
use leg_machine::Stage;
use peer_plan::{Endpoint, PeerId, Plan};
use std::alloc::AllocError;
use std::io;
use worker_setup::MediaAccounts;

/// The reason why a replay ends before its script does.
#[derive(Clone, Copy)]
pub enum Stop {
    /// The line isn't of a known form, or names an unknown peer.
    Script,
    /// A request for memory was refused.
    Memory,
    /// The output can't be written.
    Writer,
}

impl From<io::Error> for Stop {
    ghost from_gives = { λ _ stop. stop ≡ stops.Writer };

    fn from(_error: io::Error) -> Stop {
        Stop::Writer
    }
}

impl From<AllocError> for Stop {
    ghost from_gives = { λ _ stop. stop ≡ stops.Memory };

    fn from(_error: AllocError) -> Stop {
        Stop::Memory
    }
}

/// A peer of the plan, and the endpoints between which its datagrams are sent.
#[derive(Clone, Copy)]
pub struct PeerOfPlan<'a> {
    /// Its place in the plan, from 0 on.
    pub place: u16,
    pub name: &'a str,
    /// Its own endpoint.
    pub endpoint: Endpoint,
    /// The endpoint of the exchange's worker that serves it.
    pub worker: Endpoint,
}

impl<'a> PeerOfPlan<'a> {
    /// Returns a peer of the plan, with its endpoint and that of its worker.
    pub fn at(plan: &'a Plan, place: PeerId) -> PeerOfPlan<'a>
        requires { place < length plan.now.peers }
        ensures place { result.place ≡ place }
        ensures name { option_map (λ peer. peer.name) (slice_get plan.now.peers place) ≡ Some result.name.now }
        ensures endpoint { option_map (λ peer. peer.endpoint) (slice_get plan.now.peers place) ≡ Some result.endpoint }
        ensures worker { option_and_then (λ peer. slice_get plan.now.workers peer.worker) (slice_get plan.now.peers place)
            ≡ Some result.worker }
    {
        let worker = plan.worker(place);
        PeerOfPlan {
            place: place.get(),
            name: plan.name(place),
            endpoint: plan.endpoint(place),
            worker: plan.workers()[worker.index()],
        }
    }
}

/// A datagram that came from a peer at a moment, and its refusal, if it was refused.
#[derive(Clone, Copy)]
pub struct ReceivedDatagram<'a> {
    /// In milliseconds.
    pub moment: u64,
    pub peer: PeerOfPlan<'a>,
    pub octets: &'a [u8],
    pub refusal: Option<Refusal>,
}

/// Observer of a script replay.
///
/// It is first called with `opened`. Each line begins with `asked` and continues with its results: received datagrams and
/// refusals; then all datagrams sent, by peer in the order of the plan; then the retired legs and the changed stages, by
/// ascending number. Moments are in milliseconds. A viewer that returns `Err` ends the replay.
pub trait Viewer {
    /// Reports that the exchange of this plan was opened.
    fn opened(&mut self, _plan: &Plan) -> Result<(), Stop> {
        Ok(())
    }

    /// Reports an event of the script: a received datagram, a call, a hangup, or a tick.
    fn asked(&mut self, _moment: u64, _line: &ScriptLine<'_>) -> Result<(), Stop> {
        Ok(())
    }

    /// Reports a datagram from a peer.
    fn received(&mut self, _datagram: ReceivedDatagram<'_>) -> Result<(), Stop> {
        Ok(())
    }

    /// Reports another event that was refused, by the name of the refusal.
    fn refused(&mut self, _moment: u64, _name: &'static str) -> Result<(), Stop> {
        Ok(())
    }

    /// Reports a datagram to a peer.
    fn sent(&mut self, _moment: u64, _peer: PeerOfPlan<'_>, _octets: &[u8]) -> Result<(), Stop> {
        Ok(())
    }

    /// Reports a leg that was taken out.
    fn retired(&mut self, _moment: u64, _leg: &Retired) -> Result<(), Stop> {
        Ok(())
    }

    /// Reports the new stage of the leg of a local number. `None` means that the number is free.
    fn staged(&mut self, _moment: u64, _number: u16, _stage: Option<Stage>) -> Result<(), Stop> {
        Ok(())
    }

    /// Reports the closed accounts.
    fn settled(&mut self, _accounts: &MediaAccounts) -> Result<(), Stop> {
        Ok(())
    }
}
