//! The state of a peer, under its lock.
ghost use Rattle.std.specs.Prelude.{◌≡◌};

use call_book::PeerId;
use peer_lock::{LedgerSet, PeerState};
use std::marker::Model;

/// The state of a peer. Each call that changes it or tells of it is noted under the pass with which it is made. Contracts
/// see that state and the peer's place in the plan.
pub struct NotedPeer<J: LedgerSet> {
    pub(crate) number: PeerId,
    pub(crate) state: PeerState<J>,
}

// Written out, so that an owner proves one call at its drop, not the drop of each field.
impl<J: LedgerSet> Drop for NotedPeer<J> {
    fn drop(self) {
        let NotedPeer {
            number: _,
            state: _,
        } = self;
    }
}

impl<J: LedgerSet> Model for NotedPeer<J> {
    ghost use Rattle.step_log.specs.Notes.{Peer};

    ghost Value = { Peer };

    ghost view = { λ s. record { number = s.number; state = s.state } };
}

impl<J: LedgerSet> NotedPeer<J> {
    /// Returns the state of this peer. Each of its calls is noted from now on.
    pub fn new(number: PeerId, state: PeerState<J>) -> NotedPeer<J>
        requires { state.legs.peer ≡ number }
        ensures number { result.number ≡ number }
        ensures state { result.state ≡ state }
    {
        NotedPeer { number, state }
    }

    /// Returns the peer.
    pub fn number(&self) -> PeerId
        ensures { result ≡ self.now.number }
    {
        self.number
    }

    /// Returns the state of the peer itself.
    pub fn into_state(self) -> PeerState<J>
        ensures { result ≡ self.state }
    {
        let NotedPeer { number: _, state } = self;
        state
    }
}
