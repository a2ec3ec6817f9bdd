//! Sets of peers at which steps were made.
ghost use Rattle.std.specs.Prelude.{◌≡◌, true, false, get_or, set};
ghost use Rattle.step_log.specs.Stepped.{has_skipped, no_peers};

use call_book::PeerId;
use peer_lock::{StepsSpent, TickReport};

// The greatest number of peers of a plan.
const PEERS: usize = 32;

// The peers at which steps were made under a pass, by their places in the plan. A place past the 32nd is in no set.
#[derive(Clone, Copy, Drop)]
pub(crate) struct SteppedPeers {
    // Those at which a step was made since their last tick, or whose last tick has to be repeated.
    pub(crate) unticked: [bool; PEERS],
    // Those at which a step was made since the last call of `take_unasked` for them.
    unasked: [bool; PEERS],
}

impl SteppedPeers {
    // Returns the empty sets.
    pub(crate) fn none() -> SteppedPeers
        ensures { result.unticked ≡ no_peers }
    {
        SteppedPeers {
            unticked: [false; PEERS],
            unasked: [false; PEERS],
        }
    }

    // Notes a step other than a tick at a peer.
    #[tactic(auto, using(std::proofs::lemmas::List::set_past))]
    pub(crate) fn step(&mut self, peer: PeerId)
        ensures { self.new.unticked ≡ set self.old.unticked peer true }
    {
        let place = peer.index();
        if place < PEERS {
            self.unticked[place] = true;
            self.unasked[place] = true;
        }
    }

    // Notes a tick of a peer. `is_undone`: the tick has to be repeated.
    #[tactic(auto, using(std::proofs::lemmas::List::set_past))]
    pub(crate) fn tick(&mut self, peer: PeerId, is_undone: bool)
        ensures { self.new.unticked ≡ set self.old.unticked peer is_undone }
    {
        let place = peer.index();
        if place < PEERS {
            self.unticked[place] = is_undone;
            self.unasked[place] = true;
        }
    }

    // Returns whether a step was made at a peer since its last tick, or that tick has to be repeated.
    pub(crate) fn is_unticked(&self, peer: PeerId) -> bool
        ensures { result ≡ get_or self.now.unticked peer false }
    {
        let place = peer.index();
        place < PEERS && self.unticked[place]
    }

    // Returns whether a step was made at a peer since the last call for it.
    pub(crate) fn take_unasked(&mut self, peer: PeerId) -> bool
        ensures { self.new.unticked ≡ self.old.unticked }
    {
        let place = peer.index();
        if place >= PEERS {
            return false;
        }
        let is_unasked = self.unasked[place];
        self.unasked[place] = false;
        is_unasked
    }
}

// Returns whether a tick found no memory for a frame, so that it has to be repeated.
pub(crate) fn has_skipped(answer: Result<TickReport, StepsSpent>) -> bool
    ensures { result ≡ has_skipped answer }
{
    match answer {
        Ok(report) => report.skipped > 0,
        Err(_) => false,
    }
}
