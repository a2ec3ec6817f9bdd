//! Separates peers and passes from their shares.
ghost use Rattle.std.specs.Prelude.{◌≡◌, ◌+◌, ◌*◌, ◌<◌, ◌≤◌, ◌++◌, ◌∷◌, [], IfOk, sum, vec_len, vec_capacity};
ghost use Rattle.exchange_core.specs.Sums.{accounts_of, left_with, steps_under, begun_with, noted_under};
ghost use Rattle.peer_lock.specs.Accounts.{carried};

use crate::exchange::PeerCell;
use media_ledger::Share;
use peer_lock::{ClosedPeer, LedgerSet};
use std::alloc::{AllocError, Global};
use step_log::Pass;

// Peers without their shares, and the shares.
#[derive(Drop)]
pub(crate) struct Parts<J: LedgerSet> {
    pub(crate) peers: Vec<ClosedPeer<J>>,
    pub(crate) octets: Vec<Share<J::Octets>>,
    pub(crate) steps: Vec<Share<J::Steps>>,
}

impl<J: LedgerSet> Parts<J> {
    // Returns empty lists with room for these numbers of peers and shares.
    pub(crate) fn with_room(
        alloc: Global,
        peers: usize,
        shares: usize,
    ) -> Result<Parts<J>, AllocError>
        ensures empty { IfOk result (λ p. (p.peers.items ≡ []) × (p.octets.items ≡ []) × (p.steps.items ≡ [])) }
        ensures peers { IfOk result (λ p. peers ≤ vec_capacity p.peers) }
        ensures octets { IfOk result (λ p. shares ≤ vec_capacity p.octets) }
        ensures steps { IfOk result (λ p. shares ≤ vec_capacity p.steps) }
    {
        let Ok(peers) = Vec::with_capacity(alloc, peers) else {
            return Err(AllocError);
        };
        let Ok(octets) = Vec::with_capacity(alloc, shares) else {
            return Err(AllocError);
        };
        let Ok(steps) = Vec::with_capacity(alloc, shares) else {
            return Err(AllocError);
        };
        Ok(Parts {
            peers,
            octets,
            steps,
        })
    }
}

// Takes a peer from its lock and separates it from its shares.
fn part_peer<J: LedgerSet>(cell: PeerCell<J>) -> (ClosedPeer<J>, Share<J::Octets>, Share<J::Steps>)
    ensures octets { result.1 + result.0.accounts.accepted ≡ J.first_octets + carried result.0.accounts }
    ensures steps { result.2 + result.0.accounts.steps ≡ J.first_steps }
    ensures within { result.0.accounts.accepted ≤ J.first_octets }
    ensures quelched { result.0.accounts.quelched ≤ result.0.accounts.dropped }
{
    let (peer, octets, steps) = cell.into_inner().into_state().part();
    // For the proof: media that was quelched counts as dropped.
    let _quelched = peer.quelched();
    (peer, octets, steps)
}

// Adds a peer behind the others, for which there is room.
fn put<J: LedgerSet>(peer: ClosedPeer<J>, peers: &mut Vec<ClosedPeer<J>>)
    requires { vec_len peers.old < vec_capacity peers.old }
    ensures items { peers.new.items ≡ peers.old.items ++ peer ∷ [] }
    ensures len { vec_len peers.new ≡ vec_len peers.old + 1 }
    ensures capacity { vec_capacity peers.new ≡ vec_capacity peers.old }
{
    peers.push_reserved(peer);
}

// Takes each peer from its lock and separates it from its shares, in order.
pub(crate) fn part_peers<J: LedgerSet>(
    cells: Vec<PeerCell<J>>,
    peers: &mut Vec<ClosedPeer<J>>,
    octets: &mut Vec<Share<J::Octets>>,
    steps: &mut Vec<Share<J::Steps>>,
)
    requires empty { (peers.old.items ≡ []) × (octets.old.items ≡ []) × (steps.old.items ≡ []) }
    requires room { (vec_len cells ≤ vec_capacity peers.old) × (vec_len cells ≤ vec_capacity octets.old) ×
        (vec_len cells ≤ vec_capacity steps.old) }
    ensures all { (vec_len peers.new ≡ vec_len cells) × (vec_len octets.new ≡ vec_len cells) ×
        (vec_len steps.new ≡ vec_len cells) }
    ensures octets { sum octets.new.items + (accounts_of peers.new.items).accepted ≡
        vec_len cells * J.first_octets + carried (accounts_of peers.new.items) }
    ensures steps { sum steps.new.items + (accounts_of peers.new.items).steps ≡ vec_len cells * J.first_steps }
    ensures within { (accounts_of peers.new.items).accepted ≤ vec_len cells * J.first_octets }
    ensures quelched { (accounts_of peers.new.items).quelched ≤ (accounts_of peers.new.items).dropped }
    ensures capacity { (vec_capacity octets.new ≡ vec_capacity octets.old) × (vec_capacity steps.new ≡ vec_capacity steps.old) }
{
    // The last leaves first, so the order stays.
    let mut cells = cells;
    cells.reverse();
    while let Some(cell) = cells.pop() {
        let (peer, o, s) = part_peer(cell);
        put(peer, peers);
        octets.push_reserved(o);
        steps.push_reserved(s);
    }
}

// Takes the shares out of the passes.
pub(crate) fn part_passes<J: LedgerSet>(
    passes: Vec<Pass<J>>,
    octets: &mut Vec<Share<J::Octets>>,
    steps: &mut Vec<Share<J::Steps>>,
)
    requires room { (vec_len octets.old + vec_len passes ≤ vec_capacity octets.old) ×
        (vec_len steps.old + vec_len passes ≤ vec_capacity steps.old) }
    ensures all { (vec_len octets.new ≡ vec_len octets.old + vec_len passes) ×
        (vec_len steps.new ≡ vec_len steps.old + vec_len passes) }
    ensures octets { sum octets.new.items ≡ sum octets.old.items + left_with passes.items }
    ensures steps { sum steps.new.items ≡ sum steps.old.items + steps_under passes.items }
    ensures noted { steps_under passes.items ≡ begun_with passes.items + noted_under passes.items }
{
    let mut passes = passes;
    while let Some(pass) = passes.pop() {
        let (o, s) = pass.part();
        octets.push_reserved(o);
        steps.push_reserved(s);
    }
}
