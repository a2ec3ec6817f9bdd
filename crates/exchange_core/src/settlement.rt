//! The accounts of all peers, once every pass was returned.
ghost use Rattle.std.specs.Prelude.{◌≡◌, ◌≢◌, ◌+◌, ◌<◌, ◌≤◌, ◌^◌, [], Err, IfErr, IfOk, Ok, OnErr, OnOk};
ghost use Rattle.std.specs.Prelude.{length, sum, vec_len, vec_capacity};
ghost use Rattle.peer_lock.specs.Accounts.{carried};
ghost use Rattle.exchange_core.specs.Sums.{accounts_of, left_with, steps_under, begun_with, noted_under};

use crate::exchange::Exchange;
use crate::gate::Gate;
use crate::shares::{Parts, part_passes, part_peers};
use call_book::CallBook;
use media_ledger::{Share, Supply, gather};
use peer_lock::{ClosedPeer, LedgerSet};
use std::alloc::AllocError;
use std::sync::ledger::Ledger;
use step_log::Pass;

/// The contents of the locks, and the sums over all peers and passes.
#[derive(Drop)]
pub struct Settlement<J: LedgerSet> {
    /// The book of calls.
    pub book: CallBook,
    /// The peers, in plan order.
    pub peers: Vec<ClosedPeer<J>>,
    /// The media octets that were accepted.
    pub accepted: u64,
    /// Of these, the octets that were written into frames.
    pub packed: u64,
    /// Of these, the octets that wait in trunk queues.
    pub queued: u64,
    /// Of these, the octets that were dropped, at the peers or in the passes.
    pub dropped: u64,
    /// The part of the dropped octets that the other side had quelched.
    pub quelched: u64,
    /// The steps that were made.
    pub steps: u64,
}

/// The reason why nothing was settled, in the order in which causes are checked.
#[derive(Clone, Copy, Debug, PartialEq, Eq)]
pub enum SettleError {
    /// A request for memory was refused.
    Memory,
    /// The passes aren't all those of `open`.
    Missing,
}

// The sums over peers.
#[derive(Drop)]
struct Sums {
    accepted: u64,
    packed: u64,
    queued: u64,
    quelched: u64,
    steps: u64,
}

fn sums_of<J: LedgerSet>(peers: &[ClosedPeer<J>]) -> Sums
    requires accepted { (accounts_of peers.now).accepted < 2 ^ 64 }
    requires packed { (accounts_of peers.now).packed < 2 ^ 64 }
    requires queued { (accounts_of peers.now).queued < 2 ^ 64 }
    requires quelched { (accounts_of peers.now).quelched < 2 ^ 64 }
    requires steps { (accounts_of peers.now).steps < 2 ^ 64 }
    ensures accepted { result.accepted ≡ (accounts_of peers.now).accepted }
    ensures packed { result.packed ≡ (accounts_of peers.now).packed }
    ensures queued { result.queued ≡ (accounts_of peers.now).queued }
    ensures quelched { result.quelched ≡ (accounts_of peers.now).quelched }
    ensures steps { result.steps ≡ (accounts_of peers.now).steps }
{
    let mut sums = Sums {
        accepted: 0,
        packed: 0,
        queued: 0,
        quelched: 0,
        steps: 0,
    };
    for peer in peers {
        sums.accepted += peer.accepted();
        sums.packed += peer.packed();
        sums.queued += peer.queued();
        sums.quelched += peer.quelched();
        sums.steps += peer.steps();
    }
    sums
}

// Returns the sums over peers whose accounts balance, except for octets that were left with passes.
fn settled<J: LedgerSet>(book: CallBook, peers: Vec<ClosedPeer<J>>) -> Settlement<J>
    requires accepted { (accounts_of peers.items).accepted < 2 ^ 64 }
    requires within { carried (accounts_of peers.items) ≤ (accounts_of peers.items).accepted }
    requires quelched { (accounts_of peers.items).quelched ≤ (accounts_of peers.items).dropped }
    requires steps { (accounts_of peers.items).steps < 2 ^ 64 }
    ensures peers { result.peers.items ≡ peers.items }
    ensures sums { (result.accepted ≡ (accounts_of peers.items).accepted) × (result.packed ≡ (accounts_of peers.items).packed) ×
        (result.queued ≡ (accounts_of peers.items).queued) × (result.quelched ≡ (accounts_of peers.items).quelched) ×
        (result.steps ≡ (accounts_of peers.items).steps) }
    ensures balances { (result.accepted ≡ result.packed + result.queued + result.dropped) × (result.quelched ≤ result.dropped) }
{
    let sums = sums_of(&peers);
    Settlement {
        book,
        peers,
        accepted: sums.accepted,
        packed: sums.packed,
        queued: sums.queued,
        dropped: sums.accepted - sums.packed - sums.queued,
        quelched: sums.quelched,
        steps: sums.steps,
    }
}

// Returns the sum of all shares of a supply.
fn gathered<L: Ledger>(supply: &Supply<L>, shares: Vec<Share<L>>) -> u64
    requires { vec_len shares ≡ supply.now.shares }
    ensures sum { result ≡ sum shares.items }
    ensures supplied { result ≡ supply.now.amount }
{
    match gather(supply, shares) {
        Ok(amount) => amount,
        Err(_) => unreachable!(),
    }
}

// Returns the room for the shares of all passes, or the reason why nothing is settled. Memory is checked first.
fn room_for_all<J: LedgerSet>(
    room: Result<Parts<J>, AllocError>,
    passes: usize,
    all: usize,
) -> Result<Parts<J>, SettleError>
    ensures memory { OnErr room (result ≡ Err SettleError.Memory) }
    ensures missing { OnOk room (passes ≢ all → result ≡ Err SettleError.Missing) }
    ensures all { IfOk room (λ parts. passes ≡ all → result ≡ Ok parts) }
{
    let Ok(parts) = room else {
        return Err(SettleError::Memory);
    };
    if passes == all {
        Ok(parts)
    } else {
        Err(SettleError::Missing)
    }
}

impl<G: Gate, J: LedgerSet> Exchange<G, J> {
    /// Ends the exchange, once every pass was returned: gives the book, the peers, and the sums over all peers and passes.
    /// The passes are those of its `open`, by their type.
    ///
    /// Refusals are checked in this order: `Memory` if memory for the passes and the peers was refused, `Missing` if a pass
    /// is missing. The exchange and the passes come back.
    pub fn settle(
        self,
        passes: Vec<Pass<J>>,
    ) -> Result<Settlement<J>, (Exchange<G, J>, Vec<Pass<J>>, SettleError)>
        ensures missing { IfErr result (λ back. back.2 ≡ SettleError.Missing → vec_len passes ≢ self.passes) }
        ensures all { OnOk result (vec_len passes ≡ self.passes) }
        ensures returned { IfErr result (λ back. (back.0 ≡ self) × (back.1.items ≡ passes.items)) }

        // The accounts of all peers.
        ensures peers { IfOk result (λ s. vec_len s.peers ≡ length self.peers) }
        ensures accepted { IfOk result (λ s. s.accepted ≡ (accounts_of s.peers.items).accepted) }
        ensures packed { IfOk result (λ s. s.packed ≡ (accounts_of s.peers.items).packed) }
        ensures queued { IfOk result (λ s. s.queued ≡ (accounts_of s.peers.items).queued) }
        ensures dropped { IfOk result (λ s. s.dropped ≡ (accounts_of s.peers.items).dropped + left_with passes.items) }
        ensures quelched { IfOk result (λ s. s.quelched ≡ (accounts_of s.peers.items).quelched) }
        ensures part { IfOk result (λ s. s.quelched ≤ s.dropped) }
        ensures steps { IfOk result (λ s. s.steps ≡ (accounts_of s.peers.items).steps) }

        // Each accepted octet was packed, is queued or was dropped, and the steps are those under the passes.
        ensures balances { IfOk result (λ s. s.accepted ≡ s.packed + s.queued + s.dropped) }
        ensures made { IfOk result (λ s. s.steps ≡ steps_under passes.items) }
        // Each step of a peer is noted under a pass.
        ensures noted { IfOk result (λ s. s.steps ≡ begun_with passes.items + noted_under passes.items) }
    {
        let pass_count = usize::from(self.plan.passes());
        let shares = self.peers.len() + pass_count;
        let room = Parts::<J>::with_room(self.alloc, self.peers.len(), shares);
        match room_for_all(room, passes.len(), pass_count) {
            Ok(parts) => Ok(self.settle_into(parts, passes)),
            Err(refused) => Err((self, passes, refused)),
        }
    }

    // Separates all peers and all passes from their shares, for which there is room, and gathers these.
    fn settle_into(self, parts: Parts<J>, passes: Vec<Pass<J>>) -> Settlement<J>
        requires all { vec_len passes ≡ self.passes }
        requires empty { (parts.peers.items ≡ []) × (parts.octets.items ≡ []) × (parts.steps.items ≡ []) }
        requires peers { length self.peers ≤ vec_capacity parts.peers }
        requires octets { length self.peers + self.passes ≤ vec_capacity parts.octets }
        requires steps { length self.peers + self.passes ≤ vec_capacity parts.steps }
        ensures peers { vec_len result.peers ≡ length self.peers }
        ensures sums { (result.accepted ≡ (accounts_of result.peers.items).accepted) ×
            (result.packed ≡ (accounts_of result.peers.items).packed) ×
            (result.queued ≡ (accounts_of result.peers.items).queued) ×
            (result.quelched ≡ (accounts_of result.peers.items).quelched) ×
            (result.steps ≡ (accounts_of result.peers.items).steps) }
        ensures dropped { result.dropped ≡ (accounts_of result.peers.items).dropped + left_with passes.items }
        ensures balances { (result.accepted ≡ result.packed + result.queued + result.dropped) ×
            (result.quelched ≤ result.dropped) }
        ensures made { result.steps ≡ steps_under passes.items }
        ensures noted { result.steps ≡ begun_with passes.items + noted_under passes.items }
    {
        let (cells, book, octet_supply, step_supply) = self.into_parts();
        let Parts {
            mut peers,
            mut octets,
            mut steps,
        } = parts;
        part_peers(cells, &mut peers, &mut octets, &mut steps);
        part_passes(passes, &mut octets, &mut steps);
        let _octets = gathered(&octet_supply, octets);
        let _steps = gathered(&step_supply, steps);
        settled(book.into_inner().into_book(), peers)
    }
}
