//! The sums of the accounts of all peers.
ghost use Rattle.std.specs.Prelude.{◌≡◌, length};
ghost use Rattle.service_api.specs.Accounts.{AddsUp, with_sums};

use control_requests::AccountsRow;
use exchange_core::{Exchange, NoGate, Pass};
use peer_lock::{LedgerSet, Sums};
use peer_plan::PeerId;
use std::sync::Wait;

// Adds the sums of a peer, each modulo 2^64.
fn with_sums(row: AccountsRow, sums: Sums) -> AccountsRow
    ensures { result ≡ with_sums row sums }
{
    AccountsRow {
        accepted: row.accepted.wrapping_add(sums.accepted),
        packed: row.packed.wrapping_add(sums.packed),
        queued: row.queued.wrapping_add(sums.queued),
        dropped: row.dropped.wrapping_add(sums.dropped),
        quelched: row.quelched.wrapping_add(sums.quelched),
    }
}

/// Returns the sums over all peers, modulo 2^64. Peers are asked one after another while calls continue.
#[tactic(auto, using(crate::proofs::Adding::adds_up_more))]
pub(crate) fn add_up<J: LedgerSet, R: Wait>(
    rt: &R,
    exchange: &Exchange<NoGate, J>,
    pass: &mut Pass<J>,
) -> AccountsRow
    ensures { AddsUp (length exchange.now.peers) result pass.old pass.new }
{
    let mut row = AccountsRow {
        accepted: 0,
        packed: 0,
        queued: 0,
        dropped: 0,
        quelched: 0,
    };
    for place in 0..exchange.plan().peer_count() {
        let peer = PeerId::new(place);
        let sums = exchange.sums(rt, pass, peer);
        row = with_sums(row, sums);
    }
    row
}
