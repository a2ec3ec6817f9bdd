//! The steps of two workers at once, each with a separate pass.

use crate::tests::desk::{Desk, EAST_PLACE, WEST_PLACE};
use crate::tests::opened::{Play, play_with};
use crate::tests::same::{holds, same};
use exchange_core::{Gate, NoGate};
use layer_tests::plans::TWO_PASSES;
use peer_lock::LedgerSet;
use std::process::Abort;
use std::sync::Wait;
use std::test::*;

// Returns whether a tick is one step, and isn't refused.
fn is_one_step<R: Wait, G: Gate, J: LedgerSet>(
    desk: &mut Desk<'_, R, G, J>,
    peer: u16,
    now: u64,
) -> bool {
    match desk.tick(peer, now) {
        Some(told) => told.is_one_step(),
        None => false,
    }
}

/// Ticks each peer 250 times, at the moments 0 to 249.
pub fn ticked<R: Abort + Wait, G: Gate, J: LedgerSet>(rt: &R, desk: &mut Desk<'_, R, G, J>) {
    for now in 0..250 {
        let west = is_one_step(desk, WEST_PLACE, now);
        holds(rt, "one step", west && is_one_step(desk, EAST_PLACE, now));
    }
}

// Every step is in the accounts.
#[test]
fn steps_of_two_workers(rt: HostRuntime) {
    let sums = play_with(&rt, rt.alloc(), TWO_PASSES, NoGate, Play::Tickers);
    same(&rt, &sums.expect(&rt, "an exchange").steps, &1000);
}
