//! Two threads on one exchange at once, each with a separate pass.

use crate::tests::desk::{Desk, WEST_PLACE};
use crate::tests::drains::{Between, drain_between};
use crate::tests::storm::{Drains, drain_until_over, storm_and_end};
use crate::tests::two_peers::{Progress, tick, tick_east};
use crate::tests::workers::ticked;
use exchange_core::Gate;
use peer_lock::LedgerSet;
use std::process::Abort;
use std::sync::Wait;
use std::sync::atomic::{AtomicBool, Ordering};
use std::thread;
use std::thread::Threads;
use std::time::Clock;

/// What the two threads do.
#[derive(Clone, Copy)]
pub enum Pair<'a> {
    /// Each ticks both peers.
    Tickers,
    /// The first ticks the west, and the second the east once the west is held.
    TwoTicks(&'a Progress),
    /// The first gives NEWs of the west to the exchange, and the second has the west drain between two sections of one.
    DrainBetween(&'a Between),
    /// The first plays a storm, and the second begins and ends drains until the flag says that the storm is over.
    StormAndDrains(&'a AtomicBool),
}

fn play_one<R: Abort + Clock + Wait, G: Gate, J: LedgerSet>(
    rt: &R,
    desk: &mut Desk<'_, R, G, J>,
    pair: Pair<'_>,
) {
    match pair {
        Pair::Tickers => ticked(rt, desk),
        Pair::TwoTicks(_) => tick(rt, desk, WEST_PLACE),
        Pair::DrainBetween(between) => between.call(rt, desk),
        Pair::StormAndDrains(is_over) => {
            storm_and_end(rt, desk, Drains::Others(is_over));
        }
    }
}

fn play_other<R: Abort + Clock + Wait, G: Gate, J: LedgerSet>(
    rt: &R,
    desk: &mut Desk<'_, R, G, J>,
    pair: Pair<'_>,
) {
    match pair {
        Pair::Tickers => ticked(rt, desk),
        Pair::TwoTicks(progress) => tick_east(rt, desk, progress),
        Pair::DrainBetween(between) => drain_between(rt, desk, between),
        Pair::StormAndDrains(is_over) => drain_until_over(rt, desk, is_over),
    }
}

/// Runs two threads at once.
pub fn at_once<R: Abort + Clock + Sync + Threads + Wait, G: Gate + Sync, J: LedgerSet>(
    rt: &R,
    one: &mut Desk<'_, R, G, J>,
    other: &mut Desk<'_, R, G, J>,
    pair: Pair<'_>,
) {
    thread::join(
        rt,
        || play_one(rt, one, pair),
        || play_other(rt, other, pair),
    );
}
