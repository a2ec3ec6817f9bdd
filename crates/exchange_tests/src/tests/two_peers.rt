//! The sections of two peers at once: a tick of one is answered while a tick of the other is held inside its section.

use crate::tests::desk::{Desk, EAST_PLACE, WEST_PLACE};
use crate::tests::opened::{Play, play_with};
use crate::tests::same::holds;
use exchange_core::Gate;
use layer_tests::plans::TWO_PASSES;
use peer_lock::LedgerSet;
use std::process::Abort;
use std::sync::Wait;
use std::sync::atomic::{AtomicBool, Ordering};
use std::test::*;
use std::thread;
use std::time::{Clock, Duration};

/// The progress of two peers at once.
#[derive(Drop)]
pub struct Progress {
    /// The section of the west was entered.
    pub west: AtomicBool,
    /// The section of the east was entered, or a tick of it was answered.
    pub east: AtomicBool,
    /// One waited in vain for the other.
    pub in_vain: AtomicBool,
}

impl Progress {
    /// Returns the progress at the beginning.
    pub fn new() -> Progress {
        Progress {
            west: AtomicBool::new(false),
            east: AtomicBool::new(false),
            in_vain: AtomicBool::new(false),
        }
    }

    /// Returns a gate that holds the first section of the west until the east has come this far. If the east is held, its
    /// first section is held in the same way.
    pub fn gate<'a, R: Clock>(&'a self, clock: &'a R, holds_east: bool) -> Meeting<'a, R> {
        Meeting {
            clock,
            progress: self,
            holds_east,
        }
    }
}

// Returns whether the flag is set within a thousand waits of a millisecond.
fn is_set_in_time(clock: &impl Clock, flag: &AtomicBool) -> bool {
    for _ in 0..1000 {
        if flag.load(Ordering::SeqCst) {
            return true;
        }
        thread::sleep(clock, Duration::from_millis(1));
    }
    false
}

/// Holds the first sections of peers, for at most a thousand times a millisecond, until the other has come this far.
#[derive(Drop)]
pub struct Meeting<'a, R: Clock> {
    clock: &'a R,
    progress: &'a Progress,
    holds_east: bool,
}

impl<R: Clock> Meeting<'_, R> {
    fn meet(&self, own: &AtomicBool, other: &AtomicBool) {
        if !own.swap(true, Ordering::SeqCst) && !is_set_in_time(self.clock, other) {
            self.progress.in_vain.store(true, Ordering::SeqCst);
        }
    }
}

impl<R: Clock> Gate for Meeting<'_, R> {
    fn enter(&self, peer: u16) {
        if peer == WEST_PLACE {
            self.meet(&self.progress.west, &self.progress.east);
        } else if self.holds_east {
            self.meet(&self.progress.east, &self.progress.west);
        }
    }
}

/// Ticks a peer, which isn't refused.
pub fn tick<R: Abort + Wait, G: Gate, J: LedgerSet>(
    rt: &R,
    desk: &mut Desk<'_, R, G, J>,
    peer: u16,
) {
    let told = desk.tick(peer, 0).expect(rt, "a peer");
    holds(rt, "a tick", told.refused.is_none());
}

/// Ticks the east, once the west is held.
pub fn tick_east<R: Abort + Clock + Wait, G: Gate, J: LedgerSet>(
    rt: &R,
    desk: &mut Desk<'_, R, G, J>,
    progress: &Progress,
) {
    let is_held = is_set_in_time(rt, &progress.west);
    holds(rt, "the west is held", is_held);
    tick(rt, desk, EAST_PLACE);
    progress.east.store(true, Ordering::SeqCst);
}

#[test]
fn two_peers_at_once(rt: HostRuntime) {
    let progress = Progress::new();
    let gate = progress.gate(&rt, false);
    let sums = play_with(&rt, rt.alloc(), TWO_PASSES, gate, Play::TwoTicks(&progress));
    holds(&rt, "balanced accounts", sums.is_some());
    let was_answered = progress.east.load(Ordering::SeqCst);
    holds(&rt, "the east was answered", was_answered);
    let in_vain = progress.in_vain.load(Ordering::SeqCst);
    holds(&rt, "the east didn't wait for the west", !in_vain);
}
