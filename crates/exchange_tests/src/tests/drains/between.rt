//! A drain that begins between the two sections of the west that a NEW needs: in the first the peer says that it needs a
//! number, and in the second its leg is opened.

use crate::tests::datagrams::new_call;
use crate::tests::desk::{Desk, EAST_PLACE, Told, WEST, WEST_PLACE};
use crate::tests::drains::newcomers::expect_rejected;
use crate::tests::opened::{Play, play_with};
use crate::tests::recovery::{all_end, leg_count};
use crate::tests::same::{holds, same};
use exchange_core::{Gate, Refusal, Rejection};
use layer_tests::plans::TWO_PASSES;
use peer_lock::LedgerSet;
use std::process::Abort;
use std::sync::Wait;
use std::sync::atomic::{AtomicBool, AtomicU64, Ordering};
use std::test::*;
use std::thread;
use std::time::{Clock, Duration};

// The rounds that are tried at most.
const ROUNDS: u64 = 1000;

/// The progress of the two threads: one gives a NEW of the west to the exchange in each round, the other has the west drain.
///
/// A lock is handed to the thread that lost it twice. So a drain that is ordered two sections before a NEW's first one comes
/// right after that, whichever thread the system prefers, as long as each section lasts for a while. In other rounds it is
/// ordered one section before, or in that section.
#[derive(Drop)]
pub struct Between {
    // The section of the west in which this round's drain is ordered, counted from 1 on; 0 outside a round.
    section: AtomicU64,
    // The sections of the west in this round.
    entered: AtomicU64,
    // The rounds whose drain was ordered, and those whose drain has begun.
    ordered: AtomicU64,
    begun: AtomicU64,
    is_over: AtomicBool,
    // A drain came between.
    has_come: AtomicBool,
}

/// Has each section of the west last for two milliseconds in a round.
#[derive(Drop)]
pub struct Slow<'a, R: Clock> {
    clock: &'a R,
    between: &'a Between,
}

impl<R: Clock> Gate for Slow<'_, R> {
    fn enter(&self, peer: u16) {
        let section = self.between.section.load(Ordering::SeqCst);
        if peer != WEST_PLACE || section == 0 {
            return;
        }
        let before = self.between.entered.fetch_add(1, Ordering::SeqCst);
        if before.wrapping_add(1) == section {
            self.between.ordered.fetch_add(1, Ordering::SeqCst);
        }
        thread::sleep(self.clock, Duration::from_millis(2));
    }
}

// Waits until a count has come so far, for ten seconds at most. Returns false if the test is over.
fn comes_to<R: Abort + Clock>(rt: &R, between: &Between, count: &AtomicU64, least: u64) -> bool {
    for _ in 0..100_000 {
        if count.load(Ordering::SeqCst) >= least {
            return true;
        }
        if between.is_over.load(Ordering::SeqCst) {
            return false;
        }
        thread::sleep(rt, Duration::from_micros(100));
    }
    panic!(rt; "the other thread");
}

/// Has the west drain in each round, once that is ordered.
pub fn drain_between<R: Abort + Clock + Wait, G: Gate, J: LedgerSet>(
    rt: &R,
    desk: &mut Desk<'_, R, G, J>,
    between: &Between,
) {
    for round in 1..=ROUNDS {
        if !comes_to(rt, between, &between.ordered, round) {
            return;
        }
        desk.set_draining(WEST_PLACE, true);
        between.begun.store(round, Ordering::SeqCst);
    }
}

// Takes all datagrams of a peer that wait. Returns how many.
fn taken<R: Wait, G: Gate, J: LedgerSet>(desk: &mut Desk<'_, R, G, J>, peer: u16) -> u64 {
    let mut count = 0u64;
    for _ in 0..256 {
        if desk.take_out(peer).is_none() {
            break;
        }
        count = count.saturating_add(1);
    }
    count
}

impl Between {
    fn new() -> Between {
        Between {
            section: AtomicU64::new(0),
            entered: AtomicU64::new(0),
            ordered: AtomicU64::new(0),
            begun: AtomicU64::new(0),
            is_over: AtomicBool::new(false),
            has_come: AtomicBool::new(false),
        }
    }

    // Ticks the west twice, and gives a NEW of it to the exchange. Meanwhile a drain begins.
    fn play_round<R: Abort + Clock + Wait, G: Gate, J: LedgerSet>(
        &self,
        rt: &R,
        desk: &mut Desk<'_, R, G, J>,
        round: u64,
        now: u64,
    ) -> Told {
        self.entered.store(0, Ordering::SeqCst);
        self.section.store(1 + round % 3, Ordering::SeqCst);
        for _ in 0..2 {
            let told = desk.tick(WEST_PLACE, now).expect(rt, "a peer");
            holds(rt, "a tick", told.is_one_step());
        }
        let told = desk.datagram(WEST, new_call(7).octets(), now);
        self.section.store(0, Ordering::SeqCst);
        holds(rt, "a drain", comes_to(rt, self, &self.begun, round));
        told
    }

    // Asserts that a NEW was rejected, was refused and has changed nothing, or has opened both legs of its call.
    fn expect_one_of_three<R: Abort + Wait, G: Gate, J: LedgerSet>(
        &self,
        desk: &mut Desk<'_, R, G, J>,
        told: Told,
    ) {
        let rt = desk.rt;
        let found = (
            leg_count(desk),
            taken(desk, WEST_PLACE),
            taken(desk, EAST_PLACE),
        );
        let wanted = match (told.refused, told.rejected) {
            (None, Some(_)) => {
                same(rt, &told.rejected, &Some(Rejection::Draining));
                (0, 1, 0)
            }
            (Some(_), _) => {
                same(rt, &told.refused, &Some(Refusal::Draining));
                same(
                    rt,
                    &(told.rejected, told.steps, told.retired),
                    &(None, 0, 0),
                );
                self.has_come.store(true, Ordering::SeqCst);
                (0, 0, 0)
            }
            (None, None) => (2, 1, 1),
        };
        same(rt, &found, &wanted);
    }

    /// Plays rounds until a drain came between.
    pub fn call<R: Abort + Clock + Wait, G: Gate, J: LedgerSet>(
        &self,
        rt: &R,
        desk: &mut Desk<'_, R, G, J>,
    ) {
        let mut now = 0u64;
        for round in 1..=ROUNDS {
            let told = self.play_round(rt, desk, round, now);
            self.expect_one_of_three(desk, told);
            expect_rejected(desk, WEST_PLACE, now);
            now = all_end(desk, now).expect(rt, "no leg");
            taken(desk, WEST_PLACE);
            taken(desk, EAST_PLACE);
            desk.set_draining(WEST_PLACE, false);
            if self.has_come.load(Ordering::SeqCst) {
                break;
            }
        }
        self.is_over.store(true, Ordering::SeqCst);
    }
}

#[test]
fn drain_between_two_sections(rt: HostRuntime) {
    let between = Between::new();
    let gate = Slow {
        clock: &rt,
        between: &between,
    };
    let play = Play::DrainBetween(&between);
    let sums = play_with(&rt, rt.alloc(), TWO_PASSES, gate, play);
    holds(&rt, "balanced accounts", sums.is_some());
    let has_come = between.has_come.load(Ordering::SeqCst);
    holds(&rt, "a drain came between", has_come);
}
