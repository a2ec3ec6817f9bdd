//! A call in which any one request for memory may be refused.
//!
//! `any_growth_refused` passes whichever request is refused. `.ci/refusals` refuses the requests one at a time.

use crate::tests::arrivals::{MEDIA_AND_DIGIT, hear_all};
use crate::tests::desk::{Desk, tick_both};
use crate::tests::opened::{Play, Scene, play_with};
use crate::tests::recovery::recovers;
use crate::tests::same::holds;
use exchange_core::{Gate, NoGate};
use layer_tests::plans::ONE_WORKER;
use peer_lock::LedgerSet;
use std::process::Abort;
use std::sync::Wait;
use std::test::*;

/// Plays a call until both legs are up, with a voice frame, a mini frame, a digit and a tick, and then ends it.
pub fn call_and_end<R: Abort + Wait, G: Gate, J: LedgerSet>(rt: &R, desk: &mut Desk<'_, R, G, J>) {
    hear_all(desk, &MEDIA_AND_DIGIT);
    tick_both(desk, 30);
    holds(rt, "recovery", recovers(desk, 30));
}

// An exchange that couldn't be opened is opened again.
#[test]
fn any_growth_refused(rt: HostRuntime) {
    for _ in 0..2 {
        let play = Play::Scene(Scene::CallAndEnd);
        if play_with(&rt, rt.alloc(), ONE_WORKER, NoGate, play).is_some() {
            return;
        }
    }
    holds(&rt, "balanced accounts", false);
}
