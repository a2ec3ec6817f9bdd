//! The end of a service: calls run out or are hung up. The workers end once no leg is left, or when the time is over.
use crate::desk::ApiHandler;
use peer_lock::LedgerSet;
use std::sync::Wait;

/// The progress of a drain.
#[derive(Clone, Copy)]
pub struct Drain {
    /// The longest duration, in milliseconds.
    limit: u64,
    // The moment at which legs began to be hung up.
    since: Option<u64>,
    // The moment at which calls began to run out.
    running_out_since: Option<u64>,
}

// Returns the time since a moment, which is set to `now` if there was none.
fn age(since: &mut Option<u64>, now: u64) -> u64 {
    let first = since.unwrap_or(now);
    *since = Some(first);
    now.saturating_sub(first)
}

impl Drain {
    /// Returns a drain that hasn't begun and lasts at most `limit` milliseconds.
    pub fn new(limit: u64) -> Drain {
        Drain {
            limit,
            since: None,
            running_out_since: None,
        }
    }

    // While calls run out, ends the workers once no leg is left, and has calls hung up once the time is over.
    fn wait_for_calls<R: Wait, J: LedgerSet>(
        &mut self,
        rt: &R,
        desk: &mut ApiHandler<'_, J>,
        now: u64,
    ) {
        let age = age(&mut self.running_out_since, now);
        if desk.leg_count(rt) == 0 {
            desk.watch.lifecycle().end();
        } else if age >= self.limit {
            desk.watch.lifecycle().stop();
        }
    }

    /// Continues the end of the service at a moment in milliseconds. While calls are hung up, it hangs up the legs that are
    /// still up, and ends the workers once no leg is left or the time is over. While calls run out after a graceful stop,
    /// it ends the workers once no leg is left, and has calls hung up once the time is over. Each of these times begins
    /// with the first such call.
    pub fn go_on<R: Wait, J: LedgerSet>(&mut self, rt: &R, desk: &mut ApiHandler<'_, J>, now: u64) {
        let lifecycle = desk.watch.lifecycle();
        if lifecycle.has_ended() {
            return;
        }
        if !lifecycle.is_stopping() {
            if lifecycle.ends_with_calls() {
                self.wait_for_calls(rt, desk, now);
            }
            return;
        }
        let age = age(&mut self.since, now);
        let left = desk.hang_up_all(rt, now);
        if left == 0 || age >= self.limit {
            desk.watch.lifecycle().end();
        }
    }
}
