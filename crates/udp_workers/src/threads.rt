//! Runs seats on threads.
ghost use Rattle.std.specs.Prelude.{◌≡◌, ◌≤◌, [], IsFalse, IsOk, length};

use crate::intake::Intake;
use crate::seat::{PlanBrand, Seat, WatchedExchange};
use crate::sources::{Challenges, TurnClock};
use crate::turn_observer::TurnObserver;
use crate::unwatched::Unwatched;
use exchange_core::{Exchange, Gate, Watch};
use peer_lock::LedgerSet;
use std::marker::PhantomData;
use std::sync::Wait;
use std::thread;
use std::thread::{Scope, Threads};
use udp_wires::Wire;

/// The system refused a thread.
#[derive(Clone, Copy, Debug, PartialEq, Eq)]
pub struct NoThread;

/// Makes the run of each seat, with its number of turns, and puts the sum of its reports into the seat. The last seat runs
/// on the thread of the caller, each other one on a separate thread. There are at most 8 seats. All threads have ended when
/// it returns. So a worker that is alone needs no thread, and the C library spares it the cost of its calls in a program
/// with several threads.
///
/// `NoThread`: a thread was refused. Seats whose thread was refused are unchanged, the others have run.
pub fn run_all<
    W: Wire + Drop + Send,
    M: TurnClock + Drop + Send,
    C: Challenges + Drop + Send,
    O: TurnObserver + Drop + Send,
    G: Gate + Sync,
    J: LedgerSet,
    P: PlanBrand + Send + Sync,
    R: Threads + Wait + Sync,
>(
    rt: &R,
    exchange: &Exchange<G, J>,
    seats: &mut [Seat<W, M, C, O, J, P>],
    turns: u32,
) -> Result<(), NoThread>
    requires few { length seats.old ≤ 8 }
    requires plan { exchange.now ≡ P.plan }
    ensures { seats.old ≡ [] → IsOk result }
{
    let Some((last, others)) = seats.split_last() else {
        return Ok(());
    };
    let service = WatchedExchange {
        exchange,
        watch: &Unwatched,
        intake: Intake::Whole,
        turns: u64::from(turns),
        post: PhantomData,
    };
    if service.run_beside(rt, others, last) {
        Ok(())
    } else {
        Err(NoThread)
    }
}

impl<'s, V: Watch + Sync, G: Gate + Sync, J: LedgerSet, P: PlanBrand + Send + Sync> WatchedExchange<
    's,
    V,
    G,
    J,
    P,
> {
    /// Starts a thread for each seat in a scope of the caller. It makes the seat's run until the watch reports the end of
    /// the service, or all turns are made. Then it puts the sum of its reports into the seat. Returns true if no thread was
    /// refused. Each refusal is reported to the watch, so that it can answer `Ended` to the others.
    ///
    /// The scope returns when all threads have ended, and none ends before it gets `Ended` or has made its turns. Until
    /// then the caller's thread is free for other work.
    pub fn start_until<
        E,
        W: Wire + Drop + Send,
        M: TurnClock + Drop + Send,
        C: Challenges + Drop + Send,
        O: TurnObserver + Drop + Send,
        R: Wait + Sync,
    >(&'s self, rt: &'s R, scope: &Scope<'s, E>, seats: &'s [Seat<W, M, C, O, J, P>]) -> bool
        ensures { IsFalse result → V.lacks_thread self.now.watch.now }
    {
        let mut started = true;
        for seat in seats {
            if scope.spawn(move || seat.run(rt, self)).is_err() {
                self.watch.no_thread();
                started = false;
            }
        }
        started
    }

    // Makes the runs of seats, each on a separate thread, and that of the last on the thread of the caller. Returns true if
    // no thread was refused.
    fn run_beside<
        W: Wire + Drop + Send,
        M: TurnClock + Drop + Send,
        C: Challenges + Drop + Send,
        O: TurnObserver + Drop + Send,
        R: Threads + Wait + Sync,
    >(&self, rt: &R, others: &[Seat<W, M, C, O, J, P>], last: &Seat<W, M, C, O, J, P>) -> bool {
        thread::scope(thread::scope_env(), rt, |scope| {
            let started = self.start_until(rt, scope, others);
            last.run(rt, self);
            started
        })
    }
}
