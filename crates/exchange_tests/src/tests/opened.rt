//! Opens an exchange of a plan over two ledgers, and plays a scene on it.
ghost use Rattle.std.specs.Prelude.{◌≡◌, ◌+◌, length};

use crate::tests::desk::Desk;
use crate::tests::drains::{Between, Drain, Kept, play_drained};
use crate::tests::growths::call_and_end;
use crate::tests::pairs::{Pair, at_once};
use crate::tests::recovery::{Sums, ended};
use crate::tests::same::holds;
use crate::tests::storm::{Drains, storm_and_end};
use crate::tests::two_peers::Progress;
use crate::tests::wires::{
    Burst, Calls, Played, Rejection, Taken, Unaccepted, call_first, play_burst, play_call,
    play_draining, play_observed, play_waking, turn_on,
};
use exchange_core::{Exchange, Gate, NoGate, Pass};
use media_ledger::Blank;
use peer_lock::{LedgerSet, Service};
use peer_plan::{Plan, PlanError};
use std::alloc::Global;
use std::marker::Brand;
use std::net::Net;
use std::process::Abort;
use std::sync::Wait;
use std::sync::atomic::AtomicBool;
use std::sync::ledger::Ledger;
use std::thread::Threads;
use std::time::Clock;
use udp_workers::PlanBrand;

/// A scene that is played on an exchange under its only pass, and asserts its result.
#[derive(Clone, Copy)]
pub enum Scene {
    /// A call with media and a digit, then an end to it.
    CallAndEnd,
    /// A storm of datagrams, then an end to all calls.
    Storm,
    /// A storm in which peers begin and end to drain.
    StormWithDrains,
}

/// The play on an exchange, by hand or by workers, and its result.
#[derive(Drop)]
pub enum Play<'a> {
    Scene(Scene),
    /// Two threads tick both peers, each with a separate pass.
    Tickers,
    /// Two threads tick a peer each, one of them once the other is held.
    TwoTicks(&'a Progress),
    /// Of two threads the first gives NEWs to the exchange, and the second has the peer drain between two sections of one.
    DrainBetween(&'a Between),
    /// Of two threads the first plays a storm, and the second begins and ends drains until the flag says that it is over.
    StormAndDrains(&'a AtomicBool),
    /// The only pass plays a call with a drain: the datagrams of the call that went out.
    Drained(Drain, &'a mut Vec<Kept>),
    /// The only worker of a plan plays a whole call, over a wire that fails at its call of this place; at 0 never.
    WholeCall(u64, &'a mut Option<Played>),
    /// The only worker of a plan is given a burst of trunk frames.
    Burst(Burst, &'a mut Taken),
    /// The only worker of a plan takes two datagrams in a turn that is observed.
    Observed(&'a mut Calls),
    /// The only worker of a plan takes datagrams while the service drains.
    Draining(&'a mut Unaccepted),
    /// Media comes to the second worker of a plan for a peer of the first: the number of times that each was woken.
    Waking(&'a mut (u64, u64)),
    /// Each worker of a plan makes one turn: the number of workers that made theirs.
    OneTurn(&'a mut u64),
    /// A socket calls a number that leads nowhere.
    CallFor200(&'a mut Option<Rejection>),
}

fn play_scene<R: Abort + Clock + Wait, G: Gate, J: LedgerSet>(
    rt: &R,
    scene: Scene,
    desk: &mut Desk<'_, R, G, J>,
) {
    match scene {
        Scene::CallAndEnd => call_and_end(rt, desk),
        Scene::Storm => storm_and_end(rt, desk, Drains::None),
        Scene::StormWithDrains => storm_and_end(rt, desk, Drains::Own),
    }
}

// Plays a scene under the only pass.
fn play_only<R: Abort + Clock + Wait, G: Gate, J: LedgerSet>(
    rt: &R,
    scene: Scene,
    exchange: &Exchange<G, J>,
    passes: &mut [Pass<J>],
) {
    let [pass] = passes else {
        panic!(rt; "one pass");
    };
    play_scene(rt, scene, &mut Desk::new(rt, exchange, pass));
}

// Runs two threads, under two passes.
fn play_pair<R: Abort + Clock + Sync + Threads + Wait, G: Gate + Sync, J: LedgerSet>(
    rt: &R,
    exchange: &Exchange<G, J>,
    passes: &mut [Pass<J>],
    pair: Pair<'_>,
) {
    let [first, second] = passes else {
        panic!(rt; "two passes");
    };
    let mut one = Desk::new(rt, exchange, first);
    let mut other = Desk::new(rt, exchange, second);
    at_once(rt, &mut one, &mut other, pair);
}

fn play_any<
    R: Abort + Clock + Net + Sync + Threads + Wait,
    G: Gate + Sync,
    J: LedgerSet,
    P: PlanBrand + Send + Sync,
>(rt: &R, alloc: Global, play: Play<'_>, exchange: &Exchange<G, J>, passes: &mut Vec<Pass<J>>)
    requires { exchange.now ≡ P.plan }
{
    match play {
        Play::Scene(scene) => play_only(rt, scene, exchange, passes),
        Play::Tickers => play_pair(rt, exchange, passes, Pair::Tickers),
        Play::TwoTicks(progress) => play_pair(rt, exchange, passes, Pair::TwoTicks(progress)),
        Play::DrainBetween(between) => {
            play_pair(rt, exchange, passes, Pair::DrainBetween(between));
        }
        Play::StormAndDrains(is_over) => {
            play_pair(rt, exchange, passes, Pair::StormAndDrains(is_over));
        }
        Play::Drained(drain, kept) => *kept = play_drained(rt, alloc, drain, exchange, passes),
        Play::WholeCall(at, played) => *played = Some(play_call(rt, alloc, at, exchange, passes)),
        Play::Burst(burst, taken) => *taken = play_burst(rt, alloc, burst, exchange, passes),
        Play::Observed(calls) => *calls = play_observed(rt, alloc, exchange, passes),
        Play::Draining(counts) => *counts = play_draining(rt, alloc, exchange, passes),
        Play::Waking(woken) => *woken = play_waking(rt, alloc, exchange, passes),
        Play::OneTurn(turns) => *turns = turn_on::<G, J, P, R>(rt, alloc, exchange, passes),
        Play::CallFor200(called) => *called = Some(call_first(rt, alloc, exchange, passes)),
    }
}

// Plays on an exchange of these ledgers and of this plan, which the caller names; then ends the exchange.
fn play_named<
    R: Abort + Clock + Net + Sync + Threads + Wait,
    G: Gate + Sync,
    O: Ledger + Send + Sync,
    T: Ledger + Send + Sync,
    P: PlanBrand + Send + Sync,
>(
    rt: &R,
    alloc: Global,
    plan: Plan,
    gate: G,
    played: Play<'_>,
    octets: Blank,
    steps: Blank,
) -> Option<Sums>
    requires plan { plan ≡ P.plan }
    requires octets { (octets.name ≡ O.name) × (octets.parts ≡ O.parts) × (octets.parts ≡ length plan.peers + plan.passes) }
    requires steps { (steps.name ≡ T.name) × (steps.parts ≡ T.parts) × (steps.parts ≡ length plan.peers + plan.passes) }
{
    match Exchange::<G, Service<O, T>>::open(alloc, plan, gate, octets, steps) {
        Ok((exchange, passes)) => {
            let mut passes = passes;
            play_any::<R, G, Service<O, T>, P>(rt, alloc, played, &exchange, &mut passes);
            Some(ended(rt, exchange, passes))
        }
        Err(_) => None,
    }
}

/// Opens an exchange of a plan with this gate, plays this on it, and closes its accounts, as `ended` does. Returns `None`
/// if memory for the plan or for the opening was refused.
pub fn play_with<R: Abort + Clock + Net + Sync + Threads + Wait, G: Gate + Sync>(
    rt: &R,
    alloc: Global,
    plan: &str,
    gate: G,
    played: Play<'_>,
) -> Option<Sums> {
    let plan = match Plan::read(alloc, plan.as_bytes()) {
        Ok(plan) => plan,
        Err(PlanError::Memory) => return None,
        Err(_) => panic!(rt; "a plan"),
    };
    let parts = u64::from(plan.peer_count()) + u64::from(plan.passes());
    let (octets, steps) = (Blank::new(parts), Blank::new(parts));
    play_named::<R, G, Brand, Brand, Brand>(rt, alloc, plan, gate, played, octets, steps)
}

/// Plays a scene on an exchange of a plan, with ample memory.
pub fn play_on<R: Abort + Clock + Net + Sync + Threads + Wait>(
    rt: &R,
    alloc: Global,
    plan: &str,
    scene: Scene,
) -> Sums {
    play_with(rt, alloc, plan, NoGate, Play::Scene(scene)).expect(rt, "an exchange")
}
