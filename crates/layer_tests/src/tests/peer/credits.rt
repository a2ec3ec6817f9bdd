//! A peer's credit, which it gets when it is made; and steps and octets that run out.
ghost use Rattle.std.specs.Prelude.{◌≡◌};

use crate::frames::NEW_300;
use crate::tests::leg::Wish;
use crate::tests::peer::desk::{Desk, Lent, OCTETS, STEPS, book_of, shares_of, state_of};
use crate::tests::peer::steps::Step;
use crate::tests::same::holds;
use media_ledger::{Blank, Share};
use peer_lock::{Onwards, Pass};
use std::alloc::Global;
use std::marker::Brand;
use std::process::Abort;
use std::sync::ledger::Ledger;

/// The events of a peer.
#[derive(Clone, Copy)]
pub struct Case<'a> {
    pub name: &'a str,
    pub steps: &'a [Step],
}

// Plays a case with these shares, of which the peer gets the first of each.
fn played<O: Ledger + Send + Sync, S: Ledger + Send + Sync, R: Abort>(
    rt: &R,
    alloc: Global,
    case: &Case<'_>,
    octets: (Share<O>, Share<O>),
    steps: (Share<S>, Share<S>),
)
    requires octets { octets.0 ≡ 3 }
    requires steps { steps.0 ≡ 16 }
{
    let (octets, no_octets) = octets;
    let (steps, no_steps) = steps;
    let mut desk = Desk::<Lent<O, S>> {
        alloc,
        book: book_of(rt, alloc),
        state: state_of(rt, alloc, octets, steps),
        pass: Pass::new(no_octets, no_steps),
        onwards: Onwards::new(alloc),
    };
    desk.plays(rt, case.name, case.steps);
}

// Plays a case over two ledgers. False: there was no memory for the shares of them.
fn lent<O: Ledger + Send + Sync, S: Ledger + Send + Sync, R: Abort>(
    rt: &R,
    alloc: Global,
    case: &Case<'_>,
    octets: Blank,
    steps: Blank,
) -> bool
    requires octets { (octets.name ≡ O.name) × (octets.parts ≡ O.parts) × (octets.parts ≡ 2) }
    requires steps { (steps.name ≡ S.name) × (steps.parts ≡ S.parts) × (steps.parts ≡ 2) }
{
    let Some(octets) = shares_of::<O>(rt, alloc, octets, OCTETS) else {
        return false;
    };
    let Some(steps) = shares_of::<S>(rt, alloc, steps, STEPS) else {
        return false;
    };
    played::<O, S, R>(rt, alloc, case, octets, steps);
    true
}

/// Plays a case over two separate ledgers.
pub fn plays<R: Abort>(rt: &R, alloc: Global, case: &Case<'_>) -> bool {
    lent::<Brand, Brand, R>(rt, alloc, case, Blank::new(2), Blank::new(2))
}

static CASES: [Case<'static>; 2] = [
    // Sixteen ticks are answered, and the next changes nothing.
    Case {
        name: "sixteen steps of credit",
        steps: &[
            Step::Tick(0, true),
            Step::Tick(20, true),
            Step::Tick(40, true),
            Step::Tick(60, true),
            Step::Tick(80, true),
            Step::Tick(100, true),
            Step::Tick(120, true),
            Step::Tick(140, true),
            Step::Tick(160, true),
            Step::Tick(180, true),
            Step::Tick(200, true),
            Step::Tick(220, true),
            Step::Tick(240, true),
            Step::Tick(260, true),
            Step::Tick(280, true),
            Step::Tick(300, true),
            Step::Tick(320, false),
            Step::Steps(16),
            Step::Octets(0),
            Step::Says(""),
        ],
    },
    // The call of the leg 1 is accepted. Then media counts until the credit is spent; media too long for the rest has no
    // effect.
    Case {
        name: "three octets of credit",
        steps: &[
            Step::Opens(NEW_300),
            Step::Order(0, Wish::Accept),
            Step::Media(20, "800700010000001401010204ff", Some((12, 13))),
            Step::Octets(1),
            Step::Media(20, "00070014aabbcc", None),
            Step::Octets(1),
            Step::Media(20, "00070014aabb", Some((4, 6))),
            Step::Octets(3),
        ],
    },
];

#[test]
fn credit_that_runs_out(rt: HostRuntime) {
    for case in &CASES {
        holds(&rt, case.name, plays(&rt, rt.alloc(), case));
    }
}
