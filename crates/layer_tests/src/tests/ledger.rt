//! Shares of a supply.
ghost use Rattle.std.specs.Prelude.{◌≡◌};

use crate::tests::same::{holds, same};
use media_ledger::{Blank, Missing, Share, SupplyError, gather, pass_on, supply};
use std::alloc::Global;
use std::marker::Brand;
use std::process::Abort;
use std::sync::ledger::Ledger;

// Moves 2 from the first share, which has 5, to the second, which has none.
fn moves<L: Ledger>(rt: &impl Abort, first: &mut Share<L>, second: &mut Share<L>) {
    assert!(rt; first.amount() >= 2);
    pass_on(first, second, 2);
    same(rt, &(first.amount(), second.amount()), &(3, 2));
}

// Supplies 5 and 0, moves 2, and gathers one share and then both.
fn gathered<L: Ledger>(rt: &impl Abort, alloc: Global, blank: Blank) -> Option<u64>
    requires { (blank.name ≡ L.name) × (blank.parts ≡ L.parts) × (blank.parts ≡ 2) }
{
    let (whole, mut shares) = supply::<L>(alloc, blank, &[5, 0]).ok().expect(rt, "memory");
    let mut second = shares.pop().expect(rt, "two shares");
    let mut first = shares.pop().expect(rt, "two shares");
    moves(rt, &mut first, &mut second);
    shares.push(first).ok().expect(rt, "memory");
    match gather(&whole, shares) {
        Ok(_) => None,
        Err((mut shares, Missing)) => {
            same(rt, &shares.len(), &1);
            shares.push(second).ok().expect(rt, "memory");
            gather(&whole, shares).ok()
        }
    }
}

// A sum past 64 bits.
fn is_too_much<L: Ledger>(alloc: Global, blank: Blank) -> bool
    requires { (blank.name ≡ L.name) × (blank.parts ≡ L.parts) × (blank.parts ≡ 2) }
{
    matches!(
        supply::<L>(alloc, blank, &[u64::MAX, 1]),
        Err(SupplyError::TooMuch)
    )
}

#[test]
fn ledger_supply(rt: HostRuntime) {
    let sum = gathered::<Brand>(&rt, rt.alloc(), Blank::new(2));
    same(&rt, &sum, &Some(5));
}

#[test]
fn ledger_supply_too_much(rt: HostRuntime) {
    let refused = is_too_much::<Brand>(rt.alloc(), Blank::new(2));
    holds(&rt, "too much", refused);
}
