//! Supplying, moving and gathering shares.
ghost use Rattle.std.specs.Prelude.{◌≡◌, ◌+◌, ◌<◌, ◌≤◌, ◌^◌, ◌↔◌, [], IfOk, OnOk, IfErr, IsErr, IfSome, IsNone, length, sum};
ghost use Rattle.std.specs.Prelude.{vec_len};
ghost use Rattle.std.specs.Arc.{arc_value};

use crate::share::Share;
use crate::supplied::{Missing, Supply, SupplyError};
use std::alloc::{AllocError, Global};
use std::sync::Arc;
use std::sync::ledger::{Blank, Book, Ledger, Share as Token, Total};

// Returns the sum of the amounts, if it fits.
fn sum_of(amounts: &[u64]) -> Option<u64>
    ensures some { IfSome result (λ n. n ≡ sum amounts.now) }
    ensures none { IsNone result ↔ (2 ^ 64 ≤ sum amounts.now) }
{
    let mut total: u64 = 0;
    for amount in amounts {
        total = total.checked_add(*amount)?;
    }
    Some(total)
}

/// Supplies these amounts, at least one: one share for each, in order. The blank is of this ledger, with one part for each.
///
/// Returns `TooMuch` if and only if the amounts add up to 2^64 or more, and `Memory` only if memory was refused. At an
/// `Err` the blank is dropped.
pub fn supply<L: Ledger>(
    alloc: Global,
    blank: Blank,
    amounts: &[u64],
) -> Result<(Supply<L>, Vec<Share<L>>), SupplyError>
    requires name { blank.name ≡ L.name }
    requires parts { blank.parts ≡ L.parts }
    requires one_each { blank.parts ≡ length amounts.now }
    requires some { 0 < length amounts.now }
    ensures supplied { IfOk result (λ made. (made.0.shares ≡ length amounts.now) × (made.0.amount ≡ sum amounts.now)) }
    ensures shares { IfOk result (λ made. made.1.items ≡ amounts.now) }
    ensures too_much { (result ≡ Err SupplyError.TooMuch) ↔ (2 ^ 64 ≤ sum amounts.now) }
{
    let Some(amount) = sum_of(amounts) else {
        return Err(SupplyError::TooMuch);
    };
    let (mut book, mut rest) = blank.open::<L>();
    book.add(&mut rest, amount);
    let total = shared(alloc, book)?;
    let shares = cut(alloc, rest, &total, amounts)?;
    let supply = Supply {
        shares: amounts.len() as u64,
        amount,
        total,
    };
    Ok((supply, shares))
}

// Returns the closed book, which every share holds.
fn shared<L: Ledger>(alloc: Global, book: Book<L>) -> Result<Arc<Total<L>>, AllocError>
    ensures { IfOk result (λ t. ((arc_value t).amount ≡ book.total) × ((arc_value t).parts ≡ L.parts)) }
{
    match Arc::new(alloc, book.close()) {
        Ok(total) => Ok(total),
        Err(_) => Err(AllocError),
    }
}

// Cuts one share for each amount off a token with a part for each.
fn cut<L: Ledger>(
    alloc: Global,
    rest: Token<L>,
    total: &Arc<Total<L>>,
    amounts: &[u64],
) -> Result<Vec<Share<L>>, AllocError>
    requires parts { rest.parts ≡ length amounts.now }
    requires amount { rest.amount ≡ sum amounts.now }
    requires fits { (arc_value total.now).amount < 2 ^ 64 }
    ensures { IfOk result (λ v. v.items ≡ amounts.now) }
{
    let mut rest = rest;
    let mut shares = Vec::with_capacity(alloc, amounts.len())?;
    for i in 0..amounts.len() {
        let amount = amounts[i];
        let token = rest.split_off(1, amount);
        shares.push(Share {
            amount,
            token,
            total: Arc::try_clone(total)?,
        })?;
    }
    Ok(shares)
}

/// Moves `n` from one share to another of the same supply. It takes no memory.
pub fn pass_on<L: Ledger>(from: &mut Share<L>, to: &mut Share<L>, n: u64)
    requires { n ≤ from.old }
    ensures from { from.new + n ≡ from.old }
    ensures to { to.new ≡ to.old + n }
    ensures fits { to.new < 2 ^ 64 }
{
    // Both shares together have no more than the total, so the sum fits.
    let all = from.amount;
    from.token.give(&mut to.token, 1, all);
    from.total.audit(&mut to.token);
    to.token.give(&mut from.token, 1, all - n);
    from.amount -= n;
    to.amount += n;
}

/// Returns the sum of all shares, which is the supply. It takes no memory.
///
/// Returns `Missing` if and only if one is absent; the shares come back.
pub fn gather<L: Ledger>(
    supply: &Supply<L>,
    shares: Vec<Share<L>>,
) -> Result<u64, (Vec<Share<L>>, Missing)>
    ensures missing { IsErr result ↔ (vec_len shares < supply.now.shares) }
    ensures missing_where_empty { shares.items ≡ [] → IsErr result }
    ensures all { OnOk result (vec_len shares ≡ supply.now.shares) }
    ensures sum { IfOk result (λ n. n ≡ sum shares.items) }
    ensures supplied { IfOk result (λ n. n ≡ supply.now.amount) }
    ensures returned { IfErr result (λ refused. refused.0.items ≡ shares.items) }
{
    if (shares.len() as u64) < supply.shares {
        return Err((shares, Missing));
    }
    Ok(merged(supply, shares))
}

// Returns the sum of all shares of a supply.
fn merged<L: Ledger>(supply: &Supply<L>, shares: Vec<Share<L>>) -> u64
    requires { supply.now.shares ≤ vec_len shares }
    ensures all { vec_len shares ≡ supply.now.shares }
    ensures sum { result ≡ sum shares.items }
    ensures supplied { result ≡ supply.now.amount }
{
    // (what holds of the supply)
    let _shares = supply.shares;
    let mut shares = shares;
    let Some(last) = shares.pop() else {
        unreachable!()
    };
    let Share {
        mut amount,
        token: mut all,
        total: _,
    } = last;
    while let Some(share) = shares.pop() {
        let Share {
            amount: more,
            token,
            total: _,
        } = share;
        all.merge(token);
        supply.audit(&mut all);
        amount += more;
    }
    supply.audit(&mut all);
    amount
}
