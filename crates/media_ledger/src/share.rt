//! A share of a supply.
ghost use Rattle.std.specs.Prelude.{◌≡◌};

use std::marker::Model;
use std::sync::Arc;
use std::sync::ledger::{Ledger, Share as Token, Total};

/// A share of the supply of a ledger. Contracts see its amount.
#[derive(Drop)]
pub struct Share<L: Ledger> {
    pub(crate) amount: u64,
    // One part of the ledger, with the amount. It takes no octets.
    pub(crate) token: Token<L>,
    pub(crate) total: Arc<Total<L>>,
}

impl<L: Ledger> Model for Share<L> {
    ghost use Rattle.std.specs.Prelude.{◌≡◌, ℕ, ◌<◌, ◌^◌};
    ghost use Rattle.std.specs.Arc.{arc_value};

    ghost Value = { ℕ };

    ghost view = { λ s. s.amount };

    ghost invariant = { λ s. (s.token.parts ≡ 1) × (s.token.amount ≡ s.amount) × ((arc_value s.total).amount < 2 ^ 64) };
}

impl<L: Ledger> Share<L> {
    /// Returns the amount that the share has, 0 ..= 2^64 - 1.
    pub fn amount(&self) -> u64
        ensures { result ≡ self.now }
    {
        self.amount
    }
}
