//! The supply of a ledger.
ghost use Rattle.std.specs.Prelude.{◌≡◌, ◌<◌, ◌≤◌, ◌^◌};

use std::alloc::AllocError;
use std::marker::Model;
use std::sync::Arc;
use std::sync::ledger::{Ledger, Share as Token, Total};

/// The supply of a ledger: the number of shares, and their sum.
#[derive(Drop)]
pub struct Supply<L: Ledger> {
    pub(crate) shares: u64,
    pub(crate) amount: u64,
    pub(crate) total: Arc<Total<L>>,
}

impl<L: Ledger> Model for Supply<L> {
    ghost use Rattle.std.specs.Prelude.{◌≡◌, ◌<◌};
    ghost use Rattle.std.specs.Arc.{arc_value};
    ghost use Rattle.media_ledger.specs.Supplied.{Supplied};

    ghost Value = { Supplied };

    ghost view = { λ s. record { shares = s.shares; amount = s.amount } };

    ghost invariant = { λ s. ((arc_value s.total).parts ≡ s.shares) × (s.shares ≡ L.parts) ×
        ((arc_value s.total).amount ≡ s.amount) ×
        (0 < s.shares) };
}

impl<L: Ledger> Supply<L> {
    // Checks a token: it has no more than the supply, and with every part all of it.
    pub(crate) fn audit(&self, token: &mut Token<L>)
        ensures parts { token.new.parts ≡ token.old.parts }
        ensures amount { token.new.amount ≡ token.old.amount }
        ensures bound { token.old.amount ≤ self.now.amount }
        ensures whole { token.old.parts ≡ self.now.shares → token.old.amount ≡ self.now.amount }
        ensures most { self.now.shares ≡ L.parts }
        ensures fits { self.now.amount < 2 ^ 64 }
    {
        self.total.audit(token);
        let _amount = self.amount;
    }
}

/// The reason why nothing was supplied.
#[derive(Clone, Copy, Debug, PartialEq, Eq)]
pub enum SupplyError {
    /// The amounts add up to 2^64 or more.
    TooMuch,
    /// A request for memory was refused.
    Memory,
}

impl From<AllocError> for SupplyError {
    ghost use Rattle.std.specs.Prelude.{◌≡◌};
    ghost use Rattle.media_ledger.specs.declared.supplied.SupplyError.TheVariants.{Memory};

    ghost from_gives = { λ _ e. e ≡ Memory };

    fn from(_: AllocError) -> SupplyError {
        SupplyError::Memory
    }
}

/// A share of the supply is absent.
#[derive(Clone, Copy, Debug, PartialEq, Eq)]
pub struct Missing;
