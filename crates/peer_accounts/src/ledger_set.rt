//! Values that every state and every pass of one exchange share: the names of its two ledgers, and the first share of every
//! peer.
ghost use Rattle.std.specs.Prelude.{ℕ, ◌^◌};

use std::marker::PhantomData;
use std::sync::ledger::Ledger;

/// The two ledgers of one exchange, media octets and steps, and the first shares of every peer in them.
pub trait LedgerSet: Send + Sync {
    type Octets: Ledger + Send + Sync;

    type Steps: Ledger + Send + Sync;

    ghost first_octets: { ℕ };

    ghost first_steps: { ℕ };
}

/// The ledgers of an exchange in service: each peer begins with 2^48 octets and 2^48 steps.
pub struct Service<O, S> {
    octets: PhantomData<O>,
    steps: PhantomData<S>,
}

impl<O: Ledger + Send + Sync, S: Ledger + Send + Sync> LedgerSet for Service<O, S> {
    type Octets = O;

    type Steps = S;

    ghost first_octets = { 2 ^ 48 };

    ghost first_steps = { 2 ^ 48 };
}
