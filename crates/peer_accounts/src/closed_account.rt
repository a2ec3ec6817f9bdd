//! The accounts of a peer without its shares.
ghost use Rattle.std.specs.Prelude.{◌≡◌, ◌+◌, ◌≤◌};
ghost use Rattle.peer_accounts.specs.Accounts.{carried, shown};

use crate::account::Account;
use crate::ledger_set::LedgerSet;
use crate::sums::Sums;
use media_ledger::Share;
use std::marker::{Model, PhantomData};

/// The accounts of a peer that gave its shares up. Contracts see their sums.
#[derive(Drop)]
pub struct ClosedAccount<J: LedgerSet> {
    pub(crate) unspent: u64,
    pub(crate) sums: Sums,
    pub(crate) naming: PhantomData<J>,
}

impl<J: LedgerSet> Model for ClosedAccount<J> {
    ghost use Rattle.std.specs.Prelude.{◌≡◌, ◌+◌, ◌<◌, ◌≤◌, ◌^◌};
    ghost use Rattle.peer_accounts.specs.Accounts.{Accounts};

    ghost Value = { Accounts };

    ghost view = { λ s. s.sums };

    ghost invariant = { λ s. (s.sums.quelched ≤ s.sums.dropped) × (s.unspent + s.sums.accepted ≡ J.first_octets)
        × (s.sums.steps ≤ J.first_steps) × (J.first_octets < 2 ^ 64) × (J.first_steps < 2 ^ 64) };
}

impl<J: LedgerSet> ClosedAccount<J> {
    /// Returns the sums of the accounts, as they were when the shares were given up.
    pub fn sums(&self) -> Sums
        ensures sums { result ≡ shown self.now }
        ensures part { result.quelched ≤ result.dropped }
    {
        self.sums
    }

    /// Returns the peer with its shares again, as `part` gave them.
    pub fn whole(self, octets: Share<J::Octets>, steps: Share<J::Steps>) -> Account<J>
        requires octets { octets + self.accepted ≡ J.first_octets + carried self }
        requires steps { steps + self.steps ≡ J.first_steps }
        ensures { result ≡ self }
    {
        // Any amount fits 64 bits, as the state keeps it.
        let _fits = octets.amount();
        let ClosedAccount {
            unspent,
            sums,
            naming,
        } = self;
        Account {
            octets,
            steps,
            unspent,
            sums,
            naming,
        }
    }
}
