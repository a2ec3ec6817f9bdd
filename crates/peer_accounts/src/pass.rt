//! The token of one worker or caller.
ghost use Rattle.std.specs.Prelude.{◌≡◌};
ghost use Rattle.peer_accounts.specs.HandedUp.{IsNothing};

use crate::ledger_set::LedgerSet;
use crate::onwards::Onwards;
use media_ledger::Share;
use std::alloc::Global;
use std::marker::Model;

/// The token of one worker or caller: the credit that peers have passed to it. Contracts see it as that credit.
///
/// It also keeps the memory of a list for the signals of steps, so that a step needs no new one.
#[derive(Drop)]
pub struct Pass<J: LedgerSet> {
    pub(crate) octets: Share<J::Octets>,
    pub(crate) steps: Share<J::Steps>,
    onwards: Option<Onwards>,
}

impl<J: LedgerSet> Model for Pass<J> {
    ghost use Rattle.peer_accounts.specs.Accounts.{Credit};

    ghost Value = { Credit };

    ghost view = { λ p. record { octets = p.octets; steps = p.steps } };
}

impl<J: LedgerSet> Pass<J> {
    /// Returns a pass with this credit.
    pub fn new(octets: Share<J::Octets>, steps: Share<J::Steps>) -> Pass<J>
        ensures octets { result.octets ≡ octets }
        ensures steps { result.steps ≡ steps }
    {
        Pass {
            octets,
            steps,
            onwards: None,
        }
    }

    /// Returns the media octets for which it has credit: those that peers accepted and that aren't carried yet.
    pub fn octets(&self) -> u64
        ensures { result ≡ self.now.octets }
    {
        self.octets.amount()
    }

    /// Returns its step credit.
    pub fn steps(&self) -> u64
        ensures { result ≡ self.now.steps }
    {
        self.steps.amount()
    }

    /// Returns an empty list for the signals that a step hands up. The caller should give it back by `keep`. If none was
    /// given back, it is a new list without memory.
    pub fn lend(&mut self, alloc: Global) -> Onwards
        ensures nothing { IsNothing result }
        ensures same { self.new ≡ self.old }
    {
        let mut onwards = match self.onwards.take() {
            Some(onwards) => onwards,
            None => Onwards::new(alloc),
        };
        onwards.clear();
        onwards
    }

    /// Keeps the memory of a list for the next step.
    pub fn keep(&mut self, onwards: Onwards)
        ensures { self.new ≡ self.old }
    {
        self.onwards = Some(onwards);
    }

    /// Gives up the share of octets and that of steps.
    pub fn part(self) -> (Share<J::Octets>, Share<J::Steps>)
        ensures octets { result.0 ≡ self.octets }
        ensures steps { result.1 ≡ self.steps }
    {
        let Pass {
            octets,
            steps,
            onwards: _,
        } = self;
        (octets, steps)
    }
}
