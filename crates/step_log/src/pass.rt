//! The token of one worker or caller, with the steps made under it.
ghost use Rattle.std.specs.Prelude.{◌≡◌, ◌+◌, []};
ghost use Rattle.peer_accounts.specs.HandedUp.{IsNothing};

use crate::made::{Made, push};
use crate::stepped_peers::SteppedPeers;
use crate::trail::Trail;
use call_book::PeerId;
use media_ledger::Share;
use peer_lock::{LedgerSet, Onwards, Pass as Credits};
use std::alloc::Global;
use std::marker::Model;

/// The token of one worker or caller. Contracts see the credit that peers have passed to it, the number of steps with which
/// it began, and the notes made under it since. A note is a step of a locked state with its answer; notes are in order.
///
/// Its step credit is the number with which it began and 1 for each step of a peer in the notes. Only proofs keep the
/// notes.
pub struct Pass<J: LedgerSet> {
    pub(crate) credits: Credits<J>,
    pub(crate) made: Trail,
    pub(crate) stepped: SteppedPeers,
}

// Written out, so that an owner proves one call at its drop, not the drop of each field.
impl<J: LedgerSet> Drop for Pass<J> {
    fn drop(self) {
        let Pass {
            credits: _,
            made: _,
            stepped: _,
        } = self;
    }
}

impl<J: LedgerSet> Model for Pass<J> {
    ghost use Rattle.std.specs.Prelude.{◌≡◌, ◌+◌};
    ghost use Rattle.step_log.specs.Notes.{Noted, steps_in};
    ghost use Rattle.step_log.specs.Stepped.{no_peers, with_all};

    ghost Value = { Noted };

    ghost view = { λ p. record { credit = p.credits; begun = p.made.begun; made = p.made.items } };

    ghost invariant = { λ p. (p.credits.steps ≡ p.made.begun + steps_in p.made.items) ×
        (p.stepped.unticked ≡ with_all no_peers p.made.items) };
}

impl<J: LedgerSet> Pass<J> {
    ghost use Rattle.step_log.specs.Notes.{note, steps_in};
    ghost use Rattle.step_log.specs.Stepped.{is_unticked};
    ghost use Rattle.step_log.specs.declared.made.Made.TheVariants as mades;

    /// Returns a pass with this credit, without notes.
    pub fn new(octets: Share<J::Octets>, steps: Share<J::Steps>) -> Pass<J>
        ensures octets { result.credit.octets ≡ octets }
        ensures steps { result.credit.steps ≡ steps }
        ensures begun { result.begun ≡ steps }
        ensures made { result.made ≡ [] }
    {
        let credits = Credits::new(octets, steps);
        let made = Trail::new(&credits.steps());
        Pass {
            credits,
            made,
            stepped: SteppedPeers::none(),
        }
    }

    /// Returns the media octets for which it has credit: those that peers accepted and that aren't carried yet.
    pub fn octets(&self) -> u64
        ensures { result ≡ self.now.credit.octets }
    {
        self.credits.octets()
    }

    /// Returns its step credit: the number with which it began, and 1 for each step of a peer made under it.
    pub fn steps(&self) -> u64
        ensures { result ≡ self.now.credit.steps }
    {
        self.credits.steps()
    }

    /// Returns an empty list for the signals that a step hands up. The caller should give it back by `keep`. If none was
    /// given back, it is a new list without memory.
    pub fn lend(&mut self, alloc: Global) -> Onwards
        ensures nothing { IsNothing result }
        ensures same { self.new ≡ self.old }
    {
        self.credits.lend(alloc)
    }

    /// Keeps the memory of a list for the next step.
    pub fn keep(&mut self, onwards: Onwards)
        ensures { self.new ≡ self.old }
    {
        self.credits.keep(onwards);
    }

    /// Returns whether this peer had a step since its last tick under this pass, whatever the
    /// answer. Also returns true if that tick found no memory for a frame. A place past the 32nd has no peer.
    pub fn is_unticked(&self, peer: PeerId) -> bool
        ensures { result ≡ is_unticked self.now peer }
    {
        self.stepped.is_unticked(peer)
    }

    /// Returns whether this peer had a step or a tick under this pass since the last call for it.
    pub fn take_unasked(&mut self, peer: PeerId) -> bool
        ensures same { self.new ≡ self.old }
    {
        self.stepped.take_unasked(peer)
    }

    /// Notes that a step was answered without asking a locked state.
    #[tactic(auto, using(crate::proofs::Counted::steps_in_longer, crate::proofs::Stepping::with_longer))]
    pub fn note_unasked(&mut self)
        ensures { self.new ≡ note mades.Unasked self.old }
    {
        push(&mut self.made, Made::Unasked);
    }

    /// Gives up the shares of octets and of steps. The share of steps is the number with which the pass began, and 1 for
    /// each step of a peer in its notes.
    pub fn part(self) -> (Share<J::Octets>, Share<J::Steps>)
        ensures octets { result.0 ≡ self.credit.octets }
        ensures steps { result.1 ≡ self.credit.steps }
        ensures noted { self.credit.steps ≡ self.begun + steps_in self.made }
    {
        let Pass {
            credits,
            made: _,
            stepped: _,
        } = self;
        credits.part()
    }
}
