//! The faults found in a plan.
ghost use Rattle.std.specs.Prelude.{◌≡◌, ◌≤◌, ◌<◌, ◌+◌, ◌-◌, ◌^◌, IfSome, IsSome, IsNone, length};
ghost use Rattle.plan_faults.specs.Found.{found};

use crate::fault::{Fault, is_before};
use std::alloc::Global;

/// The greatest number of faults that are kept after the first.
pub(crate) const MOST_OTHERS: usize = 19;

/// Faults: the one that `Plan::read` meets first, and the first 19 of the others in the order of the text.
#[derive(Drop)]
pub(crate) struct Findings<'a> {
    alloc: Global,
    pub(crate) first: Option<Fault<'a>>,
    // The number of the others that come before it in the text.
    before_first: usize,
    others: Vec<Fault<'a>>,
    /// The number of faults found beyond these.
    pub(crate) more: u64,
}

impl<'a> Findings<'a> {
    pub(crate) fn new(alloc: Global) -> Findings<'a>
        ensures none { IsNone result.first }
        ensures found { found result ≡ 0 }
    {
        Findings {
            alloc,
            first: None,
            before_first: 0,
            others: Vec::new(alloc),
            more: 0,
        }
    }

    /// Returns the faults that are kept after the first, in the order of the text.
    pub(crate) fn others(&self) -> &[Fault<'a>]
        ensures most { length result.now ≤ 19 }
    {
        &self.others[..self.others.len().min(MOST_OTHERS)]
    }

    // Keeps a fault at a place among the others. Without room or memory for it one of them is only counted.
    fn keep(&mut self, place: usize, fault: Fault<'a>)
        ensures first { self.new.first ≡ self.old.first }
        ensures found { self.old.more < 2 ^ 64 - 2 → found self.new ≡ found self.old + 1 }
    {
        if self.others.len() >= MOST_OTHERS {
            self.more = self.more.saturating_add(1);
            if place >= self.others.len() {
                return;
            }
            self.others.pop();
        }
        let place = place.min(self.others.len());
        if self.others.insert(place, fault).is_err() {
            self.more = self.more.saturating_add(1);
        }
    }

    /// Adds a fault behind those before it in the text.
    pub(crate) fn push(&mut self, fault: Fault<'a>)
        ensures some { IsSome self.new.first }
        ensures least { IfSome self.new.first (λ first. first.rank ≤ fault.entry.rank) }
        ensures before { IfSome self.old.first (λ old. IfSome self.new.first (λ first. first.rank ≤ old.rank)) }
        ensures found { self.old.more < 2 ^ 64 - 2 → found self.new ≡ found self.old + 1 }
    {
        let Some(first) = self.first else {
            self.first = Some(fault);
            return;
        };
        if is_before(self.alloc, &fault, &first) {
            let place = self.before_first;
            self.keep(place, first);
            self.first = Some(fault);
            self.before_first = self.others.len();
        } else {
            let place = self.others.len();
            self.keep(place, fault);
        }
    }
}
