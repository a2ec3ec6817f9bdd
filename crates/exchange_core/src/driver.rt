//! The steps of a call, as its table names them, from the first until nothing is left to be done.
ghost use Rattle.std.specs.Option.{ForSome};
ghost use Rattle.std.specs.Prelude.{◌≡◌, ◌+◌, ◌<◌, ◌≤◌, [], Some, length, map, IsSome, MatchOption};
ghost use Rattle.call_control.specs.Beginnings.{OfCall, OfDatagram, beginning_at};
ghost use Rattle.call_control.specs.MediaLeft.{media_left};
ghost use Rattle.exchange_core.specs.Denial.{Denies, denied_since};
ghost use Rattle.exchange_core.specs.FirstSteps.{CallIsMade, StartsInPlan};
ghost use Rattle.exchange_core.specs.Leaving.{Leave, departure_of};
ghost use Rattle.exchange_core.specs.Names.{named_since};
ghost use Rattle.exchange_core.specs.Numbers.{IsCalled};
ghost use Rattle.exchange_core.specs.Rejections.{rejected_since};
ghost use Rattle.exchange_core.specs.Traces.{MakesAll, call_of};

use crate::denial::Denial;
use crate::exchange::Exchange;
use crate::gate::Gate;
use crate::rejections::latest;
use crate::resources::{Given, Outcome, TaskResources};
use crate::retired_legs::RetiredLegs;
use call_control::Work;
use call_control::laws::{leases_are_as_named, media_is_carried_once, refused_calls_end};
use peer_lock::LedgerSet;
use std::sync::Wait;
use step_log::Pass;

impl<G: Gate, J: LedgerSet> Exchange<G, J> {
    // Makes the steps of a call that begins here: each that its table names, and gives the answers to the table. Notes the
    // refusal if an answer to a first step is one. Either a step of a peer was made, or the call is refused and none was.
    pub(crate) fn carry_out<R: Wait>(
        &self,
        rt: &R,
        pass: &mut Pass<J>,
        work: &mut Work,
        given: &Given<'_, '_, '_>,
    ) -> Outcome
        requires peer { StartsInPlan (length self.now.peers) work.old.work.place }
        requires nothing { media_left work.old.work ≡ [] }
        requires challenge { beginning_at work.old.work.place ≡ Some OfDatagram → IsSome given.now.challenge }
        requires outside { beginning_at work.old.work.place ≡ Some OfCall → IsSome given.now.called }
        requires called { ForSome given.now.called (λ text. IsCalled text.now) }
        // Exactly the steps that its table named are noted under the pass, each with the answer that the table got.
        ensures all { MakesAll (call_of self.now given.entry.now) work.old pass.old pass.new }
        ensures steps { pass.new.credit.steps ≡ pass.old.credit.steps + result.steps }
        ensures denied { MatchOption result.denial (1 ≤ result.steps) (λ why.
            (pass.new.credit ≡ pass.old.credit) × Denies (beginning_at work.old.work.place) why) }
        // The denial is the one that these steps gave.
        ensures reason { result.denial ≡ denied_since pass.old pass.new }
        // The rejection in these steps.
        ensures rejected { (result.rejected ≡ rejected_since pass.old pass.new) × (IsSome result.rejected → 1 ≤ result.steps) }
        // The legs that were taken out in these steps.
        ensures retired { Leave given.entry.now.now pass.old pass.new (map departure_of result.retired.items) }
        // The last name that the book gave in these steps.
        ensures named { result.named ≡ named_since pass.old pass.new }
        ensures call { CallIsMade work.old.work.place pass.old.credit pass.new.credit result.denial result.named }
    {
        media_is_carried_once();
        leases_are_as_named();
        refused_calls_end();
        let first = pass.steps();
        let mut rejected = None;
        let mut resources = TaskResources {
            lease: None,
            named: None,
            retired_legs: RetiredLegs::none(self.alloc),
            denial: None,
        };
        for _ in rt.forever() {
            let Some(need) = work.next() else {
                return Outcome {
                    steps: pass.steps() - first,
                    denial: resources.denial,
                    rejected,
                    named: resources.named,
                    retired: resources.retired_legs.into_legs(),
                };
            };
            let reply = self.make(rt, pass, work, need, given, &mut resources);
            if work.is_beginning() {
                resources.denial = Denial::of(&reply);
            }
            rejected = latest(&reply, rejected);
            work.told(reply);
        }
        unreachable!();
    }
}
