//! The calls of workers and callers.
ghost use Rattle.std.specs.Prelude.{◌≡◌, ◌≢◌, ◌+◌, ◌<◌, ◌≤◌, ◌↔◌, ◌⊎◌, Err, None, IfNone, IfOk, IfErr, IfSome, IsSome, Some};
ghost use Rattle.std.specs.Prelude.{All, OnOk, OnErr, IsTrue, length, map, option_map};
ghost use Rattle.call_control.specs.Beginnings.{OfCall, OfDatagram, OfHangUp, OfTick};
ghost use Rattle.call_control.specs.Work as work;
ghost use Rattle.call_control.specs.WorkState.{begun};
ghost use Rattle.exchange_core.specs.Denial.{Denies, denied_since};
ghost use Rattle.exchange_core.specs.Leaving.{Leave, departure_of};
ghost use Rattle.exchange_core.specs.Names.{named_since};
ghost use Rattle.exchange_core.specs.Numbers.{IsCalled};
ghost use Rattle.exchange_core.specs.Refusals.{from_call};
ghost use Rattle.exchange_core.specs.Rejections.{rejected_since};
ghost use Rattle.exchange_core.specs.Traces.{IsHeard, MakesAll, moment};
ghost use Rattle.peer_plan.specs.Plan.{counts_of, range_of};
ghost use Rattle.peer_lock.specs.Accounts.{with_step};

use crate::answers::{Answer, CallError, Refusal};
use crate::denial::Denial;
use crate::exchange::Exchange;
use crate::gate::Gate;
use crate::resources::Given;
use call_auth::Challenge;
use call_book::{LegName, PeerId};
use call_control::Work;
use peer_lock::{LedgerSet, OrderError, ReadDatagram};
use peer_plan::Endpoint;
use std::sync::Wait;
use step_log::Pass;

// Returns whether the text is a number that may be called.
fn is_called(text: &[u8]) -> bool
    ensures { IsTrue result ↔ IsCalled text.now }
{
    if text.is_empty() {
        return false;
    }
    if text.len() > 64 {
        return false;
    }
    text.iter().all(|octet| octet.is_ascii_graphic())
}

// Returns the refusal of a datagram or a tick, if it was refused.
fn refused_by(denial: Option<Denial>) -> Option<Refusal>
    requires { IfSome denial (λ why. Denies (Some OfDatagram) why ⊎ Denies (Some OfTick) why) }
    ensures none { IfNone result (denial ≡ None) }
    ensures some { IsSome result → IsSome denial }
    ensures reason { option_map Denial.Call result ≡ denial }
{
    match denial {
        Some(denial) => denial.of_peer(),
        None => None,
    }
}

// Returns whether a call was placed.
fn went_out(denial: Option<Denial>) -> Result<(), CallError>
    requires { IfSome denial (Denies (Some OfCall)) }
    ensures went { OnOk result (denial ≡ None) }
    ensures denied { IfErr result (λ error. IsSome denial × (error ≢ CallError.BadNumber)) }
    ensures reason { IfErr result (λ error. denial ≡ option_map Denial.Call (from_call error)) }
{
    match denial {
        Some(denial) => match denial.of_call() {
            Some(error) => Err(error),
            None => Ok(()),
        },
        None => Ok(()),
    }
}

// Returns whether a leg was hung up.
fn hung_up(denial: Option<Denial>) -> Result<(), OrderError>
    requires { IfSome denial (Denies (Some OfHangUp)) }
    ensures hung_up { OnOk result (denial ≡ None) }
    ensures denied { OnErr result (IsSome denial) }
    ensures reason { IfErr result (λ error. denial ≡ Some (Denial.Order error)) }
{
    match denial {
        Some(denial) => match denial.of_hang_up() {
            Some(error) => Err(error),
            None => Ok(()),
        },
        None => Ok(()),
    }
}

impl<G: Gate, J: LedgerSet> Exchange<G, J> {
    /// Handles a datagram from an endpoint at the moment `now`, in milliseconds: the step of its peer, then the steps that
    /// follow from it. The challenge is for a NEW whose peer has a secret.
    ///
    /// If it is refused, for one of the causes of `Refusal`, no step was made.
    pub fn datagram<R: Wait>(
        &self,
        rt: &R,
        pass: &mut Pass<J>,
        from: Endpoint,
        octets: &[u8],
        now: u64,
        challenge: &Challenge,
    ) -> Answer
        // Exactly the steps that the table of the call named were made under the pass, in its order, and it ended.
        ensures all { IsHeard self.now from (record (moment self.now now) {
          octets = octets.now;
          challenge = Some challenge.now;
        }) pass.old pass.new }
        // The rejection in these steps, if there is one. It is a step, and no refusal.
        ensures rejected { result.rejected ≡ rejected_since pass.old pass.new }
        ensures counted { IsSome result.rejected → 1 ≤ result.steps }
        // The legs that were taken out in these steps, and no others, with their records.
        ensures retired { Leave now pass.old pass.new (map departure_of result.retired.items) }
        ensures steps { pass.new.credit.steps ≡ pass.old.credit.steps + result.steps }
        ensures some { IfNone result.refused (1 ≤ result.steps) }
        ensures refused { IsSome result.refused → (result.steps ≡ 0) × (pass.new.credit ≡ pass.old.credit) }
        // The sender is a stranger if and only if no peer has the endpoint; then nothing is noted.
        ensures stranger { (result.refused ≡ Some Refusal.Stranger) ↔ All (λ peer. peer.endpoint ≢ from) self.now.peers }
        ensures untouched { result.refused ≡ Some Refusal.Stranger → pass.new ≡ pass.old }
        // Any other refusal is the one that these steps gave.
        ensures reason { result.refused ≢ Some Refusal.Stranger →
            option_map Denial.Call result.refused ≡ denied_since pass.old pass.new }
    {
        let Some(peer) = self.plan.peer_at(from) else {
            return Answer {
                steps: 0,
                refused: Some(Refusal::Stranger),
                rejected: None,
                retired: Vec::new(self.alloc),
            };
        };
        self.datagram_of(rt, pass, peer, octets, now, challenge)
    }

    /// Handles a datagram of a peer of the plan at the moment `now`, in milliseconds, as `datagram` does for an endpoint of
    /// this peer: the peer's step, then the steps that follow from it. It doesn't search for the peer.
    ///
    /// If it is refused, for one of the causes of `Refusal` except `Stranger`, no step was made.
    pub fn datagram_of<R: Wait>(
        &self,
        rt: &R,
        pass: &mut Pass<J>,
        peer: PeerId,
        octets: &[u8],
        now: u64,
        challenge: &Challenge,
    ) -> Answer
        requires { peer < length self.now.peers }
        // Exactly the steps that the table of the call named were made under the pass, in its order, and it ended.
        ensures all { MakesAll (record (moment self.now now) {
          octets = octets.now;
          challenge = Some challenge.now;
        }) (begun (work.of_datagram peer)) pass.old pass.new }
        // The rejection in these steps, if there is one. It is a step, and no refusal.
        ensures rejected { result.rejected ≡ rejected_since pass.old pass.new }
        ensures counted { IsSome result.rejected → 1 ≤ result.steps }
        // The legs that were taken out in these steps, and no others, with their records.
        ensures retired { Leave now pass.old pass.new (map departure_of result.retired.items) }
        ensures steps { pass.new.credit.steps ≡ pass.old.credit.steps + result.steps }
        ensures some { IfNone result.refused (1 ≤ result.steps) }
        ensures refused { IsSome result.refused → (result.steps ≡ 0) × (pass.new.credit ≡ pass.old.credit) }
        // The refusal is the one that these steps gave.
        ensures known { result.refused ≢ Some Refusal.Stranger }
        ensures reason { option_map Denial.Call result.refused ≡ denied_since pass.old pass.new }
    {
        let given = Given {
            datagram: ReadDatagram::of(octets),
            challenge: Some(challenge),
            called: None,
            now,
        };
        let mut work = Work::of_datagram(peer);
        let outcome = self.carry_out(rt, pass, &mut work, &given);
        if let Some(onwards) = work.into_onwards() {
            pass.keep(onwards);
        }
        Answer {
            steps: outcome.steps,
            refused: refused_by(outcome.denial),
            rejected: outcome.rejected,
            retired: outcome.retired,
        }
    }

    /// Ticks a peer of the plan at the moment `now`, in milliseconds. It makes the peer's step, and then finishes each of
    /// its legs that has ended, by ascending number.
    ///
    /// If it is refused, no step was made.
    pub fn tick<R: Wait>(&self, rt: &R, pass: &mut Pass<J>, peer: PeerId, now: u64) -> Answer
        requires { peer < length self.now.peers }
        // It checks all numbers of the peer.
        ensures all { MakesAll (moment self.now now)
            (begun (work.of_tick peer (range_of (counts_of self.now.peers) peer).first
            (range_of (counts_of self.now.peers) peer).count)) pass.old pass.new }
        ensures retired { Leave now pass.old pass.new (map departure_of result.retired.items) }
        ensures rejected { result.rejected ≡ rejected_since pass.old pass.new }
        ensures steps { pass.new.credit.steps ≡ pass.old.credit.steps + result.steps }
        ensures some { IfNone result.refused (1 ≤ result.steps) }
        ensures refused { IsSome result.refused → (result.steps ≡ 0) × (pass.new.credit ≡ pass.old.credit) }
        // The refusal is the one that these steps gave.
        ensures reason { option_map Denial.Call result.refused ≡ denied_since pass.old pass.new }
    {
        let range = self.plan.range(peer);
        let mut work = Work::of_tick(peer, range.first, range.count);
        let outcome = self.carry_out(rt, pass, &mut work, &Given::moment(now));
        Answer {
            steps: outcome.steps,
            refused: refused_by(outcome.denial),
            rejected: outcome.rejected,
            retired: outcome.retired,
        }
    }

    /// Places a call to a peer of the plan at the moment `now`, in milliseconds: one step. The number is 1 to 64 octets
    /// 0x21 ..= 0x7e. The format is the lowest of the peer's.
    ///
    /// Refusals are checked in this order: `BadNumber`, `SerialsSpent`, `NoNumber`, `StepsSpent`, `NumberBusy`, `Memory`;
    /// then no step was made.
    pub fn call<R: Wait>(
        &self,
        rt: &R,
        pass: &mut Pass<J>,
        peer: PeerId,
        called: &[u8],
        now: u64,
    ) -> Result<LegName, CallError>
        requires { peer < length self.now.peers }
        ensures all { result ≢ Err CallError.BadNumber →
            MakesAll (record (moment self.now now) { called = Some called.now }) (begun (work.of_call peer)) pass.old pass.new }
        ensures unmade { result ≡ Err CallError.BadNumber → pass.new ≡ pass.old }
        ensures called { OnOk result (IsCalled called.now) }
        ensures bad { (IsCalled called.now → ⊥) → result ≡ Err CallError.BadNumber }
        ensures good { IsCalled called.now → result ≢ Err CallError.BadNumber }
        // The name is the one that the book gave in these steps.
        ensures name { IfOk result (λ name. (name.peer ≡ peer) × (named_since pass.old pass.new ≡ Some name)) }
        ensures steps { OnOk result (pass.new.credit ≡ with_step pass.old.credit 0) }
        ensures refused { OnErr result (pass.new.credit ≡ pass.old.credit) }
        // It is refused if these steps gave a refusal, and for that reason.
        ensures placed { OnOk result (denied_since pass.old pass.new ≡ None) }
        ensures reason { IfErr result (λ error. denied_since pass.old pass.new ≡ option_map Denial.Call (from_call error)) }
    {
        if !is_called(called) {
            return Err(CallError::BadNumber);
        }
        let mut work = Work::of_call(peer);
        let outcome = self.carry_out(rt, pass, &mut work, &Given::number(called, now));
        match went_out(outcome.denial) {
            Ok(()) => Ok(outcome.named.unwrap()),
            Err(error) => Err(error),
        }
    }

    /// Hangs up the leg of a name, whose peer is of the plan, at the moment `now`, in milliseconds, and finishes it.
    ///
    /// Refusals are checked in this order: `StepsSpent`, `Gone` if no leg has the name, `WrongStage`, `WindowFull`,
    /// `RecordFull`, `Memory`; then no step was made.
    pub fn hang_up<R: Wait>(
        &self,
        rt: &R,
        pass: &mut Pass<J>,
        name: LegName,
        now: u64,
    ) -> Result<Answer, OrderError>
        requires { name.peer < length self.now.peers }
        ensures all { MakesAll (moment self.now now) (begun (work.of_hang_up name)) pass.old pass.new }
        ensures retired { IfOk result (λ answer. Leave now pass.old pass.new (map departure_of answer.retired.items)) }
        ensures rejected { IfOk result (λ answer. answer.rejected ≡ rejected_since pass.old pass.new) }
        ensures steps { IfOk result (λ answer. pass.new.credit.steps ≡ pass.old.credit.steps + answer.steps) }
        ensures some { IfOk result (λ answer. (1 ≤ answer.steps) × (answer.refused ≡ None)) }
        ensures refused { OnErr result (pass.new.credit ≡ pass.old.credit) }
        // It is refused if its first step is, and for that reason.
        ensures obeyed { OnOk result (denied_since pass.old pass.new ≡ None) }
        ensures reason { IfErr result (λ error. denied_since pass.old pass.new ≡ Some (Denial.Order error)) }
    {
        let mut work = Work::of_hang_up(name);
        let outcome = self.carry_out(rt, pass, &mut work, &Given::moment(now));
        match hung_up(outcome.denial) {
            Ok(()) => Ok(Answer {
                steps: outcome.steps,
                refused: None,
                rejected: outcome.rejected,
                retired: outcome.retired,
            }),
            Err(error) => Err(error),
        }
    }
}
