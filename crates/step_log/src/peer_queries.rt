//! The calls of a peer that are no steps, each noted under its pass: queries, and whether it drains.
ghost use Rattle.std.specs.Prelude.{◌≡◌, ◌≤◌, IfSome, count_by, is_some, option_map};
ghost use Rattle.peer_lock.specs.Accounts.{shown};
ghost use Rattle.peer_lock.specs.Descriptions.{description_from, description_of};
ghost use Rattle.peer_lock.specs.Legs.{leg_at};
ghost use Rattle.peer_lock.specs.Statuses.{WasLookedAt};
ghost use Rattle.step_log.specs.Notes.{note};
ghost use Rattle.step_log.specs.declared.made.Made.TheVariants as mades;

use crate::made::{Made, push};
use crate::noted_peer::NotedPeer;
use crate::pass::Pass;
use crate::seen::Seen;
use peer_lock::{Description, LedgerSet, Losses, Pokes, Status, Sums};

// Returns a described leg, if there is one, as it is noted.
fn seen_description(leg: &Option<Description>) -> Option<Seen<Description>>
    ensures { result ≡ leg.now }
{
    match leg {
        Some(leg) => Some(Seen::of(leg)),
        None => None,
    }
}

impl<J: LedgerSet> NotedPeer<J> {
    /// Sets whether the peer drains: while it does, no NEW opens a leg. It is noted, and is no step of the peer.
    #[tactic(auto, using(crate::proofs::Counted::steps_in_longer, crate::proofs::Stepping::with_longer))]
    pub fn set_draining(&mut self, pass: &mut Pass<J>, drains: bool)
        ensures noted { pass.new ≡ note (mades.SetDraining self.old.number drains) pass.old }
        ensures number { self.new.number ≡ self.old.number }
        ensures state { self.new.state ≡ record self.old.state { drains = drains } }
    {
        self.state.set_draining(drains);
        push(&mut pass.made, Made::SetDraining(self.number, drains));
    }

    /// Returns the status of the leg of a local number, or `None` if there is none. It is noted, and is no step of the
    /// peer.
    #[tactic(auto, using(crate::proofs::Counted::steps_in_longer, crate::proofs::Stepping::with_longer))]
    pub fn look(&self, pass: &mut Pass<J>, number: u16) -> Option<Status>
        ensures noted { pass.new ≡ note (mades.Look self.now.number number result) pass.old }
        ensures state { WasLookedAt number result self.now.state }
    {
        let answer = self.state.look(number);
        push(&mut pass.made, Made::Look(self.number, number, answer));
        answer
    }

    /// Returns the leg of a local number, with the values of its call, or `None` if there is none. It is noted, and is no
    /// step of the peer.
    #[tactic(auto, using(crate::proofs::Counted::steps_in_longer, crate::proofs::Stepping::with_longer))]
    pub fn describe(&self, pass: &mut Pass<J>, number: u16) -> Option<Description>
        ensures noted { pass.new ≡ note (mades.Describe self.now.number number result) pass.old }
        ensures leg { result ≡ option_map description_of (leg_at self.now.state.legs number) }
    {
        let answer = self.state.describe(number);
        let seen = seen_description(&answer);
        push(&mut pass.made, Made::Describe(self.number, number, seen));
        answer
    }

    /// Returns the leg with the least local number that is at least this one, with the values of its call, or `None` if no
    /// leg has such a number. The name in its status has its number. It is noted, and is no step of the peer.
    #[tactic(auto, using(crate::proofs::Counted::steps_in_longer, crate::proofs::Stepping::with_longer))]
    pub fn describe_from(&self, pass: &mut Pass<J>, number: u16) -> Option<Description>
        ensures noted { pass.new ≡ note (mades.DescribeFrom self.now.number number result) pass.old }
        ensures leg { result ≡ description_from self.now.state.legs number }
        ensures from { IfSome result (λ leg. number ≤ leg.status.name.number) }
    {
        let answer = self.state.describe_from(number);
        let seen = seen_description(&answer);
        push(
            &mut pass.made,
            Made::DescribeFrom(self.number, number, seen),
        );
        answer
    }

    /// Returns the number of the peer's legs, 0 ..= 512. It is noted, and is no step of the peer.
    #[tactic(auto, using(crate::proofs::Counted::steps_in_longer, crate::proofs::Stepping::with_longer))]
    pub fn leg_count(&self, pass: &mut Pass<J>) -> usize
        ensures noted { pass.new ≡ note (mades.CountLegs self.now.number result) pass.old }
        ensures count { result ≡ count_by is_some self.now.state.legs.places }
        ensures most { result ≤ 512 }
    {
        let count = self.state.leg_count();
        push(&mut pass.made, Made::CountLegs(self.number, count));
        count
    }

    /// Returns the sums of the accounts. It is noted, and is no step of the peer.
    #[tactic(auto, using(crate::proofs::Counted::steps_in_longer, crate::proofs::Stepping::with_longer))]
    pub fn sums(&self, pass: &mut Pass<J>) -> Sums
        ensures noted { pass.new ≡ note (mades.ShowSums self.now.number result) pass.old }
        ensures sums { result ≡ shown self.now.state.accounts }
        ensures part { result.quelched ≤ result.dropped }
    {
        let sums = self.state.sums();
        push(&mut pass.made, Made::ShowSums(self.number, sums));
        sums
    }

    /// Returns the number of datagrams that a full outbox lost. It is noted, and is no step of the peer.
    #[tactic(auto, using(crate::proofs::Counted::steps_in_longer, crate::proofs::Stepping::with_longer))]
    pub fn lost(&self, pass: &mut Pass<J>) -> Losses
        ensures noted { pass.new ≡ note (mades.ShowLost self.now.number result) pass.old }
        ensures lost { result ≡ self.now.state.outbox.lost }
    {
        let lost = self.state.lost();
        push(&mut pass.made, Made::ShowLost(self.number, lost));
        lost
    }

    /// Returns the state of the exchange's POKEs to the peer. It is noted, and is no step of the peer.
    #[tactic(auto, using(crate::proofs::Counted::steps_in_longer, crate::proofs::Stepping::with_longer))]
    pub fn pokes(&self, pass: &mut Pass<J>) -> Pokes
        ensures noted { pass.new ≡ note (mades.ShowPokes self.now.number result) pass.old }
        ensures pokes { result ≡ self.now.state.pokes }
    {
        let pokes = self.state.pokes();
        push(&mut pass.made, Made::ShowPokes(self.number, pokes));
        pokes
    }
}
