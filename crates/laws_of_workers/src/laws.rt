//! Laws of draining services, and of the datagrams that a turn takes.
ghost use Rattle.std.specs.Prelude.{◌≡◌, ◌++◌, ◌+◌, ◌≤◌, ◌⊎◌, ℕ, List, [], Option, Some, false, length, slice_get, true};
ghost use Rattle.std.specs.List.{AllByRecursion};
ghost use Rattle.call_book.specs.declared.leg_name.LegName.{LegName};
ghost use Rattle.call_control.specs.Work.{of_call, of_datagram, of_hang_up, of_tick};
ghost use Rattle.call_control.specs.WorkState.{WorkState, begun};
ghost use Rattle.exchange_core.specs.Newcomers.{SpellsOpening};
ghost use Rattle.exchange_core.specs.Traces.{Call, IsHeard, IsTrace};
ghost use Rattle.laws_of_peers.specs.Followed.{Follow, loads_at};
ghost use Rattle.step_log.specs.Notes.{Noted};
ghost use Rattle.laws_of_peers.specs.Trails.{media_at};
ghost use Rattle.step_log.specs.declared.made.Made.{Made};
ghost use Rattle.laws_of_peers.specs.Loads.{dropped_for_room};
ghost use Rattle.peer_lock.specs.Peer.{PeerView, to_send};
ghost use Rattle.peer_lock.specs.Trunks.{waits};
ghost use Rattle.peer_plan.specs.Plan.{PlanView};
ghost use Rattle.peer_plan.specs.declared.endpoint.Endpoint.{Endpoint};
ghost use Rattle.udp_wires.specs.Parcels.{Parcel};
ghost use Rattle.laws_of_workers.specs.Carried.{AllCarry, Carries, IsItsCall, IsNoMedia};
ghost use Rattle.laws_of_workers.specs.CarriedAcross.{AllOrder, AreSpans, CarriesAcross, arrivals_of};
ghost use Rattle.udp_workers.specs.Draining.{SpellsNew};
ghost use Rattle.laws_of_workers.specs.Followed.{FollowNotes};
ghost use Rattle.udp_workers.specs.Intake.{DatagramWeight, IsWeightOf, MakesAllTurns, Passed, TakesAll, TakesIn, TurnView, Weigh};
ghost use Rattle.udp_workers.specs.declared.intake.Intake.{Intake};
ghost use Rattle.udp_workers.specs.declared.intake.Intake.TheVariants.{Bounded};

/// A datagram that opens a leg at an exchange is a NEW by the judgement of a worker. So no datagram opens a leg while a
/// service drains ("Call Setup"). A law about definitions, for provers; the call does nothing.
pub fn what_opens_is_turned_away()
    ensures { (octets : List ℕ) → SpellsOpening octets → SpellsNew octets }
{}

/// The steps that follow a datagram put no more datagrams at any one peer than it weighs, if no one else makes steps there.
/// So the steps of all datagrams of a turn put no more there than these weigh together. A law about definitions; the call
/// does nothing.
pub fn arrivals_put_what_they_weigh()
    ensures one { (plan : PlanView) (from : Endpoint) (call : Call) (weight : DatagramWeight) (old new : Noted)
        (before after : List PeerView) (follows : FollowNotes old new before after) (place : ℕ) →
        IsHeard plan from call old new → IsWeightOf call.octets weight →
        (loads_at place follows.trail before after follows.follow).datagrams ≤ weight.entries }
    ensures all { (plan : PlanView) (turn : TurnView) (arrivals : List Parcel) (weight : DatagramWeight) (old new : Noted)
        (before after : List PeerView) (follows : FollowNotes old new before after) (place : ℕ) →
        TakesAll plan turn arrivals old new → Weigh arrivals weight →
        (loads_at place follows.trail before after follows.follow).datagrams ≤ weight.entries }
{
    laws_of_peers::peers::full_frames_bring_few_answers();
    laws_of_calls::calls::calls_put_few_datagrams();
    laws_of_calls::calls::datagrams_bring_few();
}

/// A bounded turn loses nothing in an outbox if that was empty when the turn began, and less than a trunk frame waited. No
/// one else may make steps at the peers. One datagram that comes alone may be heavier. In plan version 4, or without
/// trunks, a trunk queue drops only quelched media. A law about definitions; the call does nothing.
pub fn bounded_turns_lose_nothing()
    ensures empty { (plan : PlanView) (turn : TurnView) (was left : Option Parcel) (counted now_counted : ℕ) (old new : Noted)
        (came now_came : List Parcel)
        (takes : TakesIn Bounded plan turn was left counted now_counted old new came now_came)
        (before after : List PeerView) → FollowNotes old new before after →
        (place : ℕ) (first last : PeerView) → slice_get before place ≡ Some first → slice_get after place ≡ Some last →
        2 ≤ length takes.arrivals → to_send first ≤ 1 → last.outbox.lost ≡ first.outbox.lost }
    // If something waits there, or one datagram came alone, both have to fit together.
    ensures room { (plan : PlanView) (turn : TurnView) (was left : Option Parcel) (counted now_counted : ℕ) (old new : Noted)
        (came now_came : List Parcel)
        (takes : TakesIn Bounded plan turn was left counted now_counted old new came now_came) (weight : DatagramWeight)
        (before after : List PeerView) → FollowNotes old new before after →
        (place : ℕ) (first last : PeerView) → slice_get before place ≡ Some first → slice_get after place ≡ Some last →
        Weigh takes.arrivals weight → to_send first + weight.entries ≤ 256 → last.outbox.lost ≡ first.outbox.lost }
    ensures queues { (old new : Noted) (before after : List PeerView) → FollowNotes old new before after →
        (place : ℕ) (first last : PeerView) → slice_get before place ≡ Some first → slice_get after place ≡ Some last →
        (waits first.rules ≡ true) ⊎ (first.rules.trunk ≡ false) →
        dropped_for_room last.accounts ≡ dropped_for_room first.accounts }
{
    arrivals_put_what_they_weigh();
    laws_of_peers::trails::trails_that_fit_lose_nothing();
}

/// Media crosses only its own call. Each order of media in a datagram's call passes on a span of that datagram, which a leg
/// handed up in the same call. In the step before it the book named the ordered leg as that leg's partner. Spans keep their
/// order, and each is passed on at most once. A law about definitions; the call does nothing.
pub fn media_follows_its_call()
    ensures call { (call : Call) (peer : ℕ) (steps : List Made) (to : WorkState) →
        IsTrace call (begun (of_datagram peer)) steps to → Carries peer call.octets [] [] steps }
    // The call begins at a peer that has the sender's endpoint; a stranger's datagram brings no steps.
    ensures datagram { (plan : PlanView) (from : Endpoint) (call : Call) (old new : Noted) →
        IsHeard plan from call old new → IsItsCall plan from call.octets old new }
    // Nothing else orders media: a tick, a call from outside, and a hang-up from outside don't.
    ensures ticks { (call : Call) (peer first count : ℕ) (steps : List Made) (to : WorkState) →
        IsTrace call (begun (of_tick peer first count)) steps to → AllByRecursion IsNoMedia steps }
    ensures calls { (call : Call) (peer : ℕ) (steps : List Made) (to : WorkState) →
        IsTrace call (begun (of_call peer)) steps to → AllByRecursion IsNoMedia steps }
    ensures hang_ups { (call : Call) (name : LegName) (steps : List Made) (to : WorkState) →
        IsTrace call (begun (of_hang_up name)) steps to → AllByRecursion IsNoMedia steps }
    // The steps that a turn's datagrams bring are those of their own calls, one call after another.
    ensures turn { (plan : PlanView) (turn : TurnView) (arrivals : List Parcel) (old new : Noted) →
        TakesAll plan turn arrivals old new → AllCarry plan turn.stage arrivals old new }
{}

/// Media crosses only its own call, from datagram to datagram. The media that the legs of a peer are ordered to send are spans
/// of the datagrams that a turn took, from endpoints of peers. The ordered leg is the partner of another leg, which handed the
/// span up. Pieces keep the order of the datagrams and of their octets, and no octet is in two of them. No other media is put
/// into the peer's trunk queue and outbox, which are first in, first out. The wire is given what is taken out there. All that
/// holds if no one else makes steps at the peers. A law about definitions; the call does nothing.
pub fn media_crosses_only_its_call()
    // The orders of the call of a datagram.
    ensures call { (call : Call) (peer : ℕ) (steps : List Made) (to : WorkState) →
        IsTrace call (begun (of_datagram peer)) steps to → (before after : List PeerView) → Follow steps before after →
        (place : ℕ) → AreSpans steps call.octets 0 (media_at place steps) }
    // Those of all datagrams that a turn took.
    ensures turn { (plan : PlanView) (turn : TurnView) (arrivals : List Parcel) (old new : Noted) (trail : List Made)
        (before after : List PeerView) → TakesAll plan turn arrivals old new → new.made ≡ old.made ++ trail →
        Follow trail before after → (place : ℕ) → AllOrder plan place arrivals old new (media_at place trail) }
    // From the datagrams of a run of turns to those that its wire was given.
    ensures run { (intake : Intake) (plan : PlanView) (peers : List ℕ) (turns : List TurnView) (left : Option Parcel)
        (received : ℕ) (old new : Noted) (came now : Passed)
        (run : MakesAllTurns intake plan peers turns left received old new came now)
        (before after : List PeerView) (follows : FollowNotes old new before after) →
        (place : ℕ) (first last : PeerView) → slice_get before place ≡ Some first → slice_get after place ≡ Some last →
        CarriesAcross plan place (arrivals_of intake plan peers turns left received old new came now run) old follows.trail
        first last came now }
{
    media_follows_its_call();
    peer_lock::laws::media_is_the_datagrams();
    laws_of_peers::peers::media_is_handed_up_once();
    laws_of_peers::trails::trails_keep_their_order();
}
