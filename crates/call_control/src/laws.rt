//! Laws of many calls at once, in any order of their steps.
ghost use Rattle.std.specs.Prelude.{◌≡◌, ◌≤◌, ◌+◌, ℕ, true, false, None, Some};
ghost use Rattle.std.specs.List.{AllByRecursion};
ghost use Rattle.call_book.specs.declared.leg_name.LegName.{LegName};
ghost use Rattle.peer_lock.specs.CarriedMedia.{LiesWithin, handed_octets};
ghost use Rattle.call_control.specs.Beginnings.{Beginning, beginning_at, is_over, is_answer, is_made, is_refusal};
ghost use Rattle.call_control.specs.Leases.{lease_in, lease_needed, lease_after};
ghost use Rattle.call_control.specs.MediaLeft.{media_left, media_needed, handed_by};
ghost use Rattle.call_control.specs.Work.{Work, next_of, after_told};
ghost use Rattle.call_control.specs.declared.need.Need.TheVariants as needs;
ghost use Rattle.call_control.specs.declared.reply.Reply.{Reply};
ghost use Rattle.call_control.specs.declared.reply.Reply.TheVariants as replies;
ghost use Rattle.call_control.specs.Law.{InEveryRun, InEveryRunWithinSteps, OnlyWhatIsSeenCounts, NamesAreHeldOnce};
ghost use Rattle.call_control.specs.Law.{NumbersServeOne, NoneIsBusy, NoneIsOutside, NoneIsStale, AllAreLookedAfter};
ghost use Rattle.call_control.specs.Law.{NoneMeetsOffered, NamesAreTheLegs, AllHavePartners};

/// Holds for many calls at once, in any order of their steps, and whichever are refused.
pub fn calls_at_once()
    // The names in the book are those of the legs and of the callers' leases, each once.
    ensures names { InEveryRun NamesAreHeldOnce }
    // No number serves two legs.
    ensures numbers { InEveryRun NumbersServeOne }
    // A caller that opens a leg holds the lease of its name, and no leg has its number.
    ensures busy { InEveryRun NoneIsBusy }
    // .. nor does it open one under a number that isn't of its peer.
    ensures outside { InEveryRun NoneIsOutside }
    // A caller that releases a lease holds it, and the book knows its name.
    ensures stale { InEveryRun NoneIsStale }
    // Take the legs that are neither challenged, closed nor doomed, and weren't opened by a call from outside. As long as
    // no peer's steps are spent, each of them has a partner or is named in the remaining work of a caller.
    ensures looked_after { InEveryRunWithinSteps AllAreLookedAfter }
    // No order of a continuing call (Indicate, Answer, Dtmf, Media) meets a leg that is only offered.
    ensures offered { InEveryRun NoneMeetsOffered }
    // Once all callers are idle, the names in the book are those of the legs, each once ..
    ensures idle_names { InEveryRun NamesAreTheLegs }
    // .. and each such leg has a partner.
    ensures idle_partners { InEveryRunWithinSteps AllHavePartners }
    // The part of the answers that the model leaves out doesn't affect the steps of a call.
    ensures seen { OnlyWhatIsSeenCounts }
{}

/// The media that a call still has to carry, through its steps. If all media handed up is within the datagram, so is all
/// that is left and each piece that is ordered. An order takes its octets away from those left, and no answer adds more
/// than it hands up.
pub fn media_is_carried_once()
    // If all media handed up is within the datagram, all that is left is.
    ensures within { (len : ℕ) (work : Work) (reply : Reply) → AllByRecursion (LiesWithin len) (media_left work) →
        AllByRecursion (LiesWithin len) (handed_by reply) → AllByRecursion (LiesWithin len) (media_left (after_told work reply)) }
    // An answer leaves no more than was left and it hands up, less what was ordered.
    ensures octets { (work : Work) (reply : Reply) →
        handed_octets (media_left (after_told work reply)) + handed_octets (media_needed (next_of work)) ≤
        handed_octets (media_left work) + handed_octets (handed_by reply) }
    // The next media ordered is a part of what is left.
    ensures needed { (len : ℕ) (work : Work) → AllByRecursion (LiesWithin len) (media_left work) →
        AllByRecursion (LiesWithin len) (media_needed (next_of work)) }
    ensures covered { (work : Work) → handed_octets (media_needed (next_of work)) ≤ handed_octets (media_left work) }
{}

/// The lease that a call holds is the one that its steps name. Each step that takes a lease names the one that the call
/// holds. After each answer the call has the lease that the step left.
#[tactic(auto, using(crate::proofs::Onward::onward_hand))]
pub fn leases_are_as_named()
    ensures needed { (work : Work) (name : LegName) → lease_needed (next_of work) ≡ Some name → lease_in work ≡ Some name }
    ensures after { (work : Work) (reply : Reply) →
        lease_in (after_told work reply) ≡ lease_after (next_of work) reply (lease_in work) }
{}

/// The beginning of a call. Until a step of a peer is made, or any step is refused, it is at one of the first places of its
/// kind. A refusal there ends it: it makes no further step of a peer, and at most returns a lease.
#[tactic(auto, using(crate::proofs::Onward::onward_past))]
pub fn refused_calls_end()
    // A step of a peer that is made leads past the beginning, and nothing leads back.
    ensures made { (work : Work) (reply : Reply) → is_answer (next_of work) reply ≡ true → is_made reply ≡ true →
        beginning_at (after_told work reply).place ≡ None }
    ensures goes_on { (work : Work) (reply : Reply) (begun : Beginning) → is_answer (next_of work) reply ≡ true →
        beginning_at work.place ≡ Some begun →
        is_made reply ≡ false → is_refusal work.place reply ≡ false → beginning_at (after_told work reply).place ≡ Some begun }
    ensures past { (work : Work) (reply : Reply) → beginning_at work.place ≡ None →
        beginning_at (after_told work reply).place ≡ None }
    ensures refused { (work : Work) (reply : Reply) (begun : Beginning) → is_answer (next_of work) reply ≡ true →
        beginning_at work.place ≡ Some begun →
        is_refusal work.place reply ≡ true → is_over (after_told work reply).place ≡ true }
    // Nothing follows.
    ensures over { (work : Work) (reply : Reply) → is_over work.place ≡ true → is_over (after_told work reply).place ≡ true }
    ensures nothing { (work : Work) (reply : Reply) → is_over work.place ≡ true → is_answer (next_of work) reply ≡ true →
        is_made reply ≡ false }
{}
