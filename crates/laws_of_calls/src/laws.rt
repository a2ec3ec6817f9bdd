//! Laws of the stored peers and the stored book, for many calls in any order of their steps.
ghost use Rattle.std.specs.Prelude.{◌≡◌, ◌++◌, ℕ, false, List, Some, option_map, slice_get};
ghost use Rattle.std.specs.List.{AllByRecursion};
ghost use Rattle.call_book.specs.Book.{after_bridge, after_release, after_reserve, bridge_answer, has_name, partner_of};
ghost use Rattle.call_book.specs.Book.{release_answer, reserve_answer};
ghost use Rattle.call_book.specs.declared.leg_name.LegName.{LegName};
ghost use Rattle.call_control.specs.Law.{NumbersServeOne as ServesOne, IsWithinSteps, NoneIsBusy, NoneIsStale};
ghost use Rattle.call_control.specs.Law.{is_spent as is_spent_choice};
ghost use Rattle.call_control.specs.Law.{IsOpened as IsOpenedWorld};
ghost use Rattle.call_control.specs.Scene.{Choice};
ghost use Rattle.call_control.specs.World.{World, Event, Starts as EventStarts, Steps as EventSteps, happens, run};
ghost use Rattle.call_signals.specs.declared.order.Command.{Command};
ghost use Rattle.call_signals.specs.declared.signal.MediaSpan.{MediaSpan};
ghost use Rattle.call_control.specs.declared.need.Need.TheVariants as needs;
ghost use Rattle.call_control.specs.declared.reply.Reply.TheVariants as replies;
ghost use Rattle.peer_lock.specs.Legs.{leg_at};
ghost use Rattle.peer_lock.specs.Peer.{PeerView};
ghost use Rattle.peer_lock.specs.Statuses.{status_of};
ghost use Rattle.laws_of_calls.specs.PeerCalls.{ReceivesDatagram, ReceivesNewWithoutNumber, ReceivesNew, Calls, GoesOn};
ghost use Rattle.laws_of_calls.specs.PeerCalls.{Retires, IsStepAt};
ghost use Rattle.laws_of_calls.specs.PeerCalls.{with_book};
ghost use Rattle.laws_of_calls.specs.StoredSteps.{Makes, TakesOrder};
ghost use Rattle.laws_of_calls.specs.Runs.{Begins, Steps, TakesOut, SetsDraining, Changes, IsRun, last_of};
ghost use Rattle.laws_of_calls.specs.LookedAfter.{InEveryRunWithinSteps, AllAreLookedAfter, AllHavePartners};
ghost use Rattle.laws_of_calls.specs.Spent.{is_spent, called_at, called_in, AreWithinSteps};
ghost use Rattle.laws_of_calls.specs.Stored.{Stored, ArePeers, HaveRanges, IsMade, IsOpened, IsSeenIn, opened_world};
ghost use Rattle.laws_of_calls.specs.StoredNames.{InEveryRun, NamesAreHeldOnce, LegsAreBooked, NumbersServeOne, LeasesAreFree};
ghost use Rattle.laws_of_calls.specs.StoredNames.{LeasesAreInHand, OpeningsAreFree, NoneMeetsOffered, NamesAreTheLegs};

/// Each change of a stored exchange is an event of the world of `call_control::laws::calls_at_once`. If that world has the
/// stored book, callers and legs as they are seen, it still has them after the event.
pub fn stored_changes_are_the_worlds()
    ensures begins { (called : List LegName) (old new : Stored) (world : World) → IsSeenIn called old world →
        (begins : Begins old new) → IsSeenIn called new (happens (EventStarts begins.who begins.start) world) }
    // The requirements of the steps hold in every world of calls at once (`busy`, `stale` and `numbers` of
    // `calls_at_once`). The event is within the steps of peers if the answer is.
    ensures steps { (called : List LegName) (old new : Stored) (world : World) → ArePeers old.peers →
        NoneIsBusy world → NoneIsStale world → ServesOne world → IsSeenIn called old world → (step : Steps old new) →
        (choice : Choice) × (is_spent step.reply ≡ false → is_spent_choice choice ≡ false) ×
        IsSeenIn (called_at step.caller.work.place step.reply ++ called) new (happens (EventSteps step.who choice) world) }
    // The outbox isn't seen.
    ensures outboxes { (called : List LegName) (old new : Stored) (world : World) → IsSeenIn called old world →
        TakesOut old new → IsSeenIn called new world }
    // Nor is it whether a peer drains.
    ensures drains { (called : List LegName) (old new : Stored) (world : World) → IsSeenIn called old world →
        SetsDraining old new → IsSeenIn called new world }
    // Each peer stays the one of its place, and sound.
    ensures peers { (old new : Stored) → ArePeers old.peers → Changes old new → ArePeers new.peers }
    // It has the numbers that the book has for it.
    ensures ranges { (old new : Stored) → ArePeers old.peers → HaveRanges old → Changes old new → HaveRanges new }
{
    call_control::laws::calls_at_once();
    crate::calls::peers_steps_are_the_worlds();
}

/// A call of a peer or of the book (`peer_calls`, `book_calls`) is the step of the exchange that was needed.
pub fn locked_calls_are_steps()
    // The peer is sound after the call, by the invariant of its type (`PeerState::look`).
    ensures datagrams { (place : ℕ) → IsStepAt place (needs.Datagram place) ReceivesDatagram }
    ensures rejected_calls { (place : ℕ) → IsStepAt place (needs.RejectNew place) ReceivesNewWithoutNumber }
    ensures calls_in { (name : LegName) → IsStepAt name.peer (needs.OpenIn name) (ReceivesNew name) }
    ensures calls_out { (name : LegName) → IsStepAt name.peer (needs.OpenOut name) (Calls name) }
    ensures orders { (name : LegName) (command : Command MediaSpan) →
        IsStepAt name.peer (needs.Order name command) (TakesOrder name command) }
    ensures ticks { (place : ℕ) → IsStepAt place (needs.Tick place) GoesOn }
    ensures looks { (old : Stored) (place number : ℕ) (peer : PeerView) → slice_get old.peers place ≡ Some peer →
        Makes (needs.Look place number) old old (replies.Look (option_map status_of (leg_at peer.legs number))) }
    ensures retiring { (name : LegName) → IsStepAt name.peer (needs.Retire name) (Retires name) }
    ensures reserves { (old : Stored) (peer : ℕ) →
        Makes (needs.Reserve peer) old (with_book old (after_reserve old.book peer))
        (replies.Reserve (reserve_answer old.book peer)) }
    ensures bridges { (old : Stored) (a b : LegName) →
        Makes (needs.Bridge a b) old (with_book old (after_bridge old.book a b (bridge_answer old.book a b)))
        (replies.Bridge (bridge_answer old.book a b)) }
    ensures partners { (old : Stored) (name : LegName) →
        Makes (needs.Partner name) old old (replies.Partner (partner_of old.book name)) }
    ensures releases { (old : Stored) (name : LegName) →
        Makes (needs.Release name) old (with_book old (after_release old.book name (has_name old.book name)))
        (replies.Release (release_answer old.book name (has_name old.book name))) }
{}

/// Callers may act in any way on an exchange from its opening on. Then the stored book, callers and legs are those of a run
/// of the world of `call_control::laws::calls_at_once`. So each of its clauses holds for the stored exchange.
pub fn stored_runs_are_the_worlds()
    // The results of `CallBook::new`, and of `PeerState::new` for each place, are an exchange at its opening.
    ensures made { (counts : List ℕ) (serial : ℕ) (first : Stored) → IsMade counts serial first →
        IsOpened first × HaveRanges first }
    ensures opened { (first : Stored) → IsOpened first → IsOpenedWorld (opened_world first) }
    ensures seen { (first : Stored) (later : List Stored) → IsOpened first → (is : IsRun first later) →
        (events : List Event) × (AreWithinSteps first later is → AllByRecursion IsWithinSteps events) ×
        IsSeenIn (called_in first later is) (last_of first later) (run events (opened_world first)) }
    ensures peers { (first : Stored) (later : List Stored) → IsOpened first → IsRun first later →
        ArePeers (last_of first later).peers }
    ensures ranges { (first : Stored) (later : List Stored) → IsOpened first → HaveRanges first → IsRun first later →
        HaveRanges (last_of first later) }
{
    call_control::laws::calls_at_once();
    stored_changes_are_the_worlds();
}

/// The stored exchange under many calls at once, in any order of their steps, and whichever are refused.
pub fn stored_calls_at_once()
    // The names in the book are those of the stored legs and of the callers' leases, each once.
    ensures names { InEveryRun NamesAreHeldOnce }
    // Each stored leg is under its own number at its own peer, and the book has its name.
    ensures legs { InEveryRun LegsAreBooked }
    // No number serves legs of two peers.
    ensures numbers { InEveryRun NumbersServeOne }
    // For each lease of a caller the book has the name, and no stored leg has the number.
    ensures leases { InEveryRun LeasesAreFree }
    // A caller that opens a leg, or returns a lease, has the lease.
    ensures in_hand { InEveryRun LeasesAreInHand }
    // No opening finds its number busy, if the peers have the numbers that the book has for them.
    ensures free { (first : Stored) (later : List Stored) → IsOpened first → HaveRanges first → IsRun first later →
        OpeningsAreFree (last_of first later) }
    // No order of a continuing call (Indicate, Answer, Dtmf, Media) meets a stored leg that is only offered.
    ensures offered { InEveryRun NoneMeetsOffered }
    // Once all callers are idle, the names in the book are exactly those of the stored legs.
    ensures idle_names { InEveryRun NamesAreTheLegs }
    // Take the stored legs that are neither challenged, closing, ended nor doomed, and weren't opened by a call from
    // outside. As long as no peer's steps are spent, each of them has a partner or is named in the remaining work of a
    // caller ..
    ensures looked_after { InEveryRunWithinSteps AllAreLookedAfter }
    // .. and once all callers are idle, each of them has a partner.
    ensures idle_partners { InEveryRunWithinSteps AllHavePartners }
{
    call_control::laws::calls_at_once();
    stored_runs_are_the_worlds();
}
