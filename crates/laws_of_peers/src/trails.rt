//! Laws of every trail that peers follow.
ghost use Rattle.std.specs.Prelude.{◌≡◌, ◌+◌, ◌≤◌, ◌↔◌, ℕ, List, Option, None, Result, Some, Bool, false, if◌then◌else◌};
ghost use Rattle.std.specs.Prelude.{slice_get, IfOk, IsErr, OnErr, OnOk, count_by, is_some, option_map};
ghost use Rattle.call_book.specs.Book.{Book, after_reserve, bridge_answer, bridged, has_name, partner_of, released};
ghost use Rattle.call_book.specs.Book.{reserve_answer};
ghost use Rattle.call_book.specs.declared.errors.BridgeError.{BridgeError};
ghost use Rattle.call_book.specs.declared.errors.Stale.{Stale};
ghost use Rattle.call_book.specs.declared.leg_name.LegName.{LegName};
ghost use Rattle.call_signals.specs.Order.{kind_of, media_of, Order};
ghost use Rattle.call_signals.specs.declared.format.Format.{Format};
ghost use Rattle.iax_frames.specs.FullFrame.{FullFrame};
ghost use Rattle.leg_machine.specs.OrderTable.{IsShortMedia};
ghost use Rattle.laws_of_peers.specs.Followed.{AreSound, Follow, Leads, LeadsBook, loads_at};
ghost use Rattle.step_log.specs.Notes.{given_up, without_lease};
ghost use Rattle.laws_of_peers.specs.Trails.{CarriesTrail};
ghost use Rattle.step_log.specs.declared.made.Made.{Made};
ghost use Rattle.step_log.specs.declared.made.Made.TheVariants as mades;
ghost use Rattle.peer_lock.specs.Accounts.{Credit, shown};
ghost use Rattle.peer_lock.specs.Descriptions.{description_from, description_of};
ghost use Rattle.peer_lock.specs.HandedUp.{HandedUp};
ghost use Rattle.peer_lock.specs.Legs.{leg_at};
ghost use Rattle.laws_of_peers.specs.Loads.{Puts, QueueHasRoom, dropped_for_room};
ghost use Rattle.peer_lock.specs.Makes.{WasHandled};
ghost use Rattle.peer_lock.specs.Openings.{WasOpenedIn, WasOpenedOut, WasRejected};
ghost use Rattle.peer_lock.specs.Orders.{WasOrdered};
ghost use Rattle.peer_lock.specs.Peer.{PeerView, WasTakenInto, WasTakenOut, to_send};
ghost use Rattle.peer_lock.specs.Statuses.{WasLookedAt, WasRetired};
ghost use Rattle.peer_lock.specs.Ticks.{WasTicked};
ghost use Rattle.peer_lock.specs.declared.errors.OpenError.{OpenError};
ghost use Rattle.peer_lock.specs.declared.errors.OrderError.{OrderError};
ghost use Rattle.peer_lock.specs.declared.errors.PeerError.{PeerError};
ghost use Rattle.peer_lock.specs.declared.errors.RejectError.{RejectError};
ghost use Rattle.peer_lock.specs.declared.errors.StepsSpent.{StepsSpent};
ghost use Rattle.peer_lock.specs.declared.steps.EndedLeg.{EndedLeg};
ghost use Rattle.peer_lock.specs.declared.steps.Status.{Status};
ghost use Rattle.peer_lock.specs.declared.steps.Step.{Step};
ghost use Rattle.peer_lock.specs.declared.steps.TickReport.{TickReport};

/// A call of `NotedPeer` changes its peer as its note says, whether it makes a step, is refused, or asks, and a query has the
/// noted answer. So the laws of trails hold for what these calls promise.
pub fn calls_lead_as_noted()
    ensures datagram_read { (first_octets first_steps number now room : ℕ) (octets : List ℕ) (result : Result Step PeerError)
        (onwards : HandedUp) (old new : PeerView) (before after : Credit) →
        WasHandled first_octets first_steps octets now result old new before after room onwards →
        Leads (mades.Datagram number octets now result onwards) old new }
    ensures open_in { (first_steps number now : ℕ) (name : LegName) (frame : FullFrame) (challenge : List ℕ)
        (result : Result Step (LegName × OpenError)) (onwards : HandedUp) (old new : PeerView) (before after : Credit) →
        WasOpenedIn first_steps name frame now challenge result old new before after onwards →
        Leads (mades.OpenIn number name frame.head frame.payload now challenge (without_lease result) onwards) old new }
    ensures reject_new { (first_steps number : ℕ) (frame : FullFrame) (result : Result Step RejectError) (old new : PeerView)
        (before after : Credit) → WasRejected first_steps frame result old new before after →
        Leads (mades.RejectNew number frame.head frame.payload result) old new }
    ensures open_out { (first_steps number now : ℕ) (name : LegName) (called caller : List ℕ) (format : Format)
        (result : Result Step (LegName × OpenError)) (old new : PeerView) (before after : Credit) →
        WasOpenedOut first_steps name called caller format now result old new before after →
        Leads (mades.OpenOut number name called caller format now (without_lease result)) old new }
    ensures order { (first_steps number now : ℕ) (name : LegName) (order : Order) (result : Result Step OrderError)
        (old new : PeerView) (before after : Credit) → IsShortMedia order →
        WasOrdered first_steps name order now result old new before after →
        Leads (mades.Order number name (kind_of order) (media_of order) now result) old new }
    ensures tick { (first_steps number now : ℕ) (result : Result TickReport StepsSpent) (old new : PeerView)
        (before after : Credit) → WasTicked first_steps now result old new before after →
        Leads (mades.Tick number now result) old new }
    ensures retire { (number : ℕ) (name : LegName) (result : Option (LegName × EndedLeg)) (old new : PeerView) →
        WasRetired name result old new → Leads (mades.Retire number name (given_up result)) old new }
    ensures take_out { (number : ℕ) (result : Option (List ℕ)) (old new : PeerView) → WasTakenOut result old new →
        Leads (mades.TakeOut number result) old new }
    ensures take_into { (number : ℕ) (result : Bool) (out_old out_new : List ℕ) (old new : PeerView) →
        WasTakenInto result out_old out_new old new →
        Leads (mades.TakeOut number (if result then Some out_new else None)) old new }
    ensures set_draining { (number : ℕ) (drains : Bool) (old : PeerView) →
        Leads (mades.SetDraining number drains) old (record old { drains = drains }) }
    ensures look { (number leg : ℕ) (result : Option Status) (peer : PeerView) → WasLookedAt leg result peer →
        Leads (mades.Look number leg result) peer peer }
    ensures describe { (number leg : ℕ) (peer : PeerView) →
        Leads (mades.Describe number leg (option_map description_of (leg_at peer.legs leg))) peer peer }
    ensures describe_from { (number leg : ℕ) (peer : PeerView) →
        Leads (mades.DescribeFrom number leg (description_from peer.legs leg)) peer peer }
    ensures leg_count { (number : ℕ) (peer : PeerView) →
        Leads (mades.CountLegs number (count_by is_some peer.legs.places)) peer peer }
    ensures sums { (number : ℕ) (peer : PeerView) → Leads (mades.ShowSums number (shown peer.accounts)) peer peer }
    ensures lost { (number : ℕ) (peer : PeerView) → Leads (mades.ShowLost number peer.outbox.lost) peer peer }
    ensures pokes { (number : ℕ) (peer : PeerView) → Leads (mades.ShowPokes number peer.pokes) peer peer }
{}

/// A call of `NotedBook` changes the book as its note says, and has the noted answer.
pub fn calls_lead_the_book()
    ensures reserve { (peer : ℕ) (book : Book) →
        LeadsBook (mades.Reserve peer (reserve_answer book peer)) book (after_reserve book peer) }
    ensures bridge { (a b : LegName) (result : Result (Unit {0}) BridgeError) (old new : Book) →
        result ≡ bridge_answer old a b → OnOk result (new ≡ bridged old a b) → OnErr result (new ≡ old) →
        LeadsBook (mades.Bridge a b result) old new }
    ensures partner { (name : LegName) (book : Book) → LeadsBook (mades.Partner name (partner_of book name)) book book }
    ensures release { (name : LegName) (result : Result (Option LegName) (LegName × Stale)) (old new : Book) →
        (IsErr result ↔ (has_name old name ≡ false)) → IfOk result (λ partner. partner ≡ partner_of old name) →
        OnOk result (new ≡ released old name) → OnErr result (new ≡ old) →
        LeadsBook (mades.Release name (without_lease result)) old new }
    ensures next_serial { (book : Book) → LeadsBook (mades.NextSerial book.next) book book }
{}

/// The steps of a trail put no more into a peer's outbox and trunk queue than their loads together. As long as both have
/// room for that and for what waited before, nothing is lost, and only quelched media is dropped.
pub fn trails_that_fit_lose_nothing()
    ensures puts { (trail : List Made) (old new : List PeerView) (follow : Follow trail old new)
        (place : ℕ) (first last : PeerView) → slice_get old place ≡ Some first → slice_get new place ≡ Some last →
        Puts (loads_at place trail old new follow) first last }
    ensures outboxes { (trail : List Made) (old new : List PeerView) (follow : Follow trail old new)
        (place : ℕ) (first last : PeerView) → slice_get old place ≡ Some first → slice_get new place ≡ Some last →
        to_send first + (loads_at place trail old new follow).datagrams ≤ 256 → last.outbox.lost ≡ first.outbox.lost }
    ensures queues { (trail : List Made) (old new : List PeerView) (follow : Follow trail old new)
        (place : ℕ) (first last : PeerView) → slice_get old place ≡ Some first → slice_get new place ≡ Some last →
        QueueHasRoom first (loads_at place trail old new follow) →
        dropped_for_room last.accounts ≡ dropped_for_room first.accounts }
{
    crate::peers::loads_that_fit_lose_nothing();
}

/// Of the media that the legs of a peer were ordered to send, each piece went one way, whole and once. It was queued, put into
/// the outbox in a mini frame or in a new voice full frame, or dropped. No other media was. The trunk queue and the outbox are
/// first in, first out, so each trunk frame has queued media alone, each piece once. The media of each leg keeps its order in
/// plan version 4, and without trunks. All that holds if no one else makes steps at the peers.
pub fn trails_keep_their_order()
    ensures { (trail : List Made) (old new : List PeerView) → AreSound old → Follow trail old new →
        (place : ℕ) (first last : PeerView) → slice_get old place ≡ Some first → slice_get new place ≡ Some last →
        CarriesTrail place trail first last }
{
    crate::peers::steps_keep_their_order();
}
