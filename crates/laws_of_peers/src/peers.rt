//! Laws of every step of a peer.
ghost use Rattle.std.specs.Prelude.{◌≡◌, ◌≢◌, ◌+◌, ◌<◌, ◌≤◌, ◌⊎◌, ℕ, true, false, length, List, [], ◌∷◌, All, None};
ghost use Rattle.std.specs.Prelude.{Some, slice_get};
ghost use Rattle.std.specs.List.{AllByRecursion};
ghost use Rattle.call_auth.specs.declared.call_token.CallTokens.{CallTokens};
ghost use Rattle.call_book.specs.declared.leg_name.LegName.{LegName};
ghost use Rattle.iax_frames.specs.FullFrame.{FullFrame};
ghost use Rattle.iax_frames.specs.declared.full_frame.FullHead.{FullHead};
ghost use Rattle.iax_frames.specs.declared.datagram.Datagram.{Datagram};
ghost use Rattle.iax_frames.specs.TrunkFrame.{TrunkFrame};
ghost use Rattle.iax_frames.specs.declared.datagram.Datagram.TheVariants.{Full, Trunk};
ghost use Rattle.call_signals.specs.Message.{is_vnak, message_of};
ghost use Rattle.leg_machine.specs.Leg.{LegState};
ghost use Rattle.leg_machine.specs.Media.{media_sent};
ghost use Rattle.leg_machine.specs.OrderTable.{IsShortMedia, wants_memory};
ghost use Rattle.leg_machine.specs.Seen.{kind_of};
ghost use Rattle.leg_machine.specs.Tie.{IsSending};
ghost use Rattle.leg_machine.specs.Tries.{NoneDue};
ghost use Rattle.leg_machine.specs.declared.media.MediaSent.TheVariants.{Quelched};
ghost use Rattle.call_signals.specs.declared.format.Format.{Format};
ghost use Rattle.call_signals.specs.Order.{media_of, Order};
ghost use Rattle.call_signals.specs.declared.order.Command.TheVariants.{Media};
ghost use Rattle.call_signals.specs.declared.rules.PeerRules.{PeerRules};
ghost use Rattle.call_signals.specs.declared.stage.Stage.TheVariants.{Ended};
ghost use Rattle.peer_lock.specs.Arrivals.{datagram_step, trunk_rejected};
ghost use Rattle.laws_of_peers.specs.Ascending.{Ascends, HasNoSpan};
ghost use Rattle.laws_of_peers.specs.CarriedOn.{CarriedOn, CarriesByOrder, CarriesOn, KeepsOrder, followed_by, nothing};
ghost use Rattle.peer_lock.specs.Delivery.{BearsToken, Gets, delivery, full_refused, is_new, reject_for};
ghost use Rattle.peer_legs.specs.Challenges.{is_crowded};
ghost use Rattle.peer_legs.specs.Legs.{AreLegs, IsLegOf, PeerLegs, NamedLeg, leg_at, leg_named, with_place};
ghost use Rattle.peer_legs.specs.Legs.{is_free_name};
ghost use Rattle.laws_of_peers.specs.Loads.{Load, Puts, datagram_load, load_of, no_load, order_load, plus, tick_load};
ghost use Rattle.peer_lock.specs.Openings.{open_in_refused, opens_in, opens_out, rejects_new};
ghost use Rattle.peer_lock.specs.Orders.{order_refused_by, ordered_step, IsOrderRefusal};
ghost use Rattle.peer_lock.specs.Peer.{PeerView, counted, to_send, without_leg};
ghost use Rattle.peer_lock.specs.Seen.{IsSeenDatagram, OpensIn, OpensOut, Obeys, IsSeenRefusal, TicksAll, Retires};
ghost use Rattle.peer_lock.specs.Seen.{RejectsNew as SeenToReject};
ghost use Rattle.laws_of_peers.specs.Sides.{TakesDatagram, TakesTurnAtLeg, TakesNew, RejectsNew, SendsNew, SendsAtLeg, EachSends};
ghost use Rattle.laws_of_peers.specs.Sides.{IsSideOf, Bears, HasDatagram, IsSentBy, IsSentByOrMini, IsSentFrom, SendsAll};
ghost use Rattle.laws_of_peers.specs.Sides.{TurnsInto};
ghost use Rattle.laws_of_peers.specs.Sides.{SendsInto, unused_side};
ghost use Rattle.peer_lock.specs.Pokes.{answered, answers_poke, poke_octets, poke_stamp, pokes_after, pokes_sent};
ghost use Rattle.peer_lock.specs.Pokes.{unanswered_since};
ghost use Rattle.peer_lock.specs.SoundPeer.{IsSoundPeer};
ghost use Rattle.peer_lock.specs.Statuses.{is_done};
ghost use Rattle.peer_lock.specs.Ticks.{RestsAt, Ticks};
ghost use Rattle.peer_lock.specs.TrunkEntries.{handed_by};
ghost use Rattle.peer_lock.specs.Trunks.{waits};
ghost use Rattle.peer_lock.specs.declared.errors.OpenError.TheVariants as open_errors;
ghost use Rattle.peer_lock.specs.declared.errors.OrderError.{OrderError};
ghost use Rattle.peer_lock.specs.declared.errors.OrderError.TheVariants.{Memory};
ghost use Rattle.peer_lock.specs.declared.errors.PeerError.TheVariants.{NeedsNumber};
ghost use Rattle.peer_lock.specs.declared.pokes.Pokes.{Pokes};
ghost use Rattle.peer_lock.specs.declared.steps.Rejection.TheVariants.{Draining};
ghost use Rattle.peer_lock.specs.declared.steps.TickReport.{TickReport};
ghost use Rattle.seq_window.specs.Network.{Datagram as Sending, Side};

/// Media that a datagram's step hands up has the order of the datagram, and no octet is in two pieces. A NEW that opens a leg
/// hands up no media.
pub fn media_is_handed_up_once()
    ensures datagrams { (first : ℕ) (peer : PeerView) (datagram : Datagram) (now : ℕ) →
        Ascends 0 (datagram_step first peer datagram now).signals }
    ensures calls_in { (peer : PeerView) (name : LegName) (frame : FullFrame) (now : ℕ) (challenge : List ℕ) →
        AllByRecursion HasNoSpan (opens_in peer name frame now challenge).signals }
{
    leg_machine::laws::media_is_the_frames();
}

/// If a peer needs call tokens, only a NEW with a token of its endpoint needs a number, and so opens a leg.
pub fn calls_bear_tokens()
    ensures { (peer : PeerView) (frame : FullFrame) (now : ℕ) (tokens : CallTokens) → peer.rules.call_tokens ≡ Some tokens →
        full_refused peer frame now ≡ Some NeedsNumber → BearsToken tokens now frame }
{}

/// While a peer drains, no NEW opens a leg, in every plan version. No NEW gets a number: one that would get a number
/// otherwise is answered by REJECT with cause 42. Under no name does a NEW open a leg: under a free one it is refused as
/// `Draining`.
pub fn draining_peers_open_none()
    ensures none { (peer : PeerView) (frame : FullFrame) (now : ℕ) → peer.drains ≡ true →
        full_refused peer frame now ≢ Some NeedsNumber }
    ensures answered { (peer : PeerView) (frame : FullFrame) (now : ℕ) → peer.drains ≡ true →
        full_refused (record peer { drains = false }) frame now ≡ Some NeedsNumber →
        delivery peer frame now ≡ Gets (reject_for Draining frame.head) }
    ensures refused { (peer : PeerView) (credit : ℕ) (name : LegName) (source : ℕ) → peer.drains ≡ true →
        open_in_refused peer credit name source ≢ None }
    ensures named { (peer : PeerView) (credit : ℕ) (name : LegName) (source : ℕ) → peer.drains ≡ true →
        peer.accounts.steps ≢ credit → is_free_name peer.legs name ≡ true →
        open_in_refused peer credit name source ≡ Some open_errors.Draining }
{}

/// The exchange asks a peer by POKE as its plan says, and a run of POKEs without an answer is told as such (RFC 5456, sections
/// 6.7.1 and 6.7.3). Moments and waits are in milliseconds.
pub fn pokes_are_by_the_rules()
    // Without `qualify_ms` none goes out. Otherwise the first goes out at once.
    ensures off { (rules : PeerRules) (pokes : Pokes) (now : ℕ) → rules.qualify_ms ≡ 0 → pokes_sent rules pokes now ≡ [] }
    ensures first { (rules : PeerRules) (pokes : Pokes) (now : ℕ) → 1 ≤ rules.qualify_ms → pokes.last ≡ None →
        pokes_sent rules pokes now ≡ poke_octets (poke_stamp rules now) ∷ [] }
    // One that isn't answered is repeated `max_retries` times, each `retry_ms` after the one before, and no sooner.
    ensures repeated { (rules : PeerRules) (pokes : Pokes) (now last : ℕ) → 1 ≤ rules.qualify_ms → pokes.last ≡ Some last →
        1 ≤ pokes.unanswered → pokes.unanswered ≤ rules.max_retries → last + rules.retry_ms ≤ now →
        pokes_sent rules pokes now ≡ poke_octets (poke_stamp rules now) ∷ [] }
    ensures not_sooner { (rules : PeerRules) (pokes : Pokes) (now last : ℕ) → pokes.last ≡ Some last →
        1 ≤ pokes.unanswered → pokes.unanswered ≤ rules.max_retries → last ≤ now → now < last + rules.retry_ms →
        pokes_sent rules pokes now ≡ [] }
    // After an answer, or after all of a run, the next run begins `qualify_ms` after the last, and no sooner.
    ensures next { (rules : PeerRules) (pokes : Pokes) (now last : ℕ) → 1 ≤ rules.qualify_ms → pokes.last ≡ Some last →
        (pokes.unanswered ≡ 0) ⊎ (rules.max_retries < pokes.unanswered) → last + rules.qualify_ms ≤ now →
        pokes_sent rules pokes now ≡ poke_octets (poke_stamp rules now) ∷ [] }
    ensures next_not_sooner { (rules : PeerRules) (pokes : Pokes) (now last : ℕ) → pokes.last ≡ Some last →
        (pokes.unanswered ≡ 0) ⊎ (rules.max_retries < pokes.unanswered) → last ≤ now → now < last + rules.qualify_ms →
        pokes_sent rules pokes now ≡ [] }
    // No run is longer.
    ensures runs { (rules : PeerRules) (pokes : Pokes) (now : ℕ) → pokes.unanswered ≤ rules.max_retries + 1 →
        (pokes_after rules pokes now).unanswered ≤ rules.max_retries + 1 }
    // `retry_ms` after the last of a run the peer is known to be silent since the first of it.
    ensures silent { (rules : PeerRules) (pokes : Pokes) (now last : ℕ) → pokes.last ≡ Some last →
        rules.max_retries < pokes.unanswered → last + rules.retry_ms ≤ now →
        unanswered_since rules pokes now ≡ Some pokes.since }
    // A PONG answers the last POKE alone, by its timestamp, and only once.
    ensures pongs { (rules : PeerRules) (pokes : Pokes) (head : FullHead) → answers_poke rules pokes head ≡ true →
        (last : ℕ) × (pokes.last ≡ Some last) × (1 ≤ pokes.unanswered) × (head.timestamp ≡ poke_stamp rules last) }
    ensures once { (rules : PeerRules) (pokes : Pokes) (head : FullHead) (now : ℕ) →
        answers_poke rules (answered pokes now) head ≡ false }
{}

/// In plan version 4 a trunk frame hands up the media of at most 16 entries of one call. In older versions no entry is dropped
/// for their number.
pub fn trunk_frames_bring_few_of_a_call()
    ensures few { (first : ℕ) (peer : PeerView) (trunk : TrunkFrame) (now number : ℕ) → peer.rules.is_hardened ≡ true →
        handed_by number (datagram_step first peer (Trunk trunk) now).signals ≤ 16 }
    ensures others { (peer : PeerView) (trunk : TrunkFrame) → peer.rules.is_hardened ≡ false → trunk_rejected peer trunk ≡ None }
{}

/// In plan version 4 a NEW that belongs to no leg gets no number while legs that wait for the answer to a challenge have half
/// of the peer's numbers or more.
pub fn crowded_peers_open_none()
    ensures { (peer : PeerView) (frame : FullFrame) (now : ℕ) → peer.rules.is_hardened ≡ true → is_crowded peer.legs ≡ true →
        full_refused peer frame now ≢ Some NeedsNumber }
{}

/// Each step of a peer, and each removal of a leg, is one that callers at once allow for. They see the legs' names, their
/// stages, whether they are doomed, whether they owe, and the signals handed up. The steps are those of the calls' own
/// clauses.
pub fn steps_are_seen()
    ensures datagrams { (first : ℕ) (peer : PeerView) (datagram : Datagram) (now : ℕ) → AreLegs peer.legs →
        IsSeenDatagram peer.legs (datagram_step first peer datagram now) }
    ensures calls_in { (peer : PeerView) (name : LegName) (frame : FullFrame) (now : ℕ) (challenge : List ℕ) → AreLegs peer.legs →
        1 ≤ peer.rules.window → is_free_name peer.legs name ≡ true →
        OpensIn peer.legs name (opens_in peer name frame now challenge) }
    ensures rejected_calls { (peer : PeerView) (frame : FullFrame) → SeenToReject peer.legs (rejects_new peer frame) }
    ensures calls_out { (peer : PeerView) (name : LegName) (called : List ℕ) (caller : List ℕ) (format : Format) (now : ℕ) →
        AreLegs peer.legs → is_free_name peer.legs name ≡ true →
        OpensOut peer.legs (opens_out peer name called caller format now).peer.legs name }
    ensures orders { (peer : PeerView) (credit : ℕ) (name : LegName) (order : Order) (now : ℕ) → AreLegs peer.legs →
        order_refused_by peer credit name order now ≡ None →
        Obeys peer.legs (ordered_step peer name order now).legs name (kind_of order) }
    ensures refusals { (peer : PeerView) (credit : ℕ) (name : LegName) (order : Order) (now : ℕ) (error : OrderError) →
        AreLegs peer.legs →
        IsOrderRefusal (order_refused_by peer credit name order now) error →
        (error ≡ Memory → (named : NamedLeg) → leg_named peer.legs name ≡ Some named → wants_memory named.leg order now ≡ true) →
        IsSeenRefusal peer.legs name (kind_of order) error }
    ensures ticks { (old new : PeerView) (now : ℕ) (report : TickReport) → AreLegs old.legs → Ticks old now report new →
        TicksAll old.legs new.legs }
    ensures retiring { (legs : PeerLegs) (name : LegName) → AreLegs legs → is_done (leg_named legs name) ≡ true →
        Retires legs (with_place legs name.number None) name }
{
    leg_machine::laws::steps_are_seen();
}

/// Each step of a peer adds to the record of the leg concerned only what one turn of a side of a network adds. Each frame
/// that its legs send is a sending of such a side, from the record that the leg has after the step; the other records stay.
/// The steps are those of the calls' own clauses.
pub fn steps_are_of_sides()
    ensures datagrams { (first : ℕ) (peer : PeerView) (datagram : Datagram) (now : ℕ) → IsSoundPeer peer →
        TakesDatagram peer datagram (datagram_step first peer datagram now).peer }
    ensures calls_in { (peer : PeerView) (name : LegName) (frame : FullFrame) (now : ℕ) (challenge : List ℕ) →
        is_free_name peer.legs name ≡ true → TakesNew peer name frame (opens_in peer name frame now challenge).peer }
    ensures rejected_calls { (peer : PeerView) (frame : FullFrame) → RejectsNew peer frame (rejects_new peer frame).peer }
    ensures calls_out { (peer : PeerView) (name : LegName) (called : List ℕ) (caller : List ℕ) (format : Format) (now : ℕ) →
        is_free_name peer.legs name ≡ true → SendsNew peer name (opens_out peer name called caller format now).peer }
    ensures orders { (peer : PeerView) (credit : ℕ) (name : LegName) (order : Order) (now : ℕ) → IsSoundPeer peer →
        order_refused_by peer credit name order now ≡ None → SendsAtLeg peer name (ordered_step peer name order now) }
    ensures ticks { (old new : PeerView) (now : ℕ) (report : TickReport) → IsSoundPeer old → Ticks old now report new →
        EachSends old new }
{
    leg_machine::laws::steps_take_turns();
    leg_machine::laws::steps_send_as_sides();
}

/// Actions of a side of a network add to a record all that such a step adds to a leg's. They lead to the record that the
/// leg has after the step. They are those of one turn that judges the received datagram, or the sending of at most one
/// frame. By further actions, which send only held frames or frames without numbers, the side has then sent each datagram
/// that the step sends.
pub fn steps_are_actions()
    // Of a full frame with the numbers of a datagram that the other side sent.
    ensures frames { (old new : PeerView) (frame : FullFrame) (turn : TakesTurnAtLeg old frame new) → IsSoundPeer new →
        (own other : Side) → IsSideOf new.rules turn.named.leg own →
        (which : ℕ) (sending : Sending) → slice_get other.datagrams which ≡ Some sending → Bears frame sending →
        TurnsInto new.rules own other which turn.leg turn.datagrams }
    ensures orders { (old new : PeerView) (name : LegName) (sends : SendsAtLeg old name new) → IsSoundPeer new →
        (own other : Side) → IsSideOf new.rules sends.named.leg own →
        SendsInto IsSentByOrMini new.rules own other sends.leg sends.datagrams }
    // Of a tick, for those of its datagrams that are sendings from this leg's record.
    ensures ticks { (old new : PeerView) → EachSends old new → IsSoundPeer new →
        (number : ℕ) (named after : NamedLeg) → leg_at old.legs number ≡ Some named → leg_at new.legs number ≡ Some after →
        (datagrams : List (List ℕ)) → All (IsSending after.leg) datagrams →
        (own other : Side) → IsSideOf new.rules named.leg own → SendsInto IsSentBy new.rules own other after.leg datagrams }
    // An opened leg begins as a side that has done nothing: by a NEW with the numbers of a datagram that the other side
    // sent,
    ensures calls_in { (old new : PeerView) (name : LegName) (frame : FullFrame) (takes : TakesNew old name frame new) →
        IsSoundPeer new → is_new (message_of frame.head) ≡ true →
        (other : Side) (which : ℕ) (sending : Sending) → slice_get other.datagrams which ≡ Some sending → Bears frame sending →
        TurnsInto new.rules (unused_side new.rules) other which takes.leg takes.opens.datagrams }
    // or by one that is sent.
    ensures calls_out { (old new : PeerView) (name : LegName) (sends : SendsNew old name new) → IsSoundPeer new →
        (other : Side) → SendsInto IsSentBy new.rules (unused_side new.rules) other sends.leg sends.opens.datagrams }
    // And a side with the record of such a leg can send each frame that the leg sends from it, with the same numbers.
    ensures sendings { (rules : PeerRules) (leg : LegState) → IsLegOf rules leg → (own other : Side) → IsSideOf rules leg own →
        (datagrams : List Sending) → All (IsSentFrom leg) datagrams → SendsAll Sending HasDatagram rules leg own other datagrams }
{
    seq_window::laws::steps_are_events();
}

/// After a tick of a peer each of its legs has ended, or nothing that it holds is due.
pub fn ticks_leave_nothing_due()
    ensures { (old new : PeerView) (now : ℕ) (report : TickReport) → IsSoundPeer old → Ticks old now report new →
        (number : ℕ) (named : NamedLeg) → leg_at new.legs number ≡ Some named →
        (named.leg.stage ≡ Ended) ⊎ NoneDue named.leg now }
{
    leg_machine::laws::ticks_finish_their_tries();
}

/// A tick without work changes nothing but the count of steps, and sends nothing. So it can be left out. A tick has no work
/// if each leg rests and no queued media is due.
pub fn resting_peers_stay()
    ensures { (old new : PeerView) (now : ℕ) (report : TickReport) → IsSoundPeer old → RestsAt old now →
        Ticks old now report new → new ≡ counted old }
{
    peer_lock::laws::resting_legs_stay();
}

/// In plan version 4 no order drops media for want of room in a trunk queue ("Meta Frames"). Media of at most 1,380 octets
/// is sent or waits, unless it is quelched. Other orders drop no media.
pub fn full_trunk_queues_drop_nothing()
    ensures { (peer : PeerView) (name : LegName) (order : Order) (now : ℕ) (named : NamedLeg) → waits peer.rules ≡ true →
        length (media_of order) ≤ 1380 → leg_named peer.legs name ≡ Some named → media_sent named.leg now ≢ Quelched →
        (ordered_step peer name order now).accounts.dropped ≡ peer.accounts.dropped }
{}

/// Media for a peer adds at most one datagram to those to be sent to it; media that waits for a trunk frame counts as one.
/// Nothing is lost in the outbox as long as there are at most 256. So 255 pieces of media lose nothing if the outbox was
/// empty and one trunk frame's worth was queued; without queued media, 256.
pub fn media_adds_one_datagram()
    ensures most { (peer : PeerView) (name : LegName) (order : Order) (now : ℕ) → kind_of order ≡ Media tt →
        to_send (ordered_step peer name order now) ≤ to_send peer + 1 }
    ensures kept { (peer : PeerView) (name : LegName) (order : Order) (now : ℕ) → kind_of order ≡ Media tt →
        to_send peer + 1 ≤ 256 → (ordered_step peer name order now).outbox.lost ≡ peer.outbox.lost }
{}

/// A step of a peer puts no more than its load into the outbox and the trunk queue ("Meta Frames"). As long as both have
/// room for it, nothing is lost, and only quelched media is dropped. The steps are those of the calls' own clauses.
pub fn loads_that_fit_lose_nothing()
    ensures datagrams { (first : ℕ) (peer : PeerView) (datagram : Datagram) (now : ℕ) →
        Puts (datagram_load peer datagram now) peer (datagram_step first peer datagram now).peer }
    ensures calls_in { (peer : PeerView) (name : LegName) (frame : FullFrame) (now : ℕ) (challenge : List ℕ) →
        Puts (load_of 1) peer (opens_in peer name frame now challenge).peer }
    ensures rejected_calls { (peer : PeerView) (frame : FullFrame) → Puts (load_of 1) peer (rejects_new peer frame).peer }
    ensures calls_out { (peer : PeerView) (name : LegName) (called : List ℕ) (caller : List ℕ) (format : Format) (now : ℕ) →
        Puts (load_of 1) peer (opens_out peer name called caller format now).peer }
    // Media is 1 to 1,380 octets.
    ensures orders { (peer : PeerView) (name : LegName) (order : Order) (now : ℕ) → IsShortMedia order →
        Puts (order_load (kind_of order) (length (media_of order))) peer (ordered_step peer name order now) }
    ensures ticks { (old : PeerView) (now : ℕ) (report : TickReport) (new : PeerView) (ticks : Ticks old now report new) →
        Puts (tick_load old now report new ticks) old new }
    ensures retiring { (peer : PeerView) (name : LegName) → Puts no_load peer (without_leg peer name) }
    // Two loads one after another are both together.
    ensures none { (peer : PeerView) → Puts no_load peer peer }
    ensures together { (one other : Load) (old mid new : PeerView) → Puts one old mid → Puts other mid new →
        Puts (plus one other) old new }
{}

/// A full frame is answered by at most one frame, unless it is a VNAK. A VNAK brings at most as many frames as a window is
/// wide, which is 127 at most.
pub fn full_frames_bring_few_answers()
    ensures others { (peer : PeerView) (frame : FullFrame) (now : ℕ) → is_vnak (message_of frame.head) ≡ false →
        (datagram_load peer (Full frame) now).datagrams ≤ 1 }
    ensures vnaks { (peer : PeerView) (frame : FullFrame) (now : ℕ) → IsSoundPeer peer →
        (datagram_load peer (Full frame) now).datagrams ≤ 127 }
{}

/// A peer's trunk queue and outbox are first in, first out, step by step ("Mini Frames", "Meta Frames"). Each trunk frame is
/// made of queued entries, each of which is in one. Only an order of media queues an entry, or puts a mini frame or a new voice
/// full frame into the outbox, with just its octets. The media of each leg keeps its order in plan version 4, and without
/// trunks. The steps are those of the calls' own clauses.
pub fn steps_keep_their_order()
    ensures datagrams { (first : ℕ) (peer : PeerView) (datagram : Datagram) (now : ℕ) →
        CarriesOn peer (datagram_step first peer datagram now).peer }
    ensures calls_in { (peer : PeerView) (name : LegName) (frame : FullFrame) (now : ℕ) (challenge : List ℕ) →
        CarriesOn peer (opens_in peer name frame now challenge).peer }
    ensures rejected_calls { (peer : PeerView) (frame : FullFrame) → CarriesOn peer (rejects_new peer frame).peer }
    ensures calls_out { (peer : PeerView) (name : LegName) (called : List ℕ) (caller : List ℕ) (format : Format) (now : ℕ) →
        CarriesOn peer (opens_out peer name called caller format now).peer }
    ensures orders { (peer : PeerView) (name : LegName) (named : NamedLeg) (order : Order) (now : ℕ) → AreLegs peer.legs →
        leg_named peer.legs name ≡ Some named → CarriesByOrder order name.number peer (ordered_step peer name order now) }
    ensures ticks { (old : PeerView) (now : ℕ) (report : TickReport) (new : PeerView) → Ticks old now report new →
        CarriesOn old new }
    ensures retiring { (peer : PeerView) (name : LegName) → CarriesOn peer (without_leg peer name) }
    // What two runs of steps carry on, one after the other, they carry on together.
    ensures none { (peer : PeerView) → KeepsOrder nothing peer peer }
    ensures together { (one other : CarriedOn) (old mid new : PeerView) → KeepsOrder one old mid → KeepsOrder other mid new →
        KeepsOrder (followed_by one other) old new }
{}
