//! Laws of the steps of one call, and of the peers that make them.
ghost use Rattle.std.specs.Prelude.{◌≡◌, ◌≤◌, ◌+◌, ℕ, true, false, Bool, List, ◌∷◌, length, None, Some, Ok, Err};
ghost use Rattle.std.specs.Prelude.{option_map};
ghost use Rattle.call_book.specs.declared.leg_name.LegName.{LegName};
ghost use Rattle.iax_frames.specs.FullFrame.{FullFrame};
ghost use Rattle.iax_frames.specs.MiniFrame.{MiniFrame};
ghost use Rattle.iax_frames.specs.TrunkFrame.{TrunkFrame};
ghost use Rattle.iax_frames.specs.VideoFrame.{VideoFrame};
ghost use Rattle.iax_frames.specs.declared.datagram.Datagram.{Datagram};
ghost use Rattle.iax_frames.specs.declared.datagram.Datagram.TheVariants.{Full, Mini, Video, Trunk};
ghost use Rattle.leg_machine.specs.OrderTable.{wants_memory};
ghost use Rattle.leg_machine.specs.Seen.{kind_of};
ghost use Rattle.call_signals.specs.Message.{is_vnak, message_of};
ghost use Rattle.call_signals.specs.declared.format.Format.{Format};
ghost use Rattle.call_signals.specs.Order.{Order};
ghost use Rattle.peer_lock.specs.Arrivals.{datagram_step};
ghost use Rattle.peer_lock.specs.Legs.{AreLegs, PeerLegs, NamedLeg, leg_at, leg_named, with_place};
ghost use Rattle.peer_lock.specs.Openings.{is_free_name, opens_in, opens_out, rejects_new};
ghost use Rattle.peer_lock.specs.Orders.{order_refused_by, ordered_step, IsOrderRefusal};
ghost use Rattle.peer_lock.specs.Peer.{PeerView};
ghost use Rattle.peer_lock.specs.Statuses.{is_done, status_of};
ghost use Rattle.peer_lock.specs.Ticks.{Ticks};
ghost use Rattle.peer_lock.specs.declared.errors.OpenError.{OpenError};
ghost use Rattle.peer_lock.specs.declared.errors.OrderError.{OrderError};
ghost use Rattle.peer_lock.specs.declared.errors.OrderError.TheVariants.{Memory};
ghost use Rattle.peer_lock.specs.declared.errors.PeerError.{PeerError};
ghost use Rattle.peer_lock.specs.declared.errors.RejectError.{RejectError};
ghost use Rattle.peer_lock.specs.declared.steps.TickReport.{TickReport};
ghost use Rattle.laws_of_calls.specs.DatagramsLeft.{OpensFew, brought_by, datagrams_left, is_first, need_puts, step_puts};
ghost use Rattle.call_control.specs.Scene.{Scene, is_leased, dropped, leg_at as world_leg_at, without};
ghost use Rattle.call_control.specs.SeenReply.{heard};
ghost use Rattle.call_control.specs.Sees.{Sees, IsWorldStep};
ghost use Rattle.call_control.specs.Work.{Work, next_of, after_told};
ghost use Rattle.call_signals.specs.declared.order.Command.{Command};
ghost use Rattle.call_signals.specs.declared.signal.MediaSpan.{MediaSpan};
ghost use Rattle.call_control.specs.declared.need.Need.TheVariants as needs;
ghost use Rattle.call_control.specs.declared.reply.Reply.{Reply};
ghost use Rattle.call_control.specs.declared.reply.Reply.TheVariants as replies;

/// Each step of a peer, and each removal of a leg, is a step of the world of `call_control::laws::calls_at_once`. If the
/// world has the peer's legs as they are seen, it can make that step too, with the same answer, and then has the new legs.
/// The steps are those of the contracts of `PeerState`.
pub fn peers_steps_are_the_worlds()
    ensures datagrams { (first : ℕ) (peer : PeerView) (datagram : Datagram) (now : ℕ) (scene : Scene) (called : Bool) →
        AreLegs peer.legs → Sees scene.legs peer.legs →
        IsWorldStep scene (needs.Datagram peer.legs.peer) called peer.legs (datagram_step first peer datagram now).peer.legs
        (replies.Datagram (Ok
        (heard (datagram_step first peer datagram now).step.touched (datagram_step first peer datagram now).signals)))
        scene.leases }
    ensures refused_datagrams { (legs : PeerLegs) (error : PeerError) (scene : Scene) (called : Bool) → Sees scene.legs legs →
        IsWorldStep scene (needs.Datagram legs.peer) called legs legs (replies.Datagram (Err error)) scene.leases }
    // An opening is made by a caller that has the lease.
    ensures calls_in { (peer : PeerView) (name : LegName) (frame : FullFrame) (now : ℕ) (challenge : List ℕ) (scene : Scene)
        (called : Bool) →
        AreLegs peer.legs → 1 ≤ peer.rules.window → is_free_name peer.legs name ≡ true → Sees scene.legs peer.legs →
        is_leased scene.leases name ≡ true →
        IsWorldStep scene (needs.OpenIn name) called peer.legs (opens_in peer name frame now challenge).peer.legs
        (replies.OpenIn (Ok (heard (opens_in peer name frame now challenge).step.touched
        (opens_in peer name frame now challenge).signals)))
        (dropped scene.leases name) }
    ensures refused_calls_in { (legs : PeerLegs) (name : LegName) (error : OpenError) (scene : Scene) (called : Bool) →
        Sees scene.legs legs →
        IsWorldStep scene (needs.OpenIn name) called legs legs (replies.OpenIn (Err error)) scene.leases }
    ensures rejected_calls { (peer : PeerView) (frame : FullFrame) (scene : Scene) (called : Bool) → Sees scene.legs peer.legs →
        IsWorldStep scene (needs.RejectNew peer.legs.peer) called peer.legs (rejects_new peer frame).peer.legs
        (replies.RejectNew (Ok tt)) scene.leases }
    ensures unrejected_calls { (legs : PeerLegs) (error : RejectError) (scene : Scene) (called : Bool) → Sees scene.legs legs →
        IsWorldStep scene (needs.RejectNew legs.peer) called legs legs (replies.RejectNew (Err error)) scene.leases }
    ensures calls_out { (peer : PeerView) (name : LegName) (number : List ℕ) (caller : List ℕ) (format : Format) (now : ℕ)
        (scene : Scene) (called : Bool) →
        AreLegs peer.legs → is_free_name peer.legs name ≡ true → Sees scene.legs peer.legs → is_leased scene.leases name ≡ true →
        IsWorldStep scene (needs.OpenOut name) called peer.legs (opens_out peer name number caller format now).peer.legs
        (replies.OpenOut (Ok tt)) (dropped scene.leases name) }
    ensures refused_calls_out { (legs : PeerLegs) (name : LegName) (error : OpenError) (scene : Scene) (called : Bool) →
        Sees scene.legs legs →
        IsWorldStep scene (needs.OpenOut name) called legs legs (replies.OpenOut (Err error)) scene.leases }
    ensures orders { (peer : PeerView) (credit : ℕ) (name : LegName) (command : Command MediaSpan) (order : Order) (now : ℕ)
        (scene : Scene) (called : Bool) →
        AreLegs peer.legs → name.peer ≡ peer.legs.peer → kind_of order ≡ kind_of command →
        order_refused_by peer credit name order now ≡ None →
        Sees scene.legs peer.legs →
        IsWorldStep scene (needs.Order name command) called peer.legs (ordered_step peer name order now).legs
        (replies.Order (Ok tt)) scene.leases }
    ensures refused_orders { (peer : PeerView) (credit : ℕ) (name : LegName) (command : Command MediaSpan) (order : Order)
        (now : ℕ) (error : OrderError) (scene : Scene) (called : Bool) →
        AreLegs peer.legs → name.peer ≡ peer.legs.peer → kind_of order ≡ kind_of command →
        IsOrderRefusal (order_refused_by peer credit name order now) error →
        (error ≡ Memory → (named : NamedLeg) → leg_named peer.legs name ≡ Some named → wants_memory named.leg order now ≡ true) →
        Sees scene.legs peer.legs →
        IsWorldStep scene (needs.Order name command) called peer.legs peer.legs (replies.Order (Err error)) scene.leases }
    ensures ticks { (old new : PeerView) (now : ℕ) (report : TickReport) (scene : Scene) (called : Bool) →
        AreLegs old.legs → Ticks old now report new → Sees scene.legs old.legs →
        IsWorldStep scene (needs.Tick old.legs.peer) called old.legs new.legs (replies.Tick (Ok report.is_quiet)) scene.leases }
    ensures refused_ticks { (legs : PeerLegs) (scene : Scene) (called : Bool) → Sees scene.legs legs →
        IsWorldStep scene (needs.Tick legs.peer) called legs legs (replies.Tick (Err (record {}))) scene.leases }
    ensures looks { (legs : PeerLegs) (number : ℕ) (scene : Scene) (called : Bool) → Sees scene.legs legs →
        IsWorldStep scene (needs.Look legs.peer number) called legs legs
        (replies.Look (option_map status_of (leg_at legs number))) scene.leases }
    // A leg is taken out if no other leg has its number, as in every run (`numbers` of `calls_at_once`).
    ensures retiring { (legs : PeerLegs) (name : LegName) (scene : Scene) (called : Bool) →
        AreLegs legs → name.peer ≡ legs.peer → is_done (leg_named legs name) ≡ true → Sees scene.legs legs →
        world_leg_at (without scene.legs name) name.peer name.number ≡ None →
        IsWorldStep scene (needs.Retire name) called legs (with_place legs name.number None) (replies.Retire true)
        (name ∷ scene.leases) }
    // A leg that is kept is kept in the world too.
    ensures keeping { (legs : PeerLegs) (name : LegName) (scene : Scene) (called : Bool) → Sees scene.legs legs →
        IsWorldStep scene (needs.Retire name) called legs legs (replies.Retire false) scene.leases }
{
    laws_of_peers::peers::steps_are_seen();
}

/// The number of datagrams that a call sends. An answer leaves at most the number that was left, plus what a datagram
/// brings, less what the step sent. So a full frame leads to four at most, including its own answer.
#[tactic(auto, using(crate::proofs::LeftDatagrams::onward_later))]
pub fn calls_put_few_datagrams()
    ensures steps { (work : Work) (reply : Reply) → OpensFew reply →
        datagrams_left (after_told work reply) + need_puts (next_of work) ≤ datagrams_left work + brought_by reply }
    // Datagrams and ticks begin calls, and no answer leads to another.
    ensures first { (work : Work) (reply : Reply) → is_first (after_told work reply).place ≡ false }
{}

/// The signals of a datagram, and the leg that it touches, lead to few datagrams: at most three for a full frame, one for a
/// VNAK, and one for each entry of media.
pub fn datagrams_bring_few()
    ensures full { (first : ℕ) (peer : PeerView) (frame : FullFrame) (now : ℕ) →
        step_puts (datagram_step first peer (Full frame) now) ≤ 3 }
    ensures vnaks { (first : ℕ) (peer : PeerView) (frame : FullFrame) (now : ℕ) → is_vnak (message_of frame.head) ≡ true →
        step_puts (datagram_step first peer (Full frame) now) ≤ 1 }
    ensures mini { (first : ℕ) (peer : PeerView) (frame : MiniFrame) (now : ℕ) →
        step_puts (datagram_step first peer (Mini frame) now) ≤ 1 }
    ensures video { (first : ℕ) (peer : PeerView) (frame : VideoFrame) (now : ℕ) →
        step_puts (datagram_step first peer (Video frame) now) ≤ 0 }
    ensures trunk { (first : ℕ) (peer : PeerView) (frame : TrunkFrame) (now : ℕ) →
        step_puts (datagram_step first peer (Trunk frame) now) ≤ length frame.entries }
    ensures calls_in { (peer : PeerView) (name : LegName) (frame : FullFrame) (now : ℕ) (challenge : List ℕ) →
        step_puts (opens_in peer name frame now challenge) ≤ 3 }
{}
