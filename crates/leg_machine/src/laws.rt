//! The laws of a leg.

ghost use Rattle.std.specs.Prelude.{◌≡◌, ◌≢◌, [], ◌∷◌, ◌⊎◌, ◌↔◌, ◌≤◌, ◌<◌, ◌^◌, ◌||◌, ℕ, Bool, true, false, List, length, min};
ghost use Rattle.std.specs.Prelude.{is_some, Option, None, Some, map, if◌then◌else◌};
ghost use Rattle.iax_frames.specs.FullFrame.{FullFrame, spelling};
ghost use Rattle.seq_window.specs.History.{acked_count, data_octets, taken_count};
ghost use Rattle.seq_window.specs.Window.{entry_count, held_count, held_frames, judged_number};
ghost use Rattle.seq_window.specs.declared.judgements.Received.TheVariants.{Gap, Repeat};
ghost use Rattle.leg_machine.specs.Effects.{hung_up};
ghost use Rattle.leg_machine.specs.Leg.{LegState, end_failure, failed, is_overdue, is_record_full};
ghost use Rattle.leg_machine.specs.LegTable.{is_reflected, waiting};
ghost use Rattle.leg_machine.specs.Media.{IsMediaOf, accepts_media};
ghost use Rattle.leg_machine.specs.Openings.{open_in_step, open_out_step};
ghost use Rattle.leg_machine.specs.OrderTable.{order_refused, order_carried, refuses_digits};
ghost use Rattle.leg_machine.specs.Seen.{seen, kind_of, stage_ordered, fresh_leg, IsSeenFrame, IsSeenOpening, IsSeenOrder};
ghost use Rattle.leg_machine.specs.Seen.{IsSeenTick};
ghost use Rattle.leg_machine.specs.Replies.{ack, vnak, sent_again};
ghost use Rattle.leg_machine.specs.Steps.{full_step, judged_step, answer_step, inval_step, invalidated, message_step};
ghost use Rattle.leg_machine.specs.Steps.{nothing_sent};
ghost use Rattle.leg_machine.specs.Ticks.{quiet, hang_up_step, tick_step, is_idle};
ghost use Rattle.leg_machine.specs.Tie.{TakesTurn, SendsAtMostOne, TakesFirstTurn, HasSentAtMostOne, SendsNumbered, HasSent};
ghost use Rattle.leg_machine.specs.Tie.{HasSentOrMini};
ghost use Rattle.leg_machine.specs.Tries.{tries, NoneDue, IsFinished};
ghost use Rattle.leg_machine.specs.Working.{heard, has_acknowledged, is_repetition, is_soon, is_taken, is_unanswered};
ghost use Rattle.leg_machine.specs.Working.{names_leg, refusal};
ghost use Rattle.call_signals.specs.Format.{has_format};
ghost use Rattle.call_signals.specs.Message.{message_of, answers_new, is_inval, is_numbered, is_voice_in};
ghost use Rattle.call_signals.specs.declared.format.Format.{Format};
ghost use Rattle.call_signals.specs.declared.cause.Cause.TheVariants.{CallRejected};
ghost use Rattle.call_signals.specs.declared.message.Message.{Message};
ghost use Rattle.call_signals.specs.declared.message.Message.TheVariants.{AuthReq};
ghost use Rattle.call_signals.specs.Order.{Order};
ghost use Rattle.call_signals.specs.declared.order.OrderError.TheVariants.{WrongStage};
ghost use Rattle.call_signals.specs.declared.rules.PeerRules.{PeerRules};
ghost use Rattle.call_signals.specs.declared.signal.MediaSpan.{MediaSpan};
ghost use Rattle.call_signals.specs.declared.stage.Stage.TheVariants.{Challenged, Waiting, Ended};

/// A tick takes a turn for each frame that was held when it began. These turns suffice: after them a frame has spent its
/// retries, or none is due.
pub fn ticks_finish_their_tries()
    ensures tries { (leg : LegState) (now : ℕ) → 1 ≤ leg.rules.retry_ms →
        IsFinished (tries (held_count leg.window) leg now) now }
    // This also holds if a doomed leg first sends its HANGUP, which is then held with the others.
    ensures after_hanging_up { (grown : Bool) (leg : LegState) (now : ℕ) → 1 ≤ leg.rules.retry_ms →
        IsFinished (tries (held_count leg.window) (hang_up_step grown leg now).leg now) now }
    // After a tick the leg has ended, or no held frame is due.
    ensures after_tick { (grown : Bool) (leg : LegState) (now : ℕ) → 1 ≤ leg.rules.retry_ms →
        ((tick_step grown leg now).leg.stage ≡ Ended) ⊎ NoneDue (tick_step grown leg now).leg now }
{}

/// A tick leaves an idle leg as it is, and sends nothing.
pub fn idle_legs_stay()
    ensures { (grown : Bool) (leg : LegState) (now : ℕ) → is_idle leg now ≡ true → tick_step grown leg now ≡ quiet leg }
{}

/// Media that a full frame hands up is that frame's own data.
pub fn media_is_the_frames()
    ensures { (leg : LegState) (frame : FullFrame) (now : ℕ) → IsMediaOf frame (full_step leg frame now).signal }
{}

/// Media is judged by the call's present format, which may be chosen after voice was taken. Mini frames and trunk entries
/// are accepted only if a voice frame of that format was taken.
pub fn media_is_of_the_calls_format()
    ensures accepted { (leg : LegState) (span : MediaSpan) → accepts_media leg span ≡ true →
        has_format leg.voice_taken leg.format ≡ true }
    // A taken frame adds its own format and no other, whatever the call's is. So if a leg's format never changes, a note of
    // voice of that format alone would suffice.
    ensures noted { (leg : LegState) (message : Message) (format : Format) →
        has_format (heard leg message).voice_taken format ≡ (has_format leg.voice_taken format || is_voice_in format message) }
{}

/// If the plan has no `vnak_ms`, each gap is answered by a VNAK. If it has one, silence waits only for the frame that the
/// last VNAK asked for: once the leg expects another frame, no VNAK counts.
pub fn gaps_are_answered()
    ensures always { (leg : LegState) (frame : FullFrame) (message : Message) (now : ℕ) → leg.rules.vnak_ms ≡ 0 →
        (judged_step Gap leg frame message now).replies ≡ vnak leg frame ∷ [] }
    ensures another { (leg : LegState) (frame : FullFrame) (now : ℕ) →
        taken_count (full_step leg frame now).leg.window.history ≢ taken_count leg.window.history →
        (full_step leg frame now).leg.vnak_sent ≡ None }
{}

/// The effect of a forged frame on a leg whose rules harden it. A VNAK that repeats the one that was answered last within
/// the lesser of `retry_ms` and 10 milliseconds changes nothing and causes no frame. Any other within 100 milliseconds of
/// the last one that brought all held frames causes at most two. An INVAL that doesn't name the leg, or comes before any
/// answer to its NEW, changes nothing and causes no frame. Nor does an ACCEPT, AUTHREQ, REJECT or HANGUP while the NEW isn't
/// acknowledged.
pub fn hardening_is_by_the_rules()
    ensures vnaks { (leg : LegState) (number : ℕ) (now : ℕ) → leg.rules.is_hardened ≡ true →
        is_repetition leg.vnak_answered number now (min leg.rules.retry_ms 10) ≡ true →
        answer_step leg number now ≡ nothing_sent leg }
    ensures moved_vnaks { (leg : LegState) (number : ℕ) (now : ℕ) → leg.rules.is_hardened ≡ true →
        is_soon leg.vnak_answered now 100 ≡ true → length (answer_step leg number now).replies ≤ 2 }
    ensures invals { (leg : LegState) (frame : FullFrame) (now : ℕ) → leg.rules.is_hardened ≡ true →
        is_inval (message_of frame.head) ≡ true → names_leg leg frame ≡ false → full_step leg frame now ≡ nothing_sent leg }
    ensures early_invals { (leg : LegState) (frame : FullFrame) (now : ℕ) → leg.rules.is_hardened ≡ true →
        is_inval (message_of frame.head) ≡ true → is_unanswered leg ≡ true → full_step leg frame now ≡ nothing_sent leg }
    ensures early_answers { (leg : LegState) (frame : FullFrame) (now : ℕ) → leg.rules.is_hardened ≡ true →
        leg.stage ≡ Waiting → answers_new (message_of frame.head) ≡ true → has_acknowledged leg frame ≡ false →
        full_step leg frame now ≡ nothing_sent leg }
    // By other rules no frame is refused but for a full record. Each VNAK causes all held frames to be sent again, each
    // INVAL ends the leg, and a doomed leg accepts digits.
    ensures all_frames { (leg : LegState) (frame : FullFrame) (now : ℕ) → leg.rules.is_hardened ≡ false →
        (refusal leg frame ≡ None) × (full_step leg frame now ≡ message_step (message_of frame.head) leg frame now) }
    ensures all_vnaks { (leg : LegState) (number : ℕ) (now : ℕ) → leg.rules.is_hardened ≡ false →
        (answer_step leg number now).replies ≡ map (sent_again leg) (held_frames leg.window) }
    ensures all_invals { (leg : LegState) (frame : FullFrame) (now : ℕ) → leg.rules.is_hardened ≡ false →
        inval_step leg frame now ≡ invalidated leg now }
    ensures all_digits { (leg : LegState) → leg.rules.is_hardened ≡ false → refuses_digits leg ≡ false }
{}

/// The reach of a full frame of destination 0 at a leg whose rules harden it. A leg is named once it has taken a numbered
/// frame with its own number, and stays so. Then such a frame changes nothing; if it repeats a numbered one, the leg
/// acknowledges it. One that isn't numbered never changes anything, and no acknowledgement counts.
pub fn unaddressed_frames_reach_the_unnamed()
    ensures named { (leg : LegState) (frame : FullFrame) (now : ℕ) →
        (full_step leg frame now).leg.is_named ≡
        (if is_taken (full_step leg frame now).judged then names_leg leg frame || leg.is_named else leg.is_named) }
    ensures still_named { (leg : LegState) (order : Order) (now : ℕ) →
        (order_carried leg order now).leg.is_named ≡ leg.is_named }
    ensures strays { (leg : LegState) (frame : FullFrame) (now : ℕ) → leg.rules.is_hardened ≡ true →
        frame.head.destination ≡ 0 → leg.is_named ≡ true → (full_step leg frame now).leg ≡ leg }
    ensures repeats { (leg : LegState) (frame : FullFrame) (now : ℕ) → leg.rules.is_hardened ≡ true →
        frame.head.destination ≡ 0 → leg.is_named ≡ true →
        ((full_step leg frame now).replies ≡ []) ⊎
        (judged_number leg.window.history frame.head.oseqno ≡ Repeat) ×
        ((full_step leg frame now).replies ≡ ack leg frame ∷ []) }
    ensures unnumbered { (leg : LegState) (frame : FullFrame) (now : ℕ) → leg.rules.is_hardened ≡ true →
        frame.head.destination ≡ 0 → is_numbered (message_of frame.head) ≡ false → full_step leg frame now ≡ nothing_sent leg }
    ensures unacknowledged { (leg : LegState) (frame : FullFrame) (now : ℕ) → leg.rules.is_hardened ≡ true →
        frame.head.destination ≡ 0 →
        acked_count (full_step leg frame now).leg.window.history ≡ acked_count leg.window.history }
{}

/// The handling of challenges. If one of this exchange comes back to a hardened leg, it isn't answered: the call is hung
/// up. A leg that waits for the answer to its own has at most 32 entries in its record and 4,096 octets of data, whatever
/// full frames come. It ends by a tick, silently, if the answer is late.
pub fn challenges_are_by_the_rules()
    ensures reflected { (leg : LegState) (frame : FullFrame) → is_reflected leg.rules frame ≡ true →
        waiting leg frame AuthReq ≡ hung_up CallRejected }
    ensures unhardened { (rules : PeerRules) (frame : FullFrame) → rules.is_hardened ≡ false → is_reflected rules frame ≡ false }
    ensures little { (leg : LegState) (frame : FullFrame) (now : ℕ) → leg.stage ≡ Challenged →
        is_some leg.rules.challenge_ms ≡ true → is_record_full leg ≡ false → length frame.payload ≤ 1388 →
        (entry_count (full_step leg frame now).leg.window ≤ 32) ×
        (data_octets (full_step leg frame now).leg.window.history ≤ 4096) }
    ensures late { (grown : Bool) (leg : LegState) (now : ℕ) → leg.stage ≡ Challenged → is_overdue leg now ≡ true →
        tick_step grown leg now ≡ quiet (failed leg (end_failure leg) now) }
{}

/// Each step of a leg, by a frame, an order, a tick or an opening, is a step of the model of concurrent callers. The model
/// sees only the leg's stage, whether it is doomed, whether it owes, and the signal that it hands up.
pub fn steps_are_seen()
    ensures frames { (leg : LegState) (frame : FullFrame) (now : ℕ) →
        IsSeenFrame (seen leg) (seen (full_step leg frame now).leg) (full_step leg frame now).signal }
    ensures orders { (leg : LegState) (order : Order) (now : ℕ) → order_refused leg order now ≡ None →
        IsSeenOrder (kind_of order) (seen leg) (seen (order_carried leg order now).leg) }
    // An order is refused for the stage if and only if it leads nowhere from there, or is a digit that a doomed leg
    // refuses.
    ensures wrong_stages { (leg : LegState) (order : Order) (now : ℕ) →
        (order_refused leg order now ≡ Some WrongStage) ↔ (stage_ordered leg (kind_of order) ≡ None) }
    ensures ticks { (grown : Bool) (leg : LegState) (now : ℕ) → IsSeenTick (seen leg) (seen (tick_step grown leg now).leg) }
    ensures calls_in { (rules : PeerRules) (number : ℕ) (frame : FullFrame) (now : ℕ) (challenge : List ℕ) → 1 ≤ rules.window →
        IsSeenOpening (seen (open_in_step rules number frame now challenge).leg)
        (open_in_step rules number frame now challenge).signal }
    ensures calls_out { (rules : PeerRules) (number : ℕ) (called : List ℕ) (caller : List ℕ) (format : Format) (now : ℕ) →
        seen (open_out_step rules number called caller format now).leg ≡ fresh_leg Waiting }
{}

/// Each step of a leg adds to its record the entries of one turn of a network's side. A full frame adds at most an
/// acknowledgement, then at most a taken frame, then at most a sent one, with the octets of that frame; an order and a tick
/// add at most a sent frame.
pub fn steps_take_turns()
    ensures frames { (leg : LegState) (frame : FullFrame) (now : ℕ) → TakesTurn leg frame (full_step leg frame now).leg }
    ensures orders { (leg : LegState) (order : Order) (now : ℕ) → SendsAtMostOne leg (order_carried leg order now).leg }
    ensures ticks { (grown : Bool) (leg : LegState) (now : ℕ) → SendsAtMostOne leg (tick_step grown leg now).leg }
    ensures calls_in { (rules : PeerRules) (number : ℕ) (frame : FullFrame) (now : ℕ) (challenge : List ℕ) →
        TakesFirstTurn frame (open_in_step rules number frame now challenge).leg }
    ensures calls_out { (rules : PeerRules) (number : ℕ) (called : List ℕ) (caller : List ℕ) (format : Format) (now : ℕ) →
        HasSentAtMostOne (open_out_step rules number called caller format now).leg }
{}

/// A side of a network with a leg's record can send each datagram that the leg sends in a step, unless it is a mini frame.
/// The sent frames of the record stay numbered.
pub fn steps_send_as_sides()
    ensures frames { (leg : LegState) (frame : FullFrame) (now : ℕ) → SendsNumbered leg →
        HasSent (full_step leg frame now).leg (map spelling (full_step leg frame now).replies) }
    // A mini frame has the leg's number, which has fifteen bits and isn't 0.
    ensures orders { (leg : LegState) (order : Order) (now : ℕ) → SendsNumbered leg → 0 < leg.number → leg.number < 2 ^ 15 →
        HasSentOrMini (order_carried leg order now).leg (order_carried leg order now).datagrams }
    ensures ticks { (grown : Bool) (leg : LegState) (now : ℕ) → SendsNumbered leg →
        HasSent (tick_step grown leg now).leg (map spelling (tick_step grown leg now).replies) }
    ensures calls_in { (rules : PeerRules) (number : ℕ) (frame : FullFrame) (now : ℕ) (challenge : List ℕ) →
        HasSent (open_in_step rules number frame now challenge).leg
        (map spelling (open_in_step rules number frame now challenge).replies) }
    ensures calls_out { (rules : PeerRules) (number : ℕ) (called : List ℕ) (caller : List ℕ) (format : Format) (now : ℕ) →
        HasSent (open_out_step rules number called caller format now).leg
        (map spelling (open_out_step rules number called caller format now).replies) }
{}
