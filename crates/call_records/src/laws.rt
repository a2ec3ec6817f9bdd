//! The laws of calls: the frames that their moments imply, and the common serial of two partners.
ghost use Rattle.std.specs.Prelude.{◌≡◌, ◌<◌, ◌↔◌, List, length, Option, IsSome, None, Some};
ghost use Rattle.call_book.specs.declared.leg_name.LegName.{LegName};
ghost use Rattle.call_records.specs.SideFrames.{SideFrame};
ghost use Rattle.call_records.specs.Courses.{accepted_of, answered_of, end_of};
ghost use Rattle.call_records.specs.CourseFacts.{HasAccept, HasAcceptAndAnswer, HasEnding, HasNoHangup};
ghost use Rattle.call_records.specs.JoinedCalls.{TakenOut, after_legs, AllHaveOtherNumbers};
ghost use Rattle.call_records.specs.Numbering.{Numbering, noted_call, call_of, after_leg};
ghost use Rattle.call_records.specs.declared.call_end.CallEnd.{CallEnd};
ghost use Rattle.call_records.specs.declared.side.Side.{Side};

/// A call counts as accepted if and only if an ACCEPT of the called side is among its frames. It counts as answered if and
/// only if an ANSWER of that side follows such an ACCEPT. No frame up to there may end the call. An answered call is
/// accepted. A call ends by the first HANGUP of either side, or by a REJECT; without an end there is no HANGUP ("Call
/// Setup", "Call Tear Down"). A law about definitions, for provers; the call does nothing.
pub fn moments_are_those_of_frames()
    ensures accepted { (opener : Option Side) (frames : List SideFrame) →
        IsSome (accepted_of opener frames) ↔ HasAccept opener frames }
    ensures answered { (opener : Option Side) (frames : List SideFrame) →
        IsSome (answered_of opener frames) ↔ HasAcceptAndAnswer opener frames }
    ensures accepted_first { (opener : Option Side) (frames : List SideFrame) →
        IsSome (answered_of opener frames) → IsSome (accepted_of opener frames) }
    ensures ended { (opener : Option Side) (frames : List SideFrame) (end : CallEnd) →
        end_of opener frames ≡ Some end → HasEnding frames end }
    ensures not_hung_up { (opener : Option Side) (frames : List SideFrame) → end_of opener frames ≡ None → HasNoHangup frames }
{}

/// Two partners have one serial, whichever of them is numbered first. Other legs may be numbered between them, unless one
/// of these has the local number of the later leg, or a partner with that number. The later leg has no partner any more. A
/// law about definitions, for provers; the call does nothing.
pub fn partners_share_a_call()
    ensures first_told_first { (n : Numbering) (first later : LegName) (between : List TakenOut) →
        later.number < length n.noted → AllHaveOtherNumbers later.number between →
        call_of (after_legs (after_leg n first (Some later)) between) later None ≡ call_of n first (Some later) }
    ensures later_told_first { (n : Numbering) (first later : LegName) (between : List TakenOut) →
        later.number < length n.noted → AllHaveOtherNumbers later.number between →
        noted_call (after_legs (after_leg n later None) between).noted first ≡ None →
        call_of (after_legs (after_leg n later None) between) first (Some later) ≡ call_of n later None }
{}
