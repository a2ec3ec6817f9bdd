//! The laws of windows, over every list of events.

ghost use Rattle.std.specs.Prelude.{◌≡◌, ◌↔◌, ◌<◌, ◌≤◌, ◌*◌, ℕ, ℤ, List, ◌++◌, length, slice_get, Some};
ghost use Rattle.iax_frames.specs.declared.stored_frame.Frame.{Frame};
ghost use Rattle.seq_window.specs.Sequence.{byte_of, number_byte_judged, acknowledgement_byte_judged, IsReadingNear};
ghost use Rattle.seq_window.specs.Sequence.{IsReadingFrom, reading_near, reading_from};
ghost use Rattle.seq_window.specs.Network.{InEveryFreshRun, EachWay, TakesInOrder, AcksTaken, HasLegalRecord, BytesSayNumbers};
ghost use Rattle.seq_window.specs.Network.{Size, start, GetThrough, Side, Datagram, after_all, actions_in_turn, added_in_turn};
ghost use Rattle.seq_window.specs.Network.{datagrams_of_reply};
ghost use Rattle.seq_window.specs.History.{IsLegal};
ghost use Rattle.seq_window.specs.Turn.{Turn};

use crate::judgements::{Acknowledged, Received};

/// Two windows of any widths up to 127 stay in step, across every wrap. That holds whatever the network loses, repeats,
/// delays or reorders, as long as no datagram that is judged is more than 128 behind.
pub fn network_is_safe()
    // Each numbered frame is taken at most once, and in order.
    ensures prefix { InEveryFreshRun (EachWay TakesInOrder) }
    // A frame counts as acknowledged only if it was taken.
    ensures acked { InEveryFreshRun (EachWay AcksTaken) }
    ensures legal { InEveryFreshRun (EachWay HasLegalRecord) }
    // Each byte is judged as the number that it denotes.
    ensures bytes { InEveryFreshRun (EachWay BytesSayNumbers) }
{}

/// If nothing is lost, any number of frames gets through, however narrow the window is.
pub fn frames_get_through()
    ensures { (frames : List Frame) (first second : Size) →
        1 ≤ first.width → 2 * length frames ≤ first.limit → length frames ≤ second.limit →
        GetThrough frames (start first second) }
{}

/// A byte denotes one number near another, and one from another upwards.
pub fn bytes_have_one_reading()
    ensures near { (number byte : ℕ) → byte < 256 → (reading : ℤ) →
        IsReadingNear number byte reading ↔ (reading ≡ reading_near number byte) }
    ensures upwards { (number byte : ℕ) → byte < 256 → (reading : ℕ) →
        IsReadingFrom number byte reading ↔ (reading ≡ reading_from number byte) }
{}

/// A step that adds to a record the entries for one datagram, as far as the record stays legal, consists of events of the
/// network. A numbered reply is sent as one of its datagrams: with the next number, and acknowledging the frames taken
/// after the step.
pub fn steps_are_events()
    ensures history { (own other : Side) (which : ℕ) (datagram : Datagram) (turn : Turn) →
        slice_get other.datagrams which ≡ Some datagram →
        IsLegal own.width own.limit (own.history ++ added_in_turn own datagram turn) →
        (after_all (actions_in_turn which turn) own other).history ≡ own.history ++ added_in_turn own datagram turn }
    ensures datagrams { (own other : Side) (which : ℕ) (datagram : Datagram) (turn : Turn) →
        slice_get other.datagrams which ≡ Some datagram →
        IsLegal own.width own.limit (own.history ++ added_in_turn own datagram turn) →
        (after_all (actions_in_turn which turn) own other).datagrams
        ≡ datagrams_of_reply own.history (own.history ++ added_in_turn own datagram turn) turn.reply ++ own.datagrams }
{}

/// The bounds are the widest. 129 behind is read as ahead, and 256 behind would be taken again. A window of 128 would count
/// an acknowledgement that is 128 behind.
pub fn bounds_are_sharp()
    ensures ahead { number_byte_judged 129 (byte_of 0) ≡ Received.Gap }
    ensures again { number_byte_judged 256 (byte_of 0) ≡ Received.Taken }
    ensures wide { acknowledgement_byte_judged 128 256 (byte_of 0) ≡ Acknowledged.Acked 128 }
{}
