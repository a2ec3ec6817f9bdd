//! Laws of two opposite legs, in any order of their steps.
ghost use Rattle.seq_window.specs.Network.{EachWay, TakesInOrder, AcksTaken, HasLegalRecord, BytesSayNumbers};
ghost use Rattle.laws_of_peers.specs.Ends.{AfterAllSteps};

/// Two legs of sound peers, by their stored records: the frames that one has as taken are the first of those that the other
/// has as sent. That holds for any steps of the two peers in any order, and whatever the network lost, repeated, delayed or
/// reordered. Each full frame that came to one was sent by the other, and none was more than 128 behind.
pub fn opposite_legs_stay_in_step()
    // Each numbered frame is taken at most once, and in order.
    ensures prefix { AfterAllSteps (EachWay TakesInOrder) }
    // A frame counts as acknowledged only if it was taken.
    ensures acked { AfterAllSteps (EachWay AcksTaken) }
    ensures legal { AfterAllSteps (EachWay HasLegalRecord) }
    // Each octet is judged as the number that it denotes.
    ensures bytes { AfterAllSteps (EachWay BytesSayNumbers) }
{
    crate::peers::steps_are_actions();
    seq_window::laws::network_is_safe();
}
