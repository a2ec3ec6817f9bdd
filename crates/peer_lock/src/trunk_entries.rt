//! How many entries of a trunk frame the legs of a peer took ("Meta Frames").
ghost use Rattle.std.specs.Prelude.{◌≡◌, ◌<◌, length, replicate};
ghost use Rattle.peer_lock.specs.TrunkEntries.{CountsEntry};

use crate::outboxes::ENTRIES_OF_A_CALL;

// The greatest number of legs of a peer.
const LEGS: usize = 512;

// Returns the counts of no entry: one for each leg of a peer.
pub(crate) fn no_counts() -> [u8; LEGS]
    ensures { result ≡ replicate 512 0 }
{
    [0; LEGS]
}

// Counts one more entry of the leg at a place, unless there are 16 of it. Returns whether it is counted. `counts` has one
// count for each place.
pub(crate) fn counts_entry(counts: &mut [u8], place: usize) -> bool
    requires len { length counts.old ≡ 512 }
    requires place { place < 512 }
    ensures len { length counts.new ≡ 512 }
    ensures counted { CountsEntry place result counts.old counts.new }
{
    let count = counts[place];
    if usize::from(count) >= ENTRIES_OF_A_CALL {
        return false;
    }
    counts[place] = count + 1;
    true
}
