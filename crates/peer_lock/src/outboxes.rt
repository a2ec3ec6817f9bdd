//! The way to the outbox: replies of legs, behind queued media of their calls, and trunk frames ("Meta Frames").
ghost use Rattle.std.specs.Prelude.{◌≡◌, ◌≤◌, ◌&&◌, true, length};
ghost use Rattle.outbox.specs.Outbox.{put};
ghost use Rattle.peer_lock.specs.Trunks.{has_any, waits, most_entries, begins_next, goes_ahead, outbox_after, queue_after};
ghost use Rattle.peer_lock.specs.Trunks.{accounts_after};
ghost use Rattle.trunk_packer.specs.Queue.{media_octets, trunk_octets};

use iax_frames::CallNumber;
use leg_machine::{PeerRules, Replies};
use outbox::Outbox;
use peer_accounts::{Account, LedgerSet};
use trunk_packer::{Packer, entry_head_len};

/// The greatest number of entries of one call in a trunk frame whose entries have timestamps.
pub(crate) const ENTRIES_OF_A_CALL: usize = 16;

// Puts the first of these datagrams into the outbox, as many as fit.
#[tactic(auto, using(outbox::proofs::Puts::put_none, outbox::proofs::Puts::put_more))]
pub(crate) fn put_all(outbox: &mut Outbox, replies: &Replies)
    ensures { outbox.new ≡ put outbox.old replies.now }
{
    // For the proof: at most 256 datagrams wait.
    let _ = outbox.is_full();
    for place in 0..replies.len() {
        outbox.put(replies.get(place).unwrap());
    }
}

// Returns whether the queue is sent ahead of a leg's replies, because it has media of the leg's call.
pub(crate) fn is_ahead(
    rules: &PeerRules,
    queue: &Packer,
    number: CallNumber,
    replies: &Replies,
) -> bool
    ensures { result ≡ (has_any replies.now && goes_ahead rules.now queue.now number) }
{
    if replies.len() == 0 || rules.trunk_ms.is_none() {
        return false;
    }
    queue.has_call(number)
}

// Returns whether the queue is sent ahead of a leg's replies at a tick.
pub(crate) fn is_ahead_at_tick(rules: &PeerRules, replies: &Replies) -> bool
    ensures { result ≡ (has_any replies.now && waits rules.now) }
{
    replies.len() > 0 && rules.trunk_ms.is_some()
}

// Returns the greatest number of entries of one call in a trunk frame.
fn most_entries(timed: bool) -> usize
    ensures { result ≡ most_entries timed }
{
    if timed { ENTRIES_OF_A_CALL } else { 1 }
}

// Returns whether media of a call begins the next trunk frame. `octets` is its length.
pub(crate) fn is_next(rules: &PeerRules, queue: &Packer, number: CallNumber, octets: usize) -> bool
    requires short { octets ≤ 1380 }
    ensures { result ≡ begins_next rules.now queue.now number octets }
{
    if rules.trunk_ms.is_none() {
        return false;
    }
    let timed = rules.trunk_timestamps;
    let (entries, queued) = queue.queued();
    if entries >= 256 || queued + octets as u64 > 16384 {
        return true;
    }
    if queue.frame_len(timed) + entry_head_len(timed) + octets > 1400 {
        return true;
    }
    queue.has_entries(number, most_entries(timed))
}

// Sends the whole queue as one trunk frame if `goes` is true. The frame has `since`, the moment of the oldest entry.
pub(crate) fn flush_if<J: LedgerSet>(
    goes: bool,
    timed: bool,
    since: u64,
    outbox: &mut Outbox,
    queue: &mut Packer,
    account: &mut Account<J>,
)
    requires fits { goes ≡ true → trunk_octets timed queue.old ≤ 1400 }
    requires queued { account.old.queued ≡ media_octets queue.old }
    ensures outbox { outbox.new ≡ outbox_after goes timed since outbox.old queue.old }
    ensures queue { queue.new ≡ queue_after goes queue.old }
    ensures account { account.new ≡ accounts_after goes queue.old account.old }
{
    if !goes {
        return;
    }
    if let Some((out, octets)) = queue.pack_whole(since, timed) {
        outbox.put(&out);
        account.pack(octets);
    }
}
