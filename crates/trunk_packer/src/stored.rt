//! The entries of a queue in a ring of octets.
ghost use Rattle.std.specs.Prelude.{◌≡◌, ◌==◌, ◌+◌, ◌<◌, ◌≤◌, ◌^◌, ◌↔◌, IsOk, OnOk, OnErr, IfNone, IfSome, length, slice_index};
ghost use Rattle.std.specs.Prelude.{Some};
ghost use Rattle.std.specs.Prelude.{None};
ghost use Rattle.iax_frames.specs.TrunkFrame.{TrunkFrame, SpellsTrunk, IsTrunk, with_entry, head_len, is_timed};
ghost use Rattle.trunk_packer.specs.Queue.{trunk_entry};
ghost use Rattle.trunk_packer.specs.Stored.{first_stored};

use crate::pieces::Pieces;
use iax_frames::{CallNumber, Out, TooLong, append_entry_in_two};
use std::marker::Model;

/// An entry in a ring.
#[derive(Drop)]
pub(crate) struct StoredEntry<'a> {
    number: CallNumber,
    timestamp: u16,
    media: Pieces<'a>,
}

impl<'a> Model for StoredEntry<'a> {
    ghost use Rattle.std.specs.Prelude.{◌≤◌, length};
    ghost use Rattle.trunk_packer.specs.Queue.{QueueEntry};

    ghost Value = { QueueEntry };

    ghost view = { λ e. record { number = e.number; timestamp = e.timestamp; media = e.media } };

    ghost invariant = { λ e. length e.media ≤ 1380 };
}

impl<'a> StoredEntry<'a> {
    // Returns the octets of media, at most 1,380.
    pub(crate) fn media_len(&self) -> usize
        ensures len { result ≡ length self.now.media }
        ensures short { result ≤ 1380 }
    {
        self.media.len()
    }

    // Returns whether it is media of this call.
    pub(crate) fn is_of(&self, number: CallNumber) -> bool
        ensures { result ≡ (self.now.number == number) }
    {
        self.number == number
    }

    // Appends the entry to a trunk frame, or changes nothing.
    pub(crate) fn append_to(&self, out: &mut Out) -> Result<(), TooLong>
        requires { IsTrunk out.old }
        ensures variant { IsOk result ↔
            (length out.old + head_len (is_timed (slice_index out.old 3)) + length self.now.media ≤ 1400) }
        ensures size { OnOk result (length out.new ≡
            length out.old + head_len (is_timed (slice_index out.old 3)) + length self.now.media) }
        ensures spelled { OnOk result ((t : TrunkFrame) → SpellsTrunk out.old t →
            SpellsTrunk out.new (with_entry t (trunk_entry (is_timed t.command_data) self.now))) }
        ensures err { OnErr result (out.new ≡ out.old) }
    {
        append_entry_in_two(
            out,
            self.number,
            self.timestamp,
            self.media.front,
            self.media.back,
        )
    }
}

// Returns the entry at the front, and the octets after it.
pub(crate) fn split_entry<'a>(octets: &Pieces<'a>) -> Option<(StoredEntry<'a>, Pieces<'a>)>
    requires { length octets.now < 2 ^ 63 }
    ensures none { IfNone result (first_stored octets.now ≡ None) }
    ensures some { IfSome result (λ found. first_stored octets.now ≡ Some (found.0, found.1)) }
{
    if octets.len() < 6 {
        return None;
    }
    let number = octets.u16_at(0);
    let len = octets.u16_at(2) as usize;
    let timestamp = octets.u16_at(4);
    let (_, rest) = octets.split_at(6);
    if number >= 0x8000 || len > 1380 || rest.len() < len {
        return None;
    }
    let (media, rest) = rest.split_at(len);
    Some((
        StoredEntry {
            number: CallNumber::new(number),
            timestamp,
            media,
        },
        rest,
    ))
}
