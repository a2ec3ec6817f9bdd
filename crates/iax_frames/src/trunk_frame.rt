//! Trunk meta frames ("Meta Frames").
ghost use Rattle.std.specs.Prelude.{◌≡◌, ◌+◌, ◌≤◌, ◌<◌, List, [], ◌∷◌, take, drop, length, map, slice_index, IfSome, IfNone};
ghost use Rattle.std.specs.Prelude.{Some, None};
ghost use Rattle.iax_frames.specs.TrunkFrame.{TrunkEntry, TrunkFrame, is_timed, first_entry, entries_of, entry, entry_item};
ghost use Rattle.iax_frames.specs.TrunkFrame.{IsEntry, trunk_at};
ghost use Rattle.std.specs.Iterator.{YieldsFirstBy, item_count};
ghost use Rattle.iax_frames.specs.Items.{SpellsItems, IsCutAt};

use crate::call_number::CallNumber;
use crate::octets::{flagged_at, u16_at, u32_at};
use std::marker::Model;

/// An entry of a trunk frame.
#[derive(Debug, Drop)]
pub(crate) struct Entry<'a> {
    high_bit: bool,
    number: CallNumber,
    timestamp: Option<u16>,
    media: &'a [u8],
}

impl<'a> Model for Entry<'a> {
    ghost use Rattle.iax_frames.specs.TrunkFrame.{TrunkEntry};

    ghost Value = { TrunkEntry };

    ghost view = { λ e. record { high_bit = e.high_bit; number = e.number; timestamp = e.timestamp; media = e.media.now } };
}

/// A trunk frame in the octets of a datagram.
#[derive(Debug, Drop)]
pub struct Trunk<'a> {
    octets: &'a [u8],
}

impl<'a> Model for Trunk<'a> {
    ghost use Rattle.std.specs.Prelude.{◌≤◌, length, drop, slice_index};
    ghost use Rattle.iax_frames.specs.TrunkFrame.{TrunkFrame, trunk_at, is_timed, entry, IsEntry, entries_of};
    ghost use Rattle.iax_frames.specs.Items.{SpellsItems};

    ghost Value = { TrunkFrame };

    ghost view = { λ t. trunk_at t.octets.now };

    ghost invariant = { λ t. (8 ≤ length t.octets.now)
        × SpellsItems entry (IsEntry (is_timed (slice_index t.octets.now 3))) (drop 8 t.octets.now)
        (entries_of (is_timed (slice_index t.octets.now 3)) (drop 8 t.octets.now)) };
}

impl<'a> Trunk<'a> {
    // Returns the trunk frame that the octets spell. They have to begin as one, and no entry may be cut.
    pub(crate) fn new(octets: &'a [u8]) -> Self
        requires long { 8 ≤ length octets.now }
        requires entries { SpellsItems entry (IsEntry (is_timed (slice_index octets.now 3))) (drop 8 octets.now)
            (entries_of (is_timed (slice_index octets.now 3)) (drop 8 octets.now)) }
        ensures { result ≡ trunk_at octets.now }
    {
        Trunk { octets }
    }

    /// Returns the octet whose lowest bit says that the entries have timestamps.
    pub fn command_data(&self) -> u8
        ensures { result ≡ self.now.command_data }
    {
        self.octets[3]
    }

    /// Returns the timestamp of the whole frame, in milliseconds modulo 2^32.
    pub fn timestamp(&self) -> u32
        ensures { result ≡ self.now.timestamp }
    {
        u32_at(self.octets, 4)
    }

    /// Returns the entries in order, each with its number, its timestamp if it has one, and its media.
    pub fn entries(&self) -> Entries<'a>
        ensures { result ≡ self.now.entries }
    {
        Entries {
            timed: self.octets[3] % 2 == 1,
            octets: self.octets.split_at(8).1,
        }
    }
}

/// The remaining entries of a trunk frame, as number, timestamp and media. Contracts see their list.
#[derive(Debug, Drop)]
pub struct Entries<'a> {
    timed: bool,
    octets: &'a [u8],
}

impl<'a> Model for Entries<'a> {
    ghost use Rattle.std.specs.Prelude.{List};
    ghost use Rattle.iax_frames.specs.TrunkFrame.{TrunkEntry, entry, IsEntry, entries_of};
    ghost use Rattle.iax_frames.specs.Items.{SpellsItems};

    ghost Value = { List TrunkEntry };

    ghost view = { λ left. entries_of left.timed left.octets.now };

    ghost invariant = { λ left. SpellsItems entry (IsEntry left.timed) left.octets.now (entries_of left.timed left.octets.now) };
}

impl<'a> Iterator for Entries<'a> {
    type Item = (CallNumber, Option<u16>, &'a [u8]);

    ghost next_gives = { YieldsFirstBy (λ item. (item.0, item.1, item.2.now)) (map entry_item) };

    ghost remaining = { item_count (λ left. left) };

    fn next(&mut self) -> Option<(CallNumber, Option<u16>, &'a [u8])> {
        match split_entry(self.timed, self.octets) {
            Some((entry, after)) => {
                self.octets = after;
                Some((entry.number, entry.timestamp, entry.media))
            }
            None => None,
        }
    }
}

// Returns the entry at the front, and the octets after it.
fn split_entry(timed: bool, octets: &[u8]) -> Option<(Entry<'_>, &[u8])>
    ensures none { IfNone result (first_entry timed octets.now ≡ None) }
    ensures some { IfSome result (λ found. first_entry timed octets.now ≡ Some (found.0, found.1.now)) }
{
    if timed {
        if octets.len() < 6 {
            return None;
        }
        let len = u16_at(octets, 0) as usize;
        entry_behind(
            octets,
            6,
            len,
            flagged_at(octets, 2),
            Some(u16_at(octets, 4)),
        )
    } else {
        if octets.len() < 4 {
            return None;
        }
        let len = u16_at(octets, 2) as usize;
        entry_behind(octets, 4, len, flagged_at(octets, 0), None)
    }
}

// Returns the entry behind a head of `head` octets, with this call number field, length of media and timestamp, and the
// octets after it.
fn entry_behind(
    octets: &[u8],
    head: usize,
    len: usize,
    field: (bool, CallNumber),
    timestamp: Option<u16>,
) -> Option<(Entry<'_>, &[u8])>
    requires { head ≤ length octets.now }
    ensures none { IfNone result (length octets.now < head + len) }
    ensures whole { IfSome result (λ found. head + len ≤ length octets.now) }
    ensures entry { IfSome result (λ found. found.0 ≡ record {
      high_bit = field.0;
      number = field.1;
      timestamp = timestamp;
      media = take len (drop head octets.now);
    }) }
    ensures rest { IfSome result (λ found. found.1.now ≡ drop len (drop head octets.now)) }
{
    let (_, rest) = octets.split_at(head);
    if rest.len() < len {
        return None;
    }
    let (high_bit, number) = field;
    let (media, rest) = rest.split_at(len);
    Some((
        Entry {
            high_bit,
            number,
            timestamp,
            media,
        },
        rest,
    ))
}

// Returns the place of the first entry that passes the end.
pub(crate) fn cut_place(timed: bool, octets: &[u8]) -> Option<usize>
    ensures whole { IfNone result (SpellsItems entry (IsEntry timed) octets.now (entries_of timed octets.now)) }
    ensures cut { IfSome result (IsCutAt entry (IsEntry timed) octets.now) }
{
    let mut rest = octets;
    while !rest.is_empty() {
        match split_entry(timed, rest) {
            Some((_, after)) => rest = after,
            None => return Some(octets.len() - rest.len()),
        }
    }
    None
}
