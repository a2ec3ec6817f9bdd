//! Frames that are written.
ghost use Rattle.std.specs.Prelude.{◌≡◌, ℕ, List, ◌<◌, ◌≤◌, ◌^◌, ◌+◌, ◌++◌, ◌↔◌, [], ◌∷◌, length, slice_index, if◌then◌else◌};
ghost use Rattle.std.specs.Prelude.{IsOk, IsErr, IfOk, OnOk, OnErr};
ghost use Rattle.iax_frames.specs.FullFrame.{FullFrame, SpellsFull, IsFullHead, with_more};
ghost use Rattle.iax_frames.specs.FullFrame as spec;
ghost use Rattle.iax_frames.specs.MiniFrame.{SpellsMini};
ghost use Rattle.iax_frames.specs.TrunkFrame.{TrunkFrame, SpellsTrunk, IsTrunk, with_entry, entry_of, entry, head_len, is_timed};
ghost use Rattle.iax_frames.specs.Datagram.{IsFrame};
ghost use Rattle.std.specs.Int.{w16, to_be_bytes};
ghost use Rattle.arrayvec.specs.ArrayVec.{array_vec_len};

use crate::call_number::CallNumber;
use crate::full_frame::FullHead;
use arrayvec::ArrayVec;
use std::marker::Model;

/// The octets are too many for the frame.
#[derive(Clone, Copy, Debug, PartialEq, Eq)]
pub struct TooLong;

/// A frame of at most 1,400 octets. Contracts see its octets.
#[derive(Debug, Drop)]
pub struct Out {
    octets: ArrayVec<u8, 1400>,
}

impl Model for Out {
    ghost use Rattle.std.specs.Prelude.{List, ℕ, ◌≤◌, length};
    ghost use Rattle.iax_frames.specs.Datagram.{IsFrame};

    ghost Value = { List ℕ };

    ghost view = { λ out. out.octets.items };

    ghost invariant = { λ out. IsFrame out.octets.items × (length out.octets.items ≤ 1400) };
}

impl Default for Out {
    // A mini frame of number 1 and timestamp 0, with no media.
    ghost is_default = { λ out. out ≡ 0 ∷ 1 ∷ 0 ∷ 0 ∷ [] };

    fn default() -> Self {
        mini_out(CallNumber::new(1), 0, &[])
    }
}

impl Out {
    /// Returns the octets of the frame, at most 1,400.
    pub fn octets(&self) -> &[u8]
        ensures octets { result.now ≡ self.now }
        ensures frame { IsFrame self.now }
        ensures fits { length self.now ≤ 1400 }
    {
        self.octets.as_slice()
    }

    /// Returns a copy of the frame. It takes no memory, so it can't fail.
    pub fn copied(&self) -> Out
        ensures { result ≡ self.now }
    {
        let mut octets = ArrayVec::new();
        extend(&mut octets, self.octets.as_slice());
        Out { octets }
    }

    /// Overwrites the frame by another of at most 1,400 octets, which come in two pieces, the front first.
    pub fn replace(&mut self, front: &[u8], back: &[u8])
        requires frame { IsFrame (front.now ++ back.now) }
        requires fits { length front.now + length back.now ≤ 1400 }
        ensures { self.new ≡ front.now ++ back.now }
    {
        self.octets.clear();
        extend(&mut self.octets, front);
        extend(&mut self.octets, back);
    }

    /// Returns the number of octets that still fit, 0 ..= 1,400.
    pub fn room(&self) -> usize
        ensures { result + length self.now ≡ 1400 }
    {
        self.octets.remaining_capacity()
    }

    /// Appends octets to the data of a full frame, at most as many as fit (`room`).
    pub fn append_data(&mut self, more: &[u8])
        requires full { (f : FullFrame) × SpellsFull self.old f }
        requires fits { length self.old + length more.now ≤ 1400 }
        ensures octets { self.new ≡ self.old ++ more.now }
        ensures spelled { (f : FullFrame) → SpellsFull self.old f → SpellsFull self.new (with_more f more.now) }
    {
        extend(&mut self.octets, more);
    }
}

// Appends octets for which there is room.
fn extend(octets: &mut ArrayVec<u8, 1400>, more: &[u8])
    requires { array_vec_len octets.old + length more.now ≤ 1400 }
    ensures { octets.new.items ≡ octets.old.items ++ more.now }
{
    octets.try_extend_from_slice(more).unwrap();
}

/// Returns the twelve octets in front of the data of a full frame ("Full Frames").
pub fn full_head(head: FullHead) -> [u8; 12]
    ensures octets { result ≡ spec.full_head head }
    ensures widths { IsFullHead head }
{
    let source = (0x8000 + head.source.get()).to_be_bytes();
    let number = head.destination.get();
    let destination = if head.retransmitted {
        0x8000 + number
    } else {
        number
    };
    let destination = destination.to_be_bytes();
    let timestamp = head.timestamp.to_be_bytes();
    [
        source[0],
        source[1],
        destination[0],
        destination[1],
        timestamp[0],
        timestamp[1],
        timestamp[2],
        timestamp[3],
        head.oseqno,
        head.iseqno,
        head.frame_type,
        head.subclass,
    ]
}

/// Writes the full frame of a head and data ("Full Frames").
///
/// Returns `TooLong` if and only if the data has more than 1,388 octets.
pub fn write_full(head: &FullHead, payload: &[u8]) -> Result<Out, TooLong>
    ensures spelled { IfOk result (λ out. SpellsFull out (record { head = head.now; payload = payload.now })) }
    ensures too_long { IsErr result ↔ (1388 < length payload.now) }
{
    if payload.len() > 1388 {
        return Err(TooLong);
    }
    let mut octets = ArrayVec::new();
    extend(&mut octets, &full_head(*head));
    extend(&mut octets, payload);
    Ok(Out { octets })
}

/// Returns the four octets in front of the media of a mini frame ("Mini Frames"). They are the sender's number of the call,
/// 1 ..= 32,767, and the low 16 bits of the timestamp, in milliseconds.
pub fn mini_head(number: CallNumber, timestamp: u16) -> [u8; 4]
    ensures octets { result ≡ to_be_bytes w16 number ++ to_be_bytes w16 timestamp }
    ensures spelled { 0 < number → (media : List ℕ)
        → SpellsMini (result ++ media) (record { source = number; timestamp = timestamp; media = media }) }
{
    let number = number.get().to_be_bytes();
    let timestamp = timestamp.to_be_bytes();
    [number[0], number[1], timestamp[0], timestamp[1]]
}

fn mini_out(number: CallNumber, timestamp: u16, media: &[u8]) -> Out
    requires some { 0 < number }
    requires fits { length media.now ≤ 1396 }
    ensures octets { result ≡ to_be_bytes w16 number ++ to_be_bytes w16 timestamp ++ media.now }
    ensures spelled { SpellsMini result (record { source = number; timestamp = timestamp; media = media.now }) }
{
    let mut octets = ArrayVec::new();
    extend(&mut octets, &mini_head(number, timestamp));
    extend(&mut octets, media);
    Out { octets }
}

/// Writes the mini frame of media ("Mini Frames"), from call number 1 ..= 32,767, with the low 16 bits of the timestamp, in
/// milliseconds.
///
/// Returns `TooLong` if and only if the media has more than 1,396 octets.
pub fn write_mini(number: CallNumber, timestamp: u16, media: &[u8]) -> Result<Out, TooLong>
    requires { 0 < number }
    ensures spelled { IfOk result (λ out. SpellsMini out (record { source = number; timestamp = timestamp; media = media.now })) }
    ensures too_long { IsErr result ↔ (1396 < length media.now) }
{
    if media.len() > 1396 {
        return Err(TooLong);
    }
    Ok(mini_out(number, timestamp, media))
}

/// Writes a trunk frame without entries ("Meta Frames"), with its timestamp in milliseconds. `timed` says whether its
/// entries have timestamps.
pub fn write_trunk(timestamp: u32, timed: bool) -> Out
    ensures { SpellsTrunk result (record { command_data = if timed then 1 else 0; timestamp = timestamp; entries = [] }) }
{
    let timestamp = timestamp.to_be_bytes();
    let command_data = if timed { 1 } else { 0 };
    let mut octets = ArrayVec::new();
    extend(
        &mut octets,
        &[
            0,
            0,
            1,
            command_data,
            timestamp[0],
            timestamp[1],
            timestamp[2],
            timestamp[3],
        ],
    );
    Out { octets }
}

// Appends an entry for which there is room.
fn extend_entry(
    octets: &mut ArrayVec<u8, 1400>,
    timed: bool,
    number: CallNumber,
    timestamp: u16,
    front: &[u8],
    back: &[u8],
)
    requires { array_vec_len octets.old + head_len timed + length front.now + length back.now ≤ 1400 }
    ensures items { octets.new.items ≡ octets.old.items ++ entry (entry_of timed number timestamp (front.now ++ back.now)) }
    ensures number { number < 2 ^ 15 }
    ensures fits { array_vec_len octets.new ≤ 1400 }
{
    let number = number.get().to_be_bytes();
    let timestamp = timestamp.to_be_bytes();
    let len = ((front.len() + back.len()) as u16).to_be_bytes();
    if timed {
        extend(
            octets,
            &[
                len[0],
                len[1],
                number[0],
                number[1],
                timestamp[0],
                timestamp[1],
            ],
        );
    } else {
        extend(octets, &[number[0], number[1], len[0], len[1]]);
    }
    extend(octets, front);
    extend(octets, back);
}

/// Appends an entry to a trunk frame as `append_entry` does, of media that comes in two pieces, the front first.
///
/// Returns `TooLong` if and only if the frame would have more than 1,400 octets; then nothing is changed.
pub fn append_entry_in_two(
    out: &mut Out,
    number: CallNumber,
    timestamp: u16,
    front: &[u8],
    back: &[u8],
) -> Result<(), TooLong>
    requires trunk { IsTrunk out.old }
    requires short { length front.now + length back.now < 2 ^ 64 }
    ensures variant { IsOk result ↔
        (length out.old + head_len (is_timed (slice_index out.old 3)) + length (front.now ++ back.now) ≤ 1400) }
    ensures octets { OnOk result (out.new ≡ out.old ++
        entry (entry_of (is_timed (slice_index out.old 3)) number timestamp (front.now ++ back.now))) }
    ensures spelled { OnOk result ((t : TrunkFrame) → SpellsTrunk out.old t
        → SpellsTrunk out.new (with_entry t (entry_of (is_timed t.command_data) number timestamp (front.now ++ back.now)))) }
    ensures err { OnErr result (out.new ≡ out.old) }
{
    let timed = out.octets.as_slice()[3] % 2 == 1;
    let head_len = if timed { 6 } else { 4 };
    let room = out.octets.remaining_capacity();
    if room < head_len || room - head_len < front.len() + back.len() {
        return Err(TooLong);
    }
    extend_entry(&mut out.octets, timed, number, timestamp, front, back);
    Ok(())
}

/// Appends an entry to a trunk frame ("Meta Frames"): the call number and the media. If the frame's entries have
/// timestamps, it has the low 16 bits of the timestamp, too, in milliseconds.
///
/// Returns `TooLong` if and only if the frame would have more than 1,400 octets; then nothing is changed.
pub fn append_entry(
    out: &mut Out,
    number: CallNumber,
    timestamp: u16,
    media: &[u8],
) -> Result<(), TooLong>
    requires { IsTrunk out.old }
    ensures variant { IsOk result ↔ (length out.old + head_len (is_timed (slice_index out.old 3)) + length media.now ≤ 1400) }
    ensures octets { OnOk result (out.new ≡ out.old ++
        entry (entry_of (is_timed (slice_index out.old 3)) number timestamp media.now)) }
    ensures spelled { OnOk result ((t : TrunkFrame) → SpellsTrunk out.old t
        → SpellsTrunk out.new (with_entry t (entry_of (is_timed t.command_data) number timestamp media.now))) }
    ensures err { OnErr result (out.new ≡ out.old) }
{
    append_entry_in_two(out, number, timestamp, media, &[])
}
