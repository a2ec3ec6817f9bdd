//! Reading a datagram ("Full Frames", "Mini Frames", "Meta Frames").
ghost use Rattle.std.specs.Prelude.{◌≡◌, ◌<◌, ◌≤◌, length, MatchResult, Ok, Err};
ghost use Rattle.iax_frames.specs.Datagram.{Spells, Refuses};
ghost use Rattle.iax_frames.specs.FullFrame.{full_at};
ghost use Rattle.iax_frames.specs.Octets.{u16_at as word};
ghost use Rattle.iax_frames.specs.declared.datagram.Datagram.{Datagram};
ghost use Rattle.iax_frames.specs.declared.datagram.FrameError.{FrameError};

use crate::datagram::{Datagram, FrameError};
use crate::full_frame::{Full, FullHead};
use crate::mini_frame::Mini;
use crate::octets::{flagged_at, u16_at, u32_at};
use crate::trunk_frame::{Trunk, cut_place};
use crate::video_frame::Video;

fn full_of(bytes: &[u8]) -> Full<'_>
    requires { 12 ≤ length bytes.now }
    ensures { result ≡ full_at bytes.now }
{
    let (_, source) = flagged_at(bytes, 0);
    let (retransmitted, destination) = flagged_at(bytes, 2);
    let head = FullHead {
        source,
        retransmitted,
        destination,
        timestamp: u32_at(bytes, 4),
        oseqno: bytes[8],
        iseqno: bytes[9],
        frame_type: bytes[10],
        subclass: bytes[11],
    };
    Full::new(head, &bytes[12..])
}

// Returns the meta frame that the octets spell.
fn meta_of(bytes: &[u8]) -> Result<Datagram<'_>, FrameError>
    requires long { 4 ≤ length bytes.now }
    requires no_number { word bytes.now 0 ≡ 0 }
    ensures exact { MatchResult result (Spells bytes.now) (Refuses bytes.now) }
    ensures only { (d : Datagram) → Spells bytes.now d → result ≡ Ok d }
{
    let command = bytes[2];
    if command >= 0x80 {
        if bytes.len() < 6 {
            return Err(FrameError::Short);
        }
        return Ok(Datagram::Video(Video::new(bytes)));
    }
    if command != 1 {
        return Err(FrameError::MetaCommand(command));
    }
    if bytes.len() < 8 {
        return Err(FrameError::Short);
    }
    match cut_place(bytes[3] % 2 == 1, bytes.split_at(8).1) {
        Some(place) => Err(FrameError::EntryCut(8 + place)),
        None => Ok(Datagram::Trunk(Trunk::new(bytes))),
    }
}

// Returns the datagram that the octets spell, or the reason why they spell none.
fn datagram_of(bytes: &[u8]) -> Result<Datagram<'_>, FrameError>
    ensures exact { MatchResult result (Spells bytes.now) (Refuses bytes.now) }
    ensures only { (d : Datagram) → Spells bytes.now d → result ≡ Ok d }
{
    if bytes.len() < 4 {
        return Err(FrameError::Short);
    }
    if bytes[0] >= 0x80 {
        if bytes.len() < 12 {
            return Err(FrameError::Short);
        }
        return Ok(Datagram::Full(full_of(bytes)));
    }
    if u16_at(bytes, 0) > 0 {
        return Ok(Datagram::Mini(Mini::new(bytes)));
    }
    meta_of(bytes)
}

/// Reads the frame that the octets spell ("Full Frames", "Mini Frames", "Meta Frames"), in one pass over the heads of its
/// entries. Nothing is copied.
///
/// Errors are checked in this order: `Short` if there are too few octets for any frame, or for a full frame. A meta frame
/// is then `Short` if there are too few for video, and `MetaCommand` if the command isn't that of a trunk. It is `Short` if
/// there are too few for a trunk, and `EntryCut` if an entry passes the end.
pub fn read(bytes: &[u8]) -> Result<Datagram<'_>, FrameError>
    // A datagram that is read spells the octets, and an error holds of them.
    ensures exact { MatchResult result (Spells bytes.now) (Refuses bytes.now) }
    // Each spelled datagram is read, and each error is returned if it holds.
    ensures only { (d : Datagram) → Spells bytes.now d → result ≡ Ok d }
    ensures only_error { (e : FrameError) → Refuses bytes.now e → result ≡ Err e }
{
    datagram_of(bytes)
}
