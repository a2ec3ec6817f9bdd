//! Video meta frames ("Meta Frames").
ghost use Rattle.std.specs.Prelude.{◌≡◌, ◌≤◌, length};
ghost use Rattle.iax_frames.specs.VideoFrame.{video_at};

use crate::call_number::CallNumber;
use crate::octets::{flagged_at, u16_at};
use std::marker::Model;

/// A video frame in the octets of a datagram.
#[derive(Debug, Drop)]
pub struct Video<'a> {
    octets: &'a [u8],
}

impl<'a> Model for Video<'a> {
    ghost use Rattle.std.specs.Prelude.{◌≤◌, length};
    ghost use Rattle.iax_frames.specs.VideoFrame.{VideoFrame, video_at};

    ghost Value = { VideoFrame };

    ghost view = { λ v. video_at v.octets.now };

    ghost invariant = { λ v. 6 ≤ length v.octets.now };
}

impl<'a> Video<'a> {
    // Returns the video frame that the octets spell, if they begin with sixteen bits 0 and a bit 1.
    pub(crate) fn new(octets: &'a [u8]) -> Self
        requires { 6 ≤ length octets.now }
        ensures { result ≡ video_at octets.now }
    {
        Video { octets }
    }

    /// Returns the sender's number of the call, 0 ..= 32,767.
    pub fn source(&self) -> CallNumber
        ensures { result ≡ self.now.source }
    {
        flagged_at(self.octets, 2).1
    }

    /// Returns the timestamp with its flag, 16 bits.
    pub fn timestamp(&self) -> u16
        ensures { result ≡ self.now.timestamp }
    {
        u16_at(self.octets, 4)
    }

    /// Returns the video data, which may be empty.
    pub fn payload(&self) -> &'a [u8]
        ensures { result.now ≡ self.now.payload }
    {
        self.octets.split_at(6).1
    }
}
