//! The frames of a datagram ("Full Frames", "Mini Frames", "Meta Frames").
use crate::full_frame::Full;
use crate::mini_frame::Mini;
use crate::trunk_frame::Trunk;
use crate::video_frame::Video;

/// The frame that a datagram spells ("Full Frames", "Mini Frames", "Meta Frames").
#[derive(Debug, Drop)]
pub enum Datagram<'a> {
    /// A full frame.
    Full(Full<'a>),
    /// A mini frame.
    Mini(Mini<'a>),
    /// A meta frame of video.
    Video(Video<'a>),
    /// A meta frame of a trunk.
    Trunk(Trunk<'a>),
}

/// The reason why a datagram spells no frame. `read` has the order in which the causes are checked.
#[derive(Clone, Copy, Debug, PartialEq, Eq)]
pub enum FrameError {
    /// Fewer octets than the shortest frame of its kind.
    Short,
    /// A meta command, 0 ..= 127, other than that of a trunk.
    MetaCommand(u8),
    /// The place, in octets of the datagram, of the first entry that passes the end.
    EntryCut(usize),
}
