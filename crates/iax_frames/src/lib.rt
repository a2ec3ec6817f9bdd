//! The frames of IAX2 (RFC 5456), both ways: from the octets of a datagram to the frame, and from a frame to its octets.
#![tactic(auto)]

mod call_number;
mod datagram;
mod full_frame;
mod mini_frame;
mod octets;
mod output;
mod reading;
mod remembered_octets;
mod stored_frame;
mod trunk_frame;
mod video_frame;

pub use call_number::CallNumber;
pub use datagram::{Datagram, FrameError};
pub use full_frame::{Full, FullHead, subclass_meaning};
pub use mini_frame::Mini;
pub use output::{
    Out, TooLong, append_entry, append_entry_in_two, full_head, mini_head, write_full, write_mini,
    write_trunk,
};
pub use reading::read;
pub use remembered_octets::Octets;
pub use stored_frame::{Frame, Payload};
pub use trunk_frame::{Entries, Trunk};
pub use video_frame::Video;
