//! The queue of media that waits for a trunk frame, and the trunk frames that take it ("Meta Frames").
#![tactic(auto)]

mod packer;
mod pieces;
mod stored;

pub use packer::{Packer, QueueError, entry_head_len};
