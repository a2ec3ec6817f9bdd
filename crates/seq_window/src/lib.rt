//! The sequence numbers of one call leg (RFC 5456, "Message Transport"): a window of sent frames over counters of eight
//! bits. The record of what the leg sent, what was acknowledged and what it took.
#![tactic(auto)]

mod errors;
mod history;
mod judgements;
pub mod laws;
mod sliding_window;

pub use errors::{RecordError, SendError};
pub use history::{EntryView, FrameView, Record};
pub use judgements::{Acknowledged, Received, Resent};
pub use sliding_window::Window;
