//! The frames of one side of a call that wait for their acknowledgement, in a ring of fixed size (RFC 5456, "Message Transport").
#![tactic(auto)]

mod held_frame;
mod queue;

pub use held_frame::Held;
pub use queue::{NoPlace, Resend};
