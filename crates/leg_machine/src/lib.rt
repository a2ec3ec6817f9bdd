//! One leg of a call, and its steps: a frame, an order or a tick ("Full Frames", "IAX Frames", "Message Transport").
#![tactic(auto)]

mod idleness;
pub mod laws;
mod leg;
mod leg_readers;
mod leg_table;
mod legs_by_value;
mod machine;
mod media;
mod orders;
mod record_room;
mod reply_data;
mod resending;
mod ticking;
mod working_order;

pub use call_signals::{
    Caller, Cause, Command, Credential, Digit, ElementText, Failure, Format, Formats, Heard,
    Indication, Judged, MediaIn, MediaSpan, Message, Moments, Onward, Order, OrderError, Outcome,
    PeerRules, Replies, Signal, Stage, StepError, TickOutcome, order_of,
};
pub use leg::Leg;
pub use media::MediaSent;
