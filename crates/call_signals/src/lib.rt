//! The vocabulary of a call: the messages of full frames, the stages of a leg, its answers and signals, its orders, and the
//! rules of its peer ("Frame Types", "Call Setup", "Information Elements").
#![tactic(auto)]

mod caller;
mod cause;
pub mod codes;
pub mod effects;
mod endings;
mod failure;
mod format;
pub mod laws;
mod local_number;
mod message;
mod moments;
mod new_elements;
pub mod openings;
mod order;
mod outcomes;
mod reply;
pub mod reply_elements;
mod rules;
mod signal;
mod stage;

pub use caller::Caller;
pub use cause::Cause;
pub use effects::{Answering, Effect, Mark};
pub use endings::ending_cause;
pub use failure::Failure;
pub use format::{Format, Formats};
pub use local_number::LocalNumber;
pub use message::Message;
pub use moments::Moments;
pub use new_elements::NewElements;
pub use openings::Opening;
pub use order::{Command, Order, OrderError, order_of};
pub use outcomes::{Heard, Judged, MediaIn, Outcome, StepError, TickOutcome};
pub use reply::{Replies, ReplyFrame};
pub use rules::{Credential, PeerRules, are_printable};
pub use signal::{Digit, ElementText, Indication, MediaSpan, Onward, Signal};
pub use stage::Stage;
