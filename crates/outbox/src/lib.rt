//! The datagrams that wait to be sent to a peer, each at its own length.
#![tactic(auto)]

mod losses;
mod outbox;

pub use losses::Losses;
pub use outbox::Outbox;
