//! Laws alone. Runs of the peers and the book that are stored, while many calls are made at once ("Call Setup").
#![tactic(auto)]

pub mod book_calls;
pub mod calls;
pub mod laws;
pub mod peer_calls;
