//! States behind locks. Each step of a state is noted under the pass that makes it.
#![tactic(auto)]

mod made;
mod noted_book;
mod noted_peer;
mod pass;
mod peer_queries;
mod peer_steps;
mod seen;
mod stepped_peers;
pub mod trail;

pub use made::Made;
pub use noted_book::NotedBook;
pub use noted_peer::NotedPeer;
pub use pass::Pass;
