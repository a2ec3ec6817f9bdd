//! The book of calls: the numbers of call legs, the leases on them, and the bridges between them.
#![tactic(auto)]

mod book;
mod errors;
mod lease;
mod leg_name;
mod name_table;
mod peer_id;
mod ranges;

pub use book::CallBook;
pub use errors::{BridgeError, ReserveError, Stale};
pub use lease::Lease;
pub use leg_name::LegName;
pub use peer_id::PeerId;
