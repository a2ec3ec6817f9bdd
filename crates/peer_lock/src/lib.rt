//! One peer: its legs, its outbox, its trunk queue and its accounts, behind one lock.
#![tactic(auto)]

mod arrivals;
mod closed;
mod descriptions;
mod errors;
pub mod laws;
mod media_arrivals;
mod openings;
mod orders;
mod outboxes;
mod pokes;
mod read_datagram;
mod state;
mod steps;
mod ticks;
mod trunk_entries;
mod unknown_calls;

pub use closed::ClosedPeer;
pub use descriptions::Description;
pub use errors::{OpenError, OrderError, PeerError, RejectError, StepsSpent};
pub use outbox::Losses;
pub use peer_accounts::{LedgerSet, Offer, Onwards, Pass, Service, Sums};
pub use pokes::Pokes;
pub use read_datagram::ReadDatagram;
pub use state::PeerState;
pub use steps::{EndedLeg, LegFacts, Rejection, Status, Step, TickReport};
