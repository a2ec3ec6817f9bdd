//! The legs of a peer, each found by its local number and by its remote number.
#![tactic(auto)]

mod challenges;
mod finding;
mod leg_steps;
mod named_leg;
mod peer_legs;
mod remote_index;
mod rests;

pub use named_leg::NamedLeg;
pub use peer_legs::PeerLegs;
