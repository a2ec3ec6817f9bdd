//! Laws alone: of every step of a peer, of every trail that peers follow, and of two legs that are the opposite ends of one
//! call, whatever the network between them does ("Message Transport").
#![tactic(auto)]

pub mod opposite_legs;
pub mod peers;
pub mod trails;
