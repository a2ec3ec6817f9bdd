//! Requests for memory. Proofs know of each whether it was refused.
#![tactic(auto)]

mod requests;

pub use requests::{
    boxed, copied, deque_with_capacity, filled, octets_of, push, reserve, ring_with_capacity,
    with_capacity,
};
