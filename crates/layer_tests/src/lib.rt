//! Tests of the layers below an exchange, one module each. They call the functions that a layer offers, with values from
//! outside, and with each request for memory refused once. Those of a whole leg are in `leg`, those of a peer in `peer`.
//! `plans` and `frames` are the plans and frames of these and of the exchange's tests.
#![tactic(auto)]

mod builder;
pub mod frames;
pub mod plans;
#[cfg(test)]
mod tests;
