//! Laws alone: of draining services, and of the datagrams that a worker's turns take.
#![tactic(auto)]

pub mod laws;
