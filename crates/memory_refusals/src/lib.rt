//! The fact that a request for memory was refused. Only proofs see it, and only `memory_requests` may depend on this crate.
#![tactic(auto)]
