//! What is drawn of a replay: a ladder of the calls, and a capture of all datagrams. Nothing here waits, reads or writes.
#![tactic(auto)]

pub mod capture;
pub mod ladder;
