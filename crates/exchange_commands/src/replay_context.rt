//! The context in which a script is played.
use exchange_core::{Exchange, NoGate, Pass};
use peer_lock::LedgerSet;
use std::alloc::Global;

/// The context in which a script is played: an exchange with a pass of it, and the viewer that observes the replay.
#[derive(Drop)]
pub(crate) struct ReplayContext<'a, R, J: LedgerSet, V> {
    pub(crate) rt: &'a R,
    pub(crate) alloc: Global,
    pub(crate) exchange: &'a Exchange<NoGate, J>,
    pub(crate) pass: &'a mut Pass<J>,
    pub(crate) viewer: &'a mut V,
}
