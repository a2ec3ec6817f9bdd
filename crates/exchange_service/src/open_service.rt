//! A service whose exchange is open.
use crate::service_context::ServiceContext;
use exchange_core::{Exchange, NoGate};
use peer_lock::LedgerSet;
use service_state::ServiceWatch;
use std::time::Instant;

/// A service whose exchange is open: its context, the exchange, and the watch that its workers report to.
#[derive(Drop)]
pub(crate) struct OpenService<'x, R, D, J: LedgerSet> {
    pub(crate) context: &'x ServiceContext<'x, R, D>,
    pub(crate) exchange: &'x Exchange<NoGate, J>,
    pub(crate) watch: &'x ServiceWatch,
    /// The moment at which the exchange was opened.
    pub(crate) opened: Instant,
}
