//! The context of the seats of one exchange.
use peer_plan::Plan;
use std::alloc::Global;
use std::time::Instant;
use trace_writer::Trace;

/// The context of the seats of one exchange: the system that they run on, the plan, and what the run gives to all of them.
#[derive(Drop)]
pub struct SeatContext<'t, R> {
    pub rt: &'t R,
    pub alloc: Global,
    pub plan: &'t Plan,
    /// The moment at which the exchange was opened.
    pub opened: Instant,
    /// The trace of the exchange's input, if one is written.
    pub trace: Option<&'t Trace>,
}
