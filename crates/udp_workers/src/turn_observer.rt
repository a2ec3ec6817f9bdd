//! An observer of the turns of a worker.
use call_auth::Challenge;
use call_book::PeerId;
use exchange_core::Event;
use peer_plan::Endpoint;

/// Observes the turns of a worker, on the worker's thread, as a trace does. Each method does nothing unless an implementation
/// has a body of its own.
pub trait TurnObserver {
    /// Observes the beginning of a turn, at this moment, in milliseconds since the exchange was opened, with this challenge.
    fn turn_begins(&mut self, _now: u64, _challenge: &Challenge) {}

    /// Observes that a received datagram is handled next. `_peer` is the peer of its endpoint, or `None` if no peer has it.
    fn datagram(&mut self, _peer: Option<PeerId>, _from: Endpoint, _octets: &[u8]) {}

    /// Observes that the peers of the worker are ticked next.
    fn ticks_begin(&mut self) {}

    /// Observes an event of the turn, right after the report to the watch.
    fn event(&mut self, _event: Event) {}

    /// Observes the end of the turn.
    fn turn_ends(&mut self) {}
}

/// Observes nothing.
#[derive(Clone, Copy, Debug, Drop)]
pub struct Unobserved;

impl TurnObserver for Unobserved {}
