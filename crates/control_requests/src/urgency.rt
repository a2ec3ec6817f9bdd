//! How soon the requests of clients are answered.
ghost use Rattle.std.specs.Prelude.{◌≡◌};
ghost use Rattle.control_requests.specs.Urgency.{urgency_in, urgency_of};

use crate::operation::{Operation, operation_of};

/// How soon a request is answered, the soonest first.
#[derive(Clone, Copy, Debug, PartialEq, Eq)]
pub enum Urgency {
    /// At the control socket: it changes calls or the service.
    Order,
    /// At the control socket: it only reads, or is refused.
    Query,
    /// Any request to the address of the metrics.
    Metrics,
}

// Returns how soon an operation is carried out.
fn urgency_in(operation: Operation) -> Urgency
    ensures { result ≡ urgency_in operation }
{
    match operation {
        Operation::Table
        | Operation::Peers
        | Operation::Calls
        | Operation::Call(_)
        | Operation::Accounts => Urgency::Query,
        Operation::Place
        | Operation::HangUp(_)
        | Operation::Stop
        | Operation::StopGracefully
        | Operation::Drain
        | Operation::EndDrain => Urgency::Order,
    }
}

/// Returns how soon a request to the control socket is answered, by its method and its path: `Order` if its operation
/// changes calls or the service, otherwise `Query`.
pub fn urgency_of(method: &str, path: &str) -> Urgency
    ensures { result ≡ urgency_of method.now path.now }
{
    match operation_of(method, path) {
        Ok(operation) => urgency_in(operation),
        Err(_) => Urgency::Query,
    }
}
