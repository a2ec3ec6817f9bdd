//! Workers: each carries datagrams between its own socket and the exchange, only for its own peers.
#![tactic(auto)]

mod draining;
mod inbox;
mod intake;
mod receiving;
mod report;
mod run_context;
mod running;
mod seat;
mod sending;
mod sign_of_life;
mod sources;
mod tally;
mod threads;
mod turn_observer;
mod turning;
mod unwatched;
mod waking;
mod worker;

pub use exchange_core::{Event, ServiceStage, Watch};
pub use intake::Intake;
pub use report::TurnReport;
pub use run_context::RunContext;
pub use running::MOST_TURNS;
pub use seat::{PlanBrand, Seat, SeatState, Start, WatchedExchange};
pub use sources::{Challenges, TurnClock};
pub use threads::{NoThread, run_all};
pub use turn_observer::{TurnObserver, Unobserved};
pub use udp_wires::{BindError, MioWire, PeerCounts, Sharing, Wire, WireFault};
pub use unwatched::Unwatched;
pub use worker::Worker;
