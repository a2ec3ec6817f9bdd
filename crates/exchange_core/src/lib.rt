//! The exchange: peers under their locks, the book of calls, the passes of workers and callers, and the settlement of all
//! accounts. `Watch` is for workers and for their observers: the stage of a service, and the events that workers report.
#![tactic(auto)]

mod answers;
mod calls;
mod denial;
mod driver;
mod exchange;
mod gate;
pub mod laws;
mod leg_openings;
mod locked;
mod losses;
mod opening;
mod peer_sections;
mod printed_names;
mod queries;
mod rejections;
mod resources;
mod retired_legs;
mod routing;
mod settlement;
mod shares;
mod skipping;
mod steps;
mod watch;

pub use answers::{Answer, CallError, Refusal, Retired};
pub use exchange::Exchange;
pub use gate::{Gate, NoGate};
pub use losses::{PeerLosses, losses_of};
pub use peer_lock::Rejection;
pub use printed_names::{
    call_error_name, order_error_name, refusal_name, rejection_name, stage_name,
};
pub use settlement::{SettleError, Settlement};
pub use step_log::Pass;
pub use watch::{Event, ServiceStage, Watch};
