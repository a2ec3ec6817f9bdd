//! A service: the workers of a plan carry calls until a client of the control socket stops them. It gives metrics, and writes a
//! log.
//!
//! It starts through four functions, each of which calls the next. `run` reads the plan and opens the listeners,
//! `run_with_exchange` opens the exchange and the files, `run_with_sockets` binds the workers' sockets, and `run_with_threads`
//! starts the threads.
#![tactic(auto)]

mod control;
mod journal;
mod open_service;
mod opening;
mod recording;
mod running;
mod seating;
mod service_context;
mod service_sockets;
mod start_faults;
mod system;

pub use running::{Settings, TraceOptions, run};
pub use service_context::ServiceContext;
pub use service_log::{CallLines, ShownNumbers};
pub use system::{ServiceDisk, ServiceSystem};
