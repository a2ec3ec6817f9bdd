//! The log of a service, line by line.
#![tactic(auto)]

mod call_file_lines;
mod drop_lines;
mod end_lines;
mod lines;
mod log_state;
mod news;
mod output_log;
mod peer_lines;
mod start_lines;
mod strangers;
mod trace_lines;

pub use call_file_lines::log_call_file_end;
pub use end_lines::{CallLines, ShownNumbers};
pub use log_state::LogState;
pub use start_lines::log_start;
pub use trace_lines::log_trace_end;
