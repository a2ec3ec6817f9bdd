//! The commands of the exchange's program: a plan is checked, a script is read and replayed on an exchange, views of a replay
//! are written, the workers of a plan serve.
#![tactic(auto)]

mod arguments;
mod checking;
mod free_order;
mod outboxes;
mod player;
mod printing;
mod replay_context;
mod replaying;
mod script_line;
mod serving;
mod stages;
mod viewer;
mod views;
mod words;

pub use arguments::turn_count;
pub use checking::check;
pub use replaying::{
    ReplayError, ReplayFiles, replay, replay_buffered, replay_with, write_outcome,
};
pub use script_line::{ScriptLine, decimal, ends_script, line_of};
pub use serving::serve;
pub use viewer::{PeerOfPlan, ReceivedDatagram, Stop, Viewer};
pub use views::{LadderForm, write_capture, write_ladder, write_records};
