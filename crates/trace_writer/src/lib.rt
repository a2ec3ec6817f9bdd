//! The trace of a service: a script of the exchange's input. A replay of it gives the same datagrams again. The threads of
//! the service note their calls without waiting for the disk, and a separate thread writes the notes to a folder.
#![tactic(auto)]

mod calls;
mod folder;
mod free_numbers;
mod handed;
mod hexadecimal;
mod lane;
mod mark;
mod parts;
mod spelling;
mod trace;
mod writer;

pub use folder::Folder;
pub use lane::TraceLane;
pub use parts::{TraceFile, TraceFolder};
pub use trace::{Trace, TraceState};
pub use writer::{TraceNotes, TraceSettings, write_trace_beside};
