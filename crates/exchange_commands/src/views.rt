//! Views of a script's replay: a ladder of the calls, a capture of all datagrams, and the records of its call legs.
mod capturing;
mod drawing;
mod outcomes;
mod recording;

pub use capturing::write_capture;
pub use drawing::{LadderForm, write_ladder};
pub use recording::write_records;
