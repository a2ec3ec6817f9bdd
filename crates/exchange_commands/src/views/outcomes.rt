//! The results of a view.
use crate::{ReplayError, Stop, write_outcome};
use std::io;
use std::io::Write;

/// Converts a failure to keep a view in memory to the viewer's error.
pub(crate) fn kept(outcome: io::Result<()>) -> Result<(), Stop> {
    match outcome {
        Ok(()) => Ok(()),
        Err(_) => Err(Stop::Memory),
    }
}

/// Writes a finished view, and returns the status: 0, or 1 if the output can't be written.
pub(crate) fn write_view<W: Write>(octets: &[u8], writer: &mut W) -> u8 {
    match writer.write_all(octets) {
        Ok(()) => 0,
        Err(_) => write_outcome(Err(ReplayError::Writer), writer),
    }
}
