//! The refusals of a window's calls.

/// The reason why a frame was not sent, in the order in which reasons are checked.
#[derive(Clone, Copy, Debug, PartialEq, Eq)]
pub enum SendError {
    /// As many frames are held as the window is wide.
    WindowFull,
    /// The record has as many entries as it may.
    RecordFull,
    /// A request for memory was refused.
    Memory,
}

/// The reason why a received frame was not recorded, in the order in which reasons are checked.
#[derive(Clone, Copy, Debug, PartialEq, Eq)]
pub enum RecordError {
    /// The record has as many entries as it may.
    RecordFull,
    /// A request for memory was refused.
    Memory,
}
