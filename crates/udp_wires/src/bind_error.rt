//! The reason why no socket was bound.
ghost use Rattle.std.specs.Prelude.{◌≡◌};
ghost use Rattle.udp_wires.specs.declared.bind_error.BindError.TheVariants as errors;

use std::alloc::AllocError;
use std::io;

/// The reason why no socket was bound.
#[derive(Clone, Copy, Debug, PartialEq, Eq)]
pub enum BindError {
    /// The system doesn't bind a socket to that endpoint, or has no more sockets.
    Bind,
    /// A request for memory was refused.
    Memory,
}

impl From<io::Error> for BindError {
    ghost from_gives = { λ _ e. e ≡ errors.Bind };

    fn from(_error: io::Error) -> BindError {
        BindError::Bind
    }
}

impl From<AllocError> for BindError {
    ghost from_gives = { λ _ e. e ≡ errors.Memory };

    fn from(_error: AllocError) -> BindError {
        BindError::Memory
    }
}
