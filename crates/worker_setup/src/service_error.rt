//! The reasons why a service ends early.
ghost use Rattle.std.specs.Prelude.{◌≡◌, IsOk, if◌then◌else◌, is_ok, option_map};
ghost use Rattle.worker_setup.specs.ServiceErrors.{error_text, from_bind};
ghost use Rattle.worker_setup.specs.declared.service_error.ServiceError.TheVariants as errors;

use std::alloc::AllocError;
use std::io;
use std::io::Write;
use udp_wires::BindError;
use udp_workers::NoThread;

/// The reason why a service ends before its turns are made, or before its accounts are written.
#[derive(Clone, Copy, Debug, PartialEq, Eq)]
pub enum ServiceError {
    /// A worker's socket isn't bound.
    Bind,
    /// A request for memory was refused.
    Memory,
    /// A thread was refused.
    NoThread,
    /// The system's clock can't be read.
    Clock,
    /// The system gives no random octets.
    Entropy,
    /// The output can't be written.
    Writer,
    /// The folder of the trace can't be made, isn't this user's alone, or has no regular file to write.
    Trace,
    /// The process may not open the number of files that it needs.
    Descriptors,
}

impl From<BindError> for ServiceError {
    ghost from_gives = { λ of e. e ≡ from_bind of };

    fn from(error: BindError) -> ServiceError {
        match error {
            BindError::Bind => ServiceError::Bind,
            BindError::Memory => ServiceError::Memory,
        }
    }
}

impl From<AllocError> for ServiceError {
    ghost from_gives = { λ _ e. e ≡ errors.Memory };

    fn from(_error: AllocError) -> ServiceError {
        ServiceError::Memory
    }
}

impl From<NoThread> for ServiceError {
    ghost from_gives = { λ _ e. e ≡ errors.NoThread };

    fn from(_error: NoThread) -> ServiceError {
        ServiceError::NoThread
    }
}

impl From<io::Error> for ServiceError {
    ghost from_gives = { λ _ e. e ≡ errors.Writer };

    fn from(_error: io::Error) -> ServiceError {
        ServiceError::Writer
    }
}

// Returns the word printed after `refused`: the name of the variant. `Writer` has none, because then nothing can be
// printed.
fn service_error_name(error: ServiceError) -> Option<&'static str>
    ensures { option_map (λ name. name.now) result ≡ error_text error }
{
    match error {
        ServiceError::Bind => Some("Bind"),
        ServiceError::Memory => Some("Memory"),
        ServiceError::NoThread => Some("NoThread"),
        ServiceError::Clock => Some("Clock"),
        ServiceError::Entropy => Some("Entropy"),
        ServiceError::Trace => Some("Trace"),
        ServiceError::Descriptors => Some("Descriptors"),
        ServiceError::Writer => None,
    }
}

/// Returns the status of a command that serves: 0, or 1 after an error, which is printed as `refused <name>` if it has a
/// name.
pub fn status_of<W: Write>(served: Result<(), ServiceError>, writer: &mut W) -> u8
    ensures status { result ≡ (if is_ok served then 0 else 1) }
    ensures same { IsOk served → writer.new ≡ writer.old }
{
    let Err(error) = served else {
        return 0;
    };
    if let Some(name) = service_error_name(error) {
        let _ = writeln!(writer, "refused {name}");
    }
    1
}
