//! The reason why the system refused a call.
ghost use Rattle.std.specs.Prelude.{◌≡◌, ◌<◌, ◌+◌, ◌^◌, None, IfSome, IsTrue, is_some};
ghost use Rattle.call_files.specs.Fault.{number_of};

use std::io;

/// The reason why the system refused a call: its error number, if it gave one.
#[derive(Clone, Copy, Debug, PartialEq, Eq)]
pub struct Fault {
    pub code: Option<i32>,
}

impl Fault {
    /// Returns the fault of an error of the system.
    pub fn of(error: &io::Error) -> Fault {
        Fault {
            code: error.raw_os_error(),
        }
    }

    /// Returns the fault as a number of at most 33 bits, so that threads can share it.
    pub fn number(self) -> u64
        ensures { result ≡ number_of self }
    {
        match self.code {
            Some(code) => u64::from(code.cast_unsigned()) + 2,
            None => 1,
        }
    }

    /// Returns the fault of a number of `number`, or `None` for 0.
    pub fn of_number(number: u64) -> Option<Fault>
        ensures none { number ≡ 0 → result ≡ None }
        ensures some { 0 < number → IsTrue (is_some result) }
        ensures back { number < 2 ^ 32 + 2 → IfSome result (λ fault. number_of fault ≡ number) }
    {
        match number {
            0 => None,
            1 => Some(Fault { code: None }),
            _ => match u32::try_from(number - 2) {
                Ok(code) => Some(Fault {
                    code: Some(code.cast_signed()),
                }),
                Err(_) => Some(Fault { code: None }),
            },
        }
    }
}
