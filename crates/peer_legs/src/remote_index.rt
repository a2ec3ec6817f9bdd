//! Local numbers by remote number, in an array.
ghost use Rattle.std.specs.Option.{ForSome};
ghost use Rattle.std.specs.Prelude.{◌≡◌, ◌^◌, ◌<◌, ◌≤◌, IfOk, OnErr, Some, length, slice_get};
ghost use Rattle.peer_legs.specs.RemoteNumbers.{AreNone, noted};
ghost use Rattle.memory_requests.specs.Refused.{WasRefused};

use iax_frames::CallNumber;
use memory_requests::filled;
use std::alloc::{AllocError, Global};
use std::marker::Model;

// The count of call numbers, which have 15 bits.
const CALL_NUMBERS: usize = 0x8000;

// The local number of the leg that has each remote number: an array with a place for each call number.
#[derive(Drop)]
pub(crate) struct RemoteIndex {
    numbers: Vec<Option<u16>>,
}

impl Model for RemoteIndex {
    ghost use Rattle.std.specs.Prelude.{◌≡◌, ◌^◌, ℕ, List, Option, length};

    ghost Value = { List (Option ℕ) };

    ghost view = { λ index. index.numbers.items };

    ghost invariant = { λ index. length index.numbers.items ≡ 2 ^ 15 };
}

// Returns `places` places without a number.
fn no_numbers(alloc: Global, places: usize) -> Result<Vec<Option<u16>>, AllocError>
    requires few { places ≤ 2 ^ 15 }
    ensures len { IfOk result (λ numbers. length numbers.items ≡ places) }
    ensures none { IfOk result (λ numbers. AreNone numbers.items) }
    ensures no_memory { OnErr result WasRefused }
{
    filled(alloc, None, places)
}

impl RemoteIndex {
    // Returns an index in which no leg has a remote number.
    pub(crate) fn new(alloc: Global) -> Result<RemoteIndex, AllocError>
        ensures none { IfOk result AreNone }
        ensures no_memory { OnErr result WasRefused }
    {
        Ok(RemoteIndex {
            numbers: no_numbers(alloc, CALL_NUMBERS)?,
        })
    }

    // Returns the local number of the leg that has a remote number.
    pub(crate) fn get(&self, remote: CallNumber) -> Option<u16>
        ensures { slice_get self.now remote ≡ Some result }
    {
        self.numbers[usize::from(remote.get())]
    }

    // Notes that the leg of this local number, or none, has the remote number, if one is known.
    pub(crate) fn note(&mut self, remote: Option<CallNumber>, number: Option<u16>)
        ensures index { self.new ≡ noted self.old remote number }
        ensures within { ForSome remote (λ remote. remote < length self.old) }
    {
        if let Some(remote) = remote {
            self.numbers[usize::from(remote.get())] = number;
        }
    }
}
