//! The range of numbers that each peer has.
ghost use Rattle.std.specs.Prelude.{◌≡◌, ◌<◌, ◌+◌, ◌^◌, IfOk, OnErr};
ghost use Rattle.std.specs.VecDeque.{deque_capacity};
ghost use Rattle.std.specs.List.{range_with_len};
ghost use Rattle.memory_requests.specs.Refused.{WasRefused};

use memory_requests::deque_with_capacity;
use std::alloc::{AllocError, Global};
use std::collections::VecDeque;

// Returns `count` numbers in ascending order, with room for no more.
pub(crate) fn numbers_from(
    alloc: Global,
    first: u16,
    count: u16,
) -> Result<VecDeque<u16>, AllocError>
    requires { first + count < 2 ^ 16 }
    ensures numbers { IfOk result (λ numbers. numbers.items ≡ range_with_len first count) }
    ensures room { IfOk result (λ numbers. deque_capacity numbers ≡ count) }
    ensures no_memory { OnErr result WasRefused }
{
    let mut numbers = deque_with_capacity(alloc, usize::from(count))?;
    for number in first..first + count {
        numbers.push_back_reserved(number);
    }
    Ok(numbers)
}
