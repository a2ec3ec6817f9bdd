//! The requests for memory of the crates above. Only these functions let a proof know that a request was refused. Each asks for
//! at most 65,537 payloads of 1,388 octets (`most_octets`).
ghost use Rattle.std.specs.Prelude.{◌≡◌, ◌+◌, ◌*◌, ◌<◌, ◌≤◌, ◌↔◌, ◌^◌, [], IfErr, IfOk, IsErr, IsOk, OnErr, OnOk};
ghost use Rattle.std.specs.Prelude.{◌∷◌, ◌++◌, is_ok, length, replicate, vec_capacity, vec_len, if◌then◌else◌};
ghost use Rattle.std.specs.VecDeque.{deque_capacity, deque_len};
ghost use Rattle.circular_buffer.specs.Buffer.{buffer};
ghost use Rattle.std.specs.Mem.{type_size};
ghost use Rattle.memory_requests.specs.Refused.{WasRefused};
ghost use Rattle.memory_requests.specs.Requests.{most_octets};

use circular_buffer::HeapCircularBuffer;
use std::alloc::{AllocError, AllocFailed, Global};
use std::collections::VecDeque;

/// Makes room for `count` more elements in a list, whose elements stay.
///
/// Returns `Err` only if the list had less room and the request was refused. Then its room is as before.
pub fn reserve<T: Drop>(list: &mut Vec<T>, count: usize) -> Result<(), AllocError>
    requires few { count * type_size T.row ≤ most_octets }
    ensures items { list.new.items ≡ list.old.items }
    ensures ok { OnOk result (vec_len list.new + count ≤ vec_capacity list.new) }
    ensures capacity { vec_capacity list.old ≤ vec_capacity list.new }
    ensures full { OnErr result (vec_capacity list.old < vec_len list.old + count) }
    ensures err { OnErr result (vec_capacity list.new ≡ vec_capacity list.old) }
    ensures refused { OnErr result WasRefused }
{
    list.reserve(count)
}

/// Returns an empty list with room for `count` elements. Returns `Err` only if the request was refused.
pub fn with_capacity<T: Drop>(alloc: Global, count: usize) -> Result<Vec<T>, AllocError>
    requires few { count * type_size T.row ≤ most_octets }
    ensures items { IfOk result (λ list. list.items ≡ []) }
    ensures room { IfOk result (λ list. vec_capacity list ≡ count) }
    ensures none { count ≡ 0 → IsOk result }
    ensures refused { OnErr result WasRefused }
{
    Vec::with_capacity(alloc, count)
}

/// Adds an element at the end of a list. Returns it as an `Err` only if the list had no room for it and the request was
/// refused.
pub fn push<T: Drop>(list: &mut Vec<T>, value: T) -> Result<(), AllocFailed<T>>
    requires few { (vec_len list.old + 1) * type_size T.row ≤ most_octets }
    ensures items { list.new.items ≡ (if is_ok result then list.old.items ++ value ∷ [] else list.old.items) }
    ensures len { vec_len list.new ≡ (if is_ok result then vec_len list.old + 1 else vec_len list.old) }
    ensures capacity { vec_capacity list.old ≤ vec_capacity list.new }
    ensures full { OnErr result (vec_capacity list.old ≤ vec_len list.old) }
    ensures refused { OnErr result WasRefused }
{
    list.push(value)
}

/// Returns a list of the same numbers or other elements that are copied. Returns `Err` only if the request was refused.
pub fn copied<T: Copy + Drop>(alloc: Global, values: &[T]) -> Result<Vec<T>, AllocError>
    requires few { length values.now * type_size T.row ≤ most_octets }
    ensures items { IfOk result (λ list. list.items ≡ values.now) }
    ensures refused { OnErr result WasRefused }
{
    Vec::from_slice(alloc, values)
}

/// Returns a list of `count` clones of a value. Returns `Err` only if the request was refused.
pub fn filled<T: Clone + Drop>(alloc: Global, value: T, count: usize) -> Result<Vec<T>, AllocError>
    requires few { count * type_size T.row ≤ most_octets }
    ensures len { IfOk result (λ list. vec_len list ≡ count) }
    ensures items { IfOk result (λ list. ((clone : T) → T.is_clone value clone → clone ≡ value) →
        list.items ≡ replicate count value) }
    ensures refused { OnErr result WasRefused }
{
    vec![in alloc; value; count]
}

/// Returns an empty queue with room for `count` elements. Returns `Err` only if the request was refused.
pub fn deque_with_capacity<T: Drop>(alloc: Global, count: usize) -> Result<VecDeque<T>, AllocError>
    requires few { count * type_size T.row ≤ most_octets }
    ensures items { IfOk result (λ queue. queue.items ≡ []) }
    ensures len { IfOk result (λ queue. deque_len queue ≡ 0) }
    ensures room { IfOk result (λ queue. deque_capacity queue ≡ count) }
    ensures refused { OnErr result WasRefused }
{
    VecDeque::with_capacity(alloc, count)
}

/// Returns an empty ring with room for `count` elements. Returns `Err` only if the request was refused.
pub fn ring_with_capacity<T: Drop>(
    alloc: Global,
    count: usize,
) -> Result<HeapCircularBuffer<T>, AllocError>
    requires few { count * type_size T.row ≤ most_octets }
    ensures ring { IfOk result (λ ring. ring ≡ buffer [] count) }
    ensures refused { OnErr result WasRefused }
{
    HeapCircularBuffer::with_capacity(alloc, count)
}

/// Returns a value in memory of its own. Returns the value as an `Err` only if the request was refused.
pub fn boxed<T: Drop>(alloc: Global, value: T) -> Result<Box<T>, AllocFailed<T>>
    requires few { type_size T.row ≤ most_octets }
    ensures ok { IfOk result (λ made. made.value ≡ value) }
    ensures value_returned { IfErr result (λ failed. failed.value ≡ value) }
    ensures refused { OnErr result WasRefused }
{
    Box::new(alloc, value)
}

/// Returns the number of octets of `count` values of `each` octets. Returns `Err` if and only if that is 2^64 or more. It
/// asks for no memory.
pub fn octets_of(count: usize, each: usize) -> Result<usize, AllocError>
    ensures ok { IfOk result (λ octets. octets ≡ count * each) }
    ensures too_many { IsErr result ↔ (2 ^ 64 ≤ count * each) }
{
    count.checked_mul(each).ok_or(AllocError)
}
