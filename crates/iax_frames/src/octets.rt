//! Numbers at a place among octets, the highest octet first.
ghost use Rattle.std.specs.Prelude.{◌≡◌, ◌+◌, ◌≤◌, length, nat_le};
ghost use Rattle.iax_frames.specs.Octets.{u16_at as word, u32_at as double, below_flag};

use crate::call_number::CallNumber;

pub(crate) fn u16_at(bytes: &[u8], at: usize) -> u16
    requires { at + 2 ≤ length bytes.now }
    ensures { result ≡ word bytes.now at }
{
    bytes[at] as u16 * 256 + bytes[at + 1] as u16
}

pub(crate) fn u32_at(bytes: &[u8], at: usize) -> u32
    requires { at + 4 ≤ length bytes.now }
    ensures { result ≡ double bytes.now at }
{
    u16_at(bytes, at) as u32 * 65536 + u16_at(bytes, at + 2) as u32
}

/// Returns the highest bit of a number, and the fifteen bits below it.
pub(crate) fn flagged_at(bytes: &[u8], at: usize) -> (bool, CallNumber)
    requires { at + 2 ≤ length bytes.now }
    ensures flag { result.0 ≡ nat_le 32768 (word bytes.now at) }
    ensures number { result.1 ≡ below_flag (word bytes.now at) }
{
    let word = u16_at(bytes, at);
    if word < 0x8000 {
        (false, CallNumber::new(word))
    } else {
        (true, CallNumber::new(word - 0x8000))
    }
}
