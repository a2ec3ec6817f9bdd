//! The limit on the size of files. A write beyond it ends the process by a signal, so each write is compared with it first.
ghost use Rattle.std.specs.Prelude.{◌≡◌, ◌+◌, ◌<◌, ◌≤◌};

use libc::types::rlimit;

// The limit on the size of files among those that `getrlimit` knows.
const FILE_SIZE: i32 = 1;

// The origin of a seek: the end of the file.
const FROM_END: i32 = 2;

/// The system's number of the error "File too large", with which a write beyond the limit fails if the signal is ignored.
pub const ABOVE_LIMIT: i32 = 27;

/// Returns the greatest length of a file by the limit of the process, in octets; `u64::MAX` without a limit.
pub fn file_size_limit() -> u64 {
    let mut limit = rlimit {
        rlim_cur: u64::MAX,
        rlim_max: u64::MAX,
    };
    if libc::getrlimit(FILE_SIZE, &mut limit) == 0 {
        limit.rlim_cur
    } else {
        u64::MAX
    }
}

/// Returns the number of `octets` octets that fit in a file that has `length` octets and may have `limit`.
pub fn octets_below(limit: u64, length: u64, octets: usize) -> usize
    ensures most { result ≤ octets }
    ensures within { length ≤ limit → length + result ≤ limit }
    ensures all { length + octets ≤ limit → result ≡ octets }
    ensures none { limit ≤ length → result ≡ 0 }
{
    let room = limit.saturating_sub(length);
    if room < octets as u64 {
        room as usize
    } else {
        octets
    }
}

/// Returns whether `octets` more octets, at the end of a descriptor's file, would pass the limit of the process. For a
/// pipe, a socket or a terminal it returns false. A descriptor of a file that isn't written at its end is moved there.
pub fn is_above(descriptor: i32, octets: usize) -> bool {
    let limit = file_size_limit();
    if limit == u64::MAX {
        return false;
    }
    match u64::try_from(libc::lseek(descriptor, 0, FROM_END)) {
        Ok(length) => octets_below(limit, length, octets) < octets,
        Err(_) => false,
    }
}
