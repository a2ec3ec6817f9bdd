//! Limits of the process: the size of its files, the number of its descriptors, its user, and the links that it may follow;
//! and whether a descriptor takes octets without waiting.

mod descriptors;
mod file_size;
mod links;

pub use descriptors::{fill_standard, has_free, is_writable};
pub use file_size::{ABOVE_LIMIT, file_size_limit, is_above, octets_below};
pub use links::{is_same_file, refuse_exchanged, refuse_link};

/// Returns the user whose rights the process has.
pub fn user() -> u32 {
    libc::geteuid()
}
