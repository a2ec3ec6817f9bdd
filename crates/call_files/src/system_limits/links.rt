//! Links that the process may follow.
ghost use Rattle.std.specs.Prelude.{◌≡◌, ◌==◌, ◌||◌, not};

use crate::system_limits::user;
use std::fs::Metadata;
use std::io;
use std::os::unix::fs::MetadataExt;

// The system's number of the error "Permission denied".
const NOT_PERMITTED: i32 = 13;

// Returns whether a process of `user` may follow a name: it is no link, or the link is this user's or root's. Anybody may
// have put another link there.
fn may_follow(is_link: bool, owner: u32, user: u32) -> bool
    ensures { result ≡ ((not is_link || owner == user) || owner == 0) }
{
    !is_link || owner == user || owner == 0
}

/// Returns whether two names, or files, lead to the same file: one device and one inode.
pub fn is_same_file(one: &Metadata, other: &Metadata) -> bool {
    one.dev() == other.dev() && one.ino() == other.ino()
}

/// Returns `PermissionDenied` if a name is a link that belongs neither to the user of the process nor to root. `named` has
/// the metadata of the name itself, that of a link if it is one.
pub fn refuse_link(named: &Metadata) -> io::Result<()> {
    if may_follow(named.is_symlink(), named.uid(), user()) {
        Ok(())
    } else {
        Err(io::Error::from_raw_os_error(NOT_PERMITTED))
    }
}

/// Returns `PermissionDenied` if a file that was opened isn't the one to which its name leads now, `named`. Somebody may have
/// exchanged the name while it was opened.
pub fn refuse_exchanged(opened: &Metadata, named: &Metadata) -> io::Result<()> {
    if is_same_file(opened, named) {
        Ok(())
    } else {
        Err(io::Error::from_raw_os_error(NOT_PERMITTED))
    }
}
