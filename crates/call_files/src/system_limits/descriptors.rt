//! Descriptors: whether one takes octets, the number of free ones, and the three that each process has.
use libc::net::{POLLOUT, poll};
use libc::types::pollfd;

// The greatest number of descriptors that are looked for.
const MOST: usize = 128;

/// Returns whether a descriptor takes octets without waiting: a pipe or a terminal with room, or a regular file. One that
/// fails takes them too, and returns the error. A pipe with room takes 4,096 octets.
pub fn is_writable(descriptor: i32) -> bool {
    let mut asked = [pollfd {
        fd: descriptor,
        events: POLLOUT,
        revents: 0,
    }];
    poll(&mut asked, 0) != 0
}

// Returns a descriptor of `/dev/null`, or a number below 0.
fn open_nothing() -> i32 {
    os::open_update(b"/dev/null")
}

/// Opens `/dev/null` at each of the descriptors 0 to 2 that is closed. Otherwise a file or a socket could get their
/// numbers, and the text for standard output or standard error.
pub fn fill_standard() {
    for _ in 0..4 {
        let descriptor = open_nothing();
        if descriptor < 0 || descriptor > 2 {
            close(descriptor);
            return;
        }
    }
}

fn close(descriptor: i32) {
    if descriptor >= 0 {
        let _ = libc::close(descriptor);
    }
}

/// Returns whether the process may open `count` more descriptors, at most 128. It closes all of them again.
pub fn has_free(count: usize) -> bool {
    let mut opened = [-1; MOST];
    let mut are_free = true;
    for slot in opened.iter_mut().take(count) {
        *slot = open_nothing();
        if *slot < 0 {
            are_free = false;
            break;
        }
    }
    for descriptor in opened {
        close(descriptor);
    }
    are_free
}
