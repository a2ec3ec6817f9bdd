//! The file of the control socket.
use libc::net::listen;
use mio::net::{UnixListener, UnixStream};
use std::alloc::Global;
use std::fs::{DirBuilder, Files};
use std::io::ErrorKind;
use std::net::Net;
use std::os::fd::{AsFd, AsRawFd};
use std::os::unix::fs::{DirBuilderExt, FileTypeExt, MetadataExt};
use std::os::unix::net;
use std::os::unix::net::SocketAddr;
use std::random::RandomSource;
use std::{fs, io};

// The number of clients that may wait to be accepted: the system's greatest.
const BACKLOG: i32 = -1;

// The number of names that are drawn for the folder until one is free.
const NAMES: u32 = 100;

// The characters of these names.
const LETTERS: &[u8; 64] = b"ABCDEFGHIJKLMNOPQRSTUVWXYZabcdefghijklmnopqrstuvwxyz0123456789-_";

// The system's numbers of the errors "Permission denied", "File exists" and "Address already in use".
const DENIED: i32 = 13;

const EXISTS: i32 = 17;

const IN_USE: i32 = 98;

// The mode of the file: only the owner may connect.
const MODE: u32 = 0o600;

/// The file of a listener, by its device and inode, which no other file has as long as the listener is open.
#[derive(Clone, Copy)]
pub(crate) struct SocketFile {
    device: u64,
    inode: u64,
}

// Returns the folder of a path, with the slash behind it.
fn folder_of(path: &str) -> &str {
    match path.rfind('/') {
        Some(place) => path.get(..=place).unwrap_or(""),
        None => "",
    }
}

// Returns the character of a name that an octet stands for: each of them for four octets.
fn letter(octet: u8) -> char {
    char::from(LETTERS[usize::from(octet % 64)])
}

// Draws a name for a folder next to the path: a dot and four characters. It is short, so that only the socket's own name
// and few folders make a path too long.
fn drawn_folder<R: RandomSource>(rt: &R, alloc: Global, path: &str) -> io::Result<String> {
    let mut octets = [0u8; 4];
    rt.fill_bytes(&mut octets)?;
    let [a, b, c, d] = octets;
    let folder = folder_of(path);
    let name = format!(in alloc;
        "{folder}.{}{}{}{}",
        letter(a),
        letter(b),
        letter(c),
        letter(d)
    )?;
    Ok(name)
}

// Makes a private folder next to the path. Nobody knows its name before it is there, so folders that are made beforehand
// can't take all of its names.
fn private_folder<R: Files + RandomSource>(
    rt: &R,
    alloc: Global,
    path: &str,
) -> io::Result<String> {
    let mut builder = DirBuilder::new();
    builder.mode(0o700);
    for _ in 0..NAMES {
        let folder = drawn_folder(rt, alloc, path)?;
        match builder.create(rt, folder.as_str()) {
            Ok(()) => return Ok(folder),
            Err(error) if error.kind() == ErrorKind::AlreadyExists => {}
            Err(error) => return Err(error),
        }
    }
    Err(io::Error::from_raw_os_error(EXISTS))
}

// Returns whether a path leads to the socket of a process that has ended, or `NotFound` if it leads nowhere.
fn is_dead<R: Files + Net>(rt: &R, path: &str) -> io::Result<bool> {
    if !fs::symlink_metadata(rt, path)?.file_type().is_socket() {
        return Ok(false);
    }
    match UnixStream::connect(rt, path) {
        Ok(_) => Ok(false),
        Err(error) if error.kind() == ErrorKind::ConnectionRefused => Ok(true),
        Err(error) => Err(error),
    }
}

// Removes the file that was moved away, if it is the socket of a process that has ended. Anything else is moved back,
// unless its path is taken by now.
fn remove_dead<R: Files + Net>(rt: &R, moved: &str, path: &str) -> io::Result<()> {
    if let Ok(true) = is_dead(rt, moved) {
        return fs::remove_file(rt, moved);
    }
    fs::hard_link(rt, moved, path)?;
    fs::remove_file(rt, moved)?;
    Err(in_use())
}

// Removes the socket of an ended process from the path. It is first moved to the private folder, where nobody can replace
// it.
fn make_room<R: Files + Net>(rt: &R, alloc: Global, folder: &str, path: &str) -> io::Result<()> {
    match is_dead(rt, path) {
        Ok(true) => {}
        Ok(false) => return Err(in_use()),
        Err(error) if error.kind() == ErrorKind::NotFound => return Ok(()),
        Err(error) => return Err(error),
    }
    let moved = format!(in alloc; "{folder}/o")?;
    fs::rename(rt, path, moved.as_str())?;
    remove_dead(rt, moved.as_str(), path)
}

// Returns "Address already in use": another process answers at the path, or the file there is no socket.
fn in_use() -> io::Error {
    io::Error::from_raw_os_error(IN_USE)
}

// Returns the error of the last failed system call.
fn system_error() -> io::Error {
    io::Error::from_raw_os_error(os::errno())
}

// Binds a listener at a free path. Its file has the right mode from the start, because the system takes it from the socket.
fn listener_at<R: Files + Net>(rt: &R, path: &str) -> io::Result<UnixListener> {
    let address = SocketAddr::from_pathname(path)?;
    let socket = rt.unix_socket()?;
    if libc::fchmod(socket.as_raw_fd(), MODE) != 0 {
        return Err(system_error());
    }
    rt.bind_unix(socket.as_fd(), &address)?;
    if listen(socket.as_raw_fd(), BACKLOG) != 0 {
        return Err(system_error());
    }
    let listener = net::UnixListener::from(socket);
    listener.set_nonblocking(true)?;
    Ok(UnixListener::from_std(listener))
}

// Links the file of a listener to the path, if nothing is there. Returns an error if others may connect to it.
fn put_at<R: Files>(rt: &R, bound: &str, path: &str) -> io::Result<SocketFile> {
    let found = fs::symlink_metadata(rt, bound)?;
    if found.mode() & 0o777 != MODE {
        return Err(io::Error::from_raw_os_error(DENIED));
    }
    match fs::hard_link(rt, bound, path) {
        Ok(()) => Ok(SocketFile {
            device: found.dev(),
            inode: found.ino(),
        }),
        Err(error) if error.kind() == ErrorKind::AlreadyExists => Err(in_use()),
        Err(error) => Err(error),
    }
}

// Binds a listener in a folder, and links its file to the path.
fn bind_in<R: Files + Net>(
    rt: &R,
    alloc: Global,
    folder: &str,
    path: &str,
) -> io::Result<(UnixListener, SocketFile)> {
    make_room(rt, alloc, folder, path)?;
    let bound = format!(in alloc; "{folder}/s")?;
    let listener = listener_at(rt, bound.as_str())?;
    let put = put_at(rt, bound.as_str(), path);
    let _ = fs::remove_file(rt, bound.as_str());
    match put {
        Ok(file) => Ok((listener, file)),
        Err(error) => Err(error),
    }
}

/// Binds a listener at the path. At no moment can anybody but its owner connect. The socket of an ended process is
/// replaced; nothing else is removed, even if the path changes meanwhile.
///
/// Returns "Address already in use" if another process answers there, or if the path has a file, a folder, a link or a
/// pipe. Other errors are the system's: a path of 108 octets or more, a folder that has more than 100 octets with its slash or
/// isn't there, or a file system without hard links.
pub(crate) fn bind<R: Files + Net + RandomSource>(
    rt: &R,
    alloc: Global,
    path: &str,
) -> io::Result<(UnixListener, SocketFile)> {
    // A longer path could be linked, but no client could connect to it.
    let _address = SocketAddr::from_pathname(path)?;
    let folder = private_folder(rt, alloc, path)?;
    let bound = bind_in(rt, alloc, folder.as_str(), path);
    let _ = fs::remove_dir(rt, folder.as_str());
    bound
}

/// Removes the file at the path, if it is still that of an open listener.
pub(crate) fn unbind<R: Files>(rt: &R, path: &str, file: SocketFile) {
    if let Ok(found) = fs::symlink_metadata(rt, path) {
        let is_same = found.dev() == file.device && found.ino() == file.inode;
        if is_same && found.file_type().is_socket() {
            let _ = fs::remove_file(rt, path);
        }
    }
}
