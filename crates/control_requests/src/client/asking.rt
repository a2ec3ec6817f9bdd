//! One request, and its response.
ghost use Rattle.std.specs.Io.{ReadsAtMost};

use httparse::{EMPTY_HEADER, Response, Status};
use std::alloc::Global;
use std::io;
use std::io::{ErrorKind, Read, Write};
use std::net::Net;
use std::os::unix::net::UnixStream;
use std::time::Duration;

// The number of octets read at once.
const PIECE: usize = 4096;

// The greatest size of an answer, in octets. It is far more than all calls of an exchange take.
const MOST: usize = 67_108_864;

// The number of seconds for which an answer may be silent.
const SECONDS: u64 = 10;

/// A response: its status, and its body.
#[derive(Drop)]
pub(crate) struct Answered {
    pub(crate) status: u16,
    pub(crate) body: String,
}

// Reads until the other side ends.
fn read_whole(alloc: Global, stream: &mut UnixStream) -> io::Result<Vec<u8>> {
    let mut octets = Vec::new(alloc);
    for _ in 0..u32::MAX {
        let mut piece = [0u8; PIECE];
        let count = stream.read(&mut piece)?;
        if count == 0 {
            break;
        }
        if octets.len() >= MOST {
            return Err(io::Error::from(ErrorKind::InvalidData));
        }
        octets.extend_from_slice(&piece[..count])?;
    }
    Ok(octets)
}

// Parses a response.
fn response_of(alloc: Global, octets: &[u8]) -> io::Result<Answered> {
    let mut headers = [EMPTY_HEADER; 16];
    let mut response = Response::new(&mut headers);
    if let Ok(Status::Complete(head)) = response.parse(octets) {
        if let (Some(status), Some(body)) = (response.code, octets.get(head..)) {
            if let Ok(body) = str::from_utf8(body) {
                let body = String::from_str(alloc, body)?;
                return Ok(Answered { status, body });
            }
        }
    }
    Err(io::Error::from(ErrorKind::InvalidData))
}

// Sends a request, and reads what comes back.
fn exchange(alloc: Global, stream: &mut UnixStream, request: &str) -> io::Result<Vec<u8>> {
    stream.set_read_timeout(Some(Duration::from_secs(SECONDS)))?;
    stream.write_all(request.as_bytes())?;
    read_whole(alloc, stream)
}

/// Sends a request to the socket at a path, and reads the whole response. An answer that is silent for ten seconds, or has
/// more than 64 MiB, is an error.
pub(crate) fn ask<N: Net>(
    rt: &N,
    alloc: Global,
    path: &str,
    request: &str,
) -> io::Result<Answered> {
    let mut stream = UnixStream::connect(rt, path)?;
    let octets = exchange(alloc, &mut stream, request)?;
    response_of(alloc, &octets)
}
