//! The system's table of UDP sockets. A worker's endpoint has the worker's own socket and those connected to its peers.
//! Workers of one endpoint share one count.
use crate::drops::drops_of;
use crate::socket_drops::{NoDrops, SocketDrops};
use peer_plan::Endpoint;
use std::alloc::{AllocError, Global};
use std::fs::{File, Files};
use std::io::{ErrorKind, Read, Seek, SeekFrom};

// The most octets of the table that are read: some 8,000 sockets.
const LIMIT: usize = 1_048_576;

// The number of octets read at once.
const PIECE: usize = 4096;

// The most reads of a table. The system gives whole lines of 128 octets.
const PIECES: usize = LIMIT / 128;

/// The system's table of UDP sockets, which each count reads again from its start.
#[derive(Drop)]
pub struct SocketTable {
    file: File,
}

impl SocketTable {
    /// Opens `/proc/net/udp`. Returns `None` if that fails.
    pub fn open<R: Files<File = File>>(rt: &R) -> Option<SocketTable> {
        match File::open(rt, "/proc/net/udp") {
            Ok(file) => Some(SocketTable { file }),
            Err(_) => None,
        }
    }

    // Reads a piece behind the others. Returns whether there may be more.
    fn read_piece(&mut self, text: &mut Vec<u8>) -> Result<bool, NoDrops> {
        let mut piece = [0u8; PIECE];
        match self.file.read(&mut piece) {
            Ok(0) => Ok(false),
            Ok(count) if text.len().saturating_add(count) > LIMIT => Err(NoDrops::TooManySockets),
            Ok(count) => match text.extend_from_slice(&piece[..count]) {
                Ok(()) => Ok(true),
                Err(_) => Err(NoDrops::NoMemory),
            },
            Err(error) if error.kind() == ErrorKind::Interrupted => Ok(true),
            Err(_) => Err(NoDrops::NoTable),
        }
    }

    // Returns the current text of the table.
    fn text(&mut self, alloc: Global) -> Result<Vec<u8>, NoDrops> {
        let mut text = Vec::new(alloc);
        if self.file.seek(SeekFrom::Start(0)).is_err() {
            return Err(NoDrops::NoTable);
        }
        for _ in 0..PIECES {
            if !self.read_piece(&mut text)? {
                return Ok(text);
            }
        }
        Err(NoDrops::TooManySockets)
    }

    // Counts the drops at the sockets of each of these workers, unless that is to end. Returns the reason if they aren't
    // known now.
    pub(crate) fn count(
        &mut self,
        alloc: Global,
        drops: &SocketDrops,
        workers: &[Endpoint],
    ) -> Option<NoDrops> {
        match self.text(alloc) {
            Ok(text) => match str::from_utf8(&text) {
                Ok(table) => count_in(table, alloc, drops, workers),
                Err(_) => Some(NoDrops::NoTable),
            },
            Err(why) => Some(why),
        }
    }
}

// Formats an endpoint as the table does: the address as a number in the machine's octet order, with the last octet first.
fn local_text(alloc: Global, endpoint: Endpoint) -> Result<String, AllocError> {
    let Endpoint { address, port } = endpoint;
    let [a, b, c, d] = address;
    format!(in alloc; "{d:02X}{c:02X}{b:02X}{a:02X}:{port:04X}")
}

// Counts the drops at the sockets of each of these workers by the text of the table.
fn count_in(
    table: &str,
    alloc: Global,
    drops: &SocketDrops,
    workers: &[Endpoint],
) -> Option<NoDrops> {
    for (place, worker) in workers.iter().enumerate() {
        if drops.is_over() {
            break;
        }
        match local_text(alloc, *worker) {
            Ok(local) => drops.note(place, drops_of(table, &local)),
            Err(_) => return Some(NoDrops::NoMemory),
        }
    }
    None
}
