//! A file of the file system, by its name.
ghost use Rattle.std.specs.Prelude.{◌≤◌, length, IfOk};

use crate::disk::Disk;
use crate::system_limits::{
    ABOVE_LIMIT, file_size_limit, is_same_file, is_writable, octets_below, refuse_exchanged,
    refuse_link,
};
use crate::{Beginning, Fault, RowFile, Whereabouts};
use std::fs::{File, Metadata};
use std::io;
use std::io::{ErrorKind, Write};
use std::os::fd::AsRawFd;
use std::os::unix::fs::FileExt;

// The number of times that a write is repeated after a signal interrupted it.
const TRIES: u32 = 16;

// The number of octets that a pipe takes if it has room.
const PIECE: usize = 4096;

// The system's number of the error "Resource temporarily unavailable", with which a pipe without room refuses a write.
const WITHOUT_ROOM: i32 = 11;

/// The file that a name leads to, or led to when it was opened.
#[derive(Drop)]
pub(crate) struct DiskFile<'a, D: Disk> {
    disk: &'a D,
    path: &'a str,
    file: Option<File>,
    // Whether it is a regular file. Any other is asked for room before a write, so that the writer never waits for a
    // reader.
    is_regular: bool,
    // The limit on the size of a file, in octets.
    limit: u64,
}

// Returns the state of a file's content. A pipe, or any file that isn't regular, counts as empty.
fn beginning_of(file: &File, metadata: &Metadata) -> io::Result<Beginning> {
    if !metadata.is_file() || metadata.len() == 0 {
        return Ok(Beginning::Empty);
    }
    let mut last = [0; 1];
    file.read_exact_at(&mut last, metadata.len() - 1)?;
    Ok(match last {
        [b'\n'] => Beginning::Lines,
        _ => Beginning::CutLine,
    })
}

// Writes as many of these octets as the system takes.
fn write(file: &mut File, octets: &[u8]) -> io::Result<usize>
    ensures { IfOk result (λ count. count ≤ length octets.now) }
{
    for _ in 0..TRIES {
        match file.write(octets) {
            Err(error) if error.kind() == ErrorKind::Interrupted => {}
            done => return done,
        }
    }
    Err(io::Error::from(ErrorKind::Interrupted))
}

impl<'a, D: Disk> DiskFile<'a, D> {
    /// Returns a file that isn't open.
    pub(crate) fn new(disk: &'a D, path: &'a str) -> DiskFile<'a, D> {
        DiskFile {
            disk,
            path,
            file: None,
            is_regular: false,
            limit: file_size_limit(),
        }
    }

    // Refuses a link that neither this user nor root owns.
    fn refuse_link(&self) -> io::Result<()> {
        match self.disk.named(self.path) {
            Ok(named) => refuse_link(&named),
            // Without a file one is made.
            Err(_) => Ok(()),
        }
    }

    // Opens the file that the name leads to. The name is checked before and after that, because another user may exchange
    // it meanwhile.
    fn open_checked(&self) -> io::Result<(File, Metadata)> {
        self.refuse_link()?;
        let file = self.disk.open(self.path)?;
        let metadata = file.metadata()?;
        self.refuse_link()?;
        refuse_exchanged(&metadata, &self.disk.metadata(self.path)?)?;
        Ok((file, metadata))
    }

    // Opens the file that the name leads to, and reads the state of its content.
    fn open_named(&mut self) -> io::Result<Beginning> {
        self.file = None;
        let (file, metadata) = self.open_checked()?;
        let beginning = beginning_of(&file, &metadata)?;
        self.is_regular = metadata.is_file();
        self.file = Some(file);
        Ok(beginning)
    }

    // Returns the number of octets that may be written now, at most `octets`. A regular file takes all of them, or none if
    // they would pass the limit on its size.
    fn room(&self, file: &File, octets: usize) -> io::Result<usize>
        ensures { IfOk result (λ count. count ≤ octets) }
    {
        if !self.is_regular {
            if is_writable(file.as_raw_fd()) {
                return Ok(octets.min(PIECE));
            }
            return Err(io::Error::from_raw_os_error(WITHOUT_ROOM));
        }
        if self.limit < u64::MAX {
            let length = file.metadata()?.len();
            if octets_below(self.limit, length, octets) < octets {
                return Err(io::Error::from_raw_os_error(ABOVE_LIMIT));
            }
        }
        Ok(octets)
    }
}

impl<'a, D: Disk> RowFile for DiskFile<'a, D> {
    fn open(&mut self) -> Result<Beginning, Fault> {
        match self.open_named() {
            Ok(beginning) => Ok(beginning),
            Err(error) => Err(Fault::of(&error)),
        }
    }

    fn look(&mut self) -> Whereabouts {
        let Some(file) = &self.file else {
            return Whereabouts::Elsewhere;
        };
        let Ok(named) = self.disk.metadata(self.path) else {
            return Whereabouts::Elsewhere;
        };
        match file.metadata() {
            Ok(opened) if is_same_file(&named, &opened) => {
                if named.is_file() && named.len() == 0 {
                    Whereabouts::Emptied
                } else {
                    Whereabouts::Same
                }
            }
            _ => Whereabouts::Elsewhere,
        }
    }

    fn append(&mut self, octets: &[u8]) -> Result<usize, Fault> {
        let Some(mut file) = self.file.take() else {
            return Err(Fault { code: None });
        };
        let written = match self.room(&file, octets.len()) {
            Ok(room) => write(&mut file, &octets[..room]),
            Err(error) => Err(error),
        };
        self.file = Some(file);
        match written {
            Ok(count) => Ok(count),
            Err(error) => Err(Fault::of(&error)),
        }
    }

    // A pipe, or any file that can't be synced, has nothing to sync.
    fn sync(&mut self) -> Result<(), Fault> {
        match &self.file {
            Some(file) => match file.sync_data() {
                Err(error) if error.kind() != ErrorKind::InvalidInput => Err(Fault::of(&error)),
                _ => Ok(()),
            },
            None => Ok(()),
        }
    }
}
