//! The files of a folder: a trace is written to one after another, and the oldest is overwritten.
use crate::folder::Folder;
use call_files::Fault;
use call_files::system_limits::{ABOVE_LIMIT, file_size_limit, octets_below};
use std::alloc::{AllocError, Global};
use std::fs::File;
use std::io;
use std::io::Write;
use std::os::unix::fs::FileExt;

// The number of files.
const FILES: u64 = 8;

// The number of octets of the last lines that are kept. They can make room for the line that ends a trace.
const KEPT: usize = 1024;

// The octet behind the last complete line while a file is written: a script ends there.
const END: u8 = 0;

/// A folder for a trace.
#[derive(Clone, Copy)]
pub struct TraceFolder<'a> {
    pub path: &'a str,
    /// The limit on the octets of all files together. A turn that is under way may exceed it.
    pub limit: u64,
}

/// A file of the folder, open, and its place among the others.
pub struct TraceFile {
    alloc: Global,
    place: u64,
    file: File,
    // The length of the complete lines.
    length: u64,
    // The end of these lines.
    tail: Vec<u8>,
    // The greatest length by the limit of the process.
    limit: u64,
}

// Written out, so that an owner proves one call at its drop, not the drop of each field.
impl Drop for TraceFile {
    fn drop(self) {
        let TraceFile {
            alloc: _,
            place: _,
            file: _,
            length: _,
            tail: _,
            limit: _,
        } = self;
    }
}

// Writes octets to a place of a file, if all of them are below the limit on its size. Beyond that the system ends the
// process.
fn write_below(file: &File, limit: u64, octets: &[u8], place: u64) -> io::Result<()> {
    if octets_below(limit, place, octets.len()) < octets.len() {
        return Err(io::Error::from_raw_os_error(ABOVE_LIMIT));
    }
    file.write_all_at(octets, place)
}

impl TraceFolder<'_> {
    // Returns the path of the file at a place.
    fn path_of(&self, alloc: Global, place: u64) -> Result<String, AllocError> {
        format!(in alloc; "{}/trace-{place}.script", self.path)
    }

    // Returns the place of the file that was changed longest ago, or of one that doesn't exist.
    fn oldest<D: Folder>(&self, disk: &D, alloc: Global) -> Result<u64, AllocError> {
        let (mut oldest, mut since) = (0, i64::MAX);
        for place in 0..FILES {
            match disk.changed(self.path_of(alloc, place)?.as_str()) {
                None => return Ok(place),
                Some(changed) if changed < since => (oldest, since) = (place, changed),
                Some(_) => {}
            }
        }
        Ok(oldest)
    }

    // Begins the file at a place. Its old content is overwritten: that takes the system half the time of emptying a file
    // and filling it again.
    fn begin<D: Folder>(&self, disk: &D, alloc: Global, place: u64) -> io::Result<TraceFile> {
        let path = self.path_of(alloc, place)?;
        disk.check(self.path)?;
        let file = disk.begin(path.as_str())?;
        // Again, because another user may have exchanged the folder's name meanwhile.
        disk.check(self.path)?;
        let limit = file_size_limit();
        if write_below(&file, limit, &[END], 0).is_err() {
            file.set_len(0)?;
        }
        Ok(TraceFile {
            alloc,
            place,
            file,
            length: 0,
            tail: Vec::new(alloc),
            limit,
        })
    }

    /// Makes the folder if there is none, and begins one of its eight files: a missing one, or otherwise the one that was
    /// changed longest ago.
    ///
    /// Returns the system's error of the folder, then of the file. `OutOfMemory`: a request for memory was refused.
    /// `PermissionDenied`: the folder isn't this user's alone, or another user's link leads to it. `InvalidInput`: the name is that of a file that isn't
    /// regular.
    pub fn open<D: Folder>(&self, disk: &D, alloc: Global) -> io::Result<TraceFile> {
        disk.make(self.path)?;
        let place = self.oldest(disk, alloc)?;
        self.begin(disk, alloc, place)
    }

    /// Begins the file after this one.
    pub(crate) fn next<D: Folder>(
        &self,
        disk: &D,
        alloc: Global,
        file: &TraceFile,
    ) -> Result<TraceFile, Fault> {
        let place = file.place.wrapping_add(1) % FILES;
        match self.begin(disk, alloc, place) {
            Ok(file) => Ok(file),
            Err(error) => Err(Fault::of(&error)),
        }
    }

    /// Returns the limit on the octets of a file. A turn that is under way may exceed it.
    pub(crate) fn part(&self) -> u64 {
        self.limit / FILES
    }
}

impl TraceFile {
    /// Returns its length in octets.
    pub(crate) fn length(&self) -> u64 {
        self.length
    }

    // Keeps the last octets written.
    fn keep_tail(&mut self, text: &[u8]) {
        let from = text.len().saturating_sub(KEPT);
        self.tail.clear();
        let _ = self.tail.extend_from_slice(text.get(from..).unwrap_or(b""));
    }

    // Adds complete lines to the file, and the end octet behind them. Their first octet is written last, over the old end
    // octet. So a file has all of these lines or none of them, even if the service is killed.
    fn put(&self, lines: &mut Vec<u8>) -> io::Result<()> {
        lines.push(END)?;
        let Some((first, rest)) = lines.split_first() else {
            return Ok(());
        };
        let next = self.length.saturating_add(1);
        write_below(&self.file, self.limit, rest, next)?;
        write_below(&self.file, self.limit, &[*first], self.length)
    }

    /// Ends the file after its last line.
    pub(crate) fn finish(&self) {
        // If this fails, the end octet still ends the lines.
        let _ = self.file.set_len(self.length);
    }

    /// Adds complete lines to the file, and empties `lines`. If that fails, some lines are cut off to make room for one
    /// that says why the trace ends.
    pub(crate) fn write(&mut self, lines: &mut Vec<u8>) -> Result<(), Fault> {
        let length = lines.len();
        if length == 0 {
            return Ok(());
        }
        if let Err(error) = self.put(lines) {
            self.end(&error);
            return Err(Fault::of(&error));
        }
        lines.truncate(length);
        self.length = self.length.saturating_add(length as u64);
        self.keep_tail(lines.as_slice());
        lines.clear();
        Ok(())
    }

    // Returns the end of the lines that remain if these octets at the end of the file are removed.
    fn cut(&self) -> u64 {
        let half = self.tail.get(..self.tail.len() / 2).unwrap_or(b"");
        let mut left = 0;
        for (place, octet) in half.iter().enumerate() {
            if *octet == b'\n' {
                left = place.saturating_add(1);
            }
        }
        let cut = self.tail.len().saturating_sub(left) as u64;
        self.length.saturating_sub(cut)
    }

    // Writes the last line, which says why the trace ends.
    fn end(&mut self, error: &io::Error) {
        let mut line = Vec::new(self.alloc);
        if writeln!(line, "# The trace ends here: {error}.").is_err() {
            return;
        }
        // Without room for it, some lines are removed.
        for length in [self.length, self.cut()] {
            if write_below(&self.file, self.limit, &line, length).is_ok() {
                let _ = self.file.set_len(length.saturating_add(line.len() as u64));
                return;
            }
        }
    }
}
