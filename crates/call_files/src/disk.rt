//! Files by their names.
use std::fs::{File, Files, Metadata, OpenOptions};
use std::os::unix::fs::OpenOptionsExt;
use std::{fs, io};

/// Opens files by their names. Each type with `Files` has it. A thread can hold one, whatever the type of its maker's file
/// system is.
pub trait Disk {
    /// Opens the file of a name for reading and appending. If there is none, it is made with the mode 0640.
    fn open(&self, path: &str) -> io::Result<File>;

    /// Returns the system's metadata of the file to which a name leads.
    fn metadata(&self, path: &str) -> io::Result<Metadata>;

    /// Returns the system's metadata of the file of a name itself: of the link, if it is one.
    fn named(&self, path: &str) -> io::Result<Metadata>;
}

impl<R: Files<File = File>> Disk for R {
    fn open(&self, path: &str) -> io::Result<File> {
        OpenOptions::new()
            .read(true)
            .append(true)
            .create(true)
            .mode(0o640)
            .open(self, path)
    }

    fn metadata(&self, path: &str) -> io::Result<Metadata> {
        fs::metadata(self, path)
    }

    fn named(&self, path: &str) -> io::Result<Metadata> {
        fs::symlink_metadata(self, path)
    }
}
