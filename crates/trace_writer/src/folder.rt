//! A folder of the file system, and its files by their names.
use call_files::system_limits::{refuse_exchanged, refuse_link, user};
use std::fs::{DirBuilder, File, Files, Metadata, OpenOptions};
use std::io::ErrorKind;
use std::os::unix::fs::{DirBuilderExt, MetadataExt, OpenOptionsExt};
use std::{fs, io};

/// Makes folders and files by their names. Each type with `Files` has it. A thread can hold one, whatever the type of its
/// maker's file system is.
pub trait Folder {
    /// Makes a folder of this name, with the mode 0700, if there is none.
    ///
    /// Returns `PermissionDenied` as `check` does.
    fn make(&self, path: &str) -> io::Result<()>;

    /// Checks the folder of this name.
    ///
    /// Returns `PermissionDenied` if the folder is another user's, or if others may look into it. It does too if the name is a
    /// link that neither this user nor root owns.
    fn check(&self, path: &str) -> io::Result<()>;

    /// Opens the file of a name, to overwrite it from its beginning. If there is none, it is made with the mode 0600.
    ///
    /// Returns `InvalidInput` if the name leads to a pipe, a link, a device or another file that isn't regular, and
    /// `PermissionDenied` if the name leads to another file after that was opened.
    fn begin(&self, path: &str) -> io::Result<File>;

    /// Returns the last change of the file of a name, in seconds since the beginning of 1970, or `None` if there is no
    /// file.
    fn changed(&self, path: &str) -> Option<i64>;
}

// The system's numbers of the errors "Permission denied" and "Invalid argument".
const NOT_PERMITTED: i32 = 13;

const NOT_REGULAR: i32 = 22;

// Returns whether only the user of the process may look into a folder.
fn is_own(folder: &Metadata) -> bool {
    folder.is_dir() && folder.uid() == user() && folder.mode() & 0o777 == 0o700
}

// Returns whether a regular file may be opened at a path: there is one, or nothing.
fn is_free<R: Files>(rt: &R, path: &str) -> io::Result<bool> {
    match fs::symlink_metadata(rt, path) {
        Ok(found) => Ok(found.is_file()),
        Err(error) if error.kind() == ErrorKind::NotFound => Ok(true),
        Err(error) => Err(error),
    }
}

impl<R: Files<File = File>> Folder for R {
    fn make(&self, path: &str) -> io::Result<()> {
        let mut builder = DirBuilder::new();
        builder.mode(0o700);
        match builder.create(self, path) {
            Err(error) if error.kind() == ErrorKind::AlreadyExists => {
                if !fs::metadata(self, path)?.is_dir() {
                    return Err(error);
                }
                self.check(path)
            }
            made => made,
        }
    }

    fn check(&self, path: &str) -> io::Result<()> {
        refuse_link(&fs::symlink_metadata(self, path)?)?;
        if is_own(&fs::metadata(self, path)?) {
            return Ok(());
        }
        Err(io::Error::from_raw_os_error(NOT_PERMITTED))
    }

    fn begin(&self, path: &str) -> io::Result<File> {
        if !is_free(self, path)? {
            return Err(io::Error::from_raw_os_error(NOT_REGULAR));
        }
        let file = OpenOptions::new()
            .write(true)
            .create(true)
            .mode(0o600)
            .open(self, path)?;
        refuse_exchanged(&file.metadata()?, &fs::symlink_metadata(self, path)?)?;
        Ok(file)
    }

    fn changed(&self, path: &str) -> Option<i64> {
        match fs::metadata(self, path) {
            Ok(metadata) => Some(metadata.mtime()),
            Err(_) => None,
        }
    }
}
