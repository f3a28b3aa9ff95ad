//! A regular file as it was when it was found.

use std::fs::{Metadata, OpenFile};
use std::io::ErrorKind;
use std::os::unix::fs::MetadataExt;
use std::rt::Files;
use std::{fs, io};

/// A regular file, as it was before it was opened.
#[derive(Clone, Copy)]
pub struct SeenFile<'a> {
    path: &'a str,
    state: FileState,
}

/// What tells a file from another one in its place, and from itself after a change.
#[derive(Clone, Copy, PartialEq, Eq)]
pub struct FileState {
    device: u64,
    inode: u64,
    length: u64,
    // the time of the last change, in seconds and nanoseconds
    seconds: i64,
    nanoseconds: i64,
}

impl FileState {
    pub fn of(found: &Metadata) -> FileState {
        FileState {
            device: found.dev(),
            inode: found.ino(),
            length: found.len(),
            seconds: found.mtime(),
            nanoseconds: found.mtime_nsec(),
        }
    }
}

impl<'a> SeenFile<'a> {
    /// Looks at a file, and follows a link. None is no regular file.
    pub fn find<R: Files>(files: &R, path: &'a str) -> io::Result<Option<SeenFile<'a>>> {
        let found = fs::metadata(files, path)?;
        if !found.is_file() {
            return Ok(None);
        }
        let state = FileState::of(&found);
        Ok(Some(SeenFile { path, state }))
    }

    /// Its path.
    pub fn path(&self) -> &'a str {
        self.path
    }

    /// How many bytes it had.
    pub fn length(&self) -> u64 {
        self.state.length
    }

    /// Opens it, unless its path leads to another file by now.
    pub fn open<R: Files>(&self, files: &R) -> io::Result<R::File> {
        let file = fs::open(files, self.path)?;
        let found = file.metadata()?;
        if found.dev() == self.state.device && found.ino() == self.state.inode {
            return Ok(file);
        }
        Err(ErrorKind::ResourceBusy.into())
    }

    /// Whether a look found it, in the same state.
    pub fn was(&self, found: &Metadata) -> bool {
        self.state == FileState::of(found)
    }

    /// Whether its path leads to another file by now, or the file has changed since it was found.
    pub fn is_replaced<R: Files>(&self, files: &R) -> bool {
        self.is_other(fs::metadata(files, self.path))
    }

    /// Whether a look found another file, or this one after a change.
    pub fn is_unlike(&self, found: io::Result<Metadata>) -> bool {
        found.is_ok_and(|found| !self.was(&found))
    }

    /// Whether it did so, or found none.
    pub fn is_other(&self, found: io::Result<Metadata>) -> bool {
        !found.is_ok_and(|found| self.was(&found))
    }
}

/// Whether two looks found one file, in whatever state.
pub fn is_one_file(one: &Metadata, other: &Metadata) -> bool {
    one.dev() == other.dev() && one.ino() == other.ino()
}
