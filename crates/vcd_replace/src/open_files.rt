//! Open files by a path of their own.

use crate::seen_file::is_one_file;
use std::fs::File;
use std::os::fd::AsRawFd;
use std::path::PathBuf;
use std::rt::Files;
use std::{fs, io};

/// The path of a file that this process has open, by which it is reached whatever becomes of its
/// name. None where /proc does not show open files.
pub fn open_path<R: Files + AllocGlobal>(rt: &R, file: &File) -> io::Result<Option<PathBuf>> {
    let descriptor = file.as_raw_fd();
    let path = PathBuf::from(format!(in rt.alloc(); "/proc/self/fd/{descriptor}")?);
    match fs::metadata(rt, &path) {
        Ok(found) if is_one_file(&found, &file.metadata()?) => Ok(Some(path)),
        _ => Ok(None),
    }
}
