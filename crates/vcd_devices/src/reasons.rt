//! Why a file that the command line names can't be opened, read or written: its path and the
//! reason.

use std::alloc::{AllocError, Global};
use std::io;
use std::io::ErrorKind;
use std::rt::Runtime;

/// Tells why a file can't be opened, read or written.
pub fn tell_reason<R: Runtime + AllocGlobal>(rt: &R, path: &str, error: &io::Error) {
    if let Ok(path) = shown_path(rt.alloc(), path) {
        let _ = match (error.kind(), error.raw_os_error()) {
            (ErrorKind::NotFound, _) => {
                eprintln!(rt; "vcdedit-amend: {path}: no such file or folder")
            }
            (ErrorKind::Uncategorized, Some(number)) => {
                eprintln!(rt; "vcdedit-amend: {path}: error {number} of the system")
            }
            (reason, _) => eprintln!(rt; "vcdedit-amend: {path}: {reason}"),
        };
    }
}

/// Tells the path of the folder that keeps others from an output.
pub fn tell_folder<R: Runtime + AllocGlobal>(rt: &R, folder: &str) {
    if let Ok(folder) = shown_path(rt.alloc(), folder) {
        let _ = eprintln!(rt; "vcdedit-amend: {folder}: is there already");
    }
}

/// A path as a terminal can show it: `?` stands for each control character.
fn shown_path(alloc: Global, path: &str) -> Result<String, AllocError> {
    let mut shown = String::new(alloc);
    for letter in path.chars() {
        shown.push(if letter.is_control() { '?' } else { letter })?;
    }
    Ok(shown)
}
