//! The file that holds a part while the script is carried out on it.

use std::fs::{File, OpenOptions};
use std::io::ErrorKind;
use std::os::unix::fs::OpenOptionsExt;
use std::path::PathBuf;
use std::rt::{Files, Runtime};
use std::time::{SystemTime, UNIX_EPOCH};
use std::{env, fs, io};
use vcd_replace::open_path;

/// How many names are tried.
const TRIES: u32 = 100;

/// A file of the user's alone in the folder for such files (`TMPDIR`, or else /tmp).
///
/// It loses its name as soon as it is made, so a run that is interrupted leaves nothing. Where
/// /proc shows no open files, it keeps its name until this is dropped.
pub struct PartFile<'a, R: Files> {
    files: &'a R,
    path: PathBuf,
    has_name: bool,
    // it is open, and so it is still there
    file: File,
}

impl<'a, R: Runtime<File = File> + AllocGlobal> PartFile<'a, R> {
    /// Creates the file anew.
    pub fn create(rt: &'a R) -> io::Result<PartFile<'a, R>> {
        for _ in 0..TRIES {
            let path = path_for_now(rt)?;
            match create_new(rt, &path) {
                Ok(file) => {
                    let named = PartFile {
                        files: rt,
                        path,
                        has_name: true,
                        file,
                    };
                    return named.without_name();
                }
                Err(error) if error.kind() == ErrorKind::AlreadyExists => {}
                Err(error) => return Err(error),
            }
        }
        Err(ErrorKind::AlreadyExists.into())
    }

    /// The same file without its name, if it can be opened without one.
    fn without_name(mut self) -> io::Result<PartFile<'a, R>> {
        if let Some(path) = open_path(self.files, &self.file)? {
            fs::remove_file(self.files, &self.path)?;
            self.has_name = false;
            self.path = path;
        }
        Ok(self)
    }

    /// A writer to the file.
    pub fn writer(&self) -> io::Result<File> {
        self.file.try_clone()
    }

    /// The path by which it can be opened.
    pub fn path(&self) -> &str {
        self.path.as_str()
    }
}

impl<R: Files> Drop for PartFile<'_, R> {
    fn drop(self) {
        let PartFile {
            files,
            path,
            has_name,
            file: _file,
        } = self;
        if has_name {
            let _ = fs::remove_file(files, &path);
        }
    }
}

/// A path in the folder, which nobody can tell beforehand.
fn path_for_now<R: Runtime + AllocGlobal>(rt: &R) -> io::Result<PathBuf> {
    let Ok(now) = SystemTime::now(rt)?.duration_since(UNIX_EPOCH) else {
        return Err(ErrorKind::Other.into());
    };
    let (seconds, nanoseconds) = (now.as_secs(), now.subsec_nanos());
    let name = format!(in rt.alloc(); "vcdedit-amend-{seconds}-{nanoseconds}.vcd")?;
    Ok(env::temp_dir(rt)?.join(rt.alloc(), name.as_str())?)
}

/// Creates a file that was not there, for this user alone.
fn create_new<R: Files>(files: &R, path: &PathBuf) -> io::Result<R::File> {
    OpenOptions::new()
        .write(true)
        .create_new(true)
        .mode(0o600)
        .open(files, path)
}
