//! A folder that is a run's own, in which its output is written.

use crate::open_files::open_path;
use crate::seen_file::is_one_file;
use crate::target::folder_of;
use std::fs::{DirBuilder, File, Metadata, OpenFile, OpenOptions, TryLockError};
use std::io::ErrorKind;
use std::os::unix::fs::{DirBuilderExt, MetadataExt, OpenOptionsExt};
use std::path::PathBuf;
use std::rt::Files;
use std::{fs, io};

/// A folder beside a target that this user alone can enter. It is for the new file, and for a
/// second name of the old one. All are removed when this is dropped.
///
/// The run holds a lock on the folder, which the system takes back when the run ends, however it
/// does. So a folder that nobody has locked was left by a run that was interrupted.
///
/// All paths go by the folders that are open, so nobody can exchange what they lead to.
pub struct OwnFolder<'a, R: Files> {
    files: &'a R,
    // these go by the target's folder, which is `above`
    target: PathBuf,
    folder: PathBuf,
    // they go by this folder: the new file, and the second name of the old one
    new: PathBuf,
    old: PathBuf,
    above: File,
    // it is open, and so it is locked
    lock: File,
}

/// What a try to lock a folder shows.
#[derive(Drop)]
enum Lock {
    Taken(File),
    /// There are no locks here: then the name of the folder alone keeps others away.
    Unknown(File),
    /// Another run has locked it, or it is no longer the folder of this name.
    Refused,
}

impl<'a, R: Files<File = File> + AllocGlobal> OwnFolder<'a, R> {
    /// Makes the folder of this path beside the target, or takes over one that was left. None is
    /// for one that others have, or make or remove meanwhile.
    pub fn make(
        rt: &'a R,
        target: &PathBuf,
        beside: &PathBuf,
    ) -> io::Result<Option<OwnFolder<'a, R>>> {
        let named = PathBuf::from_str(rt.alloc(), folder_of(target.as_path()).as_str())?;
        let above = fs::open(rt, &named)?;
        let reached = open_path(rt, &above)?.unwrap_or(named);
        let target = reached.join(rt.alloc(), target.file_name().unwrap_or(""))?;
        let folder = reached.join(rt.alloc(), beside.file_name().unwrap_or(""))?;
        if !is_made(rt, &folder)? && !(is_cleared(rt, &folder)? && is_made(rt, &folder)?) {
            return Ok(None);
        }
        match lock_folder(rt, &folder)? {
            Lock::Taken(lock) | Lock::Unknown(lock) => {
                let (new, old) = paths_within(rt, &folder, &lock)?;
                Ok(Some(OwnFolder {
                    files: rt,
                    target,
                    folder,
                    new,
                    old,
                    above,
                    lock,
                }))
            }
            Lock::Refused => Ok(None),
        }
    }

    /// Creates the new file, with this mode. The folder is to have the same owner.
    pub fn create_file(&self, mode: u32) -> io::Result<File> {
        let file = OpenOptions::new()
            .write(true)
            .create_new(true)
            .mode(mode)
            .open(self.files, &self.new)?;
        if file.metadata()?.uid() != self.lock.metadata()?.uid() {
            return Err(ErrorKind::PermissionDenied.into());
        }
        Ok(file)
    }
}

impl<R: Files> OwnFolder<'_, R> {
    /// Whether this open file is the new file.
    pub fn has(&self, file: &File) -> io::Result<bool> {
        is_at(self.files, file, &self.new)
    }

    /// Looks at what has the target's name. A link is not followed.
    pub fn look_at_target(&self) -> io::Result<Metadata> {
        fs::symlink_metadata(self.files, &self.target)
    }

    /// Gives what has the target's name a second name, if the file system has such.
    pub fn keep_old(&self) {
        let _ = fs::hard_link(self.files, &self.target, &self.old);
    }

    /// Looks at what has the second name.
    pub fn look_at_old(&self) -> io::Result<Metadata> {
        fs::symlink_metadata(self.files, &self.old)
    }

    /// Gives the new file the target's name.
    pub fn rename_new(&self) -> io::Result<()> {
        fs::rename(self.files, &self.new, &self.target)
    }

    /// Gives what has the second name the target's name again.
    pub fn put_old_back(&self) -> io::Result<()> {
        fs::rename(self.files, &self.old, &self.target)
    }

    /// Writes the target's folder to the disk, if the system does.
    pub fn sync_above(&self) {
        let _ = self.above.sync_all();
    }
}

impl<R: Files> Drop for OwnFolder<'_, R> {
    fn drop(self) {
        let OwnFolder {
            files,
            target: _target,
            folder,
            new,
            old,
            above: _above,
            lock: _lock,
        } = self;
        let _ = fs::remove_file(files, &new);
        let _ = fs::remove_file(files, &old);
        let _ = fs::remove_dir(files, &folder);
    }
}

/// The paths in an open folder of the new file, which has the folder's name, and of the old one.
fn paths_within<R: Files + AllocGlobal>(
    rt: &R,
    folder: &PathBuf,
    opened: &File,
) -> io::Result<(PathBuf, PathBuf)> {
    let named = PathBuf::from_str(rt.alloc(), folder.as_str())?;
    let reached = open_path(rt, opened)?.unwrap_or(named);
    let new = reached.join(rt.alloc(), folder.file_name().unwrap_or(""))?;
    Ok((new, reached.join(rt.alloc(), "old")?))
}

/// Makes a folder for this user alone, unless something has its name.
fn is_made<R: Files>(files: &R, folder: &PathBuf) -> io::Result<bool> {
    match DirBuilder::new().mode(0o700).create(files, folder) {
        Ok(()) => Ok(true),
        Err(error) if error.kind() == ErrorKind::AlreadyExists => Ok(false),
        Err(error) => Err(error),
    }
}

/// Removes a folder with its files, if nobody has locked it.
fn is_cleared<R: Files<File = File> + AllocGlobal>(rt: &R, folder: &PathBuf) -> io::Result<bool> {
    match fs::symlink_metadata(rt, folder) {
        Ok(found) if found.is_dir() => {}
        Ok(_) => return Ok(false),
        // the run that had it has removed it
        Err(error) if error.kind() == ErrorKind::NotFound => return Ok(true),
        Err(error) => return Err(error),
    }
    match lock_folder(rt, folder) {
        Ok(Lock::Taken(lock)) => {
            let (new, old) = paths_within(rt, folder, &lock)?;
            let _ = fs::remove_file(rt, &new);
            let _ = fs::remove_file(rt, &old);
            Ok(fs::remove_dir(rt, folder).is_ok())
        }
        Ok(_) => Ok(false),
        Err(error) if error.kind() == ErrorKind::PermissionDenied => Ok(false),
        Err(error) => Err(error),
    }
}

/// Tries to lock a folder.
fn lock_folder<R: Files<File = File>>(files: &R, folder: &PathBuf) -> io::Result<Lock> {
    let opened = match fs::open(files, folder) {
        Err(error) if error.kind() == ErrorKind::NotFound => return Ok(Lock::Refused),
        opened => opened?,
    };
    let lock = match opened.try_lock() {
        Ok(()) => Lock::Taken(opened),
        Err(TryLockError::Error(_)) => Lock::Unknown(opened),
        Err(TryLockError::WouldBlock) => Lock::Refused,
    };
    // the run that had it may have removed it meanwhile, and yet another one made it anew
    if let Lock::Taken(opened) | Lock::Unknown(opened) = &lock {
        if !is_at(files, opened, folder)? {
            return Ok(Lock::Refused);
        }
    }
    Ok(lock)
}

/// Whether an open file is the one at a path.
fn is_at<R: Files>(files: &R, opened: &File, path: &PathBuf) -> io::Result<bool> {
    match fs::symlink_metadata(files, path) {
        Ok(found) => Ok(is_one_file(&found, &opened.metadata()?)),
        Err(error) if error.kind() == ErrorKind::NotFound => Ok(false),
        Err(error) => Err(error),
    }
}
