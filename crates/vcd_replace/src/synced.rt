//! A new file that is on the disk, in a folder of its own.

use crate::own_folder::OwnFolder;
use std::fs::{File, Metadata, Permissions};
use std::io;
use std::io::ErrorKind;
use std::os::unix::fs::{MetadataExt, PermissionsExt, fchown};
use std::rt::Files;

/// The bits of a mode that say who may read and write a file.
const PERMISSIONS: u32 = 0o777;

/// The folder of a new file beside its target, and what was there before.
#[derive(Drop)]
pub struct Place<'a, R: Files> {
    pub folder: OwnFolder<'a, R>,
    pub old: Option<OldFile>,
    /// Whether the target was the capture when the output was begun.
    pub is_capture: bool,
    /// Whether the output has the capture's path, so that its target is to be the capture.
    pub has_capture_path: bool,
}

/// What a new file takes over from the one in whose place it comes.
#[derive(Clone, Copy)]
pub struct OldFile {
    owner: u32,
    group: u32,
    mode: u32,
}

impl OldFile {
    pub fn of(found: &Metadata) -> OldFile {
        OldFile {
            owner: found.uid(),
            group: found.gid(),
            mode: found.mode() & PERMISSIONS,
        }
    }
}

/// A file that is on the disk, with its owner and its permissions. Only [`Synced::sync`] makes one.
#[derive(Drop)]
pub struct Synced<'a, R: Files> {
    place: Place<'a, R>,
    file: File,
}

impl<'a, R: Files> Synced<'a, R> {
    /// Gives a file that has all its bytes the permissions of the old one, and its owner and its
    /// group as far as the system lets us, and writes it to the disk. It fails if the system
    /// refuses the permissions or the sync.
    pub fn sync(place: Place<'a, R>, file: File) -> io::Result<Synced<'a, R>> {
        if let Some(old) = &place.old {
            make_like(&file, old)?;
        }
        file.sync_all()?;
        // from here on only what concerns the capture comes before the rename
        if !place.folder.has(&file)? {
            return Err(ErrorKind::NotFound.into());
        }
        Ok(Synced { place, file })
    }

    pub fn into_place(self) -> Place<'a, R> {
        self.place
    }
}

/// Gives a file the owner and the group of another one, or at least the group, and its permissions.
fn make_like(file: &File, old: &OldFile) -> io::Result<()> {
    // first the owner: a change of it takes away bits of the mode
    if fchown(file, Some(old.owner), Some(old.group)).is_err() {
        let _ = fchown(file, None, Some(old.group));
    }
    file.set_permissions(Permissions::from_mode(old.mode))
}
