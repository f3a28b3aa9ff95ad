//! The output of a run.

ghost use Rattle.std.specs.Prelude.{IfErr};
ghost use Rattle.vcd_replace.specs.Errors.{IsEarlyError, IsLateError};

use crate::in_place::{InPlace, Renamed};
use crate::own_folder::OwnFolder;
use crate::replace_error::ReplaceError;
use crate::seen_file::{SeenFile, is_one_file};
use crate::synced::{OldFile, Place, Synced};
use crate::target::{folder_beside, is_open_elsewhere, real_path};
use crate::unchanged::Unchanged;
use std::fs::{File, Metadata, OpenOptions};
use std::io::{ErrorKind, Write};
use std::path::PathBuf;
use std::rt::Files;
use std::{fs, io};

/// The inputs of a run that its output could replace.
#[derive(Clone, Copy)]
pub struct Inputs<'a> {
    /// The capture, if it is a regular file. It may be replaced, unless another file is found in
    /// its place at the end.
    pub capture: Option<SeenFile<'a>>,
    /// The path of the script, which is never replaced.
    pub script: Option<&'a str>,
}

/// A writer to a file of its own, which takes the place of its target when it is whole.
///
/// The file is in a folder beside the target, with a hidden name made of the target's. Of two runs
/// to one target the second is refused. Until `put_in_place` the target is as it was. A writer that
/// is dropped removes its file and its folder.
///
/// A target that is no regular file, as a pipe, is written as it is, and so is one that a process
/// has open, as /dev/stdout, to whose end it is written.
#[derive(Drop)]
pub struct OutputFile<'a, R: Files> {
    files: &'a R,
    capture: Option<SeenFile<'a>>,
    file: File,
    // none for a target that is written as it is
    place: Option<Place<'a, R>>,
}

impl<'a, R: Files<File = File> + AllocGlobal> OutputFile<'a, R> {
    /// Begins the output for this target.
    ///
    /// A link is followed. A file that takes the place of another one gets its permissions, and its
    /// owner and group as far as this user may set them. Other names of the old file keep it.
    pub fn begin(
        rt: &'a R,
        path: &str,
        inputs: Inputs<'a>,
    ) -> Result<OutputFile<'a, R>, ReplaceError>
        ensures { IfErr result IsEarlyError }
    {
        match fs::metadata(rt, path) {
            Ok(found) if found.is_dir() => Err(io::Error::from(ErrorKind::IsADirectory).into()),
            Ok(found) if found.is_file() => begin_over(rt, path, &found, inputs),
            Ok(_) => Ok(as_it_is(rt, path, inputs)?),
            Err(error) if error.kind() == ErrorKind::NotFound => begin_new(rt, path, inputs),
            Err(error) => Err(error.into()),
        }
    }

    /// Whether the file is beside its target, which is as it was until `put_in_place`.
    pub fn is_beside(&self) -> bool {
        self.place.is_some()
    }

    /// Puts the file in the place of its target.
    ///
    /// It is first written to the disk, and then the capture is looked at for the last time. If one
    /// of these fails, the file is removed and the target is as it was. A capture that was replaced
    /// is looked at once more, and comes back to its place if it has changed. A target that is
    /// written as it is has all bytes by then, and only the capture is looked at.
    pub fn put_in_place(self) -> Result<InPlace, ReplaceError>
        ensures { IfErr result (IsLateError self.entry.capture) }
    {
        let OutputFile {
            files,
            capture,
            file,
            place,
        } = self;
        let Some(place) = place else {
            return InPlace::as_it_is(files, capture);
        };
        let new = Synced::sync(place, file)?;
        let new = Unchanged::look(files, new, capture)?;
        let new = Renamed::rename(new)?;
        InPlace::look_again(new, capture)
    }
}

impl<R: Files> Write for OutputFile<'_, R> {
    fn write(&mut self, buf: &[u8]) -> io::Result<usize> {
        self.file.write(buf)
    }

    fn flush(&mut self) -> io::Result<()> {
        self.file.flush()
    }
}

/// Begins the output for a regular file that is there, whose metadata are these.
fn begin_over<'a, R: Files<File = File> + AllocGlobal>(
    rt: &'a R,
    path: &str,
    found: &Metadata,
    inputs: Inputs<'a>,
) -> Result<OutputFile<'a, R>, ReplaceError>
    ensures { IfErr result IsEarlyError }
{
    if is_script(rt, found, inputs.script) {
        return Err(ReplaceError::IsInput);
    }
    if is_open_elsewhere(rt, path)? {
        if is_capture(found, inputs) {
            return Err(ReplaceError::IsInput);
        }
        return Ok(as_it_is(rt, path, inputs)?);
    }
    refuse_protected(rt, path, found)?;
    let target = real_path(rt, path)?;
    create(rt, path, target, Some(found), inputs)
}

/// Begins the output for a target that is not there. A link that leads nowhere is refused.
fn begin_new<'a, R: Files<File = File> + AllocGlobal>(
    rt: &'a R,
    path: &str,
    inputs: Inputs<'a>,
) -> Result<OutputFile<'a, R>, ReplaceError>
    ensures { IfErr result IsEarlyError }
{
    if path.ends_with('/') || fs::symlink_metadata(rt, path).is_ok() {
        return Err(io::Error::from(ErrorKind::NotFound).into());
    }
    let target = PathBuf::from_str(rt.alloc(), path)?;
    create(rt, path, target, None, inputs)
}

/// Opens a target that is not replaced, to write to its end.
fn as_it_is<'a, R: Files<File = File>>(
    files: &'a R,
    path: &str,
    inputs: Inputs<'a>,
) -> io::Result<OutputFile<'a, R>> {
    let file = OpenOptions::new().append(true).open(files, path)?;
    Ok(OutputFile {
        files,
        capture: inputs.capture,
        file,
        place: None,
    })
}

/// Whether this file is the script.
fn is_script<R: Files>(files: &R, found: &Metadata, script: Option<&str>) -> bool {
    match script {
        Some(script) => match fs::metadata(files, script) {
            Ok(script) => is_one_file(found, &script),
            Err(_) => false,
        },
        None => false,
    }
}

/// Refuses a file that may not be written.
fn refuse_protected<R: Files>(files: &R, path: &str, found: &Metadata) -> Result<(), ReplaceError>
    ensures { IfErr result IsEarlyError }
{
    if found.permissions().readonly() {
        return Err(ReplaceError::Protected);
    }
    match OpenOptions::new().append(true).open(files, path) {
        Ok(_) => Ok(()),
        Err(error) => match error.kind() {
            ErrorKind::PermissionDenied
            | ErrorKind::ReadOnlyFilesystem
            | ErrorKind::ExecutableFileBusy => Err(ReplaceError::Protected),
            _ => Err(error.into()),
        },
    }
}

/// Creates the file for the target of a path in a folder of its own, unless another file than the
/// one that was found is there by now. No other user reads it before it is in its place, where it
/// has the mode of the old one, or else that of any new file.
fn create<'a, R: Files<File = File> + AllocGlobal>(
    rt: &'a R,
    path: &str,
    target: PathBuf,
    found: Option<&Metadata>,
    inputs: Inputs<'a>,
) -> Result<OutputFile<'a, R>, ReplaceError>
    ensures { IfErr result IsEarlyError }
{
    let beside = folder_beside(rt.alloc(), &target)?;
    let Some(folder) = OwnFolder::make(rt, &target, &beside)? else {
        return Err(ReplaceError::InUse { folder: beside });
    };
    let old = match found {
        Some(found) => Some(find_again(&folder, found)?),
        None => None,
    };
    let mode = if old.is_some() { 0o600 } else { 0o666 };
    let file = folder.create_file(mode)?;
    Ok(OutputFile {
        files: rt,
        capture: inputs.capture,
        file,
        place: Some(Place {
            folder,
            old,
            is_capture: found.is_some_and(|found| is_capture(found, inputs)),
            has_capture_path: inputs.capture.is_some_and(|capture| capture.path() == path),
        }),
    })
}

/// Whether this file is the capture.
fn is_capture(found: &Metadata, inputs: Inputs<'_>) -> bool {
    inputs.capture.is_some_and(|capture| capture.was(found))
}

/// The file that was found, if it has the target's name in the folder that is open by now.
fn find_again<R: Files>(folder: &OwnFolder<'_, R>, found: &Metadata) -> io::Result<OldFile> {
    let old = folder.look_at_target()?;
    if is_one_file(&old, found) {
        return Ok(OldFile::of(&old));
    }
    Err(ErrorKind::ResourceBusy.into())
}
