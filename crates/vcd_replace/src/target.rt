//! Where an output goes.

ghost use Rattle.std.specs.Prelude.{◌≡◌, IfOk, IsSomeAnd};
ghost use Rattle.std.specs.Path.{path_buf_bytes, path_bytes, path_file_name, path_parent};
ghost use Rattle.std.specs.Path.{path_with_file_name};
ghost use Rattle.vcd_replace.specs.Names.{folder_name};
ghost use Rattle.vcd_replace.specs.Names as spec;

use std::alloc::Global;
use std::io::ErrorKind;
use std::path::{Path, PathBuf};
use std::rt::Files;
use std::{fs, io};

/// How many links are followed, as the system does.
const LINKS: u32 = 40;

/// The path of a file itself, if this one is a link.
pub fn real_path<R: Files + AllocGlobal>(rt: &R, path: &str) -> io::Result<PathBuf> {
    if fs::symlink_metadata(rt, path)?.is_symlink() {
        return fs::canonicalize(rt, path);
    }
    Ok(PathBuf::from_str(rt.alloc(), path)?)
}

/// Whether a path leads to a file that a process has open, as /dev/stdout and a link to it do.
/// Others write there too, so it is never replaced.
pub fn is_open_elsewhere<R: Files + AllocGlobal>(rt: &R, path: &str) -> io::Result<bool> {
    let mut path = PathBuf::from_str(rt.alloc(), path)?;
    for _ in 0..LINKS {
        let folder = fs::canonicalize(rt, folder_of(path.as_path()))?;
        if has_descriptors(folder.as_str()) {
            return Ok(true);
        }
        if !fs::symlink_metadata(rt, &path)?.is_symlink() {
            return Ok(false);
        }
        let next = fs::read_link(rt, &path)?;
        path = folder.join(rt.alloc(), next.as_str())?;
    }
    Err(ErrorKind::FilesystemLoop.into())
}

/// Whether it is the folder of the files that a process has open, where /dev/fd leads to.
fn has_descriptors(folder: &str) -> bool {
    folder.starts_with("/proc/") && folder.ends_with("/fd")
}

/// The folder of a path.
pub fn folder_of<'a>(path: Path<'a>) -> Path<'a>
    ensures { path_bytes result ≡ spec.folder_of (path_parent (path_bytes path.entry)) }
{
    match path.parent() {
        Some(folder) if !folder.as_str().is_empty() => folder,
        _ => Path::new("."),
    }
}

/// The folder in which the output for this target is written: it is beside it, with a hidden name.
/// A path without a name, as `..`, is refused.
pub fn folder_beside(alloc: Global, target: &PathBuf) -> io::Result<PathBuf>
    ensures { IfOk result (λ folder. IsSomeAnd (path_file_name (path_buf_bytes target.now)) (λ name.
        path_buf_bytes folder
        ≡ path_with_file_name (path_buf_bytes target.now) (folder_name name))) }
{
    let Some(name) = target.file_name() else {
        return Err(ErrorKind::IsADirectory.into());
    };
    let hidden = format!(in alloc; ".{name}.vcdedit")?;
    Ok(target.with_file_name(alloc, hidden.as_str())?)
}
