//! A file that is created at its first byte.

ghost use Rattle.std.specs.Prelude.{◌≡◌, [], None, Some, IsSome, IsOk, OnOk, OnErr};
ghost use Rattle.std.specs.Io.{WritesAtMost};
ghost use Rattle.std.specs.Io.KnownBytes.{WriteAppends};

use std::io::Write;
use std::rt::Files;
use std::{fs, io};

/// A writer that creates or empties its file at its first byte.
///
/// So the file may also be an input of the run, and a run that writes nothing leaves it as it is.
#[derive(Drop)]
pub struct LateFile<'a, R: Files> {
    files: &'a R,
    path: &'a str,
    file: Option<R::File>,
}

impl<'a, R: Files> LateFile<'a, R> {
    /// A writer to the file at `path`. It opens no file yet and takes no memory.
    pub fn new(files: &'a R, path: &'a str) -> LateFile<'a, R>
        ensures unopened { result.file ≡ None }
        ensures path { result.path.now ≡ path.now }
    {
        LateFile {
            files,
            path,
            file: None,
        }
    }

    /// Creates or empties the file, unless it is open.
    fn open_file(&mut self) -> io::Result<()>
        ensures open { OnOk result (IsSome self.new.file) }
        ensures stays { IsSome self.old.file → self.new.file ≡ self.old.file }
        ensures unopened { OnErr result (self.new.file ≡ None) }
        ensures path { self.new.path ≡ self.old.path }
    {
        if self.file.is_none() {
            self.file = Some(fs::create(self.files, self.path)?);
        }
        Ok(())
    }
}

impl<R: Files> Write for LateFile<'_, R> {
    fn write(&mut self, buf: &[u8]) -> io::Result<usize>
        ensures bound { WritesAtMost result buf.now }
        // the trait's own clause, which always holds of a file that shows no bytes
        ensures bytes { WriteAppends None None result buf.now }
        ensures without_bytes { buf.now ≡ [] → self.new.file ≡ self.old.file }
    {
        if buf.is_empty() {
            return Ok(0);
        }
        self.open_file()?;
        match &mut self.file {
            Some(file) => file.write(buf),
            None => unreachable!(),
        }
    }

    fn flush(&mut self) -> io::Result<()> {
        match &mut self.file {
            Some(file) => file.flush(),
            None => Ok(()),
        }
    }
}
