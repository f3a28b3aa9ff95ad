//! A source over a reader, which watches what is read.

ghost use Rattle.std.specs.Prelude.{◌≡◌, false, IfOk};

use crate::capture_search::CaptureSearch;
use crate::progress::ProgressLine;
use crate::reasons::tell_reason;
use std::io::Read;
use std::rt::Runtime;
use std::{fs, io};
use vcd_core::{DeviceFault, Source};

/// A source over a reader, as `FromRead` of `vcd_core`: nothing is tried again.
///
/// What comes is searched for what there is to tell of a capture, if that is wanted, and the line
/// on the pass shows how far it is. If the reader fails, standard error has the reason.
#[derive(Drop)]
pub struct Watched<'a, R, F> {
    rt: &'a R,
    reader: F,
    // none for standard input
    path: Option<&'a str>,
    failed: bool,
    line: ProgressLine,
    // none if nothing is looked for
    search: Option<CaptureSearch>,
}

impl<'a, R: Runtime + AllocGlobal, F: Read> Watched<'a, R, F> {
    /// A source of the bytes that the reader of the file at `path` has left. Standard input has no
    /// path.
    pub fn new(rt: &'a R, reader: F, path: Option<&'a str>, line: ProgressLine) -> Watched<'a, R, F>
        ensures { ⟦<Watched<'a, R, F> as Source>⟧.has_failed result ≡ false }
    {
        Watched {
            rt,
            reader,
            path,
            failed: false,
            line,
            search: Some(CaptureSearch::new()),
        }
    }

    /// The same source, in whose bytes nothing is looked for.
    pub fn unsearched(mut self) -> Watched<'a, R, F>
        ensures { ⟦<Watched<'a, R, F> as Source>⟧.has_failed result
            ≡ ⟦<Watched<'a, R, F> as Source>⟧.has_failed self.entry }
    {
        self.search = None;
        self
    }

    /// What was found in the bytes that have come.
    pub fn search(&self) -> CaptureSearch {
        self.search.unwrap_or(CaptureSearch::new())
    }

    /// Takes the line from the terminal, if it is there.
    pub fn clear(&mut self) {
        self.line.clear(self.rt);
    }
}

impl<'a, R: Runtime + AllocGlobal, F: Read> Source for Watched<'a, R, F> {
    ghost coming = { λ device. F.remaining device.reader };

    ghost has_failed = { λ device. device.failed };

    fn read(&mut self, buffer: &mut [u8]) -> Result<usize, DeviceFault> {
        if self.failed {
            return Err(DeviceFault);
        }
        match self.reader.read(buffer) {
            Ok(count) => {
                if let Some(search) = &mut self.search {
                    search.go_on(&buffer[..count]);
                }
                self.line.add(self.rt, count as u64);
                Ok(count)
            }
            Err(error) => {
                self.failed = true;
                self.line.clear(self.rt);
                if let Some(path) = self.path {
                    tell_reason(self.rt, path, &error);
                }
                Err(DeviceFault)
            }
        }
    }

    fn failed(&self) -> bool {
        self.failed
    }
}

/// Opens a named file. If it can't be opened, the reason is told.
pub fn open_named<'a, R: Runtime + AllocGlobal>(
    rt: &'a R,
    path: &'a str,
) -> Result<Watched<'a, R, R::File>, DeviceFault>
    ensures { IfOk result (λ s. ⟦<Watched<'a, R, R::File> as Source>⟧.has_failed s ≡ false) }
{
    watched_or_told(rt, path, fs::open(rt, path), ProgressLine::none())
}

/// Watches a named file that was opened, with this line. If it can't be opened, the reason is told.
pub fn watched_or_told<'a, R: Runtime + AllocGlobal>(
    rt: &'a R,
    path: &'a str,
    opened: io::Result<R::File>,
    line: ProgressLine,
) -> Result<Watched<'a, R, R::File>, DeviceFault>
    ensures { IfOk result (λ s. ⟦<Watched<'a, R, R::File> as Source>⟧.has_failed s ≡ false) }
{
    match opened {
        Ok(reader) => Ok(Watched::new(rt, reader, Some(path), line)),
        Err(error) => {
            tell_reason(rt, path, &error);
            Err(DeviceFault)
        }
    }
}
