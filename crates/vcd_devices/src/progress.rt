//! How far the capture is read: one line on a terminal, which is gone at the end.

use crate::memory_forecast::MemoryForecast;
use std::fs;
use std::io::Eprint;
use std::os::unix::fs::{FileTypeExt, MetadataExt};
use std::rt::{Clock, Files, Runtime};
use std::time::Instant;

/// How many seconds a run takes before the line is shown.
const PATIENCE: u64 = 2;

/// After how many bytes the clock is asked again.
const STEP: u64 = 4_194_304;

/// What a run on a terminal knows of its time.
#[derive(Clone, Copy)]
pub struct Watch {
    // none if standard error is no terminal
    start: Option<Instant>,
    // the bytes of the capture
    size: u64,
}

/// The line on a pass: what part of the capture's bytes was read.
///
/// It is on standard error, from two seconds after the start of the run on, if that is a terminal,
/// up to the end of the pass: replies may stand after that, and where they may stand before, it is
/// not shown. Also on no terminal, it is told once if what the pass holds may not fit in memory.
#[derive(Clone, Copy)]
pub struct ProgressLine {
    watch: Watch,
    // what the pass does, in at most 20 letters
    task: &'static str,
    read: u64,
    // the clock is asked again when so many bytes are read
    next: u64,
    // what is on the terminal, if the line is
    shown: Option<u64>,
    // none for a pass that holds little, or once it is told
    forecast: Option<MemoryForecast>,
    // replies are written before the end of the pass
    has_replies: bool,
}

impl Watch {
    /// Begins to watch a run on a capture of so many bytes.
    pub fn begin<R: Files + Clock>(rt: &R, size: u64) -> Watch {
        let start = if is_terminal(rt, "/proc/self/fd/2") {
            Instant::now(rt).ok()
        } else {
            None
        };
        Watch { start, size }
    }

    /// The line on a pass that does this, in at most 20 letters.
    pub fn line(self, task: &'static str) -> ProgressLine {
        line_of(self, task, None)
    }

    /// The same of a pass that holds changes, of which there is a forecast.
    pub fn line_with_forecast(self, task: &'static str) -> ProgressLine {
        line_of(self, task, Some(MemoryForecast::new(self.size)))
    }

    /// The same of a pass during which replies are written: it is not shown where these are.
    pub fn line_with_replies(self, task: &'static str) -> ProgressLine {
        let mut line = line_of(self, task, None);
        line.has_replies = true;
        line
    }

    /// Whether the run takes long enough, on a terminal, that the line is shown.
    fn is_due<R: Clock>(&self, rt: &R) -> bool {
        let Some(start) = &self.start else {
            return false;
        };
        match start.elapsed(rt) {
            Ok(elapsed) => elapsed.as_secs() >= PATIENCE,
            Err(_) => false,
        }
    }
}

/// The line on a pass of which nothing was read.
fn line_of(watch: Watch, task: &'static str, forecast: Option<MemoryForecast>) -> ProgressLine {
    ProgressLine {
        watch,
        task,
        read: 0,
        next: STEP,
        shown: None,
        forecast,
        has_replies: false,
    }
}

impl ProgressLine {
    /// The line on what is read but once, which is never shown.
    pub fn none() -> ProgressLine {
        let watch = Watch {
            start: None,
            size: 0,
        };
        watch.line("")
    }

    /// Counts bytes more; none at the end. After each step it looks at the memory and at the clock.
    pub fn add<R: Runtime>(&mut self, rt: &R, count: u64) {
        if count == 0 {
            self.clear(rt);
            return;
        }
        self.read = self.read.saturating_add(count);
        if self.read < self.next {
            return;
        }
        self.next = self.read.saturating_add(STEP);
        self.warn(rt);
        self.show(rt);
    }

    /// Tells once if what the pass holds may not fit in memory.
    fn warn<R: Runtime>(&mut self, rt: &R) {
        let Some(forecast) = &mut self.forecast else {
            return;
        };
        if let Some(shortage) = forecast.look(rt, self.read) {
            self.forecast = None;
            self.clear(rt);
            let _ = eprintln!(rt; "vcdedit-amend: {shortage}");
        }
    }

    /// Shows the line if it is due and has another number.
    fn show<R: Files + Eprint + Clock>(&mut self, rt: &R) {
        let percent = (self.read / (self.watch.size / 100 + 1)).min(100);
        if self.shown != Some(percent) && self.watch.is_due(rt) && !self.is_among_replies(rt) {
            self.shown = Some(percent);
            let _ = eprint!(rt; "\rvcdedit-amend: {:<20} {:>3} %", self.task, percent);
        }
    }

    /// Whether it would stand among replies, since these go to a terminal.
    fn is_among_replies<R: Files>(&self, rt: &R) -> bool {
        self.has_replies && is_terminal(rt, "/proc/self/fd/1")
    }

    /// Takes the line from the terminal, if it is there.
    pub fn clear<R: Eprint>(&mut self, rt: &R) {
        if self.shown.is_some() {
            self.shown = None;
            let _ = eprint!(rt; "\r{:41}\r", "");
        }
    }
}

/// Whether this is a terminal: the numbers are those that Linux gives to their devices.
fn is_terminal<R: Files>(files: &R, path: &str) -> bool {
    match fs::metadata(files, path) {
        Ok(found) => {
            let major = (found.rdev() >> 8) & 0xfff;
            found.file_type().is_char_device()
                && (major == 4 || major == 5 || (136..=143).contains(&major))
        }
        Err(_) => false,
    }
}
