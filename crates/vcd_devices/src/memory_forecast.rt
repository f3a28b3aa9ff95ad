//! Whether the changes that a script asks for will fit in memory, foretold while they are read.

ghost use Rattle.std.specs.Prelude.{◌<◌};

use std::fmt::{Display, Formatter};
use std::rt::Files;
use std::{fmt, fs};
use vcd_core::Change;

/// How many bytes of a capture are read before the memory is first looked at, at least.
const LEAST: u64 = 8_388_608;

/// Which part of a capture is read before that: one of so many.
const PARTS: u64 = 32;

/// How many bytes a change of at most 64 bits takes while it is read: `LoggedChange` of `vcd_text`.
const LOGGED: u64 = 32;

/// How many bytes it takes at most when all are read, and the waves are made of them.
const AT_END: u64 = LOGGED + size_of::<Change>() as u64;

/// What is known of the memory that the changes of a capture will take, while they are read.
///
/// The memory is looked at once, and again when twice as much is read. What came in between are
/// changes, and the rest of the capture is taken to be like that. A change of more than 64 bits
/// takes all of its memory at once, so too much is foretold of such.
#[derive(Clone, Copy)]
pub struct MemoryForecast {
    // the bytes of the capture
    size: u64,
    first: Option<Look>,
}

/// What is seen at one time.
#[derive(Clone, Copy)]
struct Look {
    // the bytes of the capture that are read
    read: u64,
    // the memory of the process in KiB
    resident: u64,
}

/// Two amounts of memory in KiB.
#[derive(Clone, Copy)]
pub struct Shortage {
    // what the changes will take
    wanted: u64,
    there: u64,
    ghost less: { there < wanted },
}

/// An amount of memory in KiB, which is shown in MB or GB.
#[derive(Clone, Copy)]
struct Amount(u64);

impl MemoryForecast {
    /// What is known before a capture of so many bytes is read.
    pub fn new(size: u64) -> MemoryForecast {
        MemoryForecast { size, first: None }
    }

    /// Looks at the memory when so many bytes are read, and finds whether it will be too little. If
    /// the system does not say how much there is, it finds nothing.
    pub fn look<R: Files + Alloc>(&mut self, rt: &R, read: u64) -> Option<Shortage> {
        let least = LEAST.max(self.size / PARTS);
        if read < least {
            return None;
        }
        let resident = number_at(rt, "/proc/self/status", "VmRSS:")?;
        let look = Look { read, resident };
        match self.first {
            Some(first) if read / 2 >= least => self.shortage(rt, first, look),
            Some(_) => None,
            None => {
                self.first = Some(look);
                None
            }
        }
    }

    /// What will be too little, by two looks.
    fn shortage<R: Files + Alloc>(&self, rt: &R, first: Look, last: Look) -> Option<Shortage> {
        let wanted = self.memory_of_changes(first, last);
        let there = memory_there(rt, last.resident)?;
        if there < wanted {
            Some(Shortage { wanted, there })
        } else {
            None
        }
    }

    /// How many KiB all changes will take, by two looks.
    fn memory_of_changes(&self, first: Look, last: Look) -> u64 {
        let taken = last.resident.saturating_sub(first.resident);
        let read = last.read.saturating_sub(first.read);
        let logged = taken.saturating_mul(self.size / 1_024) / (read / 1_024).max(1);
        logged.saturating_mul(AT_END) / LOGGED
    }
}

impl Display for Shortage {
    fn fmt<W: fmt::Write>(&self, f: &mut Formatter<W>) -> fmt::Result {
        f.write_str("memory may run out: the changes that the script asks for take about ")?;
        write!(
            f,
            "{}, and {} are there",
            Amount(self.wanted),
            Amount(self.there)
        )
    }
}

impl Display for Amount {
    fn fmt<W: fmt::Write>(&self, f: &mut Formatter<W>) -> fmt::Result {
        let tenths = self.0.saturating_mul(1_024) / 100_000;
        if tenths < 10_000 {
            write!(f, "{}.{} MB", tenths / 10, tenths % 10)
        } else {
            write!(f, "{}.{} GB", tenths / 10_000, tenths / 1_000 % 10)
        }
    }
}

/// How many KiB this process can have, which now has so many: what the machine can still give
/// beside those, or the limit of its addresses, if that is lower.
fn memory_there<R: Files + Alloc>(rt: &R, resident: u64) -> Option<u64> {
    let available = number_at(rt, "/proc/meminfo", "MemAvailable:")?;
    let most = available.saturating_add(resident);
    // without a limit a word stands in place of the number
    match number_at(rt, "/proc/self/limits", "Max address space") {
        Some(limit) => Some(most.min(limit / 1_024)),
        None => Some(most),
    }
}

/// The number behind a label, at the beginning of a line of a file that the system makes.
fn number_at<R: Files + Alloc>(rt: &R, path: &str, label: &str) -> Option<u64> {
    let text = fs::read_to_string(rt, path).ok()?;
    number_after(text.as_str(), label)
}

/// The number behind a label, at the beginning of a line.
fn number_after(text: &str, label: &str) -> Option<u64> {
    for line in text.lines() {
        if let Some(rest) = line.strip_prefix(label) {
            return rest.split_whitespace().next()?.parse().ok();
        }
    }
    None
}
