//! A capture and its parts: header entries, timescale, scopes and signals.

ghost use Rattle.std.specs.Prelude.{◌≡◌, ◌↔◌, IsTrue};
ghost use Rattle.vcd_core.specs.CaptureContents.{contents};
ghost use Rattle.vcd_core.specs.Sound.{IsSound};

use crate::header_words::HeaderWords;
use crate::names::name_words::NameWords;
use crate::names::scope_path::ScopePath;
use crate::seq::Seq;
use crate::wave::Wave;

/// The greatest end of a capture, in ticks.
pub const END_LIMIT: u64 = 9223372036854775807;

/// The greatest number of signals in a capture.
pub const SIGNAL_LIMIT: usize = 65536;

/// A word of the file: bytes without white space.
pub type Word = Seq<u8>;

/// The kind of a header entry: `$date`, `$version` or `$comment` (IEEE 1364-2005, 18.2).
#[derive(Clone, Copy, Debug, PartialEq, Eq)]
pub enum HeaderKind {
    Date,
    Version,
    Comment,
}

/// A header entry: the words between its keyword and `$end`.
#[derive(Drop)]
pub struct Header {
    pub kind: HeaderKind,
    pub words: HeaderWords,
}

/// The unit of a timescale, from a second down to a femtosecond (IEEE 1364-2005, 18.2).
#[derive(Clone, Copy, Debug, PartialEq, Eq)]
pub enum TimeUnit {
    Second,
    Millisecond,
    Microsecond,
    Nanosecond,
    Picosecond,
    Femtosecond,
}

impl TimeUnit {
    ghost use Rattle.std.specs.Prelude.{◌≡◌};
    ghost use Rattle.vcd_core.specs.TimeUnits.{unit_text};
    ghost use Rattle.vcd_core.specs.UnitNames.{unit_named};

    /// The unit as a file spells it: `s`, `ms`, `us`, `ns`, `ps` or `fs`.
    pub fn symbol(self) -> &'static str
        ensures { result.now ≡ unit_text self }
    {
        match self {
            TimeUnit::Second => "s",
            TimeUnit::Millisecond => "ms",
            TimeUnit::Microsecond => "us",
            TimeUnit::Nanosecond => "ns",
            TimeUnit::Picosecond => "ps",
            TimeUnit::Femtosecond => "fs",
        }
    }

    /// The unit that a text names, if it names one.
    pub fn from_symbol(text: &[u8]) -> Option<TimeUnit>
        ensures { result ≡ unit_named text.now }
    {
        // Comparisons in a row: a `match` on byte strings leaves goals open.
        if text == b"s".as_slice() {
            Some(TimeUnit::Second)
        } else if text == b"ms".as_slice() {
            Some(TimeUnit::Millisecond)
        } else if text == b"us".as_slice() {
            Some(TimeUnit::Microsecond)
        } else if text == b"ns".as_slice() {
            Some(TimeUnit::Nanosecond)
        } else if text == b"ps".as_slice() {
            Some(TimeUnit::Picosecond)
        } else if text == b"fs".as_slice() {
            Some(TimeUnit::Femtosecond)
        } else {
            None
        }
    }
}

/// The length of a tick: `count` units, where `count` is 1, 10 or 100 (IEEE 1364-2005, 18.2).
#[derive(Clone, Copy, Debug, PartialEq, Eq)]
pub struct Timescale {
    pub count: u64,
    pub unit: TimeUnit,
}

/// A scope: its kind, such as `module`, and the words of its name.
#[derive(Drop)]
pub struct ScopeName {
    pub kind: Word,
    pub words: Seq<Word>,
}

/// A signal: its scopes, its kind such as `wire`, the words of its name, and its wave.
#[derive(Drop)]
pub struct Signal {
    pub scopes: ScopePath,
    pub kind: Word,
    pub words: NameWords,
    pub wave: Wave,
}

/// A capture: the contents of a value change dump (IEEE 1364-2005, 18.2) up to the tick `end`.
#[derive(Drop)]
pub struct Capture {
    pub header: Seq<Header>,
    pub timescale: Option<Timescale>,
    pub end: u64,
    pub signals: Seq<Signal>,
}

impl Capture {
    /// The capture of these parts. It checks nothing.
    pub fn new(
        header: Vec<Header>,
        timescale: Option<Timescale>,
        end: u64,
        signals: Vec<Signal>,
    ) -> Capture
        ensures header { result.header ≡ header.items }
        ensures timescale { result.timescale ≡ timescale }
        ensures end { result.end ≡ end }
        ensures signals { result.signals ≡ signals.items }
    {
        Capture {
            header: Seq::from_vec(header),
            timescale,
            end,
            signals: Seq::from_vec(signals),
        }
    }

    /// The header entries, in the order of the file.
    pub fn header(&self) -> &[Header]
        ensures { result.now ≡ self.now.header }
    {
        self.header.as_slice()
    }

    /// The length of a tick, if the file gives it.
    pub fn timescale(&self) -> Option<Timescale>
        ensures { result ≡ self.now.timescale }
    {
        self.timescale
    }

    /// The last tick.
    pub fn end(&self) -> u64
        ensures { result ≡ self.now.end }
    {
        self.end
    }

    /// The signals, in the order of the file.
    pub fn signals(&self) -> &[Signal]
        ensures { result.now ≡ self.now.signals }
    {
        self.signals.as_slice()
    }
}
