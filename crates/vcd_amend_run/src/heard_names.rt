//! The full names of the signals whose changes are read.

ghost use Rattle.std.specs.Prelude.{◌≡◌, nat_eq, map, true, IfOk};
ghost use Rattle.std.specs.HashSet.{contains};
ghost use Rattle.vcd_core.specs.FullName.{name_bytes};
ghost use Rattle.vcd_core.specs.CaptureContents.{signal_contents};
ghost use Rattle.vcd_amend_run.specs.inside.NameHash.{name_hash};

use crate::name_hash::name_hash;
use std::alloc::Global;
use std::collections::HashSet;
use vcd_core::{FullName, NoMemory, Signal};
use vcd_script::split_line;
use vcd_text::{Choice, DeclaredSignal, TickRange, Words};

/// The full names of the signals whose changes are read. As a choice of a part of a file, it takes
/// the signals of these names, at all ticks.
///
/// It has a hash of each name, so that a look-up takes no memory. Rarely another name has the same
/// hash. Its signal is then taken too, which costs its memory and is no fault.
#[derive(Drop)]
pub struct HeardNames {
    hashes: HashSet<u64>,
}

impl HeardNames {
    ghost use Rattle.vcd_amend_run.specs.inside.HeardNames.{hears, HearsAll};

    /// The full names of the heard signals. Signals past the end of the list are not heard.
    pub fn new(alloc: Global, signals: &[Signal], heard: &[bool]) -> Result<HeardNames, NoMemory>
        ensures { IfOk result (λ names.
            HearsAll (hears names) heard.now (map signal_contents signals.now)) }
    {
        let mut hashes = HashSet::new(alloc);
        for (signal, is_heard) in signals.iter().zip(heard) {
            if *is_heard {
                hashes.insert(name_hash(FullName::of(signal)))?;
            }
        }
        Ok(HeardNames { hashes })
    }

    /// The names that lines of a script are expected to ask for. It is a guess: a line may ask for
    /// a signal by its position, or by a name that an earlier line has given it, and one that
    /// decodes may have to be held.
    pub fn expected(alloc: Global, script: &[u8]) -> Result<HeardNames, NoMemory> {
        let mut hashes = HashSet::new(alloc);
        let mut rest = script;
        while let Some((line, following)) = split_line(rest) {
            expect_words(&mut hashes, line)?;
            rest = following;
        }
        Ok(HeardNames { hashes })
    }

    /// Whether all heard signals are taken. Signals past the end of the list are not heard.
    pub fn take_all(&self, signals: &[Signal], heard: &[bool]) -> bool
        ensures { result ≡ true →
            HearsAll (hears self.now) heard.now (map signal_contents signals.now) }
    {
        for (signal, is_heard) in signals.iter().zip(heard) {
            // Nested, not `&&`: the proof cites the second test alone.
            if *is_heard {
                if !self.hears(FullName::of(signal)) {
                    return false;
                }
            }
        }
        true
    }

    /// Whether a signal of this name is taken.
    pub fn hears(&self, name: FullName<'_>) -> bool
        ensures { result ≡ contains nat_eq self.now.hashes (name_hash (name_bytes name.entry)) }
    {
        self.hashes.contains(&name_hash(name))
    }
}

/// Expects the words of a line, unless it is a comment, or a command that reads no changes or
/// decodes.
fn expect_words(hashes: &mut HashSet<u64>, line: &[u8]) -> Result<(), NoMemory> {
    let mut words = Words::new(line);
    let Some(first) = words.next_word() else {
        return Ok(());
    };
    if !may_read_changes(first.text) {
        return Ok(());
    }
    for word in words {
        hashes.insert(name_hash(FullName::of_text(word.text)))?;
    }
    Ok(())
}

/// Whether a line that begins with this word may read the changes of the signals that it names, and
/// is not likely to be decoded while the file is read.
fn may_read_changes(first: &[u8]) -> bool {
    let is_comment = matches!(first, [b'#', ..]);
    !is_comment && !reads_no_changes(first) && !decodes(first)
}

/// Whether a command reads no changes.
fn reads_no_changes(first: &[u8]) -> bool {
    first == b"rename".as_slice() || first == b"remove".as_slice()
}

/// Whether a command decodes the signals that it names.
fn decodes(first: &[u8]) -> bool {
    first == b"uart".as_slice() || first == b"spi".as_slice() || first == b"i2c".as_slice()
}

impl Choice for HeardNames {
    ghost use Rattle.vcd_text.specs.inside.reading.Part.{all_ticks};
    ghost use Rattle.vcd_amend_run.specs.inside.HeardNames.{hears};

    ghost takes = { hears };

    ghost ticks = { λ _. all_ticks };

    fn takes(&self, signal: DeclaredSignal<'_>) -> bool {
        self.hears(FullName::of_words(signal.scopes, signal.words))
    }

    fn ticks(&self) -> TickRange {
        TickRange::all()
    }
}
