//! Bits, change lists, waves and files, each made from a short text.

ghost use Rattle.std.specs.Prelude.{IfOk};
ghost use Rattle.vcd_core.specs.CaptureContents.{contents};
ghost use Rattle.vcd_core.specs.Sound.{IsSound};

use std::alloc::Global;
use std::process::Abort;
use std::test::Fail;
use vcd_core::{Bit, Capture, Change, FromRead, NoMemory, Signal, ToWrite, Value, Wave, Word};
use vcd_text::{Loaded, ReadError, read, write};

/// Stops with the text of a row, unless the row holds.
pub fn check_holds(rt: &impl Abort, holds: bool, row: &str) {
    assert!(rt; holds, "{row}");
}

/// The bit that a letter means.
pub fn bit_of_letter(letter: &str) -> Bit {
    match letter {
        "0" => Bit::Zero,
        "1" => Bit::One,
        "z" => Bit::Z,
        _ => Bit::X,
    }
}

/// A change of one bit, as `1@5`: to 1 at tick 5.
fn change_of(text: &str) -> Result<Change, Fail> {
    let (letter, tick) = text.split_once('@').ok_or("a change without a tick")?;
    Ok(Change {
        tick: tick.parse::<u64>()?,
        value: Value::filled(1, bit_of_letter(letter)),
    })
}

/// Changes of one bit, as `0@0 1@5`.
pub fn changes_in_text(alloc: Global, text: &str) -> Result<Vec<Change>, Fail> {
    let mut changes = Vec::new(alloc);
    for word in text.split_whitespace() {
        changes.push(change_of(word)?)?;
    }
    Ok(changes)
}

/// A wave of one bit after a push for each change. A tick below the one before is skipped.
pub fn wave_after_pushes(alloc: Global, changes: &[Change]) -> Result<Wave, NoMemory> {
    let mut wave = Wave::new(alloc, 1);
    let mut last = 0u64;
    for change in changes {
        if last <= change.tick && change.value.width() == 1 {
            wave.push(change.tick, change.value)?;
            last = change.tick;
        }
    }
    Ok(wave)
}

/// A wave of one bit, as `0@0 1@5`.
pub fn wave_of(alloc: Global, text: &str) -> Result<Wave, Fail> {
    let changes = changes_in_text(alloc, text)?;
    Ok(wave_after_pushes(alloc, changes.as_slice())?)
}

/// The bytes of a file in a row, with `|` for a line feed.
pub fn file_of(alloc: Global, row: &str) -> Result<Vec<u8>, Fail> {
    let mut file = Vec::new(alloc);
    for byte in row.as_bytes() {
        file.push(if *byte == b'|' { b'\n' } else { *byte })?;
    }
    Ok(file)
}

/// Appends a text `count` times.
pub fn append_copies(file: &mut Vec<u8>, text: &[u8], count: usize) -> Result<(), Fail> {
    for _ in 0..count {
        file.extend_from_slice(text)?;
    }
    Ok(())
}

/// The result of reading a file in memory.
pub fn load_file(alloc: Global, file: &[u8]) -> Result<Loaded, ReadError>
    ensures { IfOk result (λ loaded. IsSound (contents loaded.capture)) }
{
    let mut source = FromRead::new(file);
    read(alloc, &mut source)
}

/// The text of a capture, which shows all that it holds.
pub fn text_of(alloc: Global, capture: &Capture) -> Result<Vec<u8>, Fail>
    requires { IsSound (contents capture.now) }
{
    let mut sink = ToWrite::new(Vec::new(alloc));
    write(alloc, capture, &mut sink)?;
    Ok(sink.into_inner())
}

/// Appends the words of a name, run together.
fn push_words(text: &mut String, words: &[Word]) -> Result<(), Fail> {
    for word in words {
        for byte in word.as_slice() {
            text.push(*byte as char)?;
        }
    }
    Ok(())
}

/// Appends the full name of a signal.
fn push_name(text: &mut String, signal: &Signal) -> Result<(), Fail> {
    for scope in signal.scopes.as_slice() {
        push_words(text, scope.words.as_slice())?;
        text.push('.')?;
    }
    push_words(text, signal.words.as_slice())
}

/// The end of a capture, and the full name and the changes of each signal, as `8|top.a 0@0
/// 1@3|top.b 1@0`.
pub fn capture_text(alloc: Global, capture: &Capture) -> Result<String, Fail> {
    let mut text = format!(in alloc; "{}", capture.end())?;
    for signal in capture.signals() {
        text.push('|')?;
        push_name(&mut text, signal)?;
        for change in signal.wave.changes() {
            let shown = format!(in alloc; " {:?}@{}", change.value, change.tick)?;
            text.push_str(shown.as_str())?;
        }
    }
    Ok(text)
}
