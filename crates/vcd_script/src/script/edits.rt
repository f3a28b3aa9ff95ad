//! The lines that edit signals and time.
#![tactic(auto, using(crate::proofs::script::WrongCounts::wrong_count))]

ghost use Rattle.std.specs.Prelude.{◌≡◌, ◌<◌, length, IfOk};
ghost use Rattle.vcd_core.specs.Contents.{Contents, signal_at};
ghost use Rattle.vcd_core.specs.CaptureContents.{contents};
ghost use Rattle.vcd_text.specs.LentWords.{texts_left};
ghost use Rattle.vcd_script.specs.declared.script.keyword.Keyword.TheVariants as keywords;
ghost use Rattle.vcd_script.specs.ScriptWords.{signal_of_name, value_of_word};
ghost use Rattle.vcd_script.specs.inside.script.Line.{ReadsCommand};

use crate::script::line_words::{take_four, take_one, take_two};
use crate::script::numbers::{distance_of_word, number_of_word};
use crate::script::{Command, LineError, Parsed};
use vcd_core::{Capture, Value};
use vcd_edit::Edit;
use vcd_journal::Step;
use vcd_text::{Words, value_of_digits};

/// Reads `NAME WORD`.
pub fn parse_rename<'a>(words: &mut Words<'a>, capture: &Capture) -> Parsed<'a>
    ensures { ReadsCommand (contents capture.now) keywords.Rename (texts_left words.old) result }
{
    let (name, word) = take_two(words)?;
    let signal = signal_of_name(capture, name)?;
    Ok(Command::Step(Step::Edit(Edit::Rename { signal, word })))
}

/// Reads `NAME` of a signal to remove.
pub fn parse_remove<'a>(words: &mut Words<'a>, capture: &Capture) -> Parsed<'a>
    ensures { ReadsCommand (contents capture.now) keywords.Remove (texts_left words.old) result }
{
    let signal = signal_of_name(capture, take_one(words)?)?;
    Ok(Command::Step(Step::Edit(Edit::Remove { signal })))
}

/// Reads `NAME` of a signal to invert.
pub fn parse_invert<'a>(words: &mut Words<'a>, capture: &Capture) -> Parsed<'a>
    ensures { ReadsCommand (contents capture.now) keywords.Invert (texts_left words.old) result }
{
    let signal = signal_of_name(capture, take_one(words)?)?;
    Ok(Command::Step(Step::Edit(Edit::Invert { signal })))
}

/// Reads `NAME BY`.
pub fn parse_shift<'a>(words: &mut Words<'a>, capture: &Capture) -> Parsed<'a>
    ensures { ReadsCommand (contents capture.now) keywords.Shift (texts_left words.old) result }
{
    let (name, by) = take_two(words)?;
    let signal = signal_of_name(capture, name)?;
    let by = distance_of_word(by)?;
    Ok(Command::Step(Step::Edit(Edit::Shift { signal, by })))
}

/// Reads `FROM TO`.
pub fn parse_cut<'a>(words: &mut Words<'a>) -> Parsed<'a>
    ensures { (c : Contents) → ReadsCommand c keywords.Cut (texts_left words.old) result }
{
    let (from, to) = take_two(words)?;
    let from = number_of_word(from)?;
    let to = number_of_word(to)?;
    Ok(Command::Step(Step::Edit(Edit::Cut { from, to })))
}

/// Reads `NAME TICKS`.
pub fn parse_deglitch<'a>(words: &mut Words<'a>, capture: &Capture) -> Parsed<'a>
    ensures { ReadsCommand (contents capture.now) keywords.Deglitch (texts_left words.old) result }
{
    let (name, ticks) = take_two(words)?;
    let signal = signal_of_name(capture, name)?;
    let ticks = number_of_word(ticks)?;
    Ok(Command::Step(Step::Edit(Edit::Deglitch { signal, ticks })))
}

/// Reads `NAME FROM TO VALUE`.
pub fn parse_force<'a>(words: &mut Words<'a>, capture: &Capture) -> Parsed<'a>
    ensures { ReadsCommand (contents capture.now) keywords.Force (texts_left words.old) result }
{
    let (name, from, to, value) = take_four(words)?;
    let signal = signal_of_name(capture, name)?;
    let from = number_of_word(from)?;
    let to = number_of_word(to)?;
    let value = value_of_word(capture, signal, value)?;
    Ok(Command::Step(Step::Edit(Edit::Force {
        signal,
        from,
        to,
        value,
    })))
}

/// The position of the signal that a word names.
pub fn signal_of_name(capture: &Capture, name: &[u8]) -> Result<usize, LineError>
    ensures found { result ≡ signal_of_name (contents capture.now) name.now }
    ensures within { IfOk result (λ k. k < length capture.now.signals) }
{
    capture.find(name).ok_or(LineError::NoSuchName)
}

/// The value that a word writes for a signal.
fn value_of_word(capture: &Capture, signal: usize, word: &[u8]) -> Result<Value, LineError>
    requires { signal < length capture.now.signals }
    ensures { result ≡ value_of_word (signal_at (contents capture.now) signal).width word.now }
{
    let width = capture.signals()[signal].wave.width();
    value_of_digits(width, word).ok_or(LineError::BadValueText)
}
