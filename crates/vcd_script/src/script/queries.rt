//! The lines that ask about a capture and leave it as it is.
#![tactic(auto, using(crate::proofs::script::WrongCounts::wrong_count))]

ghost use Rattle.vcd_core.specs.CaptureContents.{contents};
ghost use Rattle.vcd_text.specs.LentWords.{texts_left};
ghost use Rattle.vcd_script.specs.declared.script.keyword.Keyword.TheVariants as keywords;
ghost use Rattle.vcd_script.specs.inside.script.Line.{ReadsCommand};

use crate::script::edits::signal_of_name;
use crate::script::line_words::{take_one, take_two};
use crate::script::numbers::number_of_word;
use crate::script::{Command, Parsed};
use vcd_core::Capture;
use vcd_text::Words;

/// Reads `NAME TICK`.
pub fn parse_value<'a>(words: &mut Words<'a>, capture: &Capture) -> Parsed<'a>
    ensures { ReadsCommand (contents capture.now) keywords.Value (texts_left words.old) result }
{
    let (name, tick) = take_two(words)?;
    let signal = signal_of_name(capture, name)?;
    let tick = number_of_word(tick)?;
    Ok(Command::Value { signal, tick })
}

/// Reads `NAME` of a signal whose changes are asked for.
pub fn parse_changes<'a>(words: &mut Words<'a>, capture: &Capture) -> Parsed<'a>
    ensures { ReadsCommand (contents capture.now) keywords.Changes (texts_left words.old) result }
{
    let signal = signal_of_name(capture, take_one(words)?)?;
    Ok(Command::Changes { signal })
}
