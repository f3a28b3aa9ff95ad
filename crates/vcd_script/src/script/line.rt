//! What a line of the script asks for.

ghost use Rattle.std.specs.Prelude.{◌≡◌, ◌∷◌, Ok, Err, IfOk, IfErr};
ghost use Rattle.vcd_core.specs.Contents.{Contents};
ghost use Rattle.vcd_core.specs.CaptureContents.{contents};
ghost use Rattle.vcd_text.specs.LentWords.{texts_left};
ghost use Rattle.vcd_script.specs.CommandSignals.{HasCommandSignals};
ghost use Rattle.vcd_script.specs.WithoutAddress.{command_without_address};
ghost use Rattle.vcd_script.specs.ScriptCommands.{command_of_line};
ghost use Rattle.vcd_script.specs.ScriptCommands.{is_comment, command_of_words};
ghost use Rattle.vcd_script.specs.declared.script.keyword.Keyword.TheVariants as keywords;
ghost use Rattle.vcd_script.specs.inside.script.Line.{ReadsAs, ReadsCommand};

use crate::script::decoders::{parse_i2c, parse_spi, parse_uart};
use crate::script::derivations::parse_derive;
use crate::script::edits::{
    parse_cut, parse_deglitch, parse_force, parse_invert, parse_remove, parse_rename, parse_shift,
};
use crate::script::keyword::{Keyword, keyword_of};
use crate::script::line_words::{next_text, take_none, take_one};
use crate::script::numbers::number_of_word;
use crate::script::queries::{parse_changes, parse_value};
use crate::script::{Command, LineError, Parsed};
use vcd_core::Capture;
use vcd_journal::Step;
use vcd_text::Words;

/// Reads a line of the script, on the current capture. It takes no memory.
///
/// The first fault counts. Their order is: the first word names no command; the command takes
/// another number of words; a word, from left to right, is not what its place requires. Then a
/// decoder's signal is wider than one bit, or its setup has a fault.
///
/// The cost is that of the line, and for each name in it a comparison with each full name. `@` and
/// a position needs no comparison.
#[tactic(auto, unfolding(crate::specs::ScriptCommands::command_of_line))]
pub fn parse_line<'a>(line: &'a [u8], capture: &Capture) -> Result<Command<'a>, LineError>
    ensures command { IfOk result (λ command.
        command_of_line (contents capture.now) line.now ≡ Ok (command_without_address command)) }
    ensures fault { IfErr result (λ fault.
        command_of_line (contents capture.now) line.now ≡ Err fault) }
    ensures signals { IfOk result (HasCommandSignals (contents capture.now)) }
{
    let mut words = Words::new(line);
    match next_text(&mut words) {
        Some(first) => parse_first_word(first, &mut words, capture),
        None => Ok(Command::Nothing),
    }
}

/// Reads the first word, and then those after it.
fn parse_first_word<'a>(first: &[u8], words: &mut Words<'a>, capture: &Capture) -> Parsed<'a>
    ensures { ReadsAs (contents capture.now)
        (command_of_words (contents capture.now) (first.now ∷ texts_left words.old)) result }
{
    if is_comment(first) {
        return Ok(Command::Nothing);
    }
    let keyword = keyword_of(first).ok_or(LineError::UnknownCommand)?;
    parse_command(keyword, words, capture)
}

/// Reads the words after a keyword.
#[tactic(auto, using(crate::proofs::script::WrongCounts::wrong_count))]
fn parse_command<'a>(keyword: Keyword, words: &mut Words<'a>, capture: &Capture) -> Parsed<'a>
    ensures { ReadsCommand (contents capture.now) keyword (texts_left words.old) result }
{
    match keyword {
        Keyword::Rename => parse_rename(words, capture),
        Keyword::Remove => parse_remove(words, capture),
        Keyword::Invert => parse_invert(words, capture),
        Keyword::Shift => parse_shift(words, capture),
        Keyword::Cut => parse_cut(words),
        Keyword::Deglitch => parse_deglitch(words, capture),
        Keyword::Force => parse_force(words, capture),
        Keyword::Derive => parse_derive(words, capture),
        Keyword::Undo => {
            take_none(words)?;
            Ok(Command::Step(Step::Undo))
        }
        Keyword::Redo => {
            take_none(words)?;
            Ok(Command::Step(Step::Redo))
        }
        Keyword::Depth => parse_depth(words),
        Keyword::List => {
            take_none(words)?;
            Ok(Command::List)
        }
        Keyword::Value => parse_value(words, capture),
        Keyword::Changes => parse_changes(words, capture),
        Keyword::Uart => parse_uart(words, capture),
        Keyword::Spi => parse_spi(words, capture),
        Keyword::I2c => parse_i2c(words, capture),
    }
}

/// Reads `N`, the new depth of the history.
#[tactic(auto, using(crate::proofs::script::WrongCounts::wrong_count))]
fn parse_depth<'a>(words: &mut Words<'a>) -> Parsed<'a>
    ensures { (c : Contents) → ReadsCommand c keywords.Depth (texts_left words.old) result }
{
    let depth = number_of_word(take_one(words)?)?;
    Ok(Command::Step(Step::Depth(depth)))
}

/// Whether a word begins with `#`.
fn is_comment(word: &[u8]) -> bool
    ensures { result ≡ is_comment word.now }
{
    matches!(word, [b'#', ..])
}
