//! The lines that derive a signal.

ghost use Rattle.std.specs.Prelude.{◌≡◌};
ghost use Rattle.vcd_core.specs.CaptureContents.{contents};
ghost use Rattle.vcd_text.specs.LentWords.{texts_left};
ghost use Rattle.vcd_script.specs.ScriptCommands.{not_rule, pair_of, bit_rule, rule_of};
ghost use Rattle.vcd_script.specs.declared.script.keyword.Keyword.TheVariants as keywords;
ghost use Rattle.vcd_script.specs.inside.script.Line.{ReadsCommand};

use crate::script::edits::signal_of_name;
use crate::script::line_words::{next_text, take_one, take_two};
use crate::script::numbers::number_of_word;
use crate::script::{Command, LineError, Parsed};
use vcd_core::Capture;
use vcd_edit::{Edit, Rule};
use vcd_journal::Step;
use vcd_text::Words;

/// Reads `WORD RULE ..`.
pub fn parse_derive<'a>(words: &mut Words<'a>, capture: &Capture) -> Parsed<'a>
    ensures { ReadsCommand (contents capture.now) keywords.Derive (texts_left words.old) result }
{
    let word = next_text(words).ok_or(LineError::WrongCount)?;
    let name = next_text(words).ok_or(LineError::WrongCount)?;
    let rule = parse_rule(name, words, capture)?;
    Ok(Command::Step(Step::Edit(Edit::Derive { word, rule })))
}

/// Reads the operands after the rule.
fn parse_rule(name: &[u8], words: &mut Words<'_>, capture: &Capture) -> Result<Rule, LineError>
    ensures { result ≡ rule_of (contents capture.now) name.now (texts_left words.old) }
{
    if name == b"not".as_slice() {
        return parse_not(words, capture);
    }
    if name == b"and".as_slice() {
        let (a, b) = parse_pair(words, capture)?;
        return Ok(Rule::And(a, b));
    }
    if name == b"or".as_slice() {
        let (a, b) = parse_pair(words, capture)?;
        return Ok(Rule::Or(a, b));
    }
    if name == b"xor".as_slice() {
        let (a, b) = parse_pair(words, capture)?;
        return Ok(Rule::Xor(a, b));
    }
    if name == b"bit".as_slice() {
        return parse_bit(words, capture);
    }
    Err(LineError::BadOption)
}

/// Reads `A`.
#[tactic(auto, using(crate::proofs::script::WrongCounts::wrong_not))]
fn parse_not(words: &mut Words<'_>, capture: &Capture) -> Result<Rule, LineError>
    ensures { result ≡ not_rule (contents capture.now) (texts_left words.old) }
{
    let operand = signal_of_name(capture, take_one(words)?)?;
    Ok(Rule::Not(operand))
}

/// Reads `A K`.
#[tactic(auto, using(crate::proofs::script::WrongCounts::wrong_bit))]
fn parse_bit(words: &mut Words<'_>, capture: &Capture) -> Result<Rule, LineError>
    ensures { result ≡ bit_rule (contents capture.now) (texts_left words.old) }
{
    let (operand, bit) = take_two(words)?;
    let operand = signal_of_name(capture, operand)?;
    Ok(Rule::BitOf(operand, number_of_word(bit)?))
}

/// Reads `A B`.
#[tactic(auto, using(crate::proofs::script::WrongCounts::wrong_pair))]
fn parse_pair(words: &mut Words<'_>, capture: &Capture) -> Result<(usize, usize), LineError>
    ensures { result ≡ pair_of (contents capture.now) (texts_left words.old) }
{
    let (a, b) = take_two(words)?;
    let first = signal_of_name(capture, a)?;
    let second = signal_of_name(capture, b)?;
    Ok((first, second))
}
