//! The faults of a name that an edit gives.

ghost use Rattle.std.specs.Prelude.{◌≡◌, ◌<◌, IsTrue, map, drop, length, slice_index_or};
ghost use Rattle.std.specs.List.{list_all, list_any, remove};
ghost use Rattle.std.specs.Str.{bytes_eq};
ghost use Rattle.vcd_core.specs.Contents.{no_signal};
ghost use Rattle.vcd_core.specs.CaptureContents.{contents, signal_contents};
ghost use Rattle.vcd_core.specs.Names.{full_name, full_names};
ghost use Rattle.vcd_edit.specs.Effect.{renamed_signal, derived_signal, formula};
ghost use Rattle.vcd_edit.specs.EditFaults.{is_signal, operands, edit_fault};
ghost use Rattle.vcd_edit.specs.EditAnswers.{FaultIs};
ghost use Rattle.vcd_edit.specs.declared.edit.Edit.TheVariants as edits;

use crate::checking::operands::check_operands;
use crate::edit::Rule;
use crate::fault::EditError;
use vcd_core::{Capture, FullName, SIGNAL_LIMIT, Signal, Word, is_word};

#[tactic(auto, unfolding(crate::specs::EditFaults::edit_fault))]
pub(crate) fn check_rename(capture: &Capture, signal: usize, word: &[u8]) -> Result<(), EditError>
    ensures { FaultIs result
        (edit_fault (edits.Rename signal word.entry) (contents capture.now)) }
{
    let signals = capture.signals();
    if signal >= signals.len() {
        return Err(EditError::NoSuchSignal);
    }
    if !is_word(word) {
        return Err(EditError::BadWord);
    }
    if is_name_taken(signals, signal, word) {
        return Err(EditError::NameTaken);
    }
    Ok(())
}

/// Whether another signal already has the new full name.
fn is_name_taken(signals: &[Signal], signal: usize, word: &[u8]) -> bool
    requires { signal < length signals.now }
    ensures { result ≡ list_any
        (bytes_eq (full_name (renamed_signal word.now
        (slice_index_or (map signal_contents signals.now) signal no_signal))))
        (full_names (remove (map signal_contents signals.now) signal)) }
{
    let renamed = &signals[signal];
    let others = after_first(renamed.words.as_slice());
    let name = FullName::new(renamed.scopes.as_slice(), word, others);
    name.is_taken(&signals[..signal]) || name.is_taken(&signals[signal + 1..])
}

pub(crate) fn after_first(words: &[Word]) -> &[Word]
    ensures { result.now ≡ drop 1 words.now }
{
    match words {
        [_, others @ ..] => others,
        [] => words,
    }
}

#[tactic(auto, unfolding(crate::specs::EditFaults::edit_fault))]
pub(crate) fn check_derive(capture: &Capture, word: &[u8], rule: Rule) -> Result<(), EditError>
    ensures { FaultIs result (edit_fault (edits.Derive word.entry rule) (contents capture.now)) }
{
    check_operands(capture, rule.formula())?;
    if !is_word(word) {
        return Err(EditError::BadWord);
    }
    if is_derived_name_taken(capture, word, rule) {
        return Err(EditError::NameTaken);
    }
    if capture.signals().len() >= SIGNAL_LIMIT {
        return Err(EditError::TooManySignals);
    }
    Ok(())
}

/// Whether a signal already has the full name of the derived one.
fn is_derived_name_taken(capture: &Capture, word: &[u8], rule: Rule) -> bool
    requires { IsTrue (list_all (is_signal (contents capture.now)) (operands (formula rule))) }
    ensures { result ≡ list_any
        (bytes_eq (full_name (derived_signal word.now rule (contents capture.now))))
        (full_names (contents capture.now).signals) }
{
    let signals = capture.signals();
    let scopes = signals[rule.formula().first_operand()].scopes.as_slice();
    FullName::new(scopes, word, &[]).is_taken(signals)
}
