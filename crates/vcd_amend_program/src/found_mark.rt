//! What a mark says, line by line.

ghost use Rattle.std.specs.Prelude.{◌≡◌, ◌<◌, ◌∷◌, [], length, map, MatchOption, IfOk, IfErr};
ghost use Rattle.std.specs.Option.{option_copied};
ghost use Rattle.vcd_copy.specs.MarkText.{escaped_word};
ghost use Rattle.vcd_amend_program.specs.FoundMarks as spec;
ghost use Rattle.vcd_amend_program.specs.VerifyOutcome.{IsVerifyError};

use crate::amend_error::{AmendError, NO_MARK, NO_MEMORY};
use crate::mark_words::unescaped;
use std::alloc::Global;
use std::str;
use vcd_core::NoMemory;
use vcd_script::split_line;

/// The first line of a mark that begins with these bytes, without them, and what follows it.
pub fn line_after<'m>(mark: &'m [u8], first: &[u8]) -> Option<(&'m [u8], &'m [u8])>
    ensures { MatchOption result (spec.said_after first.now mark.now ≡ []) (λ parts.
        (spec.said_after first.now mark.now
        ≡ parts.0.now ∷ spec.said_after first.now parts.1.now)
        × (length parts.1.now < length mark.now)) }
{
    let mut rest = mark;
    while let Some((line, following)) = split_line(rest) {
        if let Some(line) = line.strip_prefix(first) {
            return Some((line, following));
        }
        rest = following;
    }
    None
}

/// The text of the first such line.
pub fn text_after<'m>(mark: &'m [u8], first: &[u8]) -> Result<Option<&'m str>, AmendError>
    ensures text { IfOk result (λ text.
        option_copied text ≡ spec.first_line (spec.said_after first.now mark.now)) }
    ensures fault { IfErr result IsVerifyError }
{
    match line_after(mark, first) {
        Some((line, _)) => {
            let text = text_of(line)?;
            Ok(Some(text))
        }
        None => Ok(None),
    }
}

/// The texts of all such lines.
pub fn texts_after<'m>(
    alloc: Global,
    mark: &'m [u8],
    first: &[u8],
) -> Result<Vec<&'m str>, AmendError>
    ensures texts { IfOk result (λ texts.
        map (λ text. text.now) texts.items ≡ spec.said_after first.now mark.now) }
    ensures fault { IfErr result IsVerifyError }
{
    let mut texts = Vec::new(alloc);
    let mut rest = mark;
    while let Some((line, following)) = line_after(rest, first) {
        let text = text_of(line)?;
        let Ok(()) = texts.push(text) else {
            return Err(NO_MEMORY);
        };
        rest = following;
    }
    Ok(texts)
}

/// The script of a mark: its lines of edits.
pub fn script_of(alloc: Global, mark: &[u8]) -> Result<Vec<u8>, NoMemory>
    ensures { IfOk result (λ script. script.items ≡ spec.script_of mark.now) }
{
    let mut script = Vec::new(alloc);
    let mut rest = mark;
    while let Some((line, following)) = line_after(rest, b"edit ") {
        script.extend_from_slice(line)?;
        script.push(b'\n')?;
        rest = following;
    }
    Ok(script)
}

/// A text of the command line, if it can be one.
fn text_of(line: &[u8]) -> Result<&str, AmendError>
    ensures text { IfOk result (λ text. text.now ≡ line.now) }
    ensures fault { IfErr result IsVerifyError }
{
    match str::from_utf8(line) {
        Ok(text) => Ok(text),
        Err(_) => Err(NO_MARK),
    }
}

/// The bytes that a word of a mark stands for.
pub fn bytes_of(alloc: Global, word: &[u8]) -> Result<Vec<u8>, AmendError>
    ensures bytes { IfOk result (λ bytes. word.now ≡ escaped_word bytes.items) }
    ensures fault { IfErr result IsVerifyError }
{
    match unescaped(alloc, word) {
        Ok(Some(bytes)) => Ok(bytes),
        Ok(None) => Err(NO_MARK),
        Err(_) => Err(NO_MEMORY),
    }
}
