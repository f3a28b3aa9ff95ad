//! The words of the command line, and what they get if they ask for no run.

ghost use Rattle.std.specs.Prelude.{◌≡◌, IfOk, drop, true};
ghost use Rattle.std.specs.Vec.Iter.{into_iter_items};
ghost use Rattle.clap.specs.Words.{kind_of};
ghost use Rattle.vcd_shell.specs.WithoutRun.{IsWithoutRun, asks_for_text};

use clap::error::ErrorKind;
use clap::{Command, Error};
use std::alloc::{AllocError, Global};
use std::env::Args;
use std::io;
use std::rt::Runtime;
use vcd_core::{ToWrite, write_and_flush};

/// What words get that ask for no run.
#[derive(Drop)]
pub enum WithoutRun {
    /// They asked for help or the version, and it was shown.
    Shown,
    /// It could not be shown whole: standard output failed.
    NotShown,
    /// They are refused, and this text says why.
    Refused(String),
    /// Memory ran out.
    NoMemory,
}

/// All words but the first, which is the program's name.
pub fn words_after_name(alloc: Global, words: Args) -> Result<Vec<String>, AllocError>
    ensures { IfOk result (λ after. after.items ≡ drop 1 (into_iter_items words)) }
{
    words.skip(1).collect(alloc)
}

/// Words as a terminal can show them: `?` stands for each control character.
pub fn shown_words(alloc: Global, words: &[String]) -> Result<Vec<String>, AllocError> {
    let mut shown = Vec::new(alloc);
    for word in words {
        shown.push(shown_word(alloc, word.as_str())?)?;
    }
    Ok(shown)
}

/// A word as a terminal can show it.
fn shown_word(alloc: Global, word: &str) -> Result<String, AllocError> {
    let mut shown = String::new(alloc);
    for letter in word.chars() {
        shown.push(if letter.is_control() { '?' } else { letter })?;
    }
    Ok(shown)
}

/// What words get that `clap` does not accept. Help and the version are shown on standard output;
/// other words are refused, with `clap`'s text of the error of the words as they can be shown.
pub fn answer_error<R: Runtime + AllocGlobal>(rt: &R, error: &Error, shown: &Error) -> WithoutRun
    ensures { IsWithoutRun (kind_of error.now) result }
{
    if error.kind() == ErrorKind::OutOfMemory {
        return WithoutRun::NoMemory;
    }
    if shown.kind() == ErrorKind::OutOfMemory {
        return WithoutRun::NoMemory;
    }
    let Ok(text) = format!(in rt.alloc(); "{shown}") else {
        return WithoutRun::NoMemory;
    };
    if asks_for_text(error.kind()) {
        return show_text(rt, text.as_str());
    }
    WithoutRun::Refused(text)
}

/// What words get that could not be read: memory ran out, or one of them is no text. `command` is
/// the program with its options.
pub fn answer_bad_words<R: Runtime + AllocGlobal>(
    rt: &R,
    error: &io::Error,
    command: Result<Command<'_>, AllocError>,
) -> WithoutRun
    ensures { IsWithoutRun ErrorKind.ValueValidation result }
{
    if error.kind() == io::ErrorKind::OutOfMemory {
        return WithoutRun::NoMemory;
    }
    match not_text_error(command) {
        Ok(error) => answer_error(rt, &error, &error),
        Err(_) => WithoutRun::NoMemory,
    }
}

/// The error for a word that is no text.
fn not_text_error(command: Result<Command<'_>, AllocError>) -> Result<Error, AllocError>
    ensures { IfOk result (λ e. kind_of e ≡ ErrorKind.ValueValidation) }
{
    command?.error(
        ErrorKind::ValueValidation,
        "a word of the command line is no UTF-8 text",
    )
}

/// Whether words ask for help or the version, by the kind of `clap`'s answer.
fn asks_for_text(kind: ErrorKind) -> bool
    ensures { result ≡ asks_for_text kind }
{
    matches!(kind, ErrorKind::DisplayHelp | ErrorKind::DisplayVersion)
}

/// Writes a text to standard output.
fn show_text<R: Runtime>(rt: &R, text: &str) -> WithoutRun
    ensures { (kind : ErrorKind) → asks_for_text kind ≡ true → IsWithoutRun kind result }
{
    match write_and_flush(&mut ToWrite::new(io::writer(rt)), text.as_bytes()) {
        Ok(()) => WithoutRun::Shown,
        Err(_) => WithoutRun::NotShown,
    }
}
