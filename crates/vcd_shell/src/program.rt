//! A program: words in, a status out.

ghost use Rattle.std.specs.Prelude.{◌≡◌, ◌≤◌, ◌∷◌, [], map, drop, Result, IfOk, IfErr, IsErrAnd};
ghost use Rattle.std.specs.String.{string_bytes};
ghost use Rattle.std.specs.Vec.Iter.{into_iter_items};
ghost use Rattle.clap.specs.Words.{FailsBy, fault_of, found_of, kind_of, matches_of, rows_of};
ghost use Rattle.clap.specs.declared.error.kind.ErrorKind.TheVariants.{ValueValidation};
ghost use Rattle.vcd_shell.specs.Endings.{HasEnding, ending_status, ending_text};
ghost use Rattle.vcd_shell.specs.Report.{IsTold};
ghost use Rattle.vcd_shell.specs.WithoutRun.{IsAnswer, IsWithoutRun};
ghost use Rattle.vcd_shell.specs.declared.words.WithoutRun.{WithoutRun as WithoutRunOf};

use crate::reporting::report_without_run;
use crate::words::{WithoutRun, answer_bad_words, answer_error, shown_words, words_after_name};
use clap::{ArgMatches, Command, Error};
use std::alloc::{AllocError, Global};
use std::env::Args;
use std::fs::File;
use std::io;
use std::rt::Runtime;
use vcd_core::Sink;

/// A program: the options of its command line, and what it does for words that they accept.
pub trait Program {
    ghost use Rattle.std.specs.Prelude.{ℕ, List, true};
    ghost use Rattle.clap.specs.Words.{App, Text, app_of, is_simple_and_free};
    ghost use Rattle.vcd_shell.specs.Report.{IsTold};

    /// How a run that its words ask for ends.
    type Outcome: Drop;

    // its name, as its lines on standard error begin
    ghost name: { List ℕ };

    // its options, as `clap` reads them
    ghost options: { App };

    // whether a run that these accepted words ask for may end so
    ghost can_end: { List Text → Self.Outcome → Type 0 };

    // the exit status of an outcome
    ghost status: { Self.Outcome → ℕ };

    // its text on standard error, which may be empty
    ghost text: { Self.Outcome → List ℕ };

    /// Its name, as its lines on standard error begin.
    fn name() -> &'static [u8]
        ensures { result.now ≡ name };

    /// Its name and options.
    fn command_line<'a>(alloc: Global) -> Result<Command<'a>, AllocError>
        ensures { IfOk result (λ c. app_of c ≡ options) };

    /// Does what accepted words ask for.
    fn carry_out<R: Runtime<File = File> + AllocGlobal>(
        rt: &R,
        matches: &ArgMatches<'_>,
    ) -> Self::Outcome
        ensures { (words : List Text) → rows_of (found_of matches.now) ≡ matches_of options words →
            can_end words result };

    /// Writes the text of an outcome, flushes it, and returns the exit status. A fault of the
    /// writer is ignored.
    fn report<W: Sink>(outcome: &Self::Outcome, writer: &mut W) -> u8
        ensures most { result ≤ 5 }
        ensures status { result ≡ status outcome.now }
        ensures text { IsTold (W.has_failed writer.new) (W.is_flushed writer.new)
            (W.taken writer.old) (W.taken writer.new) (text outcome.now) };

    // `clap` says of such options exactly which words they accept
    ghost is_free: { is_simple_and_free options ≡ true };
}

/// Runs a program on the words of its command line, and gives its exit status. What it says of its
/// run goes to `errors`.
///
/// The words are the result of `std::env::args`: the first is the program's name.
pub fn status_of_program<P: Program, R: Runtime<File = File> + AllocGlobal, E: Sink>(
    rt: &R,
    words: io::Result<Args>,
    errors: &mut E,
) -> u8
    ensures most { result ≤ 5 }
    // the status and the text are those of one ending, which is that of the words
    ensures reported { (ending : Result P.Outcome WithoutRunOf) ×
        IfOk words (λ args. HasEnding P.options P.can_end
        (map string_bytes (drop 1 (into_iter_items args))) ending) ×
        IfErr words (λ _. IsErrAnd ending (IsAnswer (ValueValidation ∷ []))) ×
        (result ≡ ending_status P.status ending) ×
        IsTold (E.has_failed errors.new) (E.is_flushed errors.new)
        (E.taken errors.old) (E.taken errors.new)
        (ending_text P.text P.name ending) }
{
    match words {
        Ok(words) => report_ending::<P, E>(ending_of_words::<P, R>(rt, words), errors),
        Err(error) => {
            let answer = answer_bad_words(rt, &error, P::command_line(rt.alloc()));
            report_ending::<P, E>(Err(answer), errors)
        }
    }
}

/// Writes the text of an ending, flushes it, and returns the exit status.
fn report_ending<P: Program, E: Sink>(ending: Result<P::Outcome, WithoutRun>, errors: &mut E) -> u8
    ensures most { result ≤ 5 }
    ensures status { result ≡ ending_status P.status ending }
    ensures text { IsTold (E.has_failed errors.new) (E.is_flushed errors.new)
        (E.taken errors.old) (E.taken errors.new)
        (ending_text P.text P.name ending) }
{
    match ending {
        Ok(outcome) => P::report(&outcome, errors),
        Err(answer) => report_without_run(P::name(), &answer, errors),
    }
}

/// Does what the words after the program's name ask for. If they ask for no run, nothing is begun.
fn ending_of_words<P: Program, R: Runtime<File = File> + AllocGlobal>(
    rt: &R,
    words: Args,
) -> Result<P::Outcome, WithoutRun>
    ensures { HasEnding P.options P.can_end (map string_bytes (drop 1 (into_iter_items words)))
        result }
{
    let Ok(words) = words_after_name(rt.alloc(), words) else {
        return Err(WithoutRun::NoMemory);
    };
    match parse_words::<P>(rt.alloc(), words.as_slice()) {
        Ok(matches) => Ok(P::carry_out(rt, &matches)),
        Err(error) => Err(answer_shown::<P, R>(rt, &error, words.as_slice())),
    }
}

/// What words get that are not accepted, with the error of the words as they can be shown.
fn answer_shown<P: Program, R: Runtime + AllocGlobal>(
    rt: &R,
    error: &Error,
    words: &[String],
) -> WithoutRun
    ensures { IsWithoutRun (kind_of error.now) result }
{
    let Ok(shown) = shown_words(rt.alloc(), words) else {
        return WithoutRun::NoMemory;
    };
    match parse_words::<P>(rt.alloc(), shown.as_slice()) {
        Ok(_) => answer_error(rt, error, error),
        Err(shown) => answer_error(rt, error, &shown),
    }
}

/// Reads the words after the program's name by its options.
///
/// Refused words, and words that ask for help or the version, are an error with `clap`'s text.
fn parse_words<'a, P: Program>(alloc: Global, words: &'a [String]) -> Result<ArgMatches<'a>, Error>
    ensures asked { IfOk result (λ m. rows_of (found_of m)
        ≡ matches_of P.options (map string_bytes words.now)) }
    ensures faults { FailsBy (fault_of P.options (map string_bytes words.now)) result }
{
    let command = P::command_line(alloc)?;
    let matches = command.try_get_matches_from(words)?;
    Ok(matches)
}
