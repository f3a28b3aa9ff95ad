//! The words of the command line, as `clap` reads them.

ghost use Rattle.std.specs.Prelude.{◌≡◌, ℕ, false, List, IfOk};
ghost use Rattle.clap.specs.Words.{app_of, found_of, matches_of, rows_of, rule_of};
ghost use Rattle.vcd_compare_program.specs.CommandLine as spec;

use clap::{Arg, ArgMatches, Command};
use std::alloc::{AllocError, Global};
use vcd_shell::{flag, is_given, list_option, value_option};

const VERSION: &str = "1.0.0";

const ABOUT: &str = "\
Compares two four-state waveform captures (VCD, IEEE 1364-2005, 18.2) of any size by the names of
their variables: which only one has, whose kinds or widths differ, and whose values differ, with the
first and the last such ticks. Each file is read once.";

const AFTER_HELP: &str = "\
A capture may be a pipe, and one of them may be -, standard input. Values are compared up to the
smaller end, a difference being as many ticks in a row as can be. If the captures have two
timescales, ticks are those of the finer. The value of a real number or a string is the word of its
change, that of an event the tick at which it was last. The second of several variables with one
name is compared with the second of them, and shown as NAME (2); signals come first.

  PATTERN is a whole full name, with its scopes and its range, such as top.data[7:0]. In it `*`
  stands for any characters, dots too, and `?` for any one byte; `[7:0]` means itself. Of two names
  that --map pairs, one has to match.

  OLD is a full name of A, or the scopes at its beginning; NEW is what it is in B: --map tb.dut=top
  compares tb.dut.clk with top.clk. The first map that fits counts.

  TIME is a number of ticks, or a number with a unit (s, ms, us, ns, ps, fs), such as 20us or 1.5ms,
  that is a whole number of ticks.

Examples:
  vcdedit-compare before.vcd after.vcd                        what differs
  vcdedit-compare --within 2ns --keep 'top.*' a.vcd b.vcd     edges may be up to 2 ns late
  vcdedit-compare --map tb.dut=top --json a.vcd b.vcd         other scopes, JSON

Exit status:
  0  nothing that was compared differs, or help or the version is shown
  1  something differs
  2  the command line or a capture is refused, or a capture can't be read
  3  with --strict: nothing that was compared differs, but something is left out
  4  standard output can't be written
  5  out of memory
";

const KEEP_HELP: &str = "Compare the variables with such a name; repeatable. Without it all are";

const MAP_HELP: &str = "OLD of A is NEW in B: a name, or scopes; repeatable";

const FROM_HELP: &str = "The first tick that is compared; without it 0";

const TO_HELP: &str = "The last tick that is compared; without it the smaller end";

const WITHIN_HELP: &str = "By how much an edge may be late in one of the captures; without it 0";

const STRICT_HELP: &str = "Tell what is left out; if that is all, the status is 3";

/// What the words of the command line ask for.
#[derive(Clone, Copy)]
pub struct Options<'m, 'a> {
    /// The paths of both captures, of which `-` means standard input.
    pub first: Option<&'a str>,
    pub second: Option<&'a str>,
    /// Patterns of names that are compared.
    pub keep: Option<&'m [&'a str]>,
    /// What names of the first capture are in the second.
    pub maps: Option<&'m [&'a str]>,
    /// The times of the first and the last tick.
    pub from: Option<&'a str>,
    pub to: Option<&'a str>,
    /// By how much an edge may be late.
    pub within: Option<&'a str>,
    /// Whether all has to be compared.
    pub is_strict: bool,
    /// Whether the report is JSON.
    pub is_json: bool,
}

/// The options of accepted words.
pub fn options_of<'m, 'a>(matches: &'m ArgMatches<'a>) -> Options<'m, 'a>
    ensures { (words : List (List ℕ)) →
        rows_of (found_of matches.now) ≡ matches_of spec.option_app words →
        spec.options_in result ≡ spec.asked_options words }
{
    Options {
        first: matches.get_str("first"),
        second: matches.get_str("second"),
        keep: matches.get_strs("keep"),
        maps: matches.get_strs("map"),
        from: matches.get_str("from"),
        to: matches.get_str("to"),
        within: matches.get_str("within"),
        is_strict: is_given(matches, "strict"),
        is_json: is_given(matches, "json"),
    }
}

/// The program and its options.
pub fn command_line<'a>(alloc: Global) -> Result<Command<'a>, AllocError>
    ensures { IfOk result (λ c. app_of c ≡ spec.option_app) }
{
    let program = Command::new(alloc, "vcdedit-compare")
        .no_binary_name(true)
        .version(VERSION)
        .about(ABOUT)
        .after_help(AFTER_HELP);
    with_times(with_captures(program, alloc)?, alloc)
}

/// With the captures, and which of their variables are compared.
fn with_captures<'a>(program: Command<'a>, alloc: Global) -> Result<Command<'a>, AllocError>
    ensures { IfOk result (λ c. app_of c ≡ spec.with_captures (app_of program.entry)) }
{
    program
        .arg(capture_argument(alloc, "first", "A", "A capture; - is standard input"))?
        .arg(capture_argument(alloc, "second", "B", "The capture that it is compared with"))?
        .arg(list_option(alloc, "keep", "PATTERN", KEEP_HELP))?
        .arg(list_option(alloc, "map", "OLD=NEW", MAP_HELP))
}

/// With the options that say at which ticks, and how the report is.
fn with_times<'a>(program: Command<'a>, alloc: Global) -> Result<Command<'a>, AllocError>
    ensures { IfOk result (λ c. app_of c ≡ spec.with_times (app_of program.entry)) }
{
    program
        .arg(value_option(alloc, "from", "TIME", FROM_HELP))?
        .arg(value_option(alloc, "to", "TIME", TO_HELP))?
        .arg(value_option(alloc, "within", "TIME", WITHIN_HELP))?
        .arg(flag(alloc, "strict", STRICT_HELP))?
        .arg(flag(alloc, "json", "Write the report as JSON"))
}

/// A capture, without an option.
fn capture_argument<'a>(alloc: Global, name: &'a str, value: &'a str, help: &'a str) -> Arg<'a>
    ensures rule { rule_of result ≡ spec.capture_argument name.now }
    ensures local { result.global ≡ false }
{
    Arg::new(alloc, name)
        .value_name(value)
        .required(true)
        .help(help)
}
