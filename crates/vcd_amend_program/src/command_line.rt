//! The words of the command line, as `clap` reads them.

ghost use Rattle.std.specs.Prelude.{◌≡◌, ◌≤◌, ℕ, false, List, codes, IfOk};
ghost use Rattle.clap.specs.Words.{app_of, first_value, found_of, matches_of, rows_of, rule_of};
ghost use Rattle.vcd_shell.specs.Options as shared;
ghost use Rattle.vcd_amend_program.specs.CommandLine as spec;

use clap::{Arg, ArgAction, ArgMatches, Command};
use std::alloc::{AllocError, Global};
use vcd_journal::DEPTH_LIMIT;
use vcd_script_shell::{depth_of, depth_option, script_option};
use vcd_shell::{flag, input_option, is_given, list_option, output_option, value_option};

/// The version of the program.
pub const VERSION: &str = "1.0.0";

const ABOUT: &str = "\
Edits a four-state waveform capture (VCD, IEEE 1364-2005, 18.2) of any size by script, with undo and
redo, or takes a part of it: some of its variables, some of its time. What is not edited or left out
stays as it is, byte for byte.\n\n\
Without a part the capture is read several times, so it must be a file. Only the changes of the
signals that lines of the script ask for are held in memory. A file with a fault is refused, and
nothing is written.";

const AFTER_HELP: &str = "\
A script has the lines that `vcdedit --help` shows, and each gets the same reply on standard output.

The output takes the place of a file only when it is whole, so it may be the capture itself: until
then it is beside it, in .NAME.vcdedit. A link is followed. Anything but a regular file, such as
/dev/stdout, is written as it is.

Not edited here:
  A variable of real numbers, strings or events stays, with its changes; no signal can get its name.

A mark:
  With --mark the output has a comment before `$enddefinitions`: the name, size and SHA-256 of the
  capture, the options of a part, and the lines of the script whose edits are in force. It needs -o,
  and a capture that is a file, which is read once more. With --verify the newest mark of FILE is
  carried out on the capture, and nothing is written but whether FILE is the same.

A part:
  With --keep, --remove, --from or --to, a part of the capture is the output, or without -o goes to
  standard output. With --script too, the script is carried out on the part, which meanwhile is a
  file in TMPDIR or /tmp. A part may be taken of standard input or a pipe; if there is a fault, what
  came before it is on standard output. A `$comment` of the part says which part it is.

  PATTERN is a variable's whole full name, with its scopes and its range, such as top.data[7:0]. In
  it `*` stands for any characters, dots too, and `?` for any one byte; `[7:0]` means itself. A
  pattern that no name meets is refused.

  TIME is a number of ticks, or a number with a unit (s, ms, us, ns, ps, fs), such as 20us or 1.5ms,
  that is a whole number of ticks. The window's ticks count from its first.

Examples:
  vcdedit-amend big.vcd --script script.txt -o new.vcd    carries out a script, writes the result
  vcdedit-amend big.vcd --script script.txt -o big.vcd    the same, in the place of the capture
  vcdedit-amend big.vcd --script script.txt -o new.vcd --mark    with a comment that says how
  vcdedit-amend big.vcd                                   shows what it holds
  vcdedit-amend big.vcd --from 1.5ms --to 2ms -o part.vcd                 a window
  vcdedit-amend big.vcd --keep '*.uart_rx' --keep '*.clk' -o part.vcd     some variables
  vcdedit-amend big.vcd --remove 'top.ram.*' | vcdedit --script script.txt -o edited.vcd

Exit status:
  0  done, or help or the version is shown
  1  done, but a line of the script was refused; or what is asked for does not match the capture,
     or a marked file is not what its mark says
  2  the command line is refused
  3  the capture has a fault, which is shown with its line, or the script is too large
  4  a file can't be opened, read or written, or standard output can't be written
  5  out of memory

`man vcdedit-amend` explains every refusal, and says what to do.\
";

const OUTPUT_HELP: &str = "The VCD file to write; without it none, or for a part standard output";

/// What the words of the command line ask for.
#[derive(Clone, Copy)]
pub struct Options<'m, 'a> {
    /// The path of the capture, as an option.
    pub input: Option<&'a str>,
    /// The same, as an argument.
    pub capture: Option<&'a str>,
    /// The path of the script. Without one the script is the one line `list`, or if a part is asked
    /// for, there is none.
    pub script: Option<&'a str>,
    /// The path of a marked file. With one it is compared, and nothing is written.
    pub verify: Option<&'a str>,
    /// The path of the output. Without one there is no output, or if a part is asked for without a
    /// script, it is standard output.
    pub output: Option<&'a str>,
    /// How many edits are held for undo and redo, from 1 to `DEPTH_LIMIT`.
    pub depth: u64,
    /// Whether the output is to have a mark.
    pub is_marked: bool,
    /// Whether remarks are left out.
    pub is_quiet: bool,
    /// Whether nothing is to be written if a line of the script is refused.
    pub is_all_or_nothing: bool,
    /// Patterns of names that are kept.
    pub keep: Option<&'m [&'a str]>,
    /// Patterns of names that are left out.
    pub remove: Option<&'m [&'a str]>,
    /// The time of the first tick.
    pub from: Option<&'a str>,
    /// The time of the last tick.
    pub to: Option<&'a str>,
}

impl Options<'_, '_> {
    /// Whether a part of the capture is asked for.
    pub fn ask_for_part(&self) -> bool
        ensures { result ≡ spec.ask_for_part (spec.options_in self.now) }
    {
        self.keep.is_some() || self.remove.is_some() || self.from.is_some() || self.to.is_some()
    }

    /// Whether something is asked for that the mark of a file says, which is to be compared, or an
    /// output.
    pub fn ask_for_more_than_verify(&self) -> bool
        ensures { result ≡ spec.ask_for_more_than_verify (spec.options_in self.now) }
    {
        self.script.is_some()
            || self.output.is_some()
            || self.is_marked
            || self.is_all_or_nothing
            || self.ask_for_part()
    }
}

/// The options of accepted words.
pub fn options_of<'m, 'a>(matches: &'m ArgMatches<'a>) -> Options<'m, 'a>
    ensures asked { (words : List (List ℕ)) →
        rows_of (found_of matches.now) ≡ matches_of spec.option_app words →
        spec.options_in result ≡ spec.asked_options words }
    ensures depth_least { 1 ≤ result.depth }
    ensures depth_most { result.depth ≤ DEPTH_LIMIT }
{
    Options {
        input: matches.get_str("input-file"),
        capture: matches.get_str("capture"),
        script: matches.get_str("script"),
        verify: matches.get_str("verify"),
        output: matches.get_str("output-file"),
        depth: depth_of(matches),
        is_marked: is_given(matches, "mark"),
        is_quiet: is_given(matches, "quiet"),
        is_all_or_nothing: is_given(matches, "all-or-nothing"),
        keep: matches.get_strs("keep"),
        remove: matches.get_strs("remove"),
        from: matches.get_str("from"),
        to: matches.get_str("to"),
    }
}

/// The program and its options.
pub fn command_line<'a>(alloc: Global) -> Result<Command<'a>, AllocError>
    ensures { IfOk result (λ c. app_of c ≡ spec.option_app) }
{
    let program = Command::new(alloc, "vcdedit-amend")
        .no_binary_name(true)
        .version(VERSION)
        .about(ABOUT)
        .after_help(AFTER_HELP);
    with_part(with_options(program, alloc)?, alloc)
}

/// With the options.
fn with_options<'a>(program: Command<'a>, alloc: Global) -> Result<Command<'a>, AllocError>
    ensures { IfOk result (λ c. app_of c ≡ spec.with_options (app_of program.entry)) }
{
    program
        .arg(file_option(alloc))?
        .arg(script_option(alloc))?
        .arg(output_option(alloc, OUTPUT_HELP))?
        .arg(flag(alloc, "all-or-nothing", ALL_OR_NOTHING_HELP))?
        .arg(flag(alloc, "mark", MARK_HELP))?
        .arg(value_option(alloc, "verify", "FILE", VERIFY_HELP))?
        .arg(depth_option(alloc))?
        .arg(quiet_option(alloc))?
        .arg(capture_argument(alloc))
}

/// With the options that say which part is meant.
fn with_part<'a>(program: Command<'a>, alloc: Global) -> Result<Command<'a>, AllocError>
    ensures { IfOk result (λ c. app_of c ≡ spec.with_part (app_of program.entry)) }
{
    program
        .arg(list_option(alloc, "keep", "PATTERN", KEEP_HELP))?
        .arg(list_option(alloc, "remove", "PATTERN", REMOVE_HELP))?
        .arg(value_option(alloc, "from", "TIME", FROM_HELP))?
        .arg(value_option(alloc, "to", "TIME", TO_HELP))
}

const ALL_OR_NOTHING_HELP: &str = "Write no output if a line of the script is refused";

const MARK_HELP: &str = "Write a comment into the output that says what it was made of, and how";

const VERIFY_HELP: &str = "Compare a marked file with what its mark makes of the capture";

const KEEP_HELP: &str = "Keep the variables with such a name; repeatable. Without it all are kept";

const REMOVE_HELP: &str = "Leave out the variables with such a name; repeatable";

const FROM_HELP: &str = "The first tick of the window; without it the capture's";

const TO_HELP: &str = "The last tick of the window; without it the capture's";

/// `-i FILE` or `--input-file FILE`.
fn file_option<'a>(alloc: Global) -> Arg<'a>
    ensures rule { rule_of result ≡ shared.input_option }
    ensures local { result.global ≡ false }
{
    input_option(alloc).help("The capture to read: a file, or for a part also `-`, standard input")
}

/// `-q` or `--quiet`.
fn quiet_option<'a>(alloc: Global) -> Arg<'a>
    ensures rule { rule_of result ≡ spec.quiet_option }
    ensures local { result.global ≡ false }
{
    flag(alloc, "quiet", "Write no remarks").short('q')
}

/// `CAPTURE`, without an option.
fn capture_argument<'a>(alloc: Global) -> Arg<'a>
    ensures rule { rule_of result ≡ spec.capture_argument }
    ensures local { result.global ≡ false }
{
    Arg::new(alloc, "capture")
        .value_name("CAPTURE")
        .help("The same, without -i")
}
