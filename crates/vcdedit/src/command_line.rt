//! The words of the command line, as `clap` reads them.

ghost use Rattle.std.specs.Prelude.{◌≡◌, ◌≤◌, ℕ, List, IfOk};
ghost use Rattle.clap.specs.Words.{app_of, found_of, matches_of, rows_of};
ghost use Rattle.vcdedit.specs.CommandLine.{asked_options, option_app, options_in};

use clap::{ArgMatches, Command};
use std::alloc::{AllocError, Global};
use vcd_journal::DEPTH_LIMIT;
use vcd_script_shell::{depth_of, depth_option, script_option};
use vcd_shell::{input_option, output_option};

const VERSION: &str = "1.0.0";

const ABOUT: &str = "\
Edits four-state waveform captures (VCD, IEEE 1364-2005, 18.2) by script, with undo and redo.\n\n\
The capture is read whole, each line of the script is carried out and answered on standard output,
and the edited capture is written. A file with a fault is refused, and nothing is written.";

/// A refused command line shows it too, so it says how a capture is named.
const USAGE: &str = "\
vcdedit [-i CAPTURE] [--script SCRIPT] [-o OUTPUT] [--depth N]
       vcdedit -i capture.vcd    shows what the capture holds";

const AFTER_HELP: &str = "\
Lines of a script. NAME is a signal's full name as `list` shows it, with its scopes and its range,
such as top.cpu.clk or top.cpu.data[7:0], or @ and its position; times are ticks of the timescale:
  rename NAME WORD          the first word of the signal's name becomes WORD
  remove NAME               the signal is taken out; later ones get the position before theirs
  invert NAME               every bit is negated at every tick
  shift NAME BY             the signal comes BY ticks later, or earlier if BY is negative
  cut FROM TO               the ticks FROM up to before TO are cut out of every signal
  deglitch NAME TICKS       removes pulses shorter than TICKS ticks
  force NAME FROM TO VALUE  the signal has VALUE at the ticks FROM up to before TO
  derive WORD not A         a new signal WORD; also: and A B, or A B, xor A B, bit A K
  undo                      the last edit is taken back
  redo                      the edit undone last is made again
  depth N                   from now on at most N edits are held
  list                      timescale, end, and each signal's position, width, kind and full name
  value NAME TICK           the signal's value at the tick
  changes NAME              the signal's changes, each with its tick
  uart NAME BIT DATA PARITY STOP         frames; BIT is N or N/D ticks, PARITY none, even or odd
                                         (115200 baud: 78125/9 at 1 ns, 78125000/9 at 1 ps)
  spi CLK MOSI MISO CS MODE BITS ORDER   words; - for an absent MOSI, MISO or CS; ORDER msb or lsb
  i2c SCL SDA                            conditions, addresses, bytes
  # ..                      nothing, as an empty line; a comment stands on a line of its own
An edit is answered by `ok`, a refused line by `line N: refused: REASON`; the script goes on.

Examples:
  vcdedit -i capture.vcd                                 shows what it holds
  vcdedit -i capture.vcd --script script.txt -o new.vcd  carries out a script, writes the result
  vcdedit -i capture.vcd --script script.txt -o new.vcd && mv new.vcd capture.vcd
                                                         the same, in the place of the capture
  .. | vcdedit --script script.txt -o /dev/fd/3 3>&1 >replies.txt | ..
                                                         within a pipe

Take care:
  -o onto the capture itself: after a refused line or on a full disk the old capture is gone.
  A capture that was cut short may still be accepted: look at `end` in the listing.
  Variables of one code, such as a clock in many scopes, are edited one by one.
  Files with a byte order mark, in UTF-16 or packed by gzip are refused at line 1.

Exit status:
  0  done, or help or the version is shown
  1  done, but a line of the script was refused
  2  the command line is refused
  3  the capture has a fault, which is shown with its line, or the script is too large
  4  a file can't be opened, read or written, or standard output can't be written
  5  out of memory

`man vcdedit` explains every refusal and fault, and says what to do; share/doc/vcdedit has recipes.\
";

/// What the words of the command line ask for.
#[derive(Clone, Copy)]
pub struct Options<'a> {
    /// The path of the capture; absent or `-` means standard input.
    pub input: Option<&'a str>,
    /// The path of the script; without one the script is the one line `list`.
    pub script: Option<&'a str>,
    /// The path of the output; without one there is no output.
    pub output: Option<&'a str>,
    /// How many edits are held for undo and redo, from 1 to `DEPTH_LIMIT`.
    pub depth: u64,
}

/// The options of accepted words.
pub fn options_of<'a>(matches: &ArgMatches<'a>) -> Options<'a>
    ensures asked { (words : List (List ℕ)) →
        rows_of (found_of matches.now) ≡ matches_of option_app words →
        options_in result ≡ asked_options words }
    ensures depth_least { 1 ≤ result.depth }
    ensures depth_most { result.depth ≤ DEPTH_LIMIT }
{
    Options {
        input: matches.get_str("input-file"),
        script: matches.get_str("script"),
        output: matches.get_str("output-file"),
        depth: depth_of(matches),
    }
}

/// The program and its options.
pub fn command_line<'a>(alloc: Global) -> Result<Command<'a>, AllocError>
    ensures { IfOk result (λ c. app_of c ≡ option_app) }
{
    let program = Command::new(alloc, "vcdedit")
        .no_binary_name(true)
        .version(VERSION)
        .about(ABOUT)
        .override_usage(USAGE)
        .after_help(AFTER_HELP);
    program
        .arg(input_option(alloc))?
        .arg(script_option(alloc))?
        .arg(output_option(alloc, OUTPUT_HELP))?
        .arg(depth_option(alloc))
}

const OUTPUT_HELP: &str =
    "The VCD file to write when the script has run; without it none is written";
