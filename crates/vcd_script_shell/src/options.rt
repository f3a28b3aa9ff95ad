//! The options of programs that carry out a script.

ghost use Rattle.std.specs.Prelude.{◌≡◌, ◌≤◌, ℕ, false, codes};
ghost use Rattle.clap.specs.Words.{found_of, one_text, rule_of};
ghost use Rattle.vcd_shell.specs.Options.{value_option};
ghost use Rattle.vcd_script_shell.specs.ScriptOptions as spec;

use clap::builder::ValueParser;
use clap::{Arg, ArgAction, ArgMatches};
use std::alloc::Global;
use vcd_journal::DEPTH_LIMIT;
use vcd_shell::value_option;

/// `--script FILE`.
pub fn script_option<'a>(alloc: Global) -> Arg<'a>
    ensures rule { rule_of result ≡ value_option (codes "script") }
    ensures local { result.global ≡ false }
{
    let help = "The script to carry out; without it, the one line `list`";
    value_option(alloc, "script", "FILE", help)
}

/// `--depth N`, a number from 1 to the limit. Without it the depth is 100.
pub fn depth_option<'a>(alloc: Global) -> Arg<'a>
    ensures rule { rule_of result ≡ spec.depth_option }
    ensures local { result.global ≡ false }
{
    Arg::new(alloc, "depth")
        .long("depth")
        .value_name("N")
        .action(ArgAction::Set)
        .value_parser(ValueParser::unsigned(1, DEPTH_LIMIT))
        .default_value("100")
        .help("How many edits undo and redo can take, from 1 to 1000")
}

/// The depth, which accepted words have in its range.
pub fn depth_of(matches: &ArgMatches<'_>) -> u64
    ensures depth { result ≡ spec.depth_asked (one_text (found_of matches.now) (codes "depth")) }
    ensures least { 1 ≤ result }
    ensures most { result ≤ DEPTH_LIMIT }
{
    match matches.get_one::<u64>("depth") {
        Some(depth) if 1 <= depth && depth <= DEPTH_LIMIT => depth,
        _ => 1,
    }
}
