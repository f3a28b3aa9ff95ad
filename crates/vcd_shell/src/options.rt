//! The options that programs share.

ghost use Rattle.std.specs.Prelude.{◌≡◌, false};
ghost use Rattle.clap.specs.Words.{first_value, found_of, rule_of};
ghost use Rattle.vcd_shell.specs.Options as spec;

use clap::{Arg, ArgAction, ArgMatches};
use std::alloc::Global;

/// `-i FILE` or `--input-file FILE`.
pub fn input_option<'a>(alloc: Global) -> Arg<'a>
    ensures rule { rule_of result ≡ spec.input_option }
    ensures local { result.global ≡ false }
{
    let help = "The capture to read; without it, or as `-`, standard input";
    value_option(alloc, "input-file", "FILE", help).short('i')
}

/// `-o FILE` or `--output-file FILE`, with this help.
pub fn output_option<'a>(alloc: Global, help: &'a str) -> Arg<'a>
    ensures rule { rule_of result ≡ spec.output_option }
    ensures local { result.global ≡ false }
{
    value_option(alloc, "output-file", "FILE", help).short('o')
}

/// An option `--NAME VALUE`, with this help.
pub fn value_option<'a>(alloc: Global, name: &'a str, value: &'a str, help: &'a str) -> Arg<'a>
    ensures rule { rule_of result ≡ spec.value_option name.now }
    ensures local { result.global ≡ false }
{
    Arg::new(alloc, name)
        .long(name)
        .value_name(value)
        .help(help)
}

/// An option `--NAME VALUE` that may be given any number of times, with this help.
pub fn list_option<'a>(alloc: Global, name: &'a str, value: &'a str, help: &'a str) -> Arg<'a>
    ensures rule { rule_of result ≡ spec.list_option name.now }
    ensures local { result.global ≡ false }
{
    value_option(alloc, name, value, help).action(ArgAction::Append)
}

/// An option `--NAME` without a value, with this help.
pub fn flag<'a>(alloc: Global, name: &'a str, help: &'a str) -> Arg<'a>
    ensures rule { rule_of result ≡ spec.flag name.now }
    ensures local { result.global ≡ false }
{
    Arg::new(alloc, name)
        .long(name)
        .action(ArgAction::SetTrue)
        .help(help)
}

/// Whether an option without a value is given.
pub fn is_given(matches: &ArgMatches<'_>, name: &str) -> bool
    ensures { result ≡ spec.is_given (first_value (found_of matches.now) name.now) }
{
    match matches.get_str(name) {
        Some(value) => value == "true",
        None => false,
    }
}
