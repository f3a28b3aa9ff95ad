//! Makes one call of a library crate, between two lines on standard output that say where memory
//! may be refused.
//!
//! Usage, with a capture on standard input:
//!
//! `vcd_alloc_failures make|omit CALL [ARGUMENT [BEFORE]]`
//!
//! | CALL | ARGUMENT | BEFORE |
//! |---|---|---|
//! | `push`, `push_block`, `share`, `copy`, `reserve`, `reserve_exact` | `shared`, or nothing | |
//! | `copy_word`, `copy_words`, `copy_scopes`: of the first signal | | |
//! | `share_path`, `prefix`: of a path of its own; `share_scopes`: `ScopePath::shared` | | |
//! | `read`, `write`, `uart`, `spi`, `i2c`, `Session::new` | | |
//! | `copy_file`: the `copy` of `vcd_text`; `amend`, into nothing; `declared_variables` | | |
//! | `read_part` | `no_signal`, `first_tick` or `last_tick` | |
//! | `apply`, `revert` | an edit | |
//! | `held`: lets the record of an edit go | an edit | `undo`, or nothing |
//! | `step` | a step | the steps made before it |
//! | `run`: makes some steps | the position of the step that `omit` leaves out | |
//! | `run_on_bytes`, `amend_on_bytes` | how many lines `omit` runs, or nothing for all | |
//!
//! The program makes all that the call needs, and writes `refuse`. With `make` it makes the call.
//! Then it writes `allow`, and `done` or the name of a fault; or `unequal` if the call gave a copy
//! that is not equal. Last it writes all that the call left. A test refuses growths of memory
//! between the two lines, and compares the output with that of `omit`.
#![tactic(auto)]

mod calls;
mod copies;
mod decoders;
mod edits;
mod files;
mod parts;
mod printing;
mod scripts;
mod sessions;
mod waves;
mod words;

use calls::{Call, make_call};
use printing::Failure;
use std::io::Read;
use std::process::ExitCode;
use std::rt::Runtime;
use std::{env, io};

fn main(rt: HostRuntime) -> ExitCode {
    match answer_words(&rt) {
        Ok(()) => ExitCode::from(0),
        Err(Failure) => ExitCode::from(1),
    }
}

/// Does what the words of the command line ask for.
fn answer_words<R: Runtime + AllocGlobal>(rt: &R) -> Result<(), Failure> {
    let words: Vec<String> = env::args(rt)?.skip(1).collect(rt.alloc())?;
    let mut text = Vec::new(rt.alloc());
    rt.reader().read_to_end(&mut text)?;
    let call = call_of(words.as_slice(), text.as_slice())?;
    make_call(rt, &call)
}

/// The call that words ask for, on the capture that a text means.
fn call_of<'a>(words: &'a [String], text: &'a [u8]) -> Result<Call<'a>, Failure> {
    let (way, name, argument, before) = match words {
        [way, name] => (way.as_str(), name.as_str(), "", ""),
        [way, name, argument] => (way.as_str(), name.as_str(), argument.as_str(), ""),
        [way, name, argument, before] => (
            way.as_str(),
            name.as_str(),
            argument.as_str(),
            before.as_str(),
        ),
        _ => return Err(Failure),
    };
    Ok(Call {
        makes: way == "make",
        name,
        argument,
        before,
        text,
    })
}
