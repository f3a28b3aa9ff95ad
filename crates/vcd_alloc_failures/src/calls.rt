//! The calls by their names.

use crate::copies::{call_amend, call_copy, call_declared_variables};
use crate::decoders::call_decoder;
use crate::edits::{call_apply, call_held, call_revert};
use crate::files::{call_read, call_read_part, call_write};
use crate::printing::Failure;
use crate::scripts::{call_amend_on_bytes, call_run_on_bytes};
use crate::sessions::{call_new, call_run, call_step};
use crate::waves::call_on_wave;
use crate::words::call_on_words;
use std::rt::Runtime;

/// The call that the words of the command line ask for, on a capture.
#[derive(Clone, Copy)]
pub struct Call<'a> {
    /// Whether the call itself is made, or only what comes before and after it.
    pub makes: bool,
    pub name: &'a str,
    /// The word after the call's name, or empty: an edit, a step or `shared`.
    pub argument: &'a str,
    /// The word after that, or empty: the steps made before, or `undo`.
    pub before: &'a str,
    /// The text of the capture.
    pub text: &'a [u8],
}

/// Makes the named call, and prints what it left.
pub fn make_call<R: Runtime + AllocGlobal>(rt: &R, call: &Call) -> Result<(), Failure> {
    match call.name {
        "push" | "push_block" | "share" | "copy" | "reserve" | "reserve_exact" => {
            call_on_wave(rt, call)
        }
        "copy_word" | "copy_words" | "copy_scopes" | "share_path" | "prefix" | "share_scopes" => {
            call_on_words(rt, call)
        }
        "read" => call_read(rt, call),
        "read_part" => call_read_part(rt, call),
        "write" => call_write(rt, call),
        "copy_file" => call_copy(rt, call),
        "amend" => call_amend(rt, call),
        "declared_variables" => call_declared_variables(rt, call),
        "apply" => call_apply(rt, call),
        "held" => call_held(rt, call),
        "revert" => call_revert(rt, call),
        "uart" | "spi" | "i2c" => call_decoder(rt, call),
        "Session::new" => call_new(rt, call),
        "step" => call_step(rt, call),
        "run" => call_run(rt, call),
        "run_on_bytes" => call_run_on_bytes(rt, call),
        "amend_on_bytes" => call_amend_on_bytes(rt, call),
        _ => Err(Failure),
    }
}
