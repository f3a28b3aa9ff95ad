//! The reply to a line of the script.

ghost use Rattle.std.specs.Prelude.{◌≡◌, ◌++◌, ℕ, Ok, Err, OnOk, IfOk, false};
ghost use Rattle.vcd_script.specs.Reply.{reply_text};
ghost use Rattle.vcd_script.specs.Reply.{ok_reply};
ghost use Rattle.vcd_script.specs.SessionLines.{IsReplyTo};

use crate::replies::MemoryResult;
use crate::replies::appending::{append_bytes, append_number};
use std::alloc::Global;

/// The whole reply to a line.
#[derive(Drop)]
pub struct Reply {
    /// Its lines, each with a line feed at its end; empty if there is none.
    pub text: Vec<u8>,
    /// Whether it says that the line is refused.
    pub is_refused: bool,
}

impl Reply {
    /// The reply to a line that is not refused.
    pub(crate) fn of_text(text: Vec<u8>) -> Reply
        ensures text { result.text ≡ text }
        ensures accepted { result.is_refused ≡ false }
    {
        Reply {
            text,
            is_refused: false,
        }
    }

    /// The reply to an accepted step.
    pub(crate) fn accepted(alloc: Global) -> MemoryResult<Reply>
        ensures { IfOk result (λ reply. (number : ℕ) → IsReplyTo number ok_reply reply) }
    {
        let mut text = Vec::new(alloc);
        text.extend_from_slice(b"ok\n")?;
        Ok(Reply::of_text(text))
    }

    /// The reply to a refused line: its number, counted from 1, and the name of its fault.
    pub(crate) fn refused(alloc: Global, number: u64, name: &str) -> MemoryResult<Reply>
        ensures { IfOk result (λ reply. IsReplyTo number (Err name.now) reply) }
    {
        let mut text = Vec::new(alloc);
        append_refusal(&mut text, number, name)?;
        Ok(Reply {
            text,
            is_refused: true,
        })
    }
}

/// Appends the line with the number of a refused line and its fault.
fn append_refusal(text: &mut Vec<u8>, number: u64, name: &str) -> MemoryResult<()>
    ensures { OnOk result (text.new.items ≡ text.old.items ++ reply_text number (Err name.now)) }
{
    append_number(text, b"line", number)?;
    text.extend_from_slice(b": refused: ")?;
    text.extend_from_slice(name.as_bytes())?;
    append_bytes(text, b"\n")
}
