//! The effect of a line on a session, and the reply to it.

ghost use Rattle.std.specs.Prelude.{◌≡◌, false, Err, IfOk, OnErr};
ghost use Rattle.vcd_journal.specs.StepErrorNames.{step_error_name};
ghost use Rattle.vcd_script.specs.CommandSignals.{HasCommandSignals};
ghost use Rattle.vcd_script.specs.SessionLines.{AnswersLine, IsReplyTo};
ghost use Rattle.vcd_script.specs.inside.replies.Answering.{AnswersStep, AnswersCommand};
ghost use Rattle.vcd_script.specs.inside.replies.Answering.{is_no_memory};

use crate::replies::decoding::{i2c_text, spi_text, uart_text};
use crate::replies::listing::listing_text;
use crate::replies::waves::{changes_text, value_text};
use crate::replies::{MemoryResult, Reply};
use crate::script::{Command, SpiLines, parse_line};
use std::alloc::Global;
use vcd_core::NoMemory;
use vcd_edit::EditError;
use vcd_journal::{Session, Step, StepError};

/// Does what the line of this number asks for, on the current capture, and gives the reply.
/// `skipped` is how many variables of the file were left out.
///
/// The only error is that memory runs out. The session is then as before, since the reply is made
/// before the step.
pub fn answer_line(
    alloc: Global,
    session: &mut Session,
    skipped: u64,
    number: u64,
    line: &[u8],
) -> MemoryResult<Reply>
    ensures answers { IfOk result (λ reply.
        AnswersLine skipped number line.now session.old session.new reply) }
    ensures unchanged { OnErr result (session.new ≡ session.old) }
{
    match parse_line(line, session.capture()) {
        Ok(command) => answer_command(alloc, session, skipped, number, &command),
        Err(fault) => Reply::refused(alloc, number, fault.name()),
    }
}

/// Does what the line of this number asks for, and gives the reply.
fn answer_command(
    alloc: Global,
    session: &mut Session,
    skipped: u64,
    number: u64,
    command: &Command,
) -> MemoryResult<Reply>
    requires signals { HasCommandSignals session.old.now command.now }
    ensures answers { IfOk result (λ reply.
        AnswersCommand skipped number command.now session.old session.new reply) }
    ensures unchanged { OnErr result (session.new ≡ session.old) }
{
    let capture = session.capture();
    match command {
        Command::Nothing => Ok(Reply::of_text(Vec::new(alloc))),
        Command::Step(step) => answer_step(alloc, session, number, step),
        Command::List => listing_text(alloc, capture, skipped).map(Reply::of_text),
        Command::Value { signal, tick } => value_text(alloc, capture, *signal, *tick).map(
            Reply::of_text,
        ),
        Command::Changes { signal } => changes_text(alloc, capture, *signal).map(Reply::of_text),
        Command::Uart { signal, setup } => uart_text(alloc, capture, *signal, setup).map(
            Reply::of_text,
        ),
        Command::Spi {
            clk,
            mosi,
            miso,
            cs,
            setup,
        } => {
            let lines = SpiLines {
                clk: *clk,
                mosi: *mosi,
                miso: *miso,
                cs: *cs,
            };
            spi_text(alloc, capture, lines, setup).map(Reply::of_text)
        }
        Command::I2c { scl, sda } => i2c_text(alloc, capture, *scl, *sda).map(Reply::of_text),
    }
}

/// Makes the step that the line of this number asks for, and gives the reply.
fn answer_step(
    alloc: Global,
    session: &mut Session,
    number: u64,
    step: &Step,
) -> MemoryResult<Reply>
    ensures answers { IfOk result (λ reply.
        AnswersStep number step.now session.old session.new reply) }
    ensures unchanged { OnErr result (session.new ≡ session.old) }
{
    // before the step, so that the session stays as it is if memory runs out
    let accepted = Reply::accepted(alloc)?;
    match session.make_step(step) {
        Ok(()) => Ok(accepted),
        Err(refusal) => refuse_step(alloc, number, refusal),
    }
}

/// The reply to a refused step, unless memory was refused.
fn refuse_step(alloc: Global, number: u64, refusal: StepError) -> MemoryResult<Reply>
    ensures refusal_name { IfOk result (λ reply.
        IsReplyTo number (Err (step_error_name refusal)) reply) }
    ensures memory { IfOk result (λ _. is_no_memory refusal ≡ false) }
{
    if is_no_memory(refusal) {
        return Err(NoMemory);
    }
    Reply::refused(alloc, number, refusal.name())
}

/// Whether a step is refused because memory ran out.
pub fn is_no_memory(refusal: StepError) -> bool
    ensures { result ≡ is_no_memory refusal }
{
    refusal == StepError::NoMemory || refusal == StepError::Edit(EditError::NoMemory)
}
