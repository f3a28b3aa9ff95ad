//! The output about a call and what it left.

ghost use Rattle.vcd_core.specs.CaptureContents.{contents};
ghost use Rattle.vcd_core.specs.Sound.{IsSound};

use std::alloc::{AllocError, AllocFailed};
use std::io;
use std::io::Write;
use std::rt::Runtime;
use vcd_core::{Capture, NoMemory, ToWrite, Wave};
use vcd_edit::Edit;
use vcd_journal::{DEPTH_LIMIT, Session, Step};
use vcd_text::write;

/// The words are not understood, or something but the call itself failed.
#[derive(Clone, Copy, Debug)]
pub struct Failure;

impl From<io::Error> for Failure {
    fn from(_fault: io::Error) -> Failure {
        Failure
    }
}

impl From<AllocError> for Failure {
    fn from(_refused: AllocError) -> Failure {
        Failure
    }
}

impl<T: Drop> From<AllocFailed<T>> for Failure {
    fn from(_refused: AllocFailed<T>) -> Failure {
        Failure
    }
}

impl From<NoMemory> for Failure {
    fn from(_refused: NoMemory) -> Failure {
        Failure
    }
}

/// Prints that memory may be refused from here on.
pub fn refuse<R: Runtime>(rt: &R) -> Result<(), Failure> {
    io::writer(rt).write_all(b"refuse\n")?;
    Ok(())
}

/// The outcome of a call that was not refused.
pub const DONE: &str = "done";

/// Prints that memory is refused no more, and the outcome of the call: `DONE`, or the name of a
/// fault.
pub fn allow<R: Runtime>(rt: &R, outcome: &str) -> Result<(), Failure> {
    io::writer(rt).write_all(b"allow\n")?;
    println!(rt; "{outcome}")?;
    Ok(())
}

/// The outcome of a call that gave a copy which is not equal.
const UNEQUAL: &str = "unequal";

/// The outcome of a call that gives a copy, by whether the copy is equal.
pub fn outcome_of_copy(is_equal: Result<bool, NoMemory>) -> &'static str {
    match is_equal {
        Ok(true) => DONE,
        Ok(false) => UNEQUAL,
        Err(fault) => fault.name(),
    }
}

/// Prints each change of a wave.
pub fn print_wave<R: Runtime>(rt: &R, wave: &Wave) -> Result<(), Failure> {
    for change in wave.changes() {
        println!(rt; "{} {:?}", change.tick, change.value)?;
    }
    Ok(())
}

/// Prints the whole capture as text.
pub fn print_capture<R: Runtime + AllocGlobal>(rt: &R, capture: &Capture) -> Result<(), Failure>
    requires { IsSound (contents capture.now) }
{
    match write(rt.alloc(), capture, &mut ToWrite::new(io::writer(rt))) {
        Ok(()) => Ok(()),
        Err(_) => Err(Failure),
    }
}

/// Prints the whole session: the current capture, those that undo and redo reach, and the depth.
pub fn print_session<R: Runtime + AllocGlobal>(
    rt: &R,
    session: &mut Session,
) -> Result<(), Failure> {
    print_state(rt, session)?;
    print_reached(rt, session, &Step::Undo)?;
    print_reached(rt, session, &Step::Redo)?;
    print_depth(rt, session)
}

/// Prints how many steps can be undone and redone, and the current capture.
fn print_state<R: Runtime + AllocGlobal>(rt: &R, session: &Session) -> Result<(), Failure> {
    println!(rt; "{} back, {} forth", session.undoable(), session.redoable())?;
    print_capture(rt, session.capture())
}

/// Prints the capture after each of several steps, up to the first refusal.
fn print_reached<R: Runtime + AllocGlobal>(
    rt: &R,
    session: &mut Session,
    step: &Step,
) -> Result<(), Failure> {
    for _ in 0..DEPTH_LIMIT {
        if session.make_step(step).is_err() {
            return Ok(());
        }
        print_state(rt, session)?;
    }
    Ok(())
}

/// Prints the depth, counted with many steps.
fn print_depth<R: Runtime>(rt: &R, session: &mut Session) -> Result<(), Failure> {
    for _ in 0..=DEPTH_LIMIT {
        if session.apply(&Edit::Invert { signal: 0 }).is_err() {
            return Err(Failure);
        }
    }
    println!(rt; "depth {}", session.undoable())?;
    Ok(())
}
