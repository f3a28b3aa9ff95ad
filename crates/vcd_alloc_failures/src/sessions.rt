//! Sessions, and steps that they make.

ghost use Rattle.std.specs.Prelude.{◌≤◌};

use crate::calls::Call;
use crate::edits::edit_named;
use crate::files::capture_of_text;
use crate::printing::{DONE, Failure, allow, print_capture, print_session, refuse};
use std::alloc::Global;
use std::rt::Runtime;
use vcd_core::NoMemory;
use vcd_edit::{Edit, Rule};
use vcd_journal::{Answer, DEPTH_LIMIT, Session, Step, run};

/// How many steps a session holds unless another depth is asked for.
const DEPTH: u64 = 5;

/// Makes the call `Session::new`.
pub fn call_new<R: Runtime + AllocGlobal>(rt: &R, call: &Call) -> Result<(), Failure> {
    let capture = capture_of_text(rt.alloc(), call.text)?;
    if !call.makes {
        return print_capture(rt, &capture);
    }
    refuse(rt)?;
    match Session::new(rt.alloc(), capture, DEPTH) {
        Ok(session) => {
            allow(rt, DONE)?;
            print_capture(rt, session.capture())
        }
        Err((capture, fault)) => {
            allow(rt, fault.name())?;
            print_capture(rt, &capture)
        }
    }
}

/// Makes a step by its name, after the steps that `before` names: `Session::apply`, `undo`, `redo`,
/// and `set_depth`, which begins at a depth of 1.
pub fn call_step<R: Runtime + AllocGlobal>(rt: &R, call: &Call) -> Result<(), Failure> {
    let depth = if call.argument == "depth" { 1 } else { DEPTH };
    let mut session = new_session(rt.alloc(), call.text, depth)?;
    make_steps(&mut session, call.before)?;
    let Some(step) = step_named(call.argument) else {
        return Err(Failure);
    };
    if call.makes {
        refuse(rt)?;
        match session.make_step(&step) {
            Ok(()) => allow(rt, DONE)?,
            Err(fault) => allow(rt, fault.name())?,
        }
    }
    print_session(rt, &mut session)
}

/// The step that a word names: an edit, `undo`, `redo`, or `depth`, which sets the greatest one.
fn step_named<'a>(name: &'a str) -> Option<Step<'a>> {
    match name {
        "undo" => Some(Step::Undo),
        "redo" => Some(Step::Redo),
        "depth" => Some(Step::Depth(DEPTH_LIMIT)),
        _ => match edit_named(name) {
            Some(edit) => Some(Step::Edit(edit)),
            None => None,
        },
    }
}

/// Makes the steps that words name, which are all accepted.
fn make_steps(session: &mut Session, words: &str) -> Result<(), Failure> {
    for name in words.split_whitespace() {
        let Some(step) = step_named(name) else {
            return Err(Failure);
        };
        if session.make_step(&step).is_err() {
            return Err(Failure);
        }
    }
    Ok(())
}

/// A session on the capture of a text.
fn new_session(alloc: Global, text: &[u8], depth: u64) -> Result<Session, Failure>
    requires least { 1 ≤ depth }
    requires most { depth ≤ DEPTH_LIMIT }
{
    let capture = capture_of_text(alloc, text)?;
    match Session::new(alloc, capture, depth) {
        Ok(session) => Ok(session),
        Err(_) => Err(Failure),
    }
}

/// Makes the call `run` of steps that do not depend on those before them. If the call is omitted,
/// only the step at the position in `argument` is left out.
pub fn call_run<R: Runtime + AllocGlobal>(rt: &R, call: &Call) -> Result<(), Failure> {
    let steps = [
        Step::Edit(Edit::Rename {
            signal: 0,
            word: b"renamed",
        }),
        Step::Edit(Edit::Invert { signal: 0 }),
        Step::Edit(Edit::Shift { signal: 0, by: 2 }),
        Step::Edit(Edit::Derive {
            word: b"derived",
            rule: Rule::Not(0),
        }),
        Step::Edit(Edit::Cut { from: 2, to: 5 }),
        Step::Edit(Edit::Remove { signal: 0 }),
        Step::Undo,
        Step::Redo,
        Step::Depth(DEPTH_LIMIT),
    ];
    let mut session = new_session(rt.alloc(), call.text, DEPTH)?;
    let mut answers = Vec::with_capacity(rt.alloc(), steps.len())?;
    if call.makes {
        refuse(rt)?;
        run(&mut session, &steps, &mut answers);
        allow(rt, DONE)?;
    } else {
        let position = call.argument.parse::<usize>().unwrap_or(0);
        run_without(&mut session, &steps, position, &mut answers)?;
    }
    print_answers(rt, answers.as_slice())?;
    print_session(rt, &mut session)
}

/// Makes all steps except the one at a position.
fn run_without(
    session: &mut Session,
    steps: &[Step],
    position: usize,
    answers: &mut Vec<Answer>,
) -> Result<(), NoMemory> {
    if position >= steps.len() {
        return Ok(());
    }
    answers.reserve(steps.len())?;
    run(session, &steps[..position], answers);
    answers.reserve(steps.len())?;
    run(session, &steps[position + 1..], answers);
    Ok(())
}

/// Prints the outcome of each step, on a line of its own: `DONE`, or the name of a fault.
fn print_answers<R: Runtime>(rt: &R, answers: &[Answer]) -> Result<(), Failure> {
    for answer in answers {
        let outcome = match answer {
            Answer::Done => DONE,
            Answer::Refused(fault) => fault.name(),
        };
        println!(rt; "{outcome}")?;
    }
    Ok(())
}
