//! Worked cases of edits by calls of a session: the capture after each call.

use crate::tests::notation::capture_text;
use std::alloc::Global;
use std::process::Abort;
use std::test::Fail;
use vcd_core::{FromRead, Signal, ToWrite};
use vcd_edit::{Edit, EditError};
use vcd_journal::{Session, StepError};
use vcd_text::{read, write};

/// A session on a capture in the short notation.
fn session_on(alloc: Global, notation: &str) -> Result<Session, Fail> {
    let file = capture_text(alloc, notation)?;
    let loaded = read(alloc, &mut FromRead::new(file.as_bytes()))?;
    match Session::new(alloc, loaded.capture, 100) {
        Ok(session) => Ok(session),
        Err((_, refused)) => Err(Fail::from(refused)),
    }
}

/// Appends a signal in the short notation, without its scopes.
fn push_signal(alloc: Global, text: &mut String, signal: &Signal) -> Result<(), Fail> {
    for word in signal.words.as_slice() {
        for byte in word.as_slice() {
            text.push(*byte as char)?;
        }
    }
    text.push_str(format!(in alloc; ":{}", signal.wave.width())?.as_str())?;
    for change in signal.wave.changes() {
        let (value, tick) = (change.value, change.tick);
        text.push_str(format!(in alloc; " {value:?}@{tick}")?.as_str())?;
    }
    Ok(())
}

/// The session's capture in the short notation, by its names, changes and end.
fn notation_of(alloc: Global, session: &Session) -> Result<String, Fail> {
    let capture = session.capture();
    let mut text = String::new(alloc);
    text.push('[')?;
    for (k, signal) in capture.signals().iter().enumerate() {
        if 0 < k {
            text.push_str(" | ")?;
        }
        push_signal(alloc, &mut text, signal)?;
    }
    text.push_str(format!(in alloc; "; end {}]", capture.end())?.as_str())?;
    Ok(text)
}

/// Stops unless a call was accepted and the capture is this one.
fn check_step(
    rt: &impl Abort,
    alloc: Global,
    session: &Session,
    answer: Result<(), StepError>,
    notation: &str,
) -> Result<(), Fail> {
    assert!(rt; answer.is_ok());
    assert!(rt; notation_of(alloc, session)?.as_str() == notation);
    Ok(())
}

const PULSE: &str = "[a:1 0@0 1@3 0@7; end 10]";

#[test]
fn a_cut_that_leaves_no_change_at_its_seam(rt: HostRuntime) -> Result<(), Fail> {
    let mut session = session_on(rt.alloc(), PULSE)?;
    let answer = session.apply(&Edit::Cut { from: 3, to: 7 });
    check_step(&rt, rt.alloc(), &session, answer, "[a:1 0@0; end 6]")?;
    let answer = session.undo();
    check_step(&rt, rt.alloc(), &session, answer, PULSE)
}

#[test]
fn a_cut_of_a_part_and_one_past_the_end(rt: HostRuntime) -> Result<(), Fail> {
    let mut session = session_on(rt.alloc(), PULSE)?;
    let answer = session.apply(&Edit::Cut { from: 2, to: 5 });
    check_step(
        &rt,
        rt.alloc(),
        &session,
        answer,
        "[a:1 0@0 1@2 0@4; end 7]",
    )?;
    let answer = session.undo();
    check_step(&rt, rt.alloc(), &session, answer, PULSE)?;
    let refused = session.apply(&Edit::Cut { from: 3, to: 11 });
    assert!(rt; refused == Err(StepError::Edit(EditError::BadRange)));
    assert!(rt; notation_of(rt.alloc(), &session)?.as_str() == PULSE);
    let answer = session.apply(&Edit::Cut { from: 3, to: 10 });
    check_step(&rt, rt.alloc(), &session, answer, "[a:1 0@0; end 3]")
}

const THREE: &str = "[a:1 0@0 | b:1 1@0 | c:1 z@0; end 4]";

#[test]
fn a_signal_that_is_removed_and_put_back(rt: HostRuntime) -> Result<(), Fail> {
    let mut session = session_on(rt.alloc(), THREE)?;
    let answer = session.apply(&Edit::Remove { signal: 1 });
    let without = "[a:1 0@0 | c:1 z@0; end 4]";
    check_step(&rt, rt.alloc(), &session, answer, without)?;
    let answer = session.undo();
    check_step(&rt, rt.alloc(), &session, answer, THREE)
}

#[test]
fn every_signal_is_removed(rt: HostRuntime) -> Result<(), Fail> {
    let mut session = session_on(rt.alloc(), THREE)?;
    for notation in [
        "[b:1 1@0 | c:1 z@0; end 4]",
        "[c:1 z@0; end 4]",
        "[; end 4]",
    ] {
        let answer = session.apply(&Edit::Remove { signal: 0 });
        check_step(&rt, rt.alloc(), &session, answer, notation)?;
    }
    let mut sink = ToWrite::new(Vec::new(rt.alloc()));
    write(rt.alloc(), session.capture(), &mut sink)?;
    let text = sink.into_inner();
    assert!(rt; text.as_slice() == b"$enddefinitions $end\n#0\n$dumpvars\n$end\n#4\n".as_slice());
    Ok(())
}
