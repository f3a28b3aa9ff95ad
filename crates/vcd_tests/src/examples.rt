//! The calls that the READMEs of the libraries show.

use crate::fixtures::{capture_text, load_file, wave_of};
use std::test::Fail;
use vcd_amend_run::amend_on_bytes;
use vcd_core::{Bit, FromRead, ToWrite, Value, Wave, ends_by};
use vcd_decode::{Kind, Parity, Uart, uart};
use vcd_edit::{Edit, apply, revert};
use vcd_journal::Session;
use vcd_text::{read, write};

/// A wire that is 1 at the ticks 5 and 6, and from tick 20 on.
const FILE: &[u8] = b"$var wire 1 ! rx $end $enddefinitions $end #0 0! #5 1! #7 0! #20 1! #90";

#[test]
fn a_wave(rt: HostRuntime) -> Result<(), Fail> {
    let mut wave = Wave::new(rt.alloc(), 1);
    wave.push(0, Value::filled(1, Bit::Zero))?;
    wave.push(5, Value::filled(1, Bit::One))?;
    assert!(rt; wave.at(4) == Value::filled(1, Bit::Zero));
    assert!(rt; wave.changes().len() == 2);
    Ok(())
}

#[test]
fn a_file(rt: HostRuntime) -> Result<(), Fail> {
    let file = b"$var wire 1 % a $end $enddefinitions $end #0 0% #5 1%";
    let capture = read(rt.alloc(), &mut FromRead::new(file.as_slice()))?.capture;
    let mut sink = ToWrite::new(Vec::new(rt.alloc()));
    write(rt.alloc(), &capture, &mut sink)?;
    let text = b"$var wire 1 ! a $end\n$enddefinitions $end\n#0\n$dumpvars\n0!\n$end\n#5\n1!\n";
    assert!(rt; sink.into_inner().as_slice() == text.as_slice());
    Ok(())
}

#[test]
fn an_edit(rt: HostRuntime) -> Result<(), Fail> {
    let mut capture = load_file(rt.alloc(), FILE)?.capture;
    let edit = Edit::Shift { signal: 0, by: 2 };
    let record = apply(rt.alloc(), &mut capture, &edit)?;
    assert!(rt; capture_text(rt.alloc(), &capture)?.as_str() == "90|rx 0@2 1@7 0@9 1@22");
    assert!(rt; revert(rt.alloc(), &mut capture, record).is_ok());
    assert!(rt; capture_text(rt.alloc(), &capture)?.as_str() == "90|rx 0@0 1@5 0@7 1@20");
    Ok(())
}

#[test]
fn a_session(rt: HostRuntime) -> Result<(), Fail> {
    let capture = load_file(rt.alloc(), FILE)?.capture;
    let Ok(mut session) = Session::new(rt.alloc(), capture, 100) else {
        return Err(Fail::from("memory ran out"));
    };
    session.apply(&Edit::Invert { signal: 0 })?;
    session.undo()?;
    assert!(rt; session.undoable() == 0 && session.redoable() == 1);
    Ok(())
}

#[test]
fn a_decoder(rt: HostRuntime) -> Result<(), Fail> {
    let line = wave_of(rt.alloc(), "1@0 0@10 1@12 0@14 1@16 0@18 1@20")?;
    assert!(rt; line.width() == 1 && ends_by(line.changes(), 90));
    let setup = Uart::new(2, 1, 5, Parity::None, 1)?;
    let frames = uart(rt.alloc(), &line, 90, &setup)?;
    assert!(rt; frames.len() == 1);
    assert!(rt; (frames[0].start, frames[0].end) == (10, 23));
    assert!(rt; frames[0].kind == Kind::Byte(0b10101));
    Ok(())
}

#[test]
fn an_amended_file(rt: HostRuntime) -> Result<(), Fail> {
    let capture = b"$var real 64 % volt $end $var wire 1 ! rx $end $enddefinitions $end
#0 1! r2.5 % #20 0! #22 1! r3.25 % #90";
    let Ok(texts) = amend_on_bytes(rt.alloc(), capture, b"deglitch rx 3\nvalue rx 21\n", 100) else {
        return Err(Fail::from("the run did not reach its end"));
    };
    let amended = b"$var real 64 % volt $end $var wire 1 ! rx $end $enddefinitions $end
#0 1! r2.5 % #20 #22 r3.25 % #90";
    assert!(rt; texts.replies.as_slice() == b"ok\n1\n".as_slice());
    assert!(rt; texts.output.as_slice() == amended.as_slice());
    Ok(())
}
