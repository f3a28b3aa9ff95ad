//! Files read and written.

ghost use Rattle.std.specs.Prelude.{IfOk};
ghost use Rattle.vcd_core.specs.CaptureContents.{contents};
ghost use Rattle.vcd_core.specs.Sound.{IsSound};

use crate::calls::Call;
use crate::parts::AskedPart;
use crate::printing::{DONE, Failure, allow, print_capture, refuse};
use std::alloc::Global;
use std::io;
use std::io::Write;
use std::rt::Runtime;
use vcd_core::{Capture, FromRead, Sink, Source, ToWrite};
use vcd_text::{Loaded, ReadError, read, read_part, write};

/// How many bytes a sink into memory takes without more memory.
pub const ROOM: usize = 1_000_000;

/// The capture that a text means.
pub fn capture_of_text(alloc: Global, text: &[u8]) -> Result<Capture, Failure>
    ensures { IfOk result (λ c. IsSound (contents c)) }
{
    match read(alloc, &mut FromRead::new(text)) {
        Ok(loaded) => Ok(loaded.capture),
        Err(_) => Err(Failure),
    }
}

/// Says how a call ended that reads. Prints the capture, or the line of a fault.
fn tell_loaded<R: Runtime + AllocGlobal>(
    rt: &R,
    loaded: Result<Loaded, ReadError>,
) -> Result<(), Failure>
    requires { IfOk loaded (λ l. IsSound (contents l.capture)) }
{
    match loaded {
        Ok(loaded) => {
            allow(rt, DONE)?;
            print_capture(rt, &loaded.capture)
        }
        Err(error) => {
            allow(rt, error.name())?;
            println!(rt; "line {}", error.line)?;
            Ok(())
        }
    }
}

/// Makes the call `read`. Prints the capture, or the line of a fault. Then it prints whether the
/// source has failed, and whether the rest ends the text.
pub fn call_read<R: Runtime + AllocGlobal>(rt: &R, call: &Call) -> Result<(), Failure> {
    let mut source = FromRead::new(call.text);
    if call.makes {
        refuse(rt)?;
        tell_loaded(rt, read(rt.alloc(), &mut source))?;
    }
    tell_source(rt, call, source)
}

/// Makes the call `read_part`, of the part that the argument asks for. It prints what that of
/// `read` does.
pub fn call_read_part<R: Runtime + AllocGlobal>(rt: &R, call: &Call) -> Result<(), Failure> {
    let part = AskedPart::of_word(call.argument)?;
    let mut source = FromRead::new(call.text);
    if call.makes {
        refuse(rt)?;
        tell_loaded(rt, read_part(rt.alloc(), &mut source, &part))?;
    }
    tell_source(rt, call, source)
}

/// Prints whether a source of the capture's text has failed, and whether its rest ends the text.
pub fn tell_source<R: Runtime>(
    rt: &R,
    call: &Call,
    source: FromRead<&[u8]>,
) -> Result<(), Failure> {
    let has_failed = source.failed();
    let is_rest = call.text.ends_with(source.into_inner());
    println!(rt; "failed {has_failed}, rest of the text {is_rest}")?;
    Ok(())
}

/// Makes the call `write`, into memory that was taken before.
pub fn call_write<R: Runtime + AllocGlobal>(rt: &R, call: &Call) -> Result<(), Failure> {
    let capture = capture_of_text(rt.alloc(), call.text)?;
    let mut sink = ToWrite::new(Vec::with_capacity(rt.alloc(), ROOM)?);
    if call.makes {
        refuse(rt)?;
        match write(rt.alloc(), &capture, &mut sink) {
            Ok(()) => allow(rt, DONE)?,
            Err(fault) => allow(rt, fault.name())?,
        }
    }
    println!(rt; "failed {}, written:", sink.failed())?;
    io::writer(rt).write_all(sink.into_inner().as_slice())?;
    print_capture(rt, &capture)
}
