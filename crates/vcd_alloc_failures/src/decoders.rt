//! The annotations that decoders find on the first two signals.

ghost use Rattle.std.specs.Prelude.{◌≡◌, IfOk};
ghost use Rattle.vcd_core.specs.Wave.{AllUpTo};

use crate::calls::Call;
use crate::files::capture_of_text;
use crate::printing::{DONE, Failure, allow, print_capture, refuse};
use std::alloc::Global;
use std::rt::Runtime;
use vcd_core::{Capture, NoMemory, Wave, ends_by};
use vcd_decode::{Annotation, BitOrder, Parity, SetupError, Spi, Uart, i2c, spi, uart};

impl From<SetupError> for Failure {
    fn from(_fault: SetupError) -> Failure {
        Failure
    }
}

/// Makes the call `uart`, `spi` or `i2c`, by its name.
pub fn call_decoder<R: Runtime + AllocGlobal>(rt: &R, call: &Call) -> Result<(), Failure> {
    let capture = capture_of_text(rt.alloc(), call.text)?;
    if call.makes {
        let first = scalar_wave(&capture, 0)?;
        let second = scalar_wave(&capture, 1)?;
        make_decoder(rt, call.name, first, second, capture.end())?;
    }
    print_capture(rt, &capture)
}

/// Runs the decoder of a name on two lines, and prints the result.
fn make_decoder<R: Runtime + AllocGlobal>(
    rt: &R,
    name: &str,
    first: &Wave,
    second: &Wave,
    end: u64,
) -> Result<(), Failure>
    requires first_one_bit { first.now.width ≡ 1 }
    requires second_one_bit { second.now.width ≡ 1 }
    requires first_within { AllUpTo end first.now.changes }
    requires second_within { AllUpTo end second.now.changes }
{
    let frames = Uart::new(2, 1, 5, Parity::None, 1)?;
    let words = Spi::new(0, 8, BitOrder::Msb)?;
    refuse(rt)?;
    match name {
        "uart" => print_found(rt, uart(rt.alloc(), first, end, &frames)),
        "spi" => print_found(
            rt,
            spi(rt.alloc(), first, Some(second), None, None, end, &words),
        ),
        _ => print_found(rt, i2c(rt.alloc(), first, second, end)),
    }
}

/// The wave of a signal of one bit.
fn scalar_wave(capture: &Capture, signal: usize) -> Result<&Wave, Failure>
    ensures one_bit { IfOk result (λ w. w.now.width ≡ 1) }
    ensures within { IfOk result (λ w. AllUpTo capture.now.end w.now.changes) }
{
    let signals = capture.signals();
    if signal >= signals.len() {
        return Err(Failure);
    }
    let wave = &signals[signal].wave;
    if wave.width() != 1 {
        return Err(Failure);
    }
    if !ends_by(wave.changes(), capture.end()) {
        return Err(Failure);
    }
    Ok(wave)
}

/// Prints the outcome of the call, and the annotations if there was memory for them.
fn print_found<R: Runtime>(
    rt: &R,
    found: Result<Vec<Annotation>, NoMemory>,
) -> Result<(), Failure> {
    match found {
        Ok(found) => {
            allow(rt, DONE)?;
            print_annotations(rt, found.as_slice())
        }
        Err(fault) => allow(rt, fault.name()),
    }
}

/// Prints each annotation on a line of its own.
fn print_annotations<R: Runtime>(rt: &R, annotations: &[Annotation]) -> Result<(), Failure> {
    for annotation in annotations {
        println!(rt; "{annotation:?}")?;
    }
    Ok(())
}
