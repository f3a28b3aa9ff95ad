//! The remarks on the lines of the script, on standard error.

ghost use Rattle.std.specs.Prelude.{◌≡◌};

use std::io::Eprint;
use std::str;
use vcd_core::{DeviceFault, Sink};

/// A sink of text, which goes to standard error. It fails if standard error does, or at bytes that
/// are no UTF-8. If the program is to be quiet, it has failed from the start, so that no remark is
/// made.
#[derive(Drop)]
pub struct Remarks<'a, R> {
    rt: &'a R,
    failed: bool,
    // read by contracts alone
    is_flushed: bool,
}

impl<'a, R: Eprint> Remarks<'a, R> {
    /// A sink that has not failed, unless the program is to be quiet.
    pub fn new(rt: &'a R, is_quiet: bool) -> Remarks<'a, R>
        ensures { ⟦<Remarks<'a, R> as Sink>⟧.has_failed result ≡ is_quiet }
    {
        Remarks {
            rt,
            failed: is_quiet,
            is_flushed: false,
        }
    }
}

impl<'a, R: Eprint> Sink for Remarks<'a, R> {
    ghost has_failed = { λ sink. sink.failed };

    ghost is_flushed = { λ sink. sink.is_flushed };

    fn write(&mut self, bytes: &[u8]) -> Result<usize, DeviceFault> {
        if self.failed {
            return Err(DeviceFault);
        }
        self.is_flushed = false;
        if is_printed(self.rt, bytes) {
            return Ok(bytes.len());
        }
        self.failed = true;
        Err(DeviceFault)
    }

    fn flush(&mut self) -> Result<(), DeviceFault> {
        if self.failed {
            return Err(DeviceFault);
        }
        self.is_flushed = true;
        Ok(())
    }

    fn failed(&self) -> bool {
        self.failed
    }
}

/// Prints text on standard error, which may fail.
fn is_printed<R: Eprint>(rt: &R, text: &[u8]) -> bool {
    match str::from_utf8(text) {
        Ok(text) => eprint!(rt; "{}", text).is_ok(),
        Err(_) => false,
    }
}
