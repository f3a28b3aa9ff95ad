//! A file that can be read again.

ghost use Rattle.std.specs.Prelude.{◌≡◌, false, Some, IfOk, IfSome};
ghost use Rattle.vcd_core.specs.Devices.{FailureMatches};

use vcd_core::{DeviceFault, FromBytes, Source};

/// A file that can be opened once more, for each pass over it.
pub trait Reopen<R: Source> {
    ghost use Rattle.std.specs.Prelude.{ℕ, Bool, List, Option, None, ◌||◌};

    // all its bytes, where contracts know them
    ghost whole: { Self → Option (List ℕ) } = { λ _. None };

    // whether it could not be opened, or a source of it has failed
    ghost has_failed: { Self → Bool };

    /// Opens the file before its first byte. An `Err` means that it has failed.
    fn open(&mut self) -> Result<R, DeviceFault>
        ensures bytes { IfOk result (λ source.
            IfSome (whole self.old) (λ bytes. R.coming source ≡ Some bytes)) }
        ensures ready { IfOk result (λ source. R.has_failed source ≡ false) }
        ensures kept { whole self.new ≡ whole self.old }
        ensures fault { FailureMatches (has_failed self.old) (has_failed self.new) result };

    /// Takes back what was opened, read to its end or not.
    fn close(&mut self, source: R)
        ensures kept { whole self.new ≡ whole self.old }
        ensures failed { has_failed self.new ≡ (has_failed self.old || R.has_failed source) };
}

/// Bytes in memory as such a file.
#[derive(Clone, Copy)]
pub struct BytesAgain<'a> {
    pub bytes: &'a [u8],
}

impl<'a> Reopen<FromBytes<'a>> for BytesAgain<'a> {
    ghost whole = { λ file. Some file.bytes.now };

    ghost has_failed = { λ _. false };

    fn open(&mut self) -> Result<FromBytes<'a>, DeviceFault> {
        Ok(FromBytes::new(self.bytes))
    }

    fn close(&mut self, _source: FromBytes<'a>) {}
}
