//! A sink that drops all bytes.

use vcd_core::{DeviceFault, Sink};

/// A sink that drops what it takes. It never fails.
#[derive(Drop)]
pub struct Nowhere {
    // read by contracts alone
    pub is_flushed: bool,
}

impl Nowhere {
    /// A sink that has taken nothing.
    pub fn new() -> Nowhere {
        Nowhere { is_flushed: false }
    }
}

impl Sink for Nowhere {
    ghost use Rattle.std.specs.Prelude.{false};

    ghost has_failed = { λ _. false };

    ghost is_flushed = { λ sink. sink.is_flushed };

    fn write(&mut self, bytes: &[u8]) -> Result<usize, DeviceFault> {
        self.is_flushed = false;
        Ok(bytes.len())
    }

    fn flush(&mut self) -> Result<(), DeviceFault> {
        self.is_flushed = true;
        Ok(())
    }

    fn failed(&self) -> bool {
        false
    }
}
