//! Devices over bytes in memory, whose bytes contracts know.

ghost use Rattle.std.specs.Prelude.{◌≡◌, [], false, Some};

use crate::device::{DeviceFault, Sink, Source};
use std::alloc::Global;
use std::io::Read;

/// A source of bytes in memory. It never fails.
#[derive(Drop)]
pub struct FromBytes<'a> {
    left: &'a [u8],
}

impl<'a> FromBytes<'a> {
    /// A source of these bytes.
    pub fn new(bytes: &'a [u8]) -> FromBytes<'a>
        ensures coming { ⟦<FromBytes<'a> as Source>⟧.coming result ≡ Some bytes.now }
    {
        FromBytes { left: bytes }
    }
}

impl<'a> Source for FromBytes<'a> {
    ghost coming = { λ device. Some device.left.now };

    ghost has_failed = { λ _. false };

    fn read(&mut self, buffer: &mut [u8]) -> Result<usize, DeviceFault> {
        match self.left.read(buffer) {
            Ok(count) => Ok(count),
            Err(_) => Err(DeviceFault),
        }
    }

    fn failed(&self) -> bool {
        false
    }
}

/// A sink that keeps the bytes in memory. It fails only if memory is refused.
#[derive(Drop)]
pub struct ToBytes {
    bytes: Vec<u8>,
    is_out_of_memory: bool,
    // read by contracts alone
    is_flushed: bool,
}

impl ToBytes {
    /// A sink that has taken no byte.
    pub fn new(alloc: Global) -> ToBytes
        ensures taken { ⟦<ToBytes as Sink>⟧.taken result ≡ Some [] }
        ensures not_failed { ⟦<ToBytes as Sink>⟧.has_failed result ≡ false }
    {
        ToBytes {
            bytes: Vec::new(alloc),
            is_out_of_memory: false,
            is_flushed: false,
        }
    }

    /// Gives the bytes that it took.
    pub fn into_bytes(self) -> Vec<u8>
        ensures taken { Some result.items ≡ ⟦<ToBytes as Sink>⟧.taken self }
    {
        let ToBytes { bytes, .. } = self;
        bytes
    }
}

impl Sink for ToBytes {
    ghost taken = { λ device. Some device.bytes.items };

    ghost has_failed = { λ device. device.is_out_of_memory };

    ghost is_flushed = { λ device. device.is_flushed };

    fn write(&mut self, bytes: &[u8]) -> Result<usize, DeviceFault> {
        if self.is_out_of_memory {
            return Err(DeviceFault);
        }
        self.is_flushed = false;
        match self.bytes.extend_from_slice(bytes) {
            Ok(()) => Ok(bytes.len()),
            Err(_) => {
                self.is_out_of_memory = true;
                Err(DeviceFault)
            }
        }
    }

    fn flush(&mut self) -> Result<(), DeviceFault> {
        if self.is_out_of_memory {
            return Err(DeviceFault);
        }
        self.is_flushed = true;
        Ok(())
    }

    fn failed(&self) -> bool {
        self.is_out_of_memory
    }
}
