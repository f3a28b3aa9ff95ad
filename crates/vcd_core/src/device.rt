//! Devices that bytes come from and go to.

ghost use Rattle.std.specs.Prelude.{◌≡◌, ◌<◌, false, true, length, IfOk, OnOk};
ghost use Rattle.std.specs.Io.{ReadsAtMost, WritesAtMost};
ghost use Rattle.std.specs.Io.KnownBytes.{ReadConsumes, WriteAppends, Keeps};
ghost use Rattle.vcd_core.specs.Devices.{FailureMatches};

mod bytes;
mod output;

pub use bytes::{FromBytes, ToBytes};
pub use output::{ShortWrite, write_all, write_and_flush};
use std::io::{Read, Write};

/// A device has failed.
#[derive(Clone, Copy, Debug, PartialEq, Eq)]
pub struct DeviceFault;

impl DeviceFault {
    ghost use lib.Chars.{codes};

    /// The name of the fault.
    pub fn name(self) -> &'static str
        ensures { result.now ≡ codes "DeviceFault" }
    {
        "DeviceFault"
    }
}

/// A source of bytes.
///
/// After an `Ok` the device has not failed. An `Err` means that it has failed: it gave no byte, and
/// every later call is an `Err`.
pub trait Source {
    ghost use Rattle.std.specs.Prelude.{ℕ, Bool, List, Option, None};

    // the bytes to come, where the device shows them
    ghost coming: { Self → Option (List ℕ) } = { λ _. None };

    // whether it has failed
    ghost has_failed: { Self → Bool };

    /// Reads bytes into the front of `buffer`. Returns how many, at most its length. Zero bytes
    /// into a buffer that is not empty mean that no byte is to come.
    fn read(&mut self, buffer: &mut [u8]) -> Result<usize, DeviceFault>
        ensures count { ReadsAtMost result buffer.new }
        ensures bytes { ReadConsumes (coming self.old) (coming self.new) result buffer.new }
        ensures fault { FailureMatches (has_failed self.old) (has_failed self.new) result };

    /// Whether the device has failed.
    fn failed(&self) -> bool
        ensures { result ≡ has_failed self.now };
}

/// A sink of bytes.
///
/// After an `Ok` the device has not failed. An `Err` means that it has failed: it took no byte, and
/// every later call is an `Err`.
pub trait Sink {
    ghost use Rattle.std.specs.Prelude.{ℕ, Bool, List, Option, None};

    // the bytes taken so far, where the device shows them
    ghost taken: { Self → Option (List ℕ) } = { λ _. None };

    // whether it has failed
    ghost has_failed: { Self → Bool };

    // whether a flush has succeeded since the last byte was taken
    ghost is_flushed: { Self → Bool };

    /// Takes bytes from the front of `bytes`. Returns how many: at least one, if there is one.
    fn write(&mut self, bytes: &[u8]) -> Result<usize, DeviceFault>
        ensures count { WritesAtMost result bytes.now }
        ensures some { 0 < length bytes.now → IfOk result (λ count. 0 < count) }
        ensures bytes { WriteAppends (taken self.old) (taken self.new) result bytes.now }
        ensures unflushed { IfOk result (λ count. 0 < count → is_flushed self.new ≡ false) }
        ensures fault { FailureMatches (has_failed self.old) (has_failed self.new) result };

    /// Passes on the bytes taken.
    fn flush(&mut self) -> Result<(), DeviceFault>
        ensures bytes { Keeps (taken self.old) (taken self.new) }
        ensures flushed { OnOk result (is_flushed self.new ≡ true) }
        ensures fault { FailureMatches (has_failed self.old) (has_failed self.new) result };

    /// Whether the device has failed.
    fn failed(&self) -> bool
        ensures { result ≡ has_failed self.now };
}

/// A source over a reader. Every error is a failure, even an interrupted read: nothing is tried
/// again.
#[derive(Drop)]
pub struct FromRead<R> {
    reader: R,
    failed: bool,
}

impl<R: Read> FromRead<R> {
    /// A source of the bytes that the reader has left.
    pub fn new(reader: R) -> FromRead<R>
        ensures reader { result.reader ≡ reader }
        ensures coming { ⟦<FromRead<R> as Source>⟧.coming result ≡ R.remaining reader }
        ensures not_failed { ⟦<FromRead<R> as Source>⟧.has_failed result ≡ false }
    {
        FromRead {
            reader,
            failed: false,
        }
    }

    /// Gives the reader back.
    pub fn into_inner(self) -> R
        ensures reader { result ≡ self.reader }
        ensures coming { R.remaining result ≡ ⟦<FromRead<R> as Source>⟧.coming self }
    {
        let FromRead { reader, .. } = self;
        reader
    }
}

impl<R: Read> Source for FromRead<R> {
    ghost coming = { λ device. R.remaining device.reader };

    ghost has_failed = { λ device. device.failed };

    fn read(&mut self, buffer: &mut [u8]) -> Result<usize, DeviceFault> {
        if self.failed {
            return Err(DeviceFault);
        }
        match self.reader.read(buffer) {
            Ok(count) => Ok(count),
            Err(_) => {
                self.failed = true;
                Err(DeviceFault)
            }
        }
    }

    fn failed(&self) -> bool {
        self.failed
    }
}

/// A sink over a writer. Every error is a failure, even an interrupted write: nothing is tried
/// again. A write of some bytes that takes none is a failure too.
#[derive(Drop)]
pub struct ToWrite<W> {
    writer: W,
    failed: bool,
    // read by contracts alone
    is_flushed: bool,
}

impl<W: Write> ToWrite<W> {
    /// A sink that appends to the contents of the writer.
    pub fn new(writer: W) -> ToWrite<W>
        ensures writer { result.writer ≡ writer }
        ensures taken { ⟦<ToWrite<W> as Sink>⟧.taken result ≡ W.contents writer }
        ensures not_failed { ⟦<ToWrite<W> as Sink>⟧.has_failed result ≡ false }
    {
        ToWrite {
            writer,
            failed: false,
            is_flushed: false,
        }
    }

    /// Gives the writer back.
    pub fn into_inner(self) -> W
        ensures writer { result ≡ self.writer }
        ensures taken { W.contents result ≡ ⟦<ToWrite<W> as Sink>⟧.taken self }
    {
        let ToWrite { writer, .. } = self;
        writer
    }
}

impl<W: Write> Sink for ToWrite<W> {
    ghost taken = { λ device. W.contents device.writer };

    ghost has_failed = { λ device. device.failed };

    ghost is_flushed = { λ device. device.is_flushed };

    fn write(&mut self, bytes: &[u8]) -> Result<usize, DeviceFault> {
        if self.failed {
            return Err(DeviceFault);
        }
        self.is_flushed = false;
        match self.writer.write(bytes) {
            Ok(count) if count > 0 || bytes.is_empty() => Ok(count),
            _ => {
                self.failed = true;
                Err(DeviceFault)
            }
        }
    }

    fn flush(&mut self) -> Result<(), DeviceFault> {
        if self.failed {
            return Err(DeviceFault);
        }
        match self.writer.flush() {
            Ok(()) => {
                self.is_flushed = true;
                Ok(())
            }
            Err(_) => {
                self.failed = true;
                Err(DeviceFault)
            }
        }
    }

    fn failed(&self) -> bool {
        self.failed
    }
}
