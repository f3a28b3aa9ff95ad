//! A source that sums its bytes, so that two readings of a file can be compared.

ghost use Rattle.std.specs.Prelude.{◌≡◌, true, take, IfOk, OnOk};
ghost use Rattle.std.specs.Io.{ReadsAtMost};
ghost use Rattle.std.specs.Io.KnownBytes.{ReadConsumes};
ghost use Rattle.std.specs.List.{fold};
ghost use Rattle.vcd_core.specs.Devices.{FailureMatches};
ghost use Rattle.vcd_devices.specs.Sums as spec;

use vcd_core::{DeviceFault, Source};

/// What a sum is multiplied by for each byte: one more than a power of 2, which is fast.
pub const FACTOR: u64 = 8_193;

/// What it is multiplied by for eight bytes: the same eight times.
const FACTOR_OF_EIGHT: u64 = 315_282_762_120_626_177;

/// How many bytes of a file are read at once to its end.
const CHUNK: usize = 65_536;

/// A source that sums the bytes that it gives.
///
/// Sums of the same bytes are equal, however they come in pieces; of two files that differ in one
/// byte they are not, and of any others hardly ever.
#[derive(Drop)]
pub struct Summed<S> {
    source: S,
    sum: u64,
    is_begun: bool,
    // the last read found the end
    is_at_end: bool,
}

impl<S: Source> Summed<S> {
    /// A source of the same bytes.
    pub fn new(source: S) -> Summed<S>
        ensures { ⟦<Summed<S> as Source>⟧.has_failed result ≡ S.has_failed source }
    {
        Summed {
            source,
            sum: 1,
            is_begun: false,
            is_at_end: false,
        }
    }

    /// The source below it.
    pub fn source(&mut self) -> &mut S {
        &mut self.source
    }

    /// Whether a read was tried.
    pub fn is_begun(&self) -> bool
        ensures { result ≡ self.now.is_begun }
    {
        self.is_begun
    }

    /// The sum of all bytes; those that are left are read first. What a file has got after its end
    /// was read does not count.
    pub fn whole_sum(&mut self) -> Result<u64, DeviceFault>
        ensures sum { IfOk result (λ sum. sum ≡ self.new.sum) }
        ensures at_end { OnOk result (self.new.is_at_end ≡ true) }
        ensures unread { self.old.is_at_end ≡ true → IfOk result (λ sum. sum ≡ self.old.sum) }
    {
        let mut buffer = [0; CHUNK];
        for _ in 0..u64::MAX {
            if self.is_at_end {
                return Ok(self.sum);
            }
            let _ = self.read(&mut buffer)?;
        }
        Err(DeviceFault)
    }
}

impl<S: Source> Source for Summed<S> {
    ghost coming = { λ device. S.coming device.source };

    ghost has_failed = { λ device. S.has_failed device.source };

    fn read(&mut self, buffer: &mut [u8]) -> Result<usize, DeviceFault>
        ensures count { ReadsAtMost result buffer.new }
        ensures bytes { ReadConsumes (S.coming self.old.source) (S.coming self.new.source) result
            buffer.new }
        ensures fault { FailureMatches (S.has_failed self.old.source)
            (S.has_failed self.new.source) result }
        ensures sum { IfOk result (λ count.
            self.new.sum ≡ fold spec.with_byte self.old.sum (take count buffer.new)) }
    {
        let count = self.source.read(buffer)?;
        self.sum = sum_with(self.sum, &buffer[..count]);
        self.is_begun = true;
        self.is_at_end = count == 0 && !buffer.is_empty();
        Ok(count)
    }

    fn failed(&self) -> bool {
        self.source.failed()
    }
}

/// The sum with these bytes after those that it has.
fn sum_with(sum: u64, bytes: &[u8]) -> u64
    ensures { result ≡ fold spec.with_byte sum bytes.now }
{
    let mut sum = sum;
    let (eights, rest) = bytes.as_chunks::<8>();
    for eight in eights {
        sum = with_eight(sum, eight);
    }
    with_bytes(sum, rest)
}

/// The sum with eight bytes more. Their own sum does not wait for the one before.
fn with_eight(sum: u64, eight: &[u8; 8]) -> u64
    ensures { result ≡ fold spec.with_byte sum eight.now }
{
    sum.wrapping_mul(FACTOR_OF_EIGHT)
        .wrapping_add(with_bytes(0, eight))
}

/// The sum with these bytes, one after another.
fn with_bytes(sum: u64, bytes: &[u8]) -> u64
    ensures { result ≡ fold spec.with_byte sum bytes.now }
{
    bytes.iter().fold(sum, |sum, byte| with_byte(sum, *byte))
}

/// The sum with one byte more.
fn with_byte(sum: u64, byte: u8) -> u64
    ensures { result ≡ spec.with_byte sum byte }
{
    sum.wrapping_mul(FACTOR).wrapping_add(u64::from(byte))
}
