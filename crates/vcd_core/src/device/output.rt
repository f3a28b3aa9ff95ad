//! Writing all bytes of a text to a device, and counting those that it took.

ghost use Rattle.std.specs.Prelude.{◌≡◌, ◌<◌, ◌≤◌, false, true, length, take, OnOk, OnErr, IfErr};
ghost use Rattle.std.specs.Io.KnownBytes.{Appends};

use crate::device::Sink;

/// A sink failed before it had taken all bytes and passed them on. It took the first `written`
/// bytes and no other.
#[derive(Clone, Copy, Debug, PartialEq, Eq)]
pub struct ShortWrite {
    pub written: u128,
}

impl ShortWrite {
    ghost use lib.Chars.{codes};

    /// The name of the fault.
    pub fn name(self) -> &'static str
        ensures { result.now ≡ codes "ShortWrite" }
    {
        "ShortWrite"
    }
}

/// Writes all of `bytes`, in order.
///
/// An error means that the sink has failed. It gives the number of bytes that the sink took before:
/// these are the first ones, and not all.
pub fn write_all<W: Sink>(sink: &mut W, bytes: &[u8]) -> Result<(), ShortWrite>
    requires ready { W.has_failed sink.old ≡ false }
    ensures all { OnOk result (Appends (W.taken sink.old) (W.taken sink.new) bytes.now) }
    ensures not_failed { OnOk result (W.has_failed sink.new ≡ false) }
    ensures prefix { IfErr result (λ short.
        Appends (W.taken sink.old) (W.taken sink.new) (take short.written bytes.now)) }
    ensures not_all { IfErr result (λ short. short.written < length bytes.now) }
    ensures failed { OnErr result (W.has_failed sink.new ≡ true) }
{
    let mut written = 0;
    while written < bytes.len() {
        match sink.write(&bytes[written..]) {
            Ok(count) => written += count,
            Err(_) => {
                return Err(ShortWrite {
                    written: written as u128,
                });
            }
        }
    }
    Ok(())
}

/// Writes all of `bytes`, in order, and flushes the sink once after the last.
///
/// An error means that the sink has failed. It gives the number of bytes that the sink took before:
/// these are the first ones, and all of them if the flush failed.
pub fn write_and_flush<W: Sink>(sink: &mut W, bytes: &[u8]) -> Result<(), ShortWrite>
    requires ready { W.has_failed sink.old ≡ false }
    ensures all { OnOk result (Appends (W.taken sink.old) (W.taken sink.new) bytes.now) }
    ensures not_failed { OnOk result (W.has_failed sink.new ≡ false) }
    ensures flushed { OnOk result (W.is_flushed sink.new ≡ true) }
    ensures prefix { IfErr result (λ short.
        Appends (W.taken sink.old) (W.taken sink.new) (take short.written bytes.now)) }
    ensures within { IfErr result (λ short. short.written ≤ length bytes.now) }
    ensures failed { OnErr result (W.has_failed sink.new ≡ true) }
{
    write_all(sink, bytes)?;
    match sink.flush() {
        Ok(()) => Ok(()),
        Err(_) => Err(ShortWrite {
            written: bytes.len() as u128,
        }),
    }
}
