//! A buffer before a writer: the text is written in large parts, and no memory is taken meanwhile.

ghost use Rattle.std.specs.Prelude.{◌≡◌, ◌≤◌, ◌+◌, false, true, [], ◌∷◌, length, take};
ghost use Rattle.std.specs.Prelude.{nat_le, vec_len, vec_capacity, OnOk, OnErr, IfErr, IfOk};
ghost use Rattle.std.specs.Io.KnownBytes.{Appends, Keeps};
ghost use Rattle.vcd_text.specs.declared.fault.WriteError.TheVariants.{WriteFault};
ghost use Rattle.vcd_text.specs.EmittedText.{Emits};

use crate::fault::WriteError;
use std::alloc::Global;
use vcd_core::{NoMemory, Sink, write_all};

/// The size of the buffer, in bytes.
const ROOM: usize = 65536;

/// A writer, the bytes that wait for it, and how many bytes were sent. After a
/// failure of the writer, nothing more is sent.
#[derive(Drop)]
pub struct Output<'w, W> {
    pub unsent: Vec<u8>,
    pub sent_count: u128,
    pub writer: &'w mut W,
}

/// An empty buffer.
pub fn empty_buffer(alloc: Global) -> Result<Vec<u8>, NoMemory>
    ensures empty { IfOk result (λ unsent. unsent.items ≡ []) }
    ensures room { IfOk result (λ unsent. vec_capacity unsent ≡ ROOM) }
{
    Ok(Vec::with_capacity(alloc, ROOM)?)
}

/// Appends bytes to the text. It takes no memory.
pub fn write_bytes<W: Sink>(output: &mut Output<W>, bytes: &[u8])
    ensures written { Emits W.Sink output.old output.new bytes.now }
    // if there is room, the writer is not called
    ensures buffered { vec_len output.old.unsent + length bytes.now
        ≤ vec_capacity output.old.unsent →
        output.new.writer.now ≡ output.old.writer.now }
    ensures room { vec_capacity output.old.unsent ≤ vec_capacity output.new.unsent }
{
    if has_room_for(&output.unsent, bytes.len()) {
        let _ = output.unsent.extend_from_slice(bytes);
        return;
    }
    write_after_sending(output, bytes);
}

/// Appends a byte to the text.
pub fn write_byte<W: Sink>(output: &mut Output<W>, byte: u8)
    ensures written { Emits W.Sink output.old output.new (byte ∷ []) }
    ensures buffered { vec_len output.old.unsent + 1 ≤ vec_capacity output.old.unsent →
        output.new.writer.now ≡ output.old.writer.now }
    ensures room { vec_capacity output.old.unsent ≤ vec_capacity output.new.unsent }
{
    if has_room_for(&output.unsent, 1) {
        output.unsent.push_reserved(byte);
        return;
    }
    write_after_sending(output, &[byte]);
}

/// Sends the buffer, and then appends bytes to the text.
#[cold]
#[inline(never)]
fn write_after_sending<W: Sink>(output: &mut Output<W>, bytes: &[u8])
    ensures written { Emits W.Sink output.old output.new bytes.now }
    ensures room { vec_capacity output.old.unsent ≤ vec_capacity output.new.unsent }
{
    send_buffer(output);
    if has_room_for(&output.unsent, bytes.len()) {
        let _ = output.unsent.extend_from_slice(bytes);
        return;
    }
    send_directly(output, bytes);
}

/// Whether there is room for `count` more bytes.
fn has_room_for(unsent: &Vec<u8>, count: usize) -> bool
    ensures { result ≡ nat_le (vec_len unsent.now + count) (vec_capacity unsent.now) }
{
    count <= unsent.capacity() - unsent.len()
}

/// Sends all bytes of the buffer.
pub fn send_buffer<W: Sink>(output: &mut Output<W>)
    ensures written { Emits W.Sink output.old output.new [] }
    ensures empty { output.new.unsent.items ≡ [] }
    ensures room { vec_capacity output.new.unsent ≡ vec_capacity output.old.unsent }
    ensures stays { W.has_failed output.old.writer.now ≡ true →
        W.has_failed output.new.writer.now ≡ true }
{
    let count = send_bytes(output.writer, output.unsent.as_slice());
    output.sent_count = output.sent_count.saturating_add(count);
    output.unsent.clear();
}

/// Sends bytes past the buffer, which is empty.
fn send_directly<W: Sink>(output: &mut Output<W>, bytes: &[u8])
    requires empty { output.old.unsent.items ≡ [] }
    ensures written { Emits W.Sink output.old output.new bytes.now }
    ensures room { vec_capacity output.new.unsent ≡ vec_capacity output.old.unsent }
{
    let count = send_bytes(output.writer, bytes);
    output.sent_count = output.sent_count.saturating_add(count);
}

/// The number of bytes that the writer takes: all, unless it fails or has failed.
fn send_bytes<W: Sink>(writer: &mut W, bytes: &[u8]) -> u128
    ensures prefix { Appends (W.taken writer.old) (W.taken writer.new) (take result bytes.now) }
    ensures within { result ≤ length bytes.now }
    ensures all { W.has_failed writer.new ≡ false → result ≡ length bytes.now }
    ensures failed { W.has_failed writer.old ≡ true → result ≡ 0 }
    ensures stays { W.has_failed writer.old ≡ true → W.has_failed writer.new ≡ true }
{
    if writer.failed() {
        return 0;
    }
    match write_all(writer, bytes) {
        Ok(()) => bytes.len() as u128,
        Err(short) => short.written,
    }
}

/// Flushes the writer, if it has not failed. An error means that it has, and gives the number of
/// bytes that it took.
pub fn flush<W: Sink>(writer: &mut W, written: u128) -> Result<(), WriteError>
    ensures kept { Keeps (W.taken writer.old) (W.taken writer.new) }
    ensures was_ready { OnOk result (W.has_failed writer.old ≡ false) }
    ensures not_failed { OnOk result (W.has_failed writer.new ≡ false) }
    ensures flushed { OnOk result (W.is_flushed writer.new ≡ true) }
    ensures fault { IfErr result (λ e. e ≡ WriteFault written) }
    ensures failed { OnErr result (W.has_failed writer.new ≡ true) }
{
    if writer.failed() {
        return Err(WriteError::WriteFault { written });
    }
    match writer.flush() {
        Ok(()) => Ok(()),
        Err(_) => Err(WriteError::WriteFault { written }),
    }
}
