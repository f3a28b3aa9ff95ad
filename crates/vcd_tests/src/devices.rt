//! Devices that give or take little and fail: the answers then and after, and how often each device
//! is called.

ghost use Rattle.std.specs.Prelude.{◌≡◌, Some};

use crate::fake_devices::{FakeReader, FakeWriter, NEVER, sink_of, source_of};
use std::alloc::Global;
use std::process::Abort;
use vcd_core::{
    DeviceFault, FromBytes, FromRead, Sink, Source, ToBytes, ToWrite, write_all, write_and_flush,
};

/// A source over memory shows the bytes to come.
fn from_memory<'a>(bytes: &'a [u8]) -> FromRead<&'a [u8]>
    ensures { ⟦<FromRead<&'a [u8]> as Source>⟧.coming result ≡ Some bytes.now }
{
    FromRead::new(bytes)
}

/// A sink into memory shows the bytes taken.
fn to_memory(bytes: Vec<u8>) -> ToWrite<Vec<u8>>
    ensures { ⟦<ToWrite<Vec<u8>> as Sink>⟧.taken result ≡ Some bytes.items }
{
    ToWrite::new(bytes)
}

/// Stops unless a read gives these bytes, at most four.
fn check_read(rt: &impl Abort, source: &mut impl Source, bytes: &[u8]) {
    let mut buffer = [b'.'; 4];
    assert!(rt; source.read(&mut buffer) == Ok(bytes.len()));
    assert!(rt; buffer.get(..bytes.len()) == Some(bytes));
}

/// Stops unless a read into a buffer of one byte says that the source has ended well.
fn check_end_in_one_byte(rt: &impl Abort, source: &mut impl Source) {
    let mut buffer = [b'.'; 1];
    assert!(rt; source.read(&mut buffer) == Ok(0));
    assert!(rt; !source.failed());
}

/// Stops unless a read fails.
fn check_failed_read(rt: &impl Abort, source: &mut impl Source) {
    let mut buffer = [b'.'; 4];
    assert!(rt; source.read(&mut buffer) == Err(DeviceFault));
    assert!(rt; source.failed());
}

/// Stops unless a source over memory gives these six bytes and ends.
fn check_memory(rt: &impl Abort, source: &mut impl Source) {
    check_read(rt, source, b"#10 ");
    assert!(rt; source.read(&mut []) == Ok(0));
    check_read(rt, source, b"1!");
    check_read(rt, source, b"");
    assert!(rt; !source.failed());
}

#[test]
fn memory_gives_its_bytes_and_ends(rt: HostRuntime) {
    check_memory(&rt, &mut from_memory(b"#10 1!"));
    check_memory(&rt, &mut FromBytes::new(b"#10 1!"));
}

/// No clause says that an end is no fault. The adapter says so itself, even where one byte has
/// room.
#[test]
fn the_end_where_one_byte_has_room(rt: HostRuntime) {
    let mut source = source_of(FakeReader::new(b"1", 4));
    check_read(&rt, &mut source, b"1");
    check_end_in_one_byte(&rt, &mut source);
    check_end_in_one_byte(&rt, &mut source);
}

#[test]
fn an_interrupted_read_is_the_end(rt: HostRuntime) {
    let mut reader = FakeReader::new(b"#10 1!", 1);
    reader.fault_at = 2;
    let mut source = source_of(reader);
    check_read(&rt, &mut source, b"#");
    check_read(&rt, &mut source, b"1");
    check_failed_read(&rt, &mut source);
    check_failed_read(&rt, &mut source);
    let reader = source.into_inner();
    assert!(rt; reader.rest == b"0 1!".as_slice());
    assert!(rt; reader.calls == 3, "no read after the failure");
}

/// Stops unless the result of a write is `wanted`.
fn check_write(
    rt: &impl Abort,
    sink: &mut impl Sink,
    bytes: &[u8],
    wanted: Result<usize, DeviceFault>,
) {
    assert!(rt; sink.write(bytes) == wanted);
    assert!(rt; sink.failed() == wanted.is_err());
}

/// Stops unless a flush fails.
fn check_failed_flush(rt: &impl Abort, sink: &mut impl Sink) {
    assert!(rt; sink.flush() == Err(DeviceFault));
    assert!(rt; sink.failed());
}

/// Writes two pieces and nothing to a sink into memory, and flushes it.
fn check_line(rt: &impl Abort, sink: &mut impl Sink) {
    check_write(rt, sink, b"#10", Ok(3));
    check_write(rt, sink, b"", Ok(0));
    check_write(rt, sink, b"\n", Ok(1));
    assert!(rt; sink.flush() == Ok(()));
}

#[test]
fn memory_keeps_what_it_takes(rt: HostRuntime) {
    let mut sink = to_memory(Vec::new(rt.alloc()));
    check_line(&rt, &mut sink);
    assert!(rt; sink.into_inner().as_slice() == b"#10\n".as_slice());
    let mut sink = ToBytes::new(rt.alloc());
    check_line(&rt, &mut sink);
    assert!(rt; sink.into_bytes().as_slice() == b"#10\n".as_slice());
}

/// A sink into a writer that takes `piece` bytes a call. One of its calls is interrupted.
fn sink_with_interruption(alloc: Global, piece: usize, fault_at: usize) -> ToWrite<FakeWriter> {
    let mut writer = FakeWriter::new(alloc, piece);
    writer.fault_at = fault_at;
    ToWrite::new(writer)
}

#[test]
fn an_interrupted_write_is_the_end(rt: HostRuntime) {
    let mut sink = sink_with_interruption(rt.alloc(), 2, 1);
    check_write(&rt, &mut sink, b"#10 1!", Ok(2));
    check_write(&rt, &mut sink, b"0 1!", Err(DeviceFault));
    check_write(&rt, &mut sink, b"1!", Err(DeviceFault));
    check_failed_flush(&rt, &mut sink);
    let writer = sink.into_inner();
    assert!(rt; writer.held.len() == 2);
    assert!(rt; writer.calls == 2, "no write after the failure");
}

#[test]
fn a_write_that_takes_no_byte_is_a_failure(rt: HostRuntime) {
    let mut sink = sink_with_interruption(rt.alloc(), 0, NEVER);
    check_write(&rt, &mut sink, b"", Ok(0));
    check_write(&rt, &mut sink, b"1!", Err(DeviceFault));
    check_write(&rt, &mut sink, b"", Err(DeviceFault));
}

#[test]
fn an_interrupted_flush_is_a_failure(rt: HostRuntime) {
    let mut sink = sink_with_interruption(rt.alloc(), 2, 1);
    check_write(&rt, &mut sink, b"1!", Ok(2));
    check_failed_flush(&rt, &mut sink);
    check_failed_flush(&rt, &mut sink);
    let writer = sink.into_inner();
    assert!(rt; writer.flushes == 1, "no flush after the failure");
}

const TEXT: &[u8] = b"#0\n$dumpvars\n0!\n$end\n";

/// Stops unless writing and flushing the text ends so, with these bytes and flushes. `wanted` is
/// how many bytes an error counts.
fn check_written(
    rt: &impl Abort,
    writer: FakeWriter,
    wanted: Option<u128>,
    count: usize,
    flushes: usize,
) {
    let mut sink = sink_of(writer);
    let ended = write_and_flush(&mut sink, TEXT);
    assert!(rt; ended.err().map(|short| short.written) == wanted);
    assert!(rt; sink.failed() == wanted.is_some());
    let writer = sink.into_inner();
    assert!(rt; TEXT.get(..count) == Some(writer.held.as_slice()));
    assert!(rt; writer.flushes == flushes);
}

#[test]
fn a_byte_at_a_time(rt: HostRuntime) {
    check_written(&rt, FakeWriter::new(rt.alloc(), 1), None, 21, 1);
}

/// The writer takes three bytes a call and has room for ten: the count is what was taken.
#[test]
fn fails_after_ten_bytes(rt: HostRuntime) {
    let writer = FakeWriter::with_room(rt.alloc(), 3, 10, false);
    check_written(&rt, writer, Some(10), 10, 0);
}

#[test]
fn fails_in_the_flush(rt: HostRuntime) {
    let writer = FakeWriter::with_room(rt.alloc(), 3, 100, true);
    check_written(&rt, writer, Some(21), 21, 1);
}

#[test]
fn takes_no_byte(rt: HostRuntime) {
    check_written(&rt, FakeWriter::new(rt.alloc(), 0), Some(0), 0, 0);
}

#[test]
fn no_bytes_are_written_and_flushed(rt: HostRuntime) {
    let mut sink = sink_of(FakeWriter::with_room(rt.alloc(), 1, 0, false));
    assert!(rt; write_all(&mut sink, b"") == Ok(()));
    assert!(rt; write_and_flush(&mut sink, b"") == Ok(()));
    assert!(rt; sink.into_inner().flushes == 1);
}
