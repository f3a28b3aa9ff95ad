//! Readers and writers that give or take little at a time, and fail at a chosen call.

ghost use Rattle.std.specs.Prelude.{◌≡◌, false};

use std::alloc::Global;
use std::io;
use std::io::{ErrorKind, Read, Write};
use vcd_core::{FromRead, Sink, Source, ToWrite};

/// A number that no call of a device has.
pub const NEVER: usize = usize::MAX;

/// Gives `rest` in pieces of at most `piece` bytes. The call numbered `fault_at`, from 0, is
/// interrupted. With `fails_at_end` each call with no byte left fails.
#[derive(Drop)]
pub struct FakeReader<'a> {
    pub rest: &'a [u8],
    pub piece: usize,
    pub fault_at: usize,
    pub fails_at_end: bool,
    /// How often it was called.
    pub calls: usize,
}

impl<'a> FakeReader<'a> {
    /// A reader that never fails.
    pub fn new(rest: &'a [u8], piece: usize) -> FakeReader<'a> {
        FakeReader {
            rest,
            piece,
            fault_at: NEVER,
            fails_at_end: false,
            calls: 0,
        }
    }

    fn is_interrupted(&mut self) -> bool {
        let call = self.calls;
        self.calls = call.saturating_add(1);
        call == self.fault_at || (self.fails_at_end && self.rest.is_empty())
    }
}

impl<'a> Read for FakeReader<'a> {
    fn read(&mut self, buffer: &mut [u8]) -> io::Result<usize> {
        if self.is_interrupted() {
            return Err(io::Error::from(ErrorKind::Interrupted));
        }
        let room = buffer.len().min(self.piece);
        let mut rest = self.rest;
        let count = rest.read(&mut buffer[..room])?;
        self.rest = rest;
        Ok(count)
    }
}

/// Takes at most `piece` bytes a call and `room` in all. The call numbered `fault_at`, from 0, is
/// interrupted, whether it is a write or a flush.
#[derive(Drop)]
pub struct FakeWriter {
    pub held: Vec<u8>,
    pub piece: usize,
    pub room: usize,
    pub fault_at: usize,
    pub flush_fails: bool,
    /// How often it was called, and how often to flush.
    pub calls: usize,
    pub flushes: usize,
}

impl FakeWriter {
    /// A writer that never fails.
    pub fn new(alloc: Global, piece: usize) -> FakeWriter {
        FakeWriter {
            held: Vec::new(alloc),
            piece,
            room: usize::MAX,
            fault_at: NEVER,
            flush_fails: false,
            calls: 0,
            flushes: 0,
        }
    }

    /// A writer that fails after `room` bytes, and perhaps in its flush.
    pub fn with_room(alloc: Global, piece: usize, room: usize, flush_fails: bool) -> FakeWriter {
        let mut writer = FakeWriter::new(alloc, piece);
        writer.room = room;
        writer.flush_fails = flush_fails;
        writer
    }

    fn is_interrupted(&mut self) -> bool {
        let call = self.calls;
        self.calls = call.saturating_add(1);
        call == self.fault_at
    }
}

impl Write for FakeWriter {
    fn write(&mut self, bytes: &[u8]) -> io::Result<usize> {
        if self.is_interrupted() {
            return Err(io::Error::from(ErrorKind::Interrupted));
        }
        let left = self.room.saturating_sub(self.held.len());
        if left == 0 && self.piece > 0 {
            return Err(io::Error::from(ErrorKind::StorageFull));
        }
        let count = bytes.len().min(self.piece).min(left);
        match self.held.extend_from_slice(&bytes[..count]) {
            Ok(()) => Ok(count),
            Err(_) => Err(io::Error::from(ErrorKind::OutOfMemory)),
        }
    }

    fn flush(&mut self) -> io::Result<()> {
        self.flushes = self.flushes.saturating_add(1);
        if self.is_interrupted() || self.flush_fails {
            return Err(io::Error::from(ErrorKind::Interrupted));
        }
        Ok(())
    }
}

/// A source of a reader's bytes.
pub fn source_of<'a>(reader: FakeReader<'a>) -> FromRead<FakeReader<'a>>
    ensures { ⟦<FromRead<FakeReader<'a>> as Source>⟧.has_failed result ≡ false }
{
    FromRead::new(reader)
}

/// A sink into a writer.
pub fn sink_of(writer: FakeWriter) -> ToWrite<FakeWriter>
    ensures { ⟦<ToWrite<FakeWriter> as Sink>⟧.has_failed result ≡ false }
{
    ToWrite::new(writer)
}
