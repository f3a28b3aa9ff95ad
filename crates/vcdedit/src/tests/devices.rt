//! Devices that fail midway.

use std::alloc::Global;
use std::io;
use std::io::{ErrorKind, Read, Write};

/// A reader that gives bytes and then fails.
#[derive(Drop)]
pub struct FailingReader<'a>(pub &'a [u8]);

impl Read for FailingReader<'_> {
    fn read(&mut self, buf: &mut [u8]) -> io::Result<usize> {
        if self.0.is_empty() {
            return Err(io::Error::from(ErrorKind::TimedOut));
        }
        self.0.read(buf)
    }
}

/// A reader that gives an endless row of line feeds.
#[derive(Drop)]
pub struct EndlessReader;

impl Read for EndlessReader {
    fn read(&mut self, buf: &mut [u8]) -> io::Result<usize> {
        buf.fill(b'\n');
        Ok(buf.len())
    }
}

/// A writer with room for `room` bytes. Once full it takes no more, and a flush fails.
#[derive(Drop)]
pub struct SmallWriter {
    held: Vec<u8>,
    room: usize,
}

impl SmallWriter {
    pub fn new(alloc: Global, room: usize) -> SmallWriter {
        SmallWriter {
            held: Vec::new(alloc),
            room,
        }
    }

    /// The bytes that it took.
    pub fn held(&self) -> &[u8] {
        self.held.as_slice()
    }
}

impl Write for SmallWriter {
    fn write(&mut self, buf: &[u8]) -> io::Result<usize> {
        let count = buf.len().min(self.room.saturating_sub(self.held.len()));
        match self.held.extend_from_slice(&buf[..count]) {
            Ok(()) => Ok(count),
            Err(_) => Err(io::Error::from(ErrorKind::OutOfMemory)),
        }
    }

    fn flush(&mut self) -> io::Result<()> {
        if self.held.len() < self.room {
            return Ok(());
        }
        Err(io::Error::from(ErrorKind::StorageFull))
    }
}
