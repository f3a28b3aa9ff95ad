//! The bytes of a file that have been read, and not yet taken as words.

ghost use Rattle.std.specs.Prelude.{◌≡◌, ◌<◌, ◌≤◌, ◌+◌, ◌++◌, ℕ, List, [], false, true, length};
ghost use Rattle.std.specs.Prelude.{take, drop, vec_len, IfOk, IsOk, OnOk, OnErr};
ghost use Rattle.std.specs.Io.KnownBytes.{Consumes, Keeps, IsAtEnd};

use std::alloc::Global;
use std::marker::Model;
use vcd_core::{DeviceFault, NoMemory, Source};

/// The most bytes that one read asks for.
const CHUNK: usize = 4096;

/// The bytes that have been read, and not yet taken as words, at the front of the storage of the
/// next read.
///
/// Contracts see these bytes, and the number of bytes that there is room for.
#[derive(Drop)]
pub struct ReadBuffer {
    storage: Vec<u8>,
    len: usize,
}

impl Model for ReadBuffer {
    ghost use Rattle.std.specs.Prelude.{◌-◌, ◌≤◌, take, vec_len};
    ghost use Rattle.vcd_text.specs.inside.reading.ReadBuffer.{ReadBufferView};

    ghost Value = { ReadBufferView };

    ghost view = { λ b. record {
      bytes = take b.len b.storage.items;
      room = vec_len b.storage - b.len;
    } };

    ghost invariant = { λ b. b.len ≤ vec_len b.storage };
}

impl ReadBuffer {
    /// No bytes and no room. It takes no memory.
    pub fn new(alloc: Global) -> ReadBuffer
        ensures { result.bytes ≡ [] }
    {
        ReadBuffer {
            storage: Vec::new(alloc),
            len: 0,
        }
    }

    /// The bytes.
    pub fn as_slice(&self) -> &[u8]
        ensures { result.now ≡ self.now.bytes }
    {
        &self.storage.as_slice()[..self.len]
    }

    /// The number of bytes.
    pub fn len(&self) -> usize
        ensures { result ≡ length self.now.bytes }
    {
        self.len
    }

    /// Makes room if there is none: at first, and after a word that fills the buffer.
    pub fn make_room(&mut self) -> Result<(), NoMemory>
        ensures same { OnOk result (self.new.bytes ≡ self.old.bytes) }
        ensures room { OnOk result (0 < self.new.room) }
        ensures in_place { 0 < self.old.room → IsOk result }
        ensures kept_room { 0 < self.old.room → self.new.room ≡ self.old.room }
        ensures grown_room { OnOk result (self.old.room ≡ 0 → self.new.room ≡ CHUNK) }
    {
        if self.len == self.storage.len() {
            self.storage.resize(self.len + CHUNK, 0)?;
        }
        Ok(())
    }

    /// Reads at most `most` bytes, or one if that is 0, after those in the buffer. Returns how many
    /// came. Zero means that the source is at its end.
    pub fn read_from<S: Source>(
        &mut self,
        source: &mut S,
        most: usize,
    ) -> Result<usize, DeviceFault>
        requires ready { S.has_failed source.old ≡ false }
        requires room { 0 < self.old.room }
        ensures more { IfOk result (λ count. (chunk : List ℕ)
            × Consumes (S.coming source.old) (S.coming source.new) chunk
            × (self.new.bytes ≡ self.old.bytes ++ chunk)
            × (count ≡ length chunk)) }
        ensures within { IfOk result (λ count. most < count → most ≡ 0) }
        ensures ended { IfOk result (λ count. count ≡ 0 → IsAtEnd (S.coming source.new)) }
        ensures not_failed { OnOk result (S.has_failed source.new ≡ false) }
        ensures failed { OnErr result (S.has_failed source.new ≡ true) }
        ensures coming { OnErr result (Keeps (S.coming source.old) (S.coming source.new)) }
    {
        let end = self.len + most.min(CHUNK).max(1).min(self.storage.len() - self.len);
        let count = source.read(&mut self.storage[self.len..end])?;
        self.len += count;
        Ok(count)
    }

    /// Removes the first `count` bytes, and moves the others to the front. If `count` is 0 nothing
    /// moves, so a long word is not moved for each chunk.
    pub fn remove_prefix(&mut self, count: usize)
        requires { count ≤ length self.old.bytes }
        ensures { self.new.bytes ≡ drop count self.old.bytes }
    {
        if count > 0 {
            self.storage.copy_within(count..self.len, 0);
            self.len -= count;
        }
    }
}
