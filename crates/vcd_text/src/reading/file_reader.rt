//! A file in chunks: the complete words of each chunk are taken before the next read.

ghost use Rattle.std.specs.Prelude.{◌≡◌, ◌∷◌, ◌++◌, ◌<◌, ◌≤◌, ◌^◌, ℕ, true, false, not, List};
ghost use Rattle.std.specs.Prelude.{[], length, map, take, drop, Option, IfOk, IfErr, IfSome, OnOk};
ghost use Rattle.std.specs.List.{list_all};
ghost use Rattle.std.specs.Io.KnownBytes.{Consumes, IsAtEnd};
ghost use Rattle.vcd_core.specs.Word as spec;
ghost use Rattle.vcd_text.specs.Words.{word_on, WordOnLine as WordInFile};
ghost use Rattle.vcd_text.specs.Grammar.{ParseState, kept_variables};
ghost use Rattle.vcd_text.specs.Refusals.{IsRefusal};
ghost use Rattle.vcd_text.specs.inside.reading.Parser.{StepsBy};
ghost use Rattle.vcd_text.specs.inside.Words.{has_complete_words};
ghost use Rattle.vcd_text.specs.inside.reading.Part.{Asked, asked_by, IsAskedPart, undriven};
ghost use Rattle.vcd_text.specs.inside.reading.Variables.{VariablesMatch};
ghost use Rattle.vcd_text.specs.inside.reading.Parser.{HasTakenWords, BeginsPart, is_complete};
ghost use Rattle.vcd_text.specs.inside.reading.Parser.{CanTake, TakesWord};
ghost use Rattle.vcd_text.specs.inside.reading.FileReader.{HasReadBytes, HasHeard, HasHeardBytes};
ghost use Rattle.vcd_text.specs.inside.reading.FileReader.{FileReaderMatches, HasUntakenChunk};
ghost use Rattle.vcd_text.specs.inside.reading.FileReader.{CanBegin};
ghost use Rattle.vcd_text.specs.inside.reading.FileReader.{TakesChunk, RefusesFile, HasHeardFile};
ghost use Rattle.vcd_text.specs.declared.reading.parser.OpenItem.TheVariants as items;

use crate::fault::{Fault, ReadError};
use crate::reading::choice::{Choice, chosen_part};
use crate::reading::listener::Listener;
use crate::reading::parser::Parser;
use crate::reading::read_buffer::ReadBuffer;
use crate::words::Words;
use std::alloc::Global;
use vcd_core::{NoMemory, Source, is_white_space};

/// The progress of reading a file.
#[derive(Drop)]
pub struct FileReader {
    /// The parser after the complete words.
    pub parser: Parser,
    /// The bytes after the last white space: a word that can go on.
    pub buffer: ReadBuffer,
    /// The line feeds so far.
    pub line_feeds: u64,
    /// The number of bytes that the file can still have.
    pub bytes_left: usize,
}

impl FileReader {
    /// The progress before the first read.
    pub fn new(alloc: Global, limit: u32, most: usize) -> FileReader
        requires { most < 2 ^ 62 }
        ensures { (asked : Asked) → HasReadBytes limit most asked result [] }
    {
        FileReader {
            parser: Parser::new(alloc, limit),
            buffer: ReadBuffer::new(alloc),
            line_feeds: 0,
            bytes_left: most,
        }
    }

    /// Reads the chunks of a file with at most `limit` kept variables, and at most `most` bytes: up
    /// to its end, or up to the first chunk after which the listener is done.
    pub fn read_chunks<R: Source, L: Listener>(
        alloc: Global,
        source: &mut R,
        listener: &mut L,
        limit: u32,
        most: usize,
    ) -> Result<FileReader, ReadError>
        requires small { most < 2 ^ 62 }
        requires ready { R.has_failed source.old ≡ false }
        requires begins { CanBegin L.Listener limit listener.old }
        ensures heard { IfOk result (FileReaderMatches L.Listener limit most listener.old
            (R.coming source.old) (R.coming source.new) listener.new) }
        ensures goes_on { L.goes_on listener.old listener.old →
            L.goes_on listener.old listener.new }
        ensures not_failed { OnOk result (R.has_failed source.new ≡ false) }
        ensures ended { OnOk result (L.is_done listener.new ≡ false →
            IsAtEnd (R.coming source.new)) }
        ensures refused { IfErr result (λ e. IfSome (R.coming source.old) (λ file.
            IsRefusal limit most file (R.has_failed source.new) (R.coming source.new) e)) }
        ensures failed { IfErr result (λ e. e.fault ≡ Fault.ReadFault →
            R.has_failed source.new ≡ true) }
        ensures unfailed { IfErr result (λ e. (e.fault ≡ Fault.ReadFault → ⊥) →
            R.has_failed source.new ≡ false) }
    {
        let mut progress = FileReader::new(alloc, limit, most);
        while progress.take_chunk(alloc, source, listener)? {
            if listener.is_done() {
                return Ok(progress);
            }
        }
        Ok(progress)
    }

    /// Reads a chunk, and takes the words that are then complete. Returns whether the source gave a
    /// byte.
    pub fn take_chunk<R: Source, L: Listener>(
        &mut self,
        alloc: Global,
        source: &mut R,
        listener: &mut L,
    ) -> Result<bool, ReadError>
        requires ready { R.has_failed source.old ≡ false }
        requires matches { (limit : ℕ) × (most : ℕ) × (start : L) × (coming : Option (List ℕ))
            × FileReaderMatches L.Listener limit most start coming (R.coming source.old)
            listener.old self.old }
        ensures taken { OnOk result ((limit most : ℕ) (start : L) (coming : Option (List ℕ))
            (bytes : List ℕ) → Consumes coming (R.coming source.old) bytes →
            HasHeardBytes L.Listener limit most start listener.old self.old bytes →
            (chunk : List ℕ) × Consumes coming (R.coming source.new) (bytes ++ chunk)
            × HasHeardBytes L.Listener limit most start listener.new self.new (bytes ++ chunk)) }
        ensures goes_on { (start : L) → L.goes_on start listener.old →
            L.goes_on start listener.new }
        ensures not_failed { OnOk result (R.has_failed source.new ≡ false) }
        ensures ended { IfOk result (λ more. more ≡ false → IsAtEnd (R.coming source.new)) }
        ensures fewer { IfOk result (λ more. more ≡ true
            → self.new.bytes_left < self.old.bytes_left) }
        ensures refused { IfErr result (λ e. (limit most : ℕ) (start : L)
            (coming : Option (List ℕ)) →
            FileReaderMatches L.Listener limit most start coming (R.coming source.old)
            listener.old self.old →
            IfSome coming (λ file. IsRefusal limit most file (R.has_failed source.new)
            (R.coming source.new) e)) }
        ensures failed { IfErr result (λ e. e.fault ≡ Fault.ReadFault →
            R.has_failed source.new ≡ true) }
        ensures unfailed { IfErr result (λ e. (e.fault ≡ Fault.ReadFault → ⊥) →
            R.has_failed source.new ≡ false) }
    {
        self.buffer.make_room()?;
        let unfinished_len = self.buffer.len();
        let Ok(count) = self.buffer.read_from(source, self.bytes_left) else {
            return Err(ReadError::at(self.line_feeds + 1, Fault::ReadFault));
        };
        if count > self.bytes_left {
            return Err(ReadError::at(self.line_feeds + 1, Fault::TooLarge));
        }
        self.bytes_left -= count;
        self.take_words(alloc, listener, unfinished_len)?;
        Ok(count > 0)
    }

    /// Takes the complete words. The first `unfinished_len` bytes of the buffer are no white space.
    fn take_words<L: Listener>(
        &mut self,
        alloc: Global,
        listener: &mut L,
        unfinished_len: usize,
    ) -> Result<(), ReadError>
        requires { (limit : ℕ) × (most : ℕ) × (start : L) × (bytes : List ℕ)
            × HasUntakenChunk limit most (L.asked start) self.old unfinished_len bytes
            × HasHeard L.Listener limit start listener.old self.old bytes }
        ensures taken { (limit most : ℕ) (start : L) (bytes : List ℕ) →
            HasUntakenChunk limit most (L.asked start) self.old unfinished_len bytes →
            HasHeard L.Listener limit start listener.old self.old bytes →
            TakesChunk L.Listener limit most start bytes result listener.new self.new }
        ensures goes_on { (start : L) → L.goes_on start listener.old →
            L.goes_on start listener.new }
        ensures bytes_left { self.new.bytes_left ≡ self.old.bytes_left }
    {
        let len = complete_words_len(self.buffer.as_slice(), unfinished_len);
        let complete = Words {
            rest: &self.buffer.as_slice()[..len],
            line_feeds: self.line_feeds,
        };
        self.line_feeds = listener.take_words(alloc, &mut self.parser, complete)?;
        self.buffer.remove_prefix(len);
        Ok(())
    }

    /// Takes the word that the file's end completes, if there is one. The result is the parser
    /// after all words, or the file's fault.
    pub fn finish<L: Listener>(self, alloc: Global, listener: &mut L) -> Result<Parser, ReadError>
        requires { (limit : ℕ) × (most : ℕ) × (start : L) × (bytes : List ℕ)
            × HasHeardBytes L.Listener limit most start listener.old self bytes }
        ensures heard { IfOk result (λ parser. (limit most : ℕ) (start : L) (bytes : List ℕ) →
            HasHeardBytes L.Listener limit most start listener.old self bytes →
            HasHeardFile L.Listener limit start listener.new parser bytes) }
        ensures fault { IfErr result (λ e. (limit most : ℕ) (start : L) (bytes : List ℕ) →
            HasHeardBytes L.Listener limit most start listener.old self bytes →
            RefusesFile limit bytes e) }
        ensures goes_on { (start : L) → L.goes_on start listener.old →
            L.goes_on start listener.new }
    {
        let FileReader {
            mut parser,
            buffer,
            line_feeds,
            ..
        } = self;
        let word = Words {
            rest: buffer.as_slice(),
            line_feeds,
        };
        listener.take_words(alloc, &mut parser, word)?;
        check_complete(&parser, line_feeds + 1)?;
        Ok(parser)
    }
}

/// The error is `Truncated`, at the line of the file's end, if its words are not a whole file.
fn check_complete(parser: &Parser, line: u64) -> Result<(), ReadError>
    ensures complete { OnOk result (is_complete parser.now ≡ true) }
    ensures truncated { IfErr result (λ e. (is_complete parser.now ≡ false)
        × (e ≡ record { line = line; fault = Fault.Truncated })) }
{
    if !parser.is_complete() {
        return Err(ReadError::at(line, Fault::Truncated));
    }
    Ok(())
}

/// The number of bytes up to and including the last white space. The first `unfinished_len` bytes
/// have none.
#[tactic(auto, using(crate::proofs::shared::Chunks::complete_at))]
fn complete_words_len(bytes: &[u8], unfinished_len: usize) -> usize
    requires within { unfinished_len ≤ length bytes.now }
    requires no_space { list_all (λ b. not (spec.is_white_space b)) (take unfinished_len bytes.now)
        ≡ true }
    ensures within { result ≤ length bytes.now }
    ensures complete { has_complete_words (take result bytes.now) ≡ true }
    ensures no_space { list_all (λ b. not (spec.is_white_space b)) (drop result bytes.now) ≡ true }
{
    let mut len = bytes.len();
    while len > unfinished_len {
        if is_white_space(bytes[len - 1]) {
            return len;
        }
        len -= 1;
    }
    0
}

/// Takes a word, which is on this line. If it ends the declarations, the part is chosen.
#[inline(always)]
pub fn take_word<C: Choice>(
    parser: &mut Parser,
    alloc: Global,
    choice: &C,
    text: &[u8],
    line: u64,
) -> Result<(), ReadError>
    requires reading { (limit : ℕ)
        × CanTake limit (asked_by C.takes C.ticks choice.now) parser.old
        (word_on text.now line ∷ []) }
    requires word { 0 < length text.now }
    requires no_space { list_all (λ b. not (spec.is_white_space b)) text.now ≡ true }
    ensures words { (limit : ℕ) (words_so_far : List WordInFile) →
        HasTakenWords limit (asked_by C.takes C.ticks choice.now) parser.old words_so_far →
        TakesWord limit (asked_by C.takes C.ticks choice.now) words_so_far (word_on text.now line)
        result parser.new }
    ensures step { OnOk result (StepsBy parser.old (word_on text.now line) parser.new) }
{
    if !parser.ends_definitions(text) {
        return parser.take_word(alloc, text, line);
    }
    begin_part(parser, alloc, choice)?;
    Ok(())
}

/// Takes the `$end` of `$enddefinitions`. The choice says which part is read.
#[inline(never)]
fn begin_part<C: Choice>(parser: &mut Parser, alloc: Global, choice: &C) -> Result<(), NoMemory>
    requires item { parser.old.item ≡ items.EndDefinitions }
    requires known { (c : ParseState) × VariablesMatch parser.old.variables c }
    ensures begins { OnOk result (BeginsPart parser.old parser.new) }
    ensures asked { OnOk result ((c : ParseState) → VariablesMatch parser.old.variables c →
        IsAskedPart (asked_by C.takes C.ticks choice.now)
        (map undriven (kept_variables c.declared)) parser.new.part) }
{
    let signals = parser.variables.declared_signals();
    let part = chosen_part(alloc, choice, &signals)?;
    parser.end_definitions(part)?;
    Ok(())
}
