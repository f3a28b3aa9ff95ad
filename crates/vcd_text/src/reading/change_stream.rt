//! The changes of a file while it is read, in the order of the file.

ghost use Rattle.std.specs.Prelude.{◌≡◌, ◌<◌, ℕ, List, [], true, false, Some, Option, IfOk, IfErr};
ghost use Rattle.std.specs.Prelude.{OnOk, IfSome, map, slice_get, count_by};
ghost use Rattle.std.specs.Io.KnownBytes.{IsAtEnd};
ghost use Rattle.vcd_core.specs.declared.capture.TheConstants.{SIGNAL_LIMIT};
ghost use Rattle.vcd_text.specs.Grammar.{ParseState, VariableDeclaration, initial_state};
ghost use Rattle.vcd_text.specs.Grammar.{is_skipped, kept_variables};
ghost use Rattle.vcd_text.specs.HeardChanges.{HeardChange, first_with, skipped_variables};
ghost use Rattle.vcd_text.specs.Refusals.{IsRefusal};
ghost use Rattle.vcd_text.specs.declared.fault.Fault.{Fault};
ghost use Rattle.vcd_text.specs.declared.reading.TheConstants.{LONG_FILE_LIMIT};
ghost use Rattle.vcd_text.specs.inside.reading.DeclaredSignals.{declared_contents};
ghost use Rattle.vcd_text.specs.inside.reading.Part.{undriven};
ghost use Rattle.vcd_text.specs.inside.reading.ChangeStream.{HasStreamed, IsStreamAt, StreamsOn};
ghost use Rattle.vcd_text.specs.inside.reading.ChangeStream.{bytes_to_come, heard_by};
ghost use Rattle.vcd_text.specs.inside.reading.SkippedVariables.{listed_variables};

use crate::fault::ReadError;
use crate::reading::LONG_FILE_LIMIT;
use crate::reading::change_listener::ChangeListener;
use crate::reading::declared_signals::Declarations;
use crate::reading::file_reader::FileReader;
use crate::reading::heard_changes::HeardChanges;
use crate::reading::skipped_variables::SkippedVariable;
use std::alloc::Global;
use std::mem::replace;
use vcd_core::{SIGNAL_LIMIT, Source, Timescale};

/// A file that is read a chunk at a time, and the changes that the words of the last chunk made.
///
/// The grammar, the first fault and its line are those of `read`. A file has at most
/// `LONG_FILE_LIMIT` bytes, and at most `SIGNAL_LIMIT` kept variables.
///
/// Memory: a chunk of at most 4,096 bytes, the longest word, the changes of one chunk, and what
/// `read_part` holds of the declarations. Each skipped variable takes its kind, its full name and
/// some sixty bytes, and its code as much again as `read` takes for it.
#[derive(Drop)]
pub struct ChangeStream {
    reader: FileReader,
    listener: ChangeListener,
}

impl ChangeStream {
    /// A file before its first byte. It takes no memory.
    pub fn new(alloc: Global) -> ChangeStream
        ensures { (coming : Option (List ℕ)) →
            HasStreamed coming coming (initial_state SIGNAL_LIMIT) [] result }
    {
        ChangeStream {
            reader: FileReader::new(alloc, SIGNAL_LIMIT as u32, LONG_FILE_LIMIT),
            listener: ChangeListener::new(alloc),
        }
    }

    /// Forgets what was heard before, reads a chunk, and hears its words. It returns false at the
    /// end of an accepted file, whose last word has then been heard.
    ///
    /// Each change takes one or two look-ups of its code, and a copy of its text. It takes memory
    /// only where a chunk has more changes, or longer ones, than those before.
    pub fn read_more<R: Source>(&mut self, alloc: Global, source: &mut R) -> Result<bool, ReadError>
        requires ready { R.has_failed source.old ≡ false }
        requires streamed { (coming : Option (List ℕ)) × (state : ParseState)
            × (heard : List HeardChange)
            × HasStreamed coming (R.coming source.old) state heard self.old }
        ensures streamed { IfOk result (λ more. (coming : Option (List ℕ)) (state : ParseState)
            (heard : List HeardChange) →
            HasStreamed coming (R.coming source.old) state heard self.old →
            StreamsOn more coming (R.coming source.new) state heard self.new) }
        ensures not_failed { OnOk result (R.has_failed source.new ≡ false) }
        ensures ended { IfOk result (λ more. more ≡ false → IsAtEnd (R.coming source.new)) }
        ensures fewer { IfOk result (λ more. more ≡ true →
            bytes_to_come self.new < bytes_to_come self.old) }
        ensures refused { IfErr result (λ e. (coming : Option (List ℕ)) (state : ParseState)
            (heard : List HeardChange) →
            HasStreamed coming (R.coming source.old) state heard self.old →
            IfSome coming (λ file. IsRefusal SIGNAL_LIMIT LONG_FILE_LIMIT file
            (R.has_failed source.new) (R.coming source.new) e)) }
        ensures failed { IfErr result (λ e. e.fault ≡ Fault.ReadFault →
            R.has_failed source.new ≡ true) }
        ensures unfailed { IfErr result (λ e. (e.fault ≡ Fault.ReadFault → ⊥) →
            R.has_failed source.new ≡ false) }
    {
        self.listener.heard.clear();
        if self.reader.take_chunk(alloc, source, &mut self.listener)? {
            return Ok(true);
        }
        let reader = replace(&mut self.reader, FileReader::new(alloc, 0, 0));
        self.reader.parser = reader.finish(alloc, &mut self.listener)?;
        Ok(false)
    }

    /// What the last call of `read_more` heard.
    pub fn heard(&self) -> &HeardChanges
        ensures { result.now ≡ heard_by self.now }
    {
        &self.listener.heard
    }

    /// Whether `$enddefinitions $end` has come.
    pub fn is_declared(&self) -> bool
        ensures { (state : ParseState) → IsStreamAt self.now state → result ≡ state.in_body }
    {
        self.reader.parser.in_body
    }

    /// The last stamp so far, or 0: at the file's end the end of its capture.
    pub fn tick(&self) -> u64
        ensures { (state : ParseState) → IsStreamAt self.now state → result ≡ state.tick }
    {
        self.reader.parser.tick
    }

    /// How many variables so far are skipped.
    pub fn skipped(&self) -> u64
        ensures { (state : ParseState) → IsStreamAt self.now state →
            result ≡ count_by is_skipped state.declared }
    {
        self.reader.parser.variables.skipped
    }

    /// The timescale so far.
    pub fn timescale(&self) -> Option<Timescale>
        ensures { (state : ParseState) → IsStreamAt self.now state → result ≡ state.timescale }
    {
        self.reader.parser.timescale
    }

    /// The skipped variables so far.
    pub fn skipped_variables(&self) -> &[SkippedVariable]
        ensures { (state : ParseState) → IsStreamAt self.now state
            → result.now ≡ listed_variables (skipped_variables state.declared) }
    {
        self.listener.skipped.list.as_slice()
    }

    /// The kept variables so far, as they are declared.
    pub fn signals(&self) -> Declarations
        requires { (state : ParseState) × IsStreamAt self.now state }
        ensures { (state : ParseState) → IsStreamAt self.now state
            → declared_contents result ≡ map undriven (kept_variables state.declared) }
    {
        self.reader.parser.variables.declared_signals()
    }

    /// The position of the first kept variable with the code of this one; of a position past them
    /// all, itself.
    pub fn first_of(&self, position: usize) -> usize
        ensures { (state : ParseState) (d : VariableDeclaration) → IsStreamAt self.now state
            → slice_get (kept_variables state.declared) position ≡ Some d
            → result ≡ first_with d.code (kept_variables state.declared) }
    {
        match self.reader.parser.variables.kept.get(position) {
            Some(variable) => variable.first,
            None => position,
        }
    }
}
