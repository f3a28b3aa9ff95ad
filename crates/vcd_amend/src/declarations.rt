//! The variables that a file declares.

ghost use Rattle.std.specs.Prelude.{◌≡◌, ℕ, Bool, List, Option, false, map, OnOk, IfOk, IfErr};
ghost use Rattle.std.specs.Prelude.{IfSome};
ghost use Rattle.vcd_text.specs.Words.{words_of};
ghost use Rattle.vcd_text.specs.Grammar as spec;
ghost use Rattle.vcd_text.specs.Grammar.{ParseState, Accepts};
ghost use Rattle.vcd_copy.specs.CopyEnds.{CopyFails, ReadFails};
ghost use Rattle.vcd_text.specs.declared.reading.TheConstants.{LONG_FILE_LIMIT};
ghost use Rattle.vcd_amend.specs.DeclaredVariables.{declaration_of_variable};

mod collector;
pub(crate) mod nowhere;
pub(crate) mod signal_sizes;
pub(crate) mod variable_size;

use collector::Collector;
use nowhere::Nowhere;
use std::alloc::Global;
use variable_size::VariableSize;
use vcd_copy::{CopyError, copy};
use vcd_core::{NameWords, ScopePath, Source, WIDTH_LIMIT, Word, is_skipped_kind};
use vcd_text::{Fault, ReadError};

/// A variable that a file declares.
#[derive(Drop)]
pub struct DeclaredVariable {
    /// The scopes that are open at its declaration, outermost first.
    pub scopes: ScopePath,
    pub kind: Word,
    pub size: VariableSize,
    pub code: Word,
    pub words: NameWords,
}

impl DeclaredVariable {
    /// Whether the variable is skipped: no signal has its kind or its size.
    pub fn is_skipped(&self) -> bool
        ensures { result ≡ spec.is_skipped (declaration_of_variable self.now) }
    {
        let size = self.size.up_to(WIDTH_LIMIT + 1);
        is_skipped_kind(self.kind.as_slice()) || size == 0 || size > WIDTH_LIMIT
    }
}

/// The variables that a file declares, in its order, the skipped ones too.
///
/// The file is read as `copy` reads it, up to the chunk in which its declarations end. A fault
/// after that chunk is not found.
///
/// Memory: the variables, each with a copy of its words; those in a row share their scopes. Besides
/// what `copy` holds.
pub fn declared_variables<R: Source>(
    alloc: Global,
    reader: &mut R,
    limit: u32,
) -> Result<Vec<DeclaredVariable>, ReadError>
    requires ready { R.has_failed reader.old ≡ false }
    ensures declared { IfOk result (λ variables. IfSome (R.coming reader.old) (λ file.
        (state : ParseState) → Accepts limit (words_of file) state →
        map declaration_of_variable variables.items ≡ state.declared)) }
    ensures not_failed { OnOk result (R.has_failed reader.new ≡ false) }
    ensures fails { IfErr result (ReadFails limit LONG_FILE_LIMIT (R.coming reader.old)
        (R.coming reader.new) (R.has_failed reader.new)) }
{
    let mut collector = Collector::new(alloc);
    let mut sink = Nowhere { is_flushed: false };
    match copy(alloc, reader, limit, &mut collector, &mut sink) {
        Ok(()) => Ok(collector.declared),
        Err(error) => Err(read_error(error)),
    }
}

/// The fault of reading, if a file is copied to a sink that never fails: memory may run out before
/// the first byte is read.
fn read_error(error: CopyError) -> ReadError
    ensures { (limit most : ℕ) (coming left : Option (List ℕ)) (failed : Bool)
        (before after : Option (List ℕ)) (writer_failed : Bool) →
        CopyFails limit most coming left failed before after writer_failed error →
        ReadFails limit most coming left failed result }
{
    match error {
        CopyError::Read(error) => error,
        CopyError::Write(_) => ReadError {
            line: 0,
            fault: Fault::NoMemory,
        },
    }
}
