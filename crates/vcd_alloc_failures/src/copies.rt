//! Files copied, or read for what they declare.

ghost use Rattle.std.specs.Prelude.{◌≡◌, ◌++◌, IfOk};
ghost use Rattle.vcd_amend.specs.AmendedMeaning.{AreApart};
ghost use Rattle.vcd_amend.specs.AmendmentContents.{amendment_contents};

use crate::calls::Call;
use crate::files::{ROOM, tell_source};
use crate::printing::{DONE, Failure, allow, refuse};
use std::alloc::Global;
use std::rt::Runtime;
use vcd_amend::{
    AmendedCode, Amendment, DeclaredVariable, FileEdits, amend_marked, declared_variables,
};
use vcd_copy::{AmendableItem, Amender, CopyError, EndedItem, InPlace, copy};
use vcd_core::{Bit, DeviceFault, FromRead, NoMemory, Sink, ToWrite, Value, Wave, copy_word};
use vcd_stream::CompactWave;
use vcd_text::{Output, VARIABLE_LIMIT, write_bytes};

/// Lets all items stand, each `$var` with a copy of its words. Memory may be refused after the
/// white space before them.
#[derive(Drop)]
struct VariableCopies {
    alloc: Global,
}

impl<W: Sink> Amender<W> for VariableCopies {
    ghost use Rattle.std.specs.Prelude.{false, []};

    ghost Given = { Unit {0} };

    ghost given = { λ _. tt };

    ghost rules = { λ _. record {
      in_place = λ before p. p.space ++ p.body;
      before_others = λ before. [];
      at_end = λ pieces tail. tail;
    } };

    ghost has_seen = { λ _ _. Unit {0} };

    ghost is_done = { λ _. false };

    fn settle(&mut self, item: AmendableItem, _code: &[u8]) -> InPlace {
        match item {
            AmendableItem::Variable => InPlace::Other,
            _ => InPlace::Itself,
        }
    }

    fn take(&mut self, output: &mut Output<W>, ended: &EndedItem) -> Result<(), NoMemory> {
        write_bytes(output, ended.space);
        let words = copy_word(self.alloc, ended.body)?;
        write_bytes(output, words.as_slice());
        Ok(())
    }

    fn write_before(&self, _output: &mut Output<W>) {}

    fn pass(&mut self, _is_comment_or_other: bool) {}

    fn is_done(&self) -> bool {
        false
    }

    fn finish(&mut self, output: &mut Output<W>, space: &[u8]) -> Result<(), NoMemory> {
        write_bytes(output, space);
        Ok(())
    }
}

/// Makes the call `copy`, into memory that was taken before. Prints how much was written, if the
/// call succeeded, whether that begins the text, and what `read` prints of the source.
pub fn call_copy<R: Runtime + AllocGlobal>(rt: &R, call: &Call) -> Result<(), Failure> {
    let mut source = FromRead::new(call.text);
    let mut sink = ToWrite::new(Vec::with_capacity(rt.alloc(), ROOM)?);
    if call.makes {
        let mut amender = VariableCopies { alloc: rt.alloc() };
        refuse(rt)?;
        match copy(
            rt.alloc(),
            &mut source,
            VARIABLE_LIMIT,
            &mut amender,
            &mut sink,
        ) {
            Ok(()) => allow(rt, DONE)?,
            Err(CopyError::Read(error)) => allow(rt, error.name())?,
            Err(CopyError::Write(error)) => allow(rt, error.name())?,
        }
    }
    println!(rt; "failed {}", sink.failed())?;
    let begins = call.text.starts_with(sink.into_inner().as_slice());
    println!(rt; "a prefix is written {begins}")?;
    tell_source(rt, call, source)
}

/// A sink that drops what it takes, so that it takes no memory.
#[derive(Drop)]
struct Dropping {
    // read by contracts alone
    is_flushed: bool,
}

impl Sink for Dropping {
    ghost use Rattle.std.specs.Prelude.{false};

    ghost has_failed = { λ _. false };

    ghost is_flushed = { λ sink. sink.is_flushed };

    fn write(&mut self, bytes: &[u8]) -> Result<usize, DeviceFault> {
        self.is_flushed = false;
        Ok(bytes.len())
    }

    fn flush(&mut self) -> Result<(), DeviceFault> {
        self.is_flushed = true;
        Ok(())
    }

    fn failed(&self) -> bool {
        false
    }
}

/// Gives the code `!` two changes, in the place of all that the file has of it.
fn two_changes(alloc: Global) -> Result<Amendment, NoMemory>
    ensures { IfOk result (λ amendment. AreApart (amendment_contents amendment).codes) }
{
    let mut new = Wave::new(alloc, 1);
    new.push(2, Value::filled(1, Bit::One))?;
    new.push(5, Value::filled(1, Bit::Zero))?;
    let code = AmendedCode {
        code: copy_word(alloc, b"!")?,
        old: CompactWave::new(alloc, 1),
        new: CompactWave::of_wave(alloc, &new)?,
    };
    let mut codes = Vec::new(alloc);
    codes.push(code)?;
    Ok(Amendment {
        fates: Vec::new(alloc),
        added: Vec::new(alloc),
        codes,
    })
}

/// Makes the call `amend_marked`. The amended text is dropped. Prints what `read` prints of the
/// source.
pub fn call_amend<R: Runtime + AllocGlobal>(rt: &R, call: &Call) -> Result<(), Failure> {
    let amendment = two_changes(rt.alloc())?;
    let mut source = FromRead::new(call.text);
    let mut sink = Dropping { is_flushed: false };
    if call.makes {
        refuse(rt)?;
        let edits = FileEdits {
            cuts: &[],
            amendment: &amendment,
            mark: None,
        };
        match amend_marked(rt.alloc(), &mut source, VARIABLE_LIMIT, edits, &mut sink) {
            Ok(()) => allow(rt, DONE)?,
            Err(CopyError::Read(error)) => allow(rt, error.name())?,
            Err(CopyError::Write(error)) => allow(rt, error.name())?,
        }
    }
    tell_source(rt, call, source)
}

/// Makes the call `declared_variables`. Prints the code and the number of scopes of each, or the
/// line of a fault, and what `read` prints of the source.
pub fn call_declared_variables<R: Runtime + AllocGlobal>(
    rt: &R,
    call: &Call,
) -> Result<(), Failure> {
    let mut source = FromRead::new(call.text);
    if call.makes {
        refuse(rt)?;
        match declared_variables(rt.alloc(), &mut source, VARIABLE_LIMIT) {
            Ok(variables) => {
                allow(rt, DONE)?;
                print_variables(rt, variables.as_slice())?;
            }
            Err(error) => {
                allow(rt, error.name())?;
                println!(rt; "line {}", error.line)?;
            }
        }
    }
    tell_source(rt, call, source)
}

/// Prints the code of each variable, and in how many scopes it is.
fn print_variables<R: Runtime>(rt: &R, variables: &[DeclaredVariable]) -> Result<(), Failure> {
    for variable in variables {
        println!(rt;
            "{:?} {}",
            variable.code.as_slice(),
            variable.scopes.as_slice().len()
        )?;
    }
    Ok(())
}
