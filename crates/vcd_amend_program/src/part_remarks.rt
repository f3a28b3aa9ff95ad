//! What is said of a part beside its text, on standard error.

ghost use Rattle.std.specs.Prelude.{◌≡◌, ◌++◌, map, IfOk, OnOk};
ghost use Rattle.vcd_amend_program.specs.PartRemarks as spec;

use std::alloc::Global;
use std::rt::Runtime;
use vcd_amend_run::{append_names_remark, append_removed_remark};
use vcd_core::{NoMemory, Word, copy_word, write_all};
use vcd_devices::Remarks;
use vcd_part::{NamedVariable, WrittenPart};
use vcd_shell::{append_bytes, append_decimal};

/// Remarks on a part, unless the program is to be quiet. If memory runs out, it makes no remark.
pub fn remark_on_part<R: Runtime + AllocGlobal>(rt: &R, is_quiet: bool, written: &WrittenPart) {
    if is_quiet {
        return;
    }
    if let Ok(text) = part_remarks(rt.alloc(), written) {
        let _ = write_all(&mut Remarks::new(rt, false), text.as_slice());
    }
}

/// The remarks on a part.
fn part_remarks(alloc: Global, written: &WrittenPart) -> Result<Vec<u8>, NoMemory>
    ensures { IfOk result (λ text. text.items ≡ spec.part_remarks written.now) }
{
    let mut text = Vec::new(alloc);
    append_early_end(&mut text, written)?;
    let names = names_of(alloc, written.still_shown.as_slice())?;
    append_removed_remark(&mut text, names.as_slice())?;
    append_scopes(&mut text, written.emptied_scopes.as_slice())?;
    append_comments(&mut text, written)?;
    let events = names_of(alloc, written.events_left_out_at_first.as_slice())?;
    append_first_events(&mut text, events.as_slice())?;
    Ok(text)
}

/// Appends the remark on a part that ends before the last tick that was asked for.
fn append_early_end(text: &mut Vec<u8>, written: &WrittenPart) -> Result<(), NoMemory>
    ensures { OnOk result (text.new.items ≡ text.old.items ++ spec.early_end_remark written.now) }
{
    if written.ends_early {
        return append_line_with_number(
            text,
            b"output: --to is past the last tick, which is ",
            written.end,
        );
    }
    Ok(())
}

/// Appends the remark on the comments and other commands that stay.
fn append_comments(text: &mut Vec<u8>, written: &WrittenPart) -> Result<(), NoMemory>
    ensures { OnOk result (text.new.items ≡ text.old.items ++ spec.comments_remark written.now) }
{
    if written.comments > 0 {
        return append_line_with_number(
            text,
            b"output: comments and other commands that stay, also from outside the window: ",
            written.comments,
        );
    }
    Ok(())
}

/// Appends the remark on the scopes that stay without a variable.
fn append_scopes(text: &mut Vec<u8>, paths: &[Word]) -> Result<(), NoMemory>
    ensures { OnOk result (text.new.items ≡ text.old.items ++ spec.scopes_remark paths.now) }
{
    append_names_remark(text, b"scopes that stay without a variable", paths)
}

/// Appends the remark on events of these names, which are left out at the first tick of the window.
fn append_first_events(text: &mut Vec<u8>, names: &[Word]) -> Result<(), NoMemory>
    ensures { OnOk result (text.new.items ≡ text.old.items ++ spec.first_events_remark names.now) }
{
    append_names_remark(
        text,
        b"events at the first tick of the window are left out",
        names,
    )
}

/// Appends a line that ends with a number.
fn append_line_with_number(text: &mut Vec<u8>, words: &[u8], number: u64) -> Result<(), NoMemory>
    ensures { OnOk result
        (text.new.items ≡ text.old.items ++ spec.line_with_number words.now number) }
{
    append_bytes(text, words)?;
    append_decimal(text, number)?;
    append_bytes(text, b"\n")
}

/// The full names of variables.
fn names_of(alloc: Global, variables: &[NamedVariable]) -> Result<Vec<Word>, NoMemory>
    ensures { IfOk result (λ names. names.items ≡ map (λ v. v.name) variables.now) }
{
    let mut names = Vec::new(alloc);
    for variable in variables {
        names.push(copy_word(alloc, variable.name.as_slice())?)?;
    }
    Ok(names)
}
