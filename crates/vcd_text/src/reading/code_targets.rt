//! The targets of a file's codes: a table of the short codes, and a map of the others.

ghost use Rattle.std.specs.Prelude.{◌≡◌, ◌+◌, ◌<◌, ◌≤◌, ◌^◌, ◌==◌, ℕ, List, length, if◌then◌else◌};
ghost use Rattle.std.specs.Prelude.{slice_index_or, IfSome, OnOk, bytes_eq, max};
ghost use Rattle.vcd_text.specs.inside.reading.CodeTargets.{digit_of, index_of_code, code_target};
ghost use Rattle.vcd_text.specs.inside.reading.CodeTargets.{in_map};

use indexmap::IndexMap;
use std::alloc::Global;
use vcd_core::{NoMemory, copy_word};

/// The target of a code.
#[derive(Clone, Copy, Debug, PartialEq, Eq)]
pub enum CodeTarget {
    /// No variable.
    Undeclared,
    /// A skipped variable.
    Skipped,
    /// The first kept variable with the code: its width and its position.
    Kept(u16, u32),
}

/// The targets of the codes, of any type.
#[derive(Drop)]
pub struct CodeTargets<T> {
    /// The target of each short code, at the index of the code.
    pub short: Vec<T>,
    /// The other codes, each with its target.
    pub others: IndexMap<Vec<u8>, T>,
    /// The target of a code that got none.
    pub absent: T,
}

impl<T: Copy> CodeTargets<T> {
    /// No code has got a target. It takes no memory.
    pub fn new(alloc: Global, absent: T) -> CodeTargets<T>
        ensures { (code : List ℕ) → code_target result code ≡ absent }
    {
        CodeTargets {
            short: Vec::new(alloc),
            others: IndexMap::new(alloc),
            absent,
        }
    }

    /// The target of a code.
    #[inline(always)]
    pub fn get(&self, code: &[u8]) -> T
        ensures { result ≡ code_target self.now code.now }
    {
        match table_index(code) {
            Some(index) => target_at(&self.short, index, self.absent),
            None => target_in(&self.others, code, self.absent),
        }
    }

    /// Gives a code this target. A short code takes room for all indexes up to its own, another one
    /// a copy of the code.
    pub fn insert(&mut self, alloc: Global, code: &[u8], target: T) -> Result<(), NoMemory>
        ensures { OnOk result ((key : List ℕ) → code_target self.new key ≡
            (if bytes_eq key code.now then target else code_target self.old key)) }
    {
        match table_index(code) {
            Some(index) => put_at(&mut self.short, index, target, self.absent),
            None => put_in(&mut self.others, alloc, code, target),
        }
    }
}

/// The target at an index. Past the end of the table no code has got one.
#[inline(always)]
fn target_at<T: Copy>(table: &[T], index: usize, absent: T) -> T
    ensures { result ≡ slice_index_or table.now index absent }
{
    table.get(index).copied().unwrap_or(absent)
}

/// The target of a code in the map.
#[inline(never)]
fn target_in<T: Copy>(codes: &IndexMap<Vec<u8>, T>, code: &[u8], absent: T) -> T
    ensures { result ≡ in_map absent codes.now code.now }
{
    codes.get(code).copied().unwrap_or(absent)
}

/// Gives an index this target. If the table ends before it, the codes between get none.
fn put_at<T: Copy>(table: &mut Vec<T>, index: usize, target: T, absent: T) -> Result<(), NoMemory>
    requires { index < 2 ^ 32 }
    ensures target { OnOk result ((i : ℕ) → slice_index_or table.new.items i absent ≡
        (if i == index then target else slice_index_or table.old.items i absent)) }
    ensures exact { OnOk result
        (length table.new.items ≡ max (length table.old.items) (index + 1)) }
{
    lengthen(table, index + 1, absent)?;
    table[index] = target;
    Ok(())
}

/// Appends codes without a target to a table that is shorter.
fn lengthen<T: Copy>(table: &mut Vec<T>, len: usize, absent: T) -> Result<(), NoMemory>
    ensures exact { OnOk result (length table.new.items ≡ max (length table.old.items) len) }
    ensures same { OnOk result ((i : ℕ) →
        slice_index_or table.new.items i absent ≡ slice_index_or table.old.items i absent) }
{
    if table.len() < len {
        table.resize(len, absent)?;
    }
    Ok(())
}

/// Gives a code of the map this target.
#[tactic(auto, using(crate::proofs::reading::code_targets::Targets::target_put))]
fn put_in<T: Copy>(
    codes: &mut IndexMap<Vec<u8>, T>,
    alloc: Global,
    code: &[u8],
    target: T,
) -> Result<(), NoMemory>
    ensures { OnOk result ((absent : T) (key : List ℕ) → in_map absent codes.new key ≡
        (if bytes_eq key code.now then target else in_map absent codes.old key)) }
{
    let key = copy_word(alloc, code)?.into_vec();
    codes.insert(key, target)?;
    Ok(())
}

/// The index of a code of one to three bytes, each from 1 to 127; none for any other code.
#[inline(always)]
fn table_index(code: &[u8]) -> Option<usize>
    ensures index { result ≡ index_of_code code.now }
    ensures fits { IfSome result (λ index. index < 2 ^ 32) }
{
    match code {
        [a] => code_digit(*a),
        [a, b] => Some(code_digit(*a)? + 128 * code_digit(*b)?),
        [a, b, c] => Some(code_digit(*a)? + 128 * (code_digit(*b)? + 128 * code_digit(*c)?)),
        _ => None,
    }
}

/// A byte from 1 to 127 as a digit.
#[inline(always)]
fn code_digit(byte: u8) -> Option<usize>
    ensures digit { result ≡ digit_of byte }
    ensures few { IfSome result (λ digit. digit < 128) }
{
    if byte == 0 || byte >= 128 {
        return None;
    }
    Some(usize::from(byte))
}
