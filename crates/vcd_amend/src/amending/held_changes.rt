//! Changes at removed ticks, which are held until the first tick after them that is left.

ghost use Rattle.std.specs.Prelude.{◌≡◌, ◌++◌, ◌∷◌, ◌&&◌, [], ℕ, List, true, false, bytes_eq};
ghost use Rattle.std.specs.Prelude.{OnOk, IfOk, if◌then◌else◌, not, ◌||◌};
ghost use Rattle.vcd_text.specs.inside.reading.CodeTargets.{code_target};
ghost use Rattle.vcd_amend.specs.inside.amending.HeldChanges as spec;

use std::alloc::Global;
use vcd_core::{NoMemory, Word, copy_word};
use vcd_text::CodeTargets;

/// A change to digits, or to a real number or a string, that comes while changes are held.
#[derive(Drop)]
pub struct HeldChange {
    /// Whether it is to a real number or a string.
    pub is_text: bool,
    /// Whether it is held itself. If not, it only takes the place of an earlier one.
    pub is_held: bool,
    /// Whether a kept variable has the code. If not, changes to digits and others count together.
    pub is_kept: bool,
    pub code: Word,
    pub space: Word,
    pub body: Word,
}

/// A change with its bytes in the file.
#[derive(Clone, Copy)]
pub struct ChangeBytes<'a> {
    /// Whether it is to a real number or a string.
    pub is_text: bool,
    pub code: &'a [u8],
    pub space: &'a [u8],
    pub body: &'a [u8],
}

/// What becomes of a change while changes are held, as a [`HeldChange`] says it.
#[derive(Clone, Copy)]
pub struct Holding {
    pub is_held: bool,
    pub is_kept: bool,
}

/// A change to hold.
pub fn held_change(
    alloc: Global,
    change: ChangeBytes,
    holding: Holding,
) -> Result<HeldChange, NoMemory>
    ensures { IfOk result (λ held. held ≡ record {
      is_text = change.entry.is_text;
      is_held = holding.is_held;
      is_kept = holding.is_kept;
      code = change.entry.code.now;
      space = change.entry.space.now;
      body = change.entry.body.now;
    }) }
{
    Ok(HeldChange {
        is_text: change.is_text,
        is_held: holding.is_held,
        is_kept: holding.is_kept,
        code: copy_word(alloc, change.code)?,
        space: copy_word(alloc, change.space)?,
        body: copy_word(alloc, change.body)?,
    })
}

/// The codes of which some changes take the place of those to digits, and of those to a real number
/// or a string.
#[derive(Drop)]
struct SeenCodes {
    digits: CodeTargets<bool>,
    text: CodeTargets<bool>,
}

impl SeenCodes {
    /// No codes.
    fn new(alloc: Global) -> SeenCodes
        ensures { spec.AreCodesOf result [] }
    {
        SeenCodes {
            digits: CodeTargets::new(alloc, false),
            text: CodeTargets::new(alloc, false),
        }
    }

    /// Whether one of the changes takes the place of this one.
    fn contains(&self, change: &HeldChange) -> bool
        ensures { (later : List HeldChange) → spec.AreCodesOf self.now later →
            result ≡ spec.is_replaced change.now later }
    {
        if change.is_text {
            return self.text.get(change.code.as_slice());
        }
        self.digits.get(change.code.as_slice())
    }

    /// Adds a change before these.
    fn insert(&mut self, alloc: Global, change: &HeldChange) -> Result<(), NoMemory>
        ensures { OnOk result ((later : List HeldChange) → spec.AreCodesOf self.old later →
            spec.AreCodesOf self.new (change.now ∷ later)) }
    {
        let code = change.code.as_slice();
        note_if(&mut self.text, alloc, code, replaces_text(change))?;
        note_if(&mut self.digits, alloc, code, replaces_digits(change))?;
        Ok(())
    }
}

/// Notes a code, or leaves it as it is.
fn note_if(
    codes: &mut CodeTargets<bool>,
    alloc: Global,
    code: &[u8],
    is_noted: bool,
) -> Result<(), NoMemory>
    ensures { OnOk result ((key : List ℕ) → code_target codes.new key
        ≡ ((is_noted && bytes_eq key code.now) || code_target codes.old key)) }
{
    if !is_noted {
        return Ok(());
    }
    codes.insert(alloc, code, true)?;
    Ok(())
}

/// Whether a change takes the place of those of its code to digits.
fn replaces_digits(change: &HeldChange) -> bool
    ensures { result ≡ spec.replaces_digits change.now }
{
    if !change.is_text {
        return true;
    }
    !change.is_kept
}

/// Whether a change takes the place of those of its code to a real number or a string.
fn replaces_text(change: &HeldChange) -> bool
    ensures { result ≡ spec.replaces_text change.now }
{
    if change.is_text {
        return true;
    }
    !change.is_kept
}

/// The changes that are held after all of these: those of which no later one takes the place.
pub fn last_held(alloc: Global, changes: Vec<HeldChange>) -> Result<Vec<HeldChange>, NoMemory>
    ensures { IfOk result (λ held. held.items ≡ spec.last_held changes.items) }
{
    let mut left = changes;
    let mut seen = SeenCodes::new(alloc);
    let mut held = Vec::new(alloc);
    while let Some(change) = left.pop() {
        take_last(alloc, &mut seen, &mut held, change)?;
    }
    held.reverse();
    Ok(held)
}

/// Takes a change before others, of which those that are held were taken, from the last one on.
fn take_last(
    alloc: Global,
    seen: &mut SeenCodes,
    held: &mut Vec<HeldChange>,
    change: HeldChange,
) -> Result<(), NoMemory>
    ensures seen { OnOk result ((later : List HeldChange) → spec.AreCodesOf seen.old later →
        spec.AreCodesOf seen.new (change ∷ later)) }
    ensures held { OnOk result ((later : List HeldChange) → spec.AreCodesOf seen.old later →
        held.new.items ≡ held.old.items ++ spec.held_before change later) }
{
    let is_last = !seen.contains(&change);
    seen.insert(alloc, &change)?;
    if is_last && change.is_held {
        held.push(change)?;
    }
    Ok(())
}
