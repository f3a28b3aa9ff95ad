//! The walk over two files, side by side: each change is given to the pairs that have its variable.

ghost use Rattle.std.specs.Prelude.{◌≡◌, ◌≢◌, ◌⊎◌, ◌+◌, ◌<◌, ◌∷◌, ℕ, true, false, Bool, List};
ghost use Rattle.std.specs.Prelude.{length, Option, Some, None, IfOk, IfErr, IfSome, IfNone, OnOk};
ghost use Rattle.std.specs.Prelude.{slice_get};
ghost use Rattle.vcd_core.specs.declared.capture.TheConstants.{SIGNAL_LIMIT};
ghost use Rattle.vcd_text.specs.Grammar.{ParseState, VariableDeclaration, kept_variables};
ghost use Rattle.vcd_text.specs.HeardChanges.{HeardChange, skipped_variables};
ghost use Rattle.vcd_text.specs.inside.reading.ChangeStream.{IsStreamAt};
ghost use Rattle.vcd_text.specs.inside.reading.SkippedVariables.{listed_variables};
ghost use Rattle.vcd_text.specs.Refusals.{IsRefusal};
ghost use Rattle.vcd_text.specs.declared.reading.TheConstants.{LONG_FILE_LIMIT};
ghost use Rattle.vcd_compare.specs.Variables.{word_of};
ghost use Rattle.vcd_compare.specs.inside.Pairs.{chosen};
ghost use Rattle.vcd_compare.specs.inside.Side.{IsSideAt, at_hand, reads_to_come, needs_chunk};
ghost use Rattle.vcd_compare.specs.inside.WalkSteps.{IsWalkStart, IsWalkAt, IsWalkOver, IsLast};
ghost use Rattle.vcd_compare.specs.inside.WalkSteps.{IsNextChange, HasWalked, FailsWith, AreGiven};
ghost use Rattle.vcd_compare.specs.inside.WalkSteps.{IsGiven, declares_event, earlier_tick};
ghost use Rattle.vcd_compare.specs.declared.walk.Walk.{Walk as WalkBefore};
ghost use Rattle.vcd_compare.specs.declared.comparison.CompareError.TheVariants as errors;

use crate::comparison::CompareError;
use crate::pairs::{Pairs, VariableChange, Which};
use crate::shortest_word::shortest_word;
use crate::side::Side;
use itoa::Buffer;
use std::alloc::Global;
use vcd_core::{NoMemory, Source};
use vcd_text::{ChangeStream, ChangeTarget, Fault, ReadError, SkippedVariable};

/// Two files that are read side by side, and the pairs of their variables.
#[derive(Drop)]
pub struct Walk {
    pub first: Side,
    pub second: Side,
    pub pairs: Pairs,
}

impl Walk {
    /// Gives the pairs all changes up to the last tick that both files have, or up to `most` if
    /// that is less, and returns this tick. Both files are read to their ends. If both have a
    /// fault, the first file's is given.
    pub fn run<A: Source, B: Source>(
        &mut self,
        alloc: Global,
        first: &mut A,
        second: &mut B,
        most: u64,
    ) -> Result<u64, CompareError>
        requires first_ready { A.has_failed first.old ≡ false }
        requires second_ready { B.has_failed second.old ≡ false }
        requires at { (coming : Option (List ℕ)) × (other : Option (List ℕ)) × (s : ParseState)
            × (t : ParseState)
            × IsWalkStart coming other (A.coming first.old) (B.coming second.old) s t self.old }
        ensures walked { IfOk result (λ last. (coming other : Option (List ℕ)) (s t : ParseState) →
            IsWalkStart coming other (A.coming first.old) (B.coming second.old) s t self.old →
            HasWalked coming other s t most last self.old self.new) }
        ensures fails { IfErr result (λ e. (coming other : Option (List ℕ)) (s t : ParseState) →
            IsWalkStart coming other (A.coming first.old) (B.coming second.old) s t self.old →
            FailsWith coming other (A.coming first.new) (A.has_failed first.new)
            (B.coming second.new) (B.has_failed second.new) e) }
    {
        while self.take_changes(most)? {
            self.reach_changes(alloc, first, second)?;
        }
        self.read_rests(alloc, first, second)?;
        Ok(self.last(most))
    }

    /// Reads until a change of each file is at hand, or the file has ended.
    fn reach_changes<A: Source, B: Source>(
        &mut self,
        alloc: Global,
        first: &mut A,
        second: &mut B,
    ) -> Result<(), CompareError>
        requires first_ready { A.has_failed first.old ≡ false }
        requires second_ready { B.has_failed second.old ≡ false }
        requires at { (coming : Option (List ℕ)) × (other : Option (List ℕ)) × (s : ParseState)
            × (t : ParseState) × (start : WalkBefore) × (most : ℕ)
            × IsWalkAt most coming other (A.coming first.old) (B.coming second.old) s t start
            self.old }
        ensures at { OnOk result ((most : ℕ) (coming other : Option (List ℕ)) (s t : ParseState)
            (start : WalkBefore) →
            IsWalkAt most coming other (A.coming first.old) (B.coming second.old) s t start
            self.old →
            IsWalkAt most coming other (A.coming first.new) (B.coming second.new) s t start
            self.new) }
        ensures fewer { (needs_chunk self.old.first ≡ true)
            ⊎ (needs_chunk self.old.second ≡ true) →
            OnOk result (reads_to_come self.new.first + reads_to_come self.new.second
            < reads_to_come self.old.first + reads_to_come self.old.second) }
        ensures first_not_failed { OnOk result (A.has_failed first.new ≡ false) }
        ensures second_not_failed { OnOk result (B.has_failed second.new ≡ false) }
        ensures fails { IfErr result (λ e. (most : ℕ) (coming other : Option (List ℕ))
            (s t : ParseState) (start : WalkBefore) →
            IsWalkAt most coming other (A.coming first.old) (B.coming second.old) s t start
            self.old →
            FailsWith coming other (A.coming first.new) (A.has_failed first.new)
            (B.coming second.new) (B.has_failed second.new) e) }
    {
        if let Err(error) = self.first.reach_change(alloc, first) {
            return Err(of_first(error));
        }
        if let Err(error) = self.second.reach_change(alloc, second) {
            return Err(fault_of_second(&mut self.first, alloc, first, error));
        }
        Ok(())
    }

    /// Reads what is left of both files, and gives the pairs none of it.
    fn read_rests<A: Source, B: Source>(
        &mut self,
        alloc: Global,
        first: &mut A,
        second: &mut B,
    ) -> Result<(), CompareError>
        requires first_ready { A.has_failed first.old ≡ false }
        requires second_ready { B.has_failed second.old ≡ false }
        requires at { (coming : Option (List ℕ)) × (other : Option (List ℕ)) × (s : ParseState)
            × (t : ParseState) × (start : WalkBefore) × (most : ℕ)
            × IsWalkAt most coming other (A.coming first.old) (B.coming second.old) s t start
            self.old }
        ensures walked { OnOk result ((coming other : Option (List ℕ)) (s t : ParseState)
            (start : WalkBefore) (most last : ℕ) →
            IsWalkAt most coming other (A.coming first.old) (B.coming second.old) s t start
            self.old →
            IsWalkOver most self.old → IsLast most last self.new →
            HasWalked coming other s t most last start self.new) }
        ensures fails { IfErr result (λ e. (most : ℕ) (coming other : Option (List ℕ))
            (s t : ParseState) (start : WalkBefore) →
            IsWalkAt most coming other (A.coming first.old) (B.coming second.old) s t start
            self.old →
            FailsWith coming other (A.coming first.new) (A.has_failed first.new)
            (B.coming second.new) (B.has_failed second.new) e) }
    {
        if let Err(error) = self.second.read_rest(alloc, second) {
            return Err(fault_of_second(&mut self.first, alloc, first, error));
        }
        if let Err(error) = self.first.read_rest(alloc, first) {
            return Err(of_first(error));
        }
        Ok(())
    }

    /// Gives the pairs the changes at hand, in the order of ticks. Returns true if a file has to be
    /// read before the next one, and false if no other is to be given.
    fn take_changes(&mut self, most: u64) -> Result<bool, NoMemory>
        requires first_at { (s : ParseState) × IsStreamAt self.old.first.stream s }
        requires second_at { (t : ParseState) × IsStreamAt self.old.second.stream t }
        ensures at { OnOk result ((coming other left other_left : Option (List ℕ))
            (s t : ParseState) (start : WalkBefore) →
            IsWalkAt most coming other left other_left s t start self.old →
            IsWalkAt most coming other left other_left s t start self.new) }
        ensures first { OnOk result
            (self.new.first ≡ record self.old.first { taken = self.new.first.taken }) }
        ensures second { OnOk result
            (self.new.second ≡ record self.old.second { taken = self.new.second.taken }) }
        ensures more { IfOk result (λ more. more ≡ true → (needs_chunk self.new.first ≡ true)
            ⊎ (needs_chunk self.new.second ≡ true)) }
        ensures over { IfOk result (λ more. more ≡ false → IsWalkOver most self.new) }
    {
        let last = self.last(most);
        while let Some((which, tick)) = self.next(last) {
            self.take(which, tick)?;
        }
        Ok(self.needs_chunk())
    }

    /// Whether a file has to be read before the next change.
    fn needs_chunk(&self) -> bool
        ensures needs { result ≡ true → (needs_chunk self.now.first ≡ true)
            ⊎ (needs_chunk self.now.second ≡ true) }
        ensures first { result ≡ false → needs_chunk self.now.first ≡ false }
        ensures second { result ≡ false → needs_chunk self.now.second ≡ false }
    {
        self.first.needs_chunk() || self.second.needs_chunk()
    }

    /// The next change that is given, by its file and its tick, if it is at hand and not past
    /// `last`, the last tick that both files have.
    fn next(&self, last: u64) -> Option<(Which, u64)>
        ensures next { (most : ℕ) → IsLast most last self.now →
            IfSome result (λ next. IsNextChange most next.0 next.1 self.now) }
        ensures over { (most : ℕ) → IsLast most last self.now →
            IfNone result (needs_chunk self.now.first ≡ false →
            needs_chunk self.now.second ≡ false → IsWalkOver most self.now) }
    {
        if self.needs_chunk() {
            return None;
        }
        let (which, tick) = earlier(self.first.next_tick(), self.second.next_tick())?;
        if tick > u128::from(last) {
            return None;
        }
        Some((which, tick as u64))
    }

    /// The last tick to which both files have come, or `most` if that is less.
    fn last(&self, most: u64) -> u64
        ensures { IsLast most result self.now }
    {
        let end = self.first.reached().min(self.second.reached());
        if end < u128::from(most) {
            end as u64
        } else {
            most
        }
    }

    /// Gives the pairs the change at hand of a file, which has this tick.
    fn take(&mut self, which: Which, tick: u64) -> Result<(), NoMemory>
        requires first_at { (s : ParseState) × IsStreamAt self.old.first.stream s }
        requires second_at { (t : ParseState) × IsStreamAt self.old.second.stream t }
        ensures at { OnOk result ((coming other left other_left : Option (List ℕ))
            (s t : ParseState) (start : WalkBefore) (most : ℕ) →
            IsWalkAt most coming other left other_left s t start self.old →
            IsNextChange most which tick self.old →
            IsWalkAt most coming other left other_left s t start self.new) }
        ensures first { OnOk result
            (self.new.first ≡ record self.old.first { taken = self.new.first.taken }) }
        ensures second { OnOk result
            (self.new.second ≡ record self.old.second { taken = self.new.second.taken }) }
        ensures fewer { OnOk result ((most : ℕ) → IsNextChange most which tick self.old →
            length (at_hand self.new.first) + length (at_hand self.new.second)
            < length (at_hand self.old.first) + length (at_hand self.old.second)) }
    {
        match which {
            Which::First => {
                give_change(&self.first, &mut self.pairs, which, tick)?;
                self.first.take();
            }
            Which::Second => {
                give_change(&self.second, &mut self.pairs, which, tick)?;
                self.second.take();
            }
        }
        Ok(())
    }
}

/// The earlier one of two ticks, which may be absent, and whose it is.
fn earlier(first: Option<u128>, second: Option<u128>) -> Option<(Which, u128)>
    ensures none { IfNone result (earlier_tick first second ≡ None) }
    ensures tick { IfSome result (λ next. earlier_tick first second ≡ Some next.1) }
    ensures of { IfSome result (λ next. chosen next.0 first second ≡ Some next.1) }
{
    let Some(tick) = first else {
        return Some((Which::Second, second?));
    };
    if let Some(other) = second {
        if other < tick {
            return Some((Which::Second, other));
        }
    }
    Some((Which::First, tick))
}

/// Gives the pairs the change at hand of a file.
fn give_change(side: &Side, pairs: &mut Pairs, which: Which, tick: u64) -> Result<(), NoMemory>
    requires { (s : ParseState) × IsStreamAt side.now.stream s }
    ensures { OnOk result ((s : ParseState) (h : HeardChange) (rest : List HeardChange) →
        IsStreamAt side.now.stream s → at_hand side.now ≡ h ∷ rest →
        IsGiven s which tick h pairs.old pairs.new) }
{
    let heard = side.stream.heard();
    if heard.len() <= side.taken {
        return Ok(());
    }
    let change = heard.get(side.taken);
    let text = change.text;
    let variable_change = VariableChange { which, tick, text };
    match change.target {
        ChangeTarget::Kept(variable) => pairs.change(variable, &variable_change)?,
        ChangeTarget::Skipped(position) => {
            give_word(&side.stream, pairs, position, &variable_change)?
        }
    }
    Ok(())
}

/// Gives the pairs a change of the first skipped variable of a code, by its position: its shortest
/// word, or of an event the tick.
#[inline(never)]
fn give_word(
    stream: &ChangeStream,
    pairs: &mut Pairs,
    position: usize,
    change: &VariableChange<'_>,
) -> Result<(), NoMemory>
    requires { (s : ParseState) × IsStreamAt stream.now s }
    ensures { OnOk result ((s : ParseState) → IsStreamAt stream.now s →
        AreGiven change.now.which (length (kept_variables s.declared) + position) change.now.tick
        (word_of (declares_event (slice_get (skipped_variables s.declared) position))
        change.now.tick change.now.text.now) pairs.old pairs.new) }
{
    // Memory has no room for more variables than a `usize` counts.
    let Some(variable) = stream.signals().len().checked_add(position) else {
        return Err(NoMemory);
    };
    let which = change.which;
    let tick = change.tick;
    if !is_event(stream.skipped_variables(), position) {
        let text = shortest_word(change.text);
        return pairs.change(variable, &VariableChange { which, tick, text });
    }
    let mut buffer = Buffer::new();
    let text = buffer.format(tick).as_bytes();
    pairs.change(variable, &VariableChange { which, tick, text })
}

/// Whether the skipped variable at a position is an event.
fn is_event(skipped: &[SkippedVariable], position: usize) -> bool
    ensures { (all : List VariableDeclaration) → skipped.now ≡ listed_variables all →
        result ≡ declares_event (slice_get all position) }
{
    match skipped.get(position) {
        Some(variable) => variable.kind.as_slice() == b"event".as_slice(),
        None => false,
    }
}

/// Why there is no comparison, if the second file has this fault. The first file is read to its
/// end, since a fault of its own comes first.
pub fn fault_of_second<A: Source>(
    side: &mut Side,
    alloc: Global,
    first: &mut A,
    error: ReadError,
) -> CompareError
    requires ready { A.has_failed first.old ≡ false }
    requires at { (coming : Option (List ℕ)) × (state : ParseState) × (given : List HeardChange)
        × IsSideAt coming (A.coming first.old) state given side.old }
    ensures { (coming other left : Option (List ℕ)) (failed : Bool) (state : ParseState)
        (given : List HeardChange) → IsSideAt coming (A.coming first.old) state given side.old →
        IfSome other (λ file. IsRefusal SIGNAL_LIMIT LONG_FILE_LIMIT file failed left error) →
        FailsWith coming other (A.coming first.new) (A.has_failed first.new) left failed result }
{
    match side.read_rest(alloc, first) {
        Ok(()) => of_second(error),
        Err(own) => of_first(own),
    }
}

/// Why there is no comparison, if the first file has this fault.
pub fn of_first(error: ReadError) -> CompareError
    ensures { (result ≡ errors.NoMemory)
        ⊎ ((result ≡ errors.First error) × (error.fault ≢ Fault.NoMemory)) }
{
    if error.fault == Fault::NoMemory {
        return CompareError::NoMemory;
    }
    CompareError::First(error)
}

/// The same of the second file, if the first has none.
fn of_second(error: ReadError) -> CompareError
    ensures { (result ≡ errors.NoMemory)
        ⊎ ((result ≡ errors.Second error) × (error.fault ≢ Fault.NoMemory)) }
{
    if error.fault == Fault::NoMemory {
        return CompareError::NoMemory;
    }
    CompareError::Second(error)
}
