//! What an amendment does to a file while it is copied.

ghost use Rattle.std.specs.Prelude.{◌≡◌, ◌≤◌, ◌&&◌, ◌∷◌, ◌++◌, [], ℕ, Bool, List, true, false};
ghost use Rattle.std.specs.Prelude.{OnOk, IfOk, map, drop, length, not, ◌||◌, None, Some};
ghost use Rattle.std.specs.Prelude.{if◌then◌else◌};
ghost use Rattle.std.specs.List.{flat_map};
ghost use Rattle.vcd_core.specs.Decimal.{is_number};
ghost use Rattle.vcd_core.specs.declared.bit.Bit.{Bit as Letter};
ghost use Rattle.vcd_core.specs.declared.capture.ScopeName.{ScopeName as Scope};
ghost use Rattle.vcd_text.specs.EmittedText.{Emits, EmitsMore};
ghost use Rattle.vcd_copy.specs.declared.copying.amender.InPlace.TheVariants as places;
ghost use Rattle.vcd_text.specs.Grammar.{ParseState, initial_state, with_value_change};
ghost use Rattle.vcd_copy.specs.Pieces.{Piece};
ghost use Rattle.vcd_text.specs.Text.{item_line};
ghost use Rattle.vcd_copy.specs.VariableWords.{IsVariable};
ghost use Rattle.vcd_amend.specs.AmendedCopy.{amendment_rules};
ghost use Rattle.vcd_amend.specs.AmendedItems.{change_fate, real_fate, items_due_until, leaves_out};
ghost use Rattle.vcd_amend.specs.AmendedItems.{stands, is_left_out, declaration_fate};
ghost use Rattle.vcd_amend.specs.AmendedItems.{added_declarations};
ghost use Rattle.vcd_amend.specs.AmendedMeaning.{AreApart};
ghost use Rattle.vcd_amend.specs.AmendedText.{bytes_in_place};
ghost use Rattle.vcd_amend.specs.Amendment.{fate_of, is_used};
ghost use Rattle.vcd_amend.specs.AmendmentContents.{amendment_contents, added_contents};
ghost use Rattle.vcd_amend.specs.inside.amending.FileAmender.{IsAt, HasSeen, declared_in};
ghost use Rattle.vcd_amend.specs.inside.amending.FileAmender.{piece_of_variable, with_declared};
ghost use Rattle.vcd_amend.specs.inside.amending.FileAmender.{fate_contents_first};
ghost use Rattle.vcd_amend.specs.inside.amending.VariableLeft.{fate_of_left, has_left};
ghost use Rattle.vcd_text.specs.inside.reading.CodeTargets.{code_target};

use super::code_progress::{CodeProgress, NO_PROGRESS, note_variable};
use super::code_uses::{CodeUse, first_uses, use_code};
use super::due_changes::{DueChange, due_changes};
use super::due_writing::{DueToCome, next_if_none_open, write_due_at, write_due_before};
use super::moments::ChangeCounts;
use super::value_changes::{
    AmendedChange, is_changed_in, moment_in, note_settled, place_at, take_amended, write_both,
};
use super::variable_writing::{write_added, write_changed};
use crate::amendment::{AddedVariable, Amendment, Fate};
use std::alloc::Global;
use vcd_copy::{AmendableItem, Amender, EndedItem, InPlace, VariableWords};
use vcd_core::{NoMemory, Sink, Word};
use vcd_text::{CodeTargets, Output, write_bytes, write_upscopes};

/// What an amendment does to a file, and how far the file is.
#[derive(Drop)]
pub struct FileAmender<'a> {
    pub alloc: Global,
    pub amendment: &'a Amendment,
    /// The fates of the kept variables to come.
    pub fates: &'a [Fate],
    /// What the codes mean in the amended file.
    pub uses: CodeTargets<CodeUse>,
    /// What the file has had of each amended code.
    pub progress: Vec<CodeProgress>,
    /// Where the searches in the waves of each amended code begin.
    pub counts: Vec<ChangeCounts>,
    /// The due changes.
    pub due: Vec<DueChange>,
    /// The index of the first of them that is not before the last stamp.
    pub next: usize,
    /// The last stamp, or 0.
    pub tick: u64,
    /// Whether neither a stamp nor a change has been written.
    pub none_yet: bool,
}

impl<'a> FileAmender<'a> {
    /// Before the first item.
    pub fn new(alloc: Global, amendment: &'a Amendment) -> Result<FileAmender<'a>, NoMemory>
        requires { AreApart (amendment_contents amendment.now).codes }
        ensures { IfOk result (λ amender. IsAt amender (initial_state 0) true
            × (amender.amendment.now ≡ amendment.now)) }
    {
        let codes = amendment.codes.as_slice();
        let uses = first_uses(alloc, codes, amendment.added.as_slice())?;
        let due = due_changes(alloc, codes)?;
        let progress = Vec::from_elem(alloc, NO_PROGRESS, codes.len())?;
        let counts = Vec::from_elem(alloc, ChangeCounts { old: 0, new: 0 }, codes.len())?;
        Ok(FileAmender {
            alloc,
            amendment,
            fates: amendment.fates.as_slice(),
            uses,
            progress,
            counts,
            due,
            next: 0,
            tick: 0,
            none_yet: true,
        })
    }

    /// Lets a stamp stand, if nothing is put before it.
    fn let_stamp_stand(&mut self, tick: u64) -> bool
        requires { (s : ParseState) × (none_yet : Bool) × IsAt self.old s none_yet }
        ensures stands { result ≡ true → (s : ParseState) (none_yet : Bool) →
            IsAt self.old s none_yet → s.tick ≤ tick →
            (items_due_until (amendment_contents self.old.amendment.now) none_yet s tick ≡ [])
            × IsAt self.new (record s { tick = tick }) false }
        ensures unchanged { result ≡ false → self.new ≡ self.old }
        ensures same { self.new.amendment.now ≡ self.old.amendment.now }
    {
        let progress = self.progress.as_slice();
        let Some(next) = next_if_none_open(progress, self.due.as_slice(), self.next, tick) else {
            return false;
        };
        self.next = next;
        self.tick = tick;
        self.none_yet = false;
        true
    }

    /// What is in the place of a change to digits.
    ///
    /// It is inlined: of two amenders that call it, each does so at each change of a file.
    #[inline(always)]
    pub fn settle_value(&mut self, code: &[u8]) -> InPlace
        requires { (s : ParseState) × (none_yet : Bool) × IsAt self.old s none_yet }
        ensures stands { result ≡ places.Itself → (s : ParseState) (none_yet : Bool)
            (letters : List Letter) → IsAt self.old s none_yet →
            (change_fate (amendment_contents self.old.amendment.now) s code.now ≡ stands)
            × IsAt self.new (with_value_change s code.now letters) false }
        ensures goes { result ≡ places.Nothing → (s : ParseState) (none_yet : Bool)
            (letters : List Letter) → IsAt self.old s none_yet →
            (change_fate (amendment_contents self.old.amendment.now) s code.now ≡ is_left_out)
            × IsAt self.new (with_value_change s code.now letters) none_yet }
        ensures unchanged { result ≡ places.Other → self.new ≡ self.old }
        ensures same { self.new.amendment.now ≡ self.old.amendment.now }
    {
        let found = self.uses.get(code);
        match found.amended {
            Some(index) => {
                let codes = self.amendment.codes.as_slice();
                let moment = moment_in(codes, self.counts.as_slice(), index, self.tick);
                let is_changed = is_changed_in(self.progress.as_slice(), index, self.tick);
                let place = place_at(moment, found.is_used, is_changed);
                if place == InPlace::Other {
                    return place;
                }
                let counts = self.counts.as_mut_slice();
                let progress = self.progress.as_mut_slice();
                note_settled(counts, progress, index, moment.counts, self.tick);
                self.none_yet = still_none(self.none_yet, place == InPlace::Itself);
                place
            }
            None => {
                self.none_yet = still_none(self.none_yet, found.is_used);
                if found.is_used {
                    InPlace::Itself
                } else {
                    InPlace::Nothing
                }
            }
        }
    }

    /// Lets a change to a real number or a string stand, if its code is used.
    pub fn let_real_stand(&mut self, code: &[u8]) -> bool
        ensures stands { (s : ParseState) (none_yet : Bool) → IsAt self.old s none_yet →
            result ≡ is_used (amendment_contents self.old.amendment.now) s code.now }
        ensures at { (s : ParseState) (none_yet : Bool) → IsAt self.old s none_yet →
            IsAt self.new s (none_yet && not result) }
        ensures unchanged { result ≡ false → self.new ≡ self.old }
        ensures same { self.new.amendment.now ≡ self.old.amendment.now }
    {
        if !self.uses.get(code).is_used {
            return false;
        }
        self.none_yet = false;
        true
    }

    /// What is in the place of a change to a real number or a string.
    pub fn settle_real(&mut self, code: &[u8]) -> InPlace
        ensures stands { result ≡ places.Itself → (s : ParseState) (none_yet : Bool) →
            IsAt self.old s none_yet →
            (is_used (amendment_contents self.old.amendment.now) s code.now ≡ true)
            × IsAt self.new s false }
        ensures goes { result ≡ places.Nothing → (s : ParseState) (none_yet : Bool) →
            IsAt self.old s none_yet →
            (is_used (amendment_contents self.old.amendment.now) s code.now ≡ false)
            × IsAt self.new s none_yet }
        ensures unchanged { result ≡ places.Other → self.new ≡ self.old }
        ensures same { self.new.amendment.now ≡ self.old.amendment.now }
    {
        if self.let_real_stand(code) {
            InPlace::Itself
        } else {
            InPlace::Nothing
        }
    }

    /// Writes what is in the place of a `$var`.
    pub fn take_variable<W: Sink>(
        &mut self,
        output: &mut Output<W>,
        space: &[u8],
        body: &[u8],
    ) -> Result<(), NoMemory>
        requires { (s : ParseState) × (none_yet : Bool) × (kind size code : List ℕ)
            × (names : List (List ℕ)) × IsAt self.old s none_yet
            × IsVariable body.now kind size code names × (is_number size ≡ true) }
        ensures written { OnOk result ((s : ParseState) (none_yet : Bool) (kind size code : List ℕ)
            (names : List (List ℕ)) (p : Piece) → IsAt self.old s none_yet →
            IsVariable body.now kind size code names → is_number size ≡ true →
            p ≡ piece_of_variable space.now body.now kind size code names →
            Emits W.Sink output.old output.new (bytes_in_place (declaration_fate
            (fate_of (amendment_contents self.old.amendment.now) s.declared
            (declared_in s kind size code names)) (kind ∷ size ∷ code ∷ names)) [] p)) }
        ensures at { OnOk result ((s : ParseState) (none_yet : Bool) (kind size code : List ℕ)
            (names : List (List ℕ)) → IsAt self.old s none_yet →
            IsVariable body.now kind size code names → is_number size ≡ true →
            IsAt self.new (with_declared s (declared_in s kind size code names)) none_yet) }
        ensures more { EmitsMore W.Sink output.old output.new }
        ensures same { self.new.amendment.now ≡ self.old.amendment.now }
    {
        let Some(declared) = VariableWords::read(body) else {
            return Ok(());
        };
        let is_kept = !declared.is_skipped();
        let left = next_fate(self.fates, is_kept);
        let amended = self.uses.get(declared.code).amended;
        let progress = self.progress.as_mut_slice();
        note_variable(progress, amended, is_kept);
        self.fates = later_fates(self.fates, is_kept);
        use_left(&mut self.uses, self.alloc, left, declared.code)?;
        write_left(output, left, declared, space, body);
        Ok(())
    }

    /// Writes what is in the place of a stamp.
    pub fn take_stamp<W: Sink>(
        &mut self,
        output: &mut Output<W>,
        tick: u64,
        space: &[u8],
        body: &[u8],
    )
        requires { (s : ParseState) × (none_yet : Bool) × IsAt self.old s none_yet }
        ensures written { (s : ParseState) (none_yet : Bool) → IsAt self.old s none_yet →
            s.tick ≤ tick → Emits W.Sink output.old output.new (space.now ++ (flat_map item_line
            (items_due_until (amendment_contents self.old.amendment.now) none_yet s tick)
            ++ body.now)) }
        ensures at { (s : ParseState) (none_yet : Bool) → IsAt self.old s none_yet →
            s.tick ≤ tick → IsAt self.new (record s { tick = tick }) false }
        ensures same { self.new.amendment.now ≡ self.old.amendment.now }
    {
        write_bytes(output, space);
        let due = DueToCome {
            codes: self.amendment.codes.as_slice(),
            progress: self.progress.as_slice(),
            changes: self.due.as_slice(),
            next: self.next,
        };
        let last = last_stamp(self.none_yet, self.tick);
        self.next = write_due_before(output, &due, self.counts.as_mut_slice(), last, tick);
        write_bytes(output, body);
        self.tick = tick;
        self.none_yet = false;
    }

    /// Writes what is in the place of a change to digits.
    pub fn take_value<W: Sink>(
        &mut self,
        output: &mut Output<W>,
        code: &[u8],
        space: &[u8],
        body: &[u8],
    )
        requires { (s : ParseState) × (none_yet : Bool) × IsAt self.old s none_yet }
        ensures written { (s : ParseState) (none_yet : Bool) (p : Piece) →
            IsAt self.old s none_yet → p.space ≡ space.now → p.body ≡ body.now →
            Emits W.Sink output.old output.new (bytes_in_place
            (change_fate (amendment_contents self.old.amendment.now) s code.now) [] p) }
        ensures at { (s : ParseState) (none_yet : Bool) (letters : List Letter) →
            IsAt self.old s none_yet → IsAt self.new (with_value_change s code.now letters)
            (none_yet && leaves_out
            (change_fate (amendment_contents self.old.amendment.now) s code.now)) }
        ensures same { self.new.amendment.now ≡ self.old.amendment.now }
    {
        let found = self.uses.get(code);
        match found.amended {
            Some(index) => {
                let codes = self.amendment.codes.as_slice();
                let counts = self.counts.as_mut_slice();
                let progress = self.progress.as_mut_slice();
                let change = AmendedChange {
                    index,
                    is_used: found.is_used,
                    tick: self.tick,
                    space,
                    body,
                };
                let is_written = take_amended(output, codes, counts, progress, &change);
                self.none_yet = still_none(self.none_yet, is_written);
            }
            None => {
                self.none_yet = still_none(self.none_yet, found.is_used);
                write_if(output, found.is_used, space, body);
            }
        }
    }
}

/// Whether nothing has been written yet, if something is written now, or not.
fn still_none(none_yet: bool, is_written: bool) -> bool
    ensures { result ≡ (none_yet && not is_written) }
{
    none_yet && !is_written
}

/// The last stamp, unless nothing has been written yet.
fn last_stamp(none_yet: bool, tick: u64) -> Option<u64>
    ensures { result ≡ (if none_yet then None else Some tick) }
{
    if none_yet { None } else { Some(tick) }
}

/// What is left of a variable.
#[derive(Clone, Copy)]
pub enum VariableLeft<'a> {
    /// Its declaration as it is.
    All,
    /// Nothing.
    Nothing,
    /// Its declaration with these name words and this code.
    Changed { words: &'a [Word], code: &'a [u8] },
}

/// What is left of the next variable, by the fates to come.
pub fn next_fate(fates: &[Fate], is_kept: bool) -> VariableLeft
    ensures { fate_of_left result ≡ fate_contents_first is_kept fates.now }
{
    if !is_kept {
        return VariableLeft::All;
    }
    match fates.first() {
        Some(Fate::IsRemoved) => VariableLeft::Nothing,
        Some(Fate::IsChanged { words, code }) => VariableLeft::Changed {
            words: words.as_slice(),
            code: code.as_slice(),
        },
        Some(Fate::Stays) => VariableLeft::All,
        None => VariableLeft::All,
    }
}

/// The fates to come after a variable.
pub fn later_fates(fates: &[Fate], is_kept: bool) -> &[Fate]
    ensures { result.now ≡ (if is_kept then drop 1 fates.now else fates.now) }
{
    if !is_kept {
        return fates;
    }
    match fates {
        [_, later @ ..] => later,
        [] => fates,
    }
}

/// What is left of a variable of this code has its code, or another.
pub fn use_left(
    uses: &mut CodeTargets<CodeUse>,
    alloc: Global,
    left: VariableLeft,
    own: &[u8],
) -> Result<(), NoMemory>
    ensures used { OnOk result ((key : List ℕ) → (code_target uses.new key).is_used
        ≡ ((code_target uses.old key).is_used
        || has_left key (fate_of_left left.entry) own.now)) }
    ensures amended { OnOk result ((key : List ℕ) →
        (code_target uses.new key).amended ≡ (code_target uses.old key).amended) }
{
    match left {
        VariableLeft::All => use_code(uses, alloc, own),
        VariableLeft::Nothing => Ok(()),
        VariableLeft::Changed { code, .. } => use_code(uses, alloc, code),
    }
}

/// Writes what is left of a variable.
fn write_left<W: Sink>(
    output: &mut Output<W>,
    left: VariableLeft,
    declared: VariableWords,
    space: &[u8],
    body: &[u8],
)
    ensures { (old : List ℕ) (own : List (List ℕ)) →
        IsVariable body.now declared.entry.kind.now declared.entry.size.now old own →
        Emits W.Sink output.old output.new (bytes_in_place (declaration_fate
        (fate_of_left left.entry)
        (declared.entry.kind.now ∷ declared.entry.size.now ∷ old ∷ own)) []
        (piece_of_variable space.now body.now declared.entry.kind.now declared.entry.size.now old
        own)) }
{
    match left {
        VariableLeft::All => write_both(output, space, body),
        VariableLeft::Nothing => {}
        VariableLeft::Changed { words, code } => {
            write_bytes(output, space);
            write_changed(output, body, declared, words, code);
        }
    }
}

/// Writes white space and words, if they stand.
pub fn write_if<W: Sink>(output: &mut Output<W>, stands: bool, space: &[u8], body: &[u8])
    ensures { Emits W.Sink output.old output.new (if stands then space.now ++ body.now else []) }
{
    if stands {
        write_both(output, space, body);
    }
}

impl<'a, W: Sink> Amender<W> for FileAmender<'a> {
    ghost use Rattle.vcd_copy.specs.Copied.{CopyRules};

    ghost Given = { CopyRules };

    ghost given = { λ m. amendment_rules (amendment_contents m.amendment.now) 0 };

    ghost rules = { λ rules. rules };

    ghost has_seen = { HasSeen };

    ghost is_done = { λ _. false };

    #[inline(always)]
    fn settle(&mut self, item: AmendableItem, code: &[u8]) -> InPlace {
        match item {
            AmendableItem::Variable => InPlace::Other,
            AmendableItem::EndDefinitions { .. } => InPlace::Other,
            AmendableItem::Stamp { tick } => {
                if self.let_stamp_stand(tick) {
                    InPlace::Itself
                } else {
                    InPlace::Other
                }
            }
            AmendableItem::Value => self.settle_value(code),
            AmendableItem::RealOrString => self.settle_real(code),
        }
    }

    fn take(&mut self, output: &mut Output<W>, ended: &EndedItem) -> Result<(), NoMemory> {
        match ended.item {
            AmendableItem::Variable => self.take_variable(output, ended.space, ended.body),
            AmendableItem::EndDefinitions { open_scopes, .. } => {
                write_ended(output, self.amendment, open_scopes, ended.space, ended.body);
                Ok(())
            }
            AmendableItem::Stamp { tick } => {
                self.take_stamp(output, tick, ended.space, ended.body);
                Ok(())
            }
            AmendableItem::Value => {
                self.take_value(output, ended.code, ended.space, ended.body);
                Ok(())
            }
            AmendableItem::RealOrString => {
                let is_used = self.let_real_stand(ended.code);
                write_if(output, is_used, ended.space, ended.body);
                Ok(())
            }
        }
    }

    fn write_before(&self, _output: &mut Output<W>) {}

    fn pass(&mut self, _is_comment_or_other: bool) {}

    fn is_done(&self) -> bool {
        false
    }

    fn finish(&mut self, output: &mut Output<W>, space: &[u8]) -> Result<(), NoMemory> {
        let due = DueToCome {
            codes: self.amendment.codes.as_slice(),
            progress: self.progress.as_slice(),
            changes: self.due.as_slice(),
            next: self.next,
        };
        write_due_at(output, &due, self.counts.as_mut_slice(), self.tick);
        write_bytes(output, space);
        Ok(())
    }
}

/// Writes what is in the place of the end of the declarations.
pub fn write_ended<W: Sink>(
    output: &mut Output<W>,
    amendment: &Amendment,
    open_scopes: usize,
    space: &[u8],
    body: &[u8],
)
    ensures { (scopes : List Scope) → open_scopes ≡ length scopes → Emits W.Sink output.old
        output.new (space.now ++ (flat_map item_line (added_declarations scopes
        (map added_contents amendment.now.added.items)) ++ body.now)) }
{
    write_bytes(output, space);
    write_declarations(output, amendment.added.as_slice(), open_scopes);
    write_bytes(output, body);
}

/// Closes the open scopes and writes the declarations of added variables, if there are any.
fn write_declarations<W: Sink>(output: &mut Output<W>, added: &[AddedVariable], open_scopes: usize)
    ensures { (scopes : List Scope) → open_scopes ≡ length scopes → Emits W.Sink output.old
        output.new (flat_map item_line (added_declarations scopes (map added_contents added.now))) }
{
    if added.is_empty() {
        return;
    }
    write_upscopes(output, open_scopes);
    write_added(output, added);
}
