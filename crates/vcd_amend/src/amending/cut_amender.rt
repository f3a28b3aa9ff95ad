//! What cuts, and then an amendment, do to a file while it is copied.

ghost use Rattle.std.specs.Prelude.{◌≡◌, ◌≤◌, ◌&&◌, ◌∷◌, ◌++◌, [], ℕ, List, All, OnOk, OnErr, IfOk};
ghost use Rattle.std.specs.Prelude.{◌<◌, ◌^◌, true, nat_lt, Bool, ◌==◌};
ghost use Rattle.std.specs.Prelude.{decimal, not, if◌then◌else◌, bytes_eq, codes, ◌||◌, false};
ghost use Rattle.std.specs.List.{filter};
ghost use Rattle.vcd_core.specs.Decimal.{number_of, is_number};
ghost use Rattle.vcd_core.specs.Word.{is_skipped_kind};
ghost use Rattle.vcd_text.specs.Items as items;
ghost use Rattle.vcd_text.specs.EmittedText.{Emits, EmitsMore};
ghost use Rattle.vcd_copy.specs.declared.copying.amender.InPlace.TheVariants as places;
ghost use Rattle.vcd_copy.specs.Pieces.{Piece, state_of_pieces};
ghost use Rattle.vcd_copy.specs.Copied.{copied_pieces};
ghost use Rattle.vcd_copy.specs.VariableWords.{IsVariable};
ghost use Rattle.vcd_text.specs.inside.reading.CodeTargets.{code_target};
ghost use Rattle.vcd_amend.specs.AmendmentContents.{amendment_contents};
ghost use Rattle.vcd_amend.specs.AmendedMeaning.{AreApart};
ghost use Rattle.vcd_amend.specs.Retimed.{new_tick, change_key, counts_with};
ghost use Rattle.vcd_copy.specs.Pieces.{stamp_line};
ghost use Rattle.vcd_amend.specs.inside.amending.FileAmender.{HasSeen};
ghost use Rattle.vcd_amend.specs.declared.amending.held_changes.HeldChange.{HeldChange as Change};
ghost use Rattle.vcd_amend.specs.inside.amending.HeldChanges as spec;
ghost use Rattle.vcd_amend.specs.inside.amending.HeldChanges.{IsChangePiece, IsGivenChange};
ghost use Rattle.vcd_amend.specs.inside.amending.HeldChanges.{ArePieces, released};
ghost use Rattle.vcd_amend.specs.inside.amending.CutAmender.{HasSeenAll, HasWritten, rules_of};
ghost use Rattle.vcd_amend.specs.inside.amending.CutAmender.{cut_rules_of, held_for};
ghost use Rattle.vcd_amend.specs.inside.amending.CutAmender.{sent_for, step_for, cut_of};
ghost use Rattle.vcd_amend.specs.inside.amending.CutAmender.{released_before};

use super::file_amender::{FileAmender, write_ended, write_if};
use super::held_changes::{ChangeBytes, HeldChange, Holding, held_change, last_held};
use crate::amendment::Amendment;
use crate::cut_ticks::{CutTicks, CutWalk, RetimedTick};
use itoa::Buffer;
use std::alloc::Global;
use std::mem::replace;
use vcd_copy::{AmendableItem, Amender, EndedItem, InPlace, StampBytes, VariableWords};
use vcd_core::{NoMemory, Sink, WIDTH_LIMIT};
use vcd_text::{CodeTargets, Output};

/// How many changes may be held before those that later ones replace are dropped.
const FIRST_ROOM: usize = 1024;

/// What the variables of a code are, of those so far.
#[derive(Clone, Copy)]
pub struct CodeVariables {
    /// Whether one is no event, so that changes of the code last.
    pub lasts: bool,
    /// Whether one is kept, so that changes to digits count apart from the others.
    pub is_kept: bool,
}

/// Of a code of no variable.
const NO_VARIABLES: CodeVariables = CodeVariables {
    lasts: false,
    is_kept: false,
};

/// What cuts do to a file, and an amendment to the file after these, and how far the file is.
#[derive(Drop)]
pub struct CutAmender<'a> {
    pub alloc: Global,
    /// The amendment of the file after the cuts.
    pub inner: FileAmender<'a>,
    /// The cuts, and where the file is.
    pub walk: CutWalk<'a>,
    /// What the variables of each code are.
    pub variables: CodeTargets<CodeVariables>,
    /// The changes that came since one was held, with it; of those that count together the last
    /// one counts.
    pub held: Vec<HeldChange>,
    /// How many of them there may be before some are dropped.
    pub room: usize,
    /// The tick of the last stamp after the cuts.
    pub last: RetimedTick,
    /// Room for the words of a stamp.
    pub stamp: Vec<u8>,
}

impl<'a> CutAmender<'a> {
    /// Before the first item.
    pub fn new(
        alloc: Global,
        cuts: &'a [CutTicks],
        amendment: &'a Amendment,
    ) -> Result<CutAmender<'a>, NoMemory>
        requires apart { AreApart (amendment_contents amendment.now).codes }
        requires ordered { All (λ c. c.from ≤ c.to) cuts.now }
        ensures { IfOk result (λ amender. HasSeenAll amender []
            × (amender.inner.amendment.now ≡ amendment.now) × (amender.walk ≡ cuts.now)) }
    {
        let inner = FileAmender::new(alloc, amendment)?;
        let mut walk = CutWalk::new(cuts);
        let last = walk.retimed(0);
        Ok(CutAmender {
            alloc,
            inner,
            walk,
            variables: CodeTargets::new(alloc, NO_VARIABLES),
            held: Vec::new(alloc),
            room: FIRST_ROOM,
            last,
            stamp: Vec::new(alloc),
        })
    }

    /// Writes what is in the place of a stamp.
    fn take_stamp<W: Sink>(
        &mut self,
        output: &mut Output<W>,
        tick: u64,
        space: &[u8],
        body: &[u8],
    ) -> Result<(), NoMemory>
        requires { (before : List Piece) × HasSeenAll self.old before }
        ensures written { OnOk result ((before : List Piece) (p : Piece) (digits : List ℕ) →
            HasSeenAll self.old before → p.item ≡ items.stamp digits → number_of digits ≡ tick →
            p.space ≡ space.now → p.body ≡ body.now → (state_of_pieces 0 before).tick ≤ tick →
            Emits W.Sink output.old output.new (copied_pieces (rules_of self.old.inner)
            (sent_for (cut_of self.old) before) (step_for (cut_of self.old) before p))) }
        ensures at { OnOk result ((before : List Piece) (p : Piece) (digits : List ℕ) →
            HasSeenAll self.old before → p.item ≡ items.stamp digits → number_of digits ≡ tick →
            p.space ≡ space.now → p.body ≡ body.now → (state_of_pieces 0 before).tick ≤ tick →
            HasSeenAll self.new (before ++ p ∷ [])) }
        ensures same { OnOk result (cut_rules_of self.new ≡ cut_rules_of self.old) }
        ensures more { OnErr result (EmitsMore W.Sink output.old output.new) }
    {
        let retimed = self.walk.retimed(tick);
        self.take_retimed(output, retimed, StampBytes { tick, space, body })
    }

    /// The same of a stamp with this new tick: before one past the last tick that is left the held
    /// changes, and the stamp, if its tick is left.
    fn take_retimed<W: Sink>(
        &mut self,
        output: &mut Output<W>,
        retimed: RetimedTick,
        stamp: StampBytes,
    ) -> Result<(), NoMemory>
        requires seen { (before : List Piece) × HasSeenAll self.old before }
        requires cut { retimed.is_cut ≡ cut_of self.old stamp.tick }
        requires tick { retimed.tick ≡ new_tick (cut_of self.old) stamp.tick }
        requires fits { stamp.tick < 2 ^ 64 }
        ensures written { OnOk result ((before : List Piece) (p : Piece) (digits : List ℕ) →
            HasSeenAll self.old before → p.item ≡ items.stamp digits →
            number_of digits ≡ stamp.entry.tick → p.space ≡ stamp.entry.space.now →
            p.body ≡ stamp.entry.body.now → (state_of_pieces 0 before).tick ≤ stamp.entry.tick →
            Emits W.Sink output.old output.new (copied_pieces (rules_of self.old.inner)
            (sent_for (cut_of self.old) before) (step_for (cut_of self.old) before p))) }
        ensures at { OnOk result ((before : List Piece) (p : Piece) (digits : List ℕ) →
            HasSeenAll self.old before → p.item ≡ items.stamp digits →
            number_of digits ≡ stamp.entry.tick → p.space ≡ stamp.entry.space.now →
            p.body ≡ stamp.entry.body.now → (state_of_pieces 0 before).tick ≤ stamp.entry.tick →
            HasSeenAll self.new (before ++ p ∷ [])) }
        ensures same { OnOk result (cut_rules_of self.new ≡ cut_rules_of self.old) }
        ensures more { OnErr result (EmitsMore W.Sink output.old output.new) }
    {
        self.release_before(output, retimed.tick)?;
        self.last = retimed;
        if retimed.is_cut {
            return Ok(());
        }
        put_stamp(
            &mut self.inner,
            output,
            &mut self.stamp,
            retimed.tick,
            stamp,
        )?;
        Ok(())
    }

    /// Writes the held changes before a tick that is past the last one.
    fn release_before<W: Sink>(&mut self, output: &mut Output<W>, tick: u64) -> Result<(), NoMemory>
        requires { (before : List Piece) × HasSeenAll self.old before }
        ensures written { OnOk result ((before : List Piece) → HasSeenAll self.old before →
            Emits W.Sink output.old output.new (copied_pieces (rules_of self.old.inner)
            (sent_for (cut_of self.old) before)
            (released_before self.old tick (held_for (cut_of self.old) before)))) }
        ensures at { OnOk result ((before : List Piece) → HasSeenAll self.old before →
            HasWritten self.new (sent_for (cut_of self.old) before
            ++ released_before self.old tick (held_for (cut_of self.old) before))
            (if nat_lt self.old.last.tick tick then [] else held_for (cut_of self.old) before)
            (state_of_pieces 0 before)) }
        ensures amendment { OnOk result
            (self.new.inner.amendment.now ≡ self.old.inner.amendment.now) }
        ensures cuts { OnOk result (self.new.walk ≡ self.old.walk) }
        ensures more { OnErr result (EmitsMore W.Sink output.old output.new) }
    {
        if self.last.tick >= tick {
            return Ok(());
        }
        let held = replace(&mut self.held, Vec::new(self.alloc));
        release(&mut self.inner, output, held, self.last, &mut self.stamp)?;
        Ok(())
    }

    /// Holds a change, if its tick is cut out, and writes what is in its place, if not.
    fn take_change<W: Sink>(
        &mut self,
        output: &mut Output<W>,
        change: ChangeBytes,
    ) -> Result<(), NoMemory>
        requires { (before : List Piece) × HasSeenAll self.old before }
        ensures written { OnOk result ((before : List Piece) (p : Piece) →
            HasSeenAll self.old before → IsGivenChange p change.entry →
            Emits W.Sink output.old output.new (copied_pieces (rules_of self.old.inner)
            (sent_for (cut_of self.old) before) (step_for (cut_of self.old) before p))) }
        ensures at { OnOk result ((before : List Piece) (p : Piece) →
            HasSeenAll self.old before → IsGivenChange p change.entry →
            HasSeenAll self.new (before ++ p ∷ [])) }
        ensures same { OnOk result (cut_rules_of self.new ≡ cut_rules_of self.old) }
        ensures more { OnErr result (EmitsMore W.Sink output.old output.new) }
    {
        let variables = self.variables.get(change.code);
        let holding = Holding {
            is_held: is_held(self.last.is_cut, variables),
            is_kept: variables.is_kept,
        };
        hold(self.alloc, &mut self.held, &mut self.room, change, holding)?;
        if self.last.is_cut {
            return Ok(());
        }
        put_change(&mut self.inner, output, change);
        Ok(())
    }
}

/// Whether a change of a code with these variables is held.
fn is_held(is_cut: bool, variables: CodeVariables) -> bool
    ensures { result ≡ (is_cut && variables.lasts) }
{
    is_cut && variables.lasts
}

/// Holds a change, or takes those away that count together with it.
fn hold(
    alloc: Global,
    held: &mut Vec<HeldChange>,
    room: &mut usize,
    change: ChangeBytes,
    holding: Holding,
) -> Result<(), NoMemory>
    ensures { OnOk result ((kept : List ℕ → Bool) (ps : List Piece) (p : Piece) →
        kept change.entry.code.now ≡ holding.is_kept →
        ArePieces (spec.last_held held.old.items) ps → IsGivenChange p change.entry →
        ArePieces (spec.last_held held.new.items)
        (filter (λ q. not (counts_with kept
        (spec.key_of change.entry.is_text change.entry.code.now) (change_key q.item))) ps
        ++ (if holding.is_held then p ∷ [] else []))) }
{
    if is_idle(holding.is_held, held) {
        return Ok(());
    }
    let change = held_change(alloc, change, holding)?;
    push_held(alloc, held, room, change)?;
    Ok(())
}

/// Whether no change is held, and none is to be.
fn is_idle(is_held: bool, held: &Vec<HeldChange>) -> bool
    ensures { result ≡ true → (is_held ≡ false) × (held.now.items ≡ []) }
{
    !is_held && held.is_empty()
}

/// Adds a change.
fn push_held(
    alloc: Global,
    held: &mut Vec<HeldChange>,
    room: &mut usize,
    change: HeldChange,
) -> Result<(), NoMemory>
    ensures { OnOk result (spec.last_held held.new.items
        ≡ spec.last_held (held.old.items ++ change ∷ [])) }
{
    make_room(alloc, held, room)?;
    held.push(change)?;
    Ok(())
}

/// If there are many changes, those that later ones replace are dropped.
fn make_room(alloc: Global, held: &mut Vec<HeldChange>, room: &mut usize) -> Result<(), NoMemory>
    ensures { OnOk result ((h : Change) → spec.last_held (held.new.items ++ h ∷ [])
        ≡ spec.last_held (held.old.items ++ h ∷ [])) }
{
    if held.len() < *room {
        return Ok(());
    }
    let changes = replace(held, Vec::new(alloc));
    *held = last_held(alloc, changes)?;
    *room = held.len().saturating_mul(2).saturating_add(FIRST_ROOM);
    Ok(())
}

/// Writes the held changes, after their stamp if the last one is left out.
fn release<W: Sink>(
    inner: &mut FileAmender,
    output: &mut Output<W>,
    changes: Vec<HeldChange>,
    last: RetimedTick,
    stamp: &mut Vec<u8>,
) -> Result<(), NoMemory>
    requires { (r ps : List Piece) × HasSeen inner.old r
        × ArePieces (spec.last_held changes.items) ps × ((state_of_pieces 0 r).tick ≤ last.tick) }
    ensures written { OnOk result ((r ps : List Piece) → HasSeen inner.old r →
        ArePieces (spec.last_held changes.items) ps → (state_of_pieces 0 r).tick ≤ last.tick →
        Emits W.Sink output.old output.new (copied_pieces (rules_of inner.old) r
        (released last.is_cut last.tick ps))) }
    ensures seen { OnOk result ((r ps : List Piece) → HasSeen inner.old r →
        ArePieces (spec.last_held changes.items) ps → (state_of_pieces 0 r).tick ≤ last.tick →
        HasSeen inner.new (r ++ released last.is_cut last.tick ps)) }
    ensures same { inner.new.amendment.now ≡ inner.old.amendment.now }
    ensures more { OnErr result (EmitsMore W.Sink output.old output.new) }
{
    let held = last_held(inner.alloc, changes)?;
    if held.is_empty() {
        return Ok(());
    }
    put_held_stamp(inner, output, last.is_cut, last.tick, stamp)?;
    put_changes(inner, output, held.as_slice());
    Ok(())
}

/// Writes the stamp of held changes, if the last one is left out.
fn put_held_stamp<W: Sink>(
    inner: &mut FileAmender,
    output: &mut Output<W>,
    is_cut: bool,
    tick: u64,
    stamp: &mut Vec<u8>,
) -> Result<(), NoMemory>
    requires { (r : List Piece) × HasSeen inner.old r }
    ensures written { OnOk result ((r : List Piece) → HasSeen inner.old r →
        (state_of_pieces 0 r).tick ≤ tick →
        Emits W.Sink output.old output.new (copied_pieces (rules_of inner.old) r
        (if is_cut then stamp_line tick ∷ [] else []))) }
    ensures seen { OnOk result ((r : List Piece) → HasSeen inner.old r →
        (state_of_pieces 0 r).tick ≤ tick →
        HasSeen inner.new (r ++ (if is_cut then stamp_line tick ∷ [] else []))) }
    ensures same { inner.new.amendment.now ≡ inner.old.amendment.now }
    ensures more { OnErr result (EmitsMore W.Sink output.old output.new) }
{
    if !is_cut {
        return Ok(());
    }
    spell_stamp(stamp, tick)?;
    inner.take_stamp(output, tick, b"\n", stamp.as_slice());
    Ok(())
}

/// The words of a stamp.
fn spell_stamp(text: &mut Vec<u8>, tick: u64) -> Result<(), NoMemory>
    ensures { OnOk result (text.new.items ≡ 35 ∷ decimal tick) }
{
    text.clear();
    text.push(b'#')?;
    text.extend_from_slice(Buffer::new().format(tick).as_bytes())?;
    Ok(())
}

/// Writes what is in the place of a stamp, with this new tick.
fn put_stamp<W: Sink>(
    inner: &mut FileAmender,
    output: &mut Output<W>,
    text: &mut Vec<u8>,
    retimed: u64,
    stamp: StampBytes,
) -> Result<(), NoMemory>
    requires { (r : List Piece) × HasSeen inner.old r }
    ensures written { OnOk result ((r : List Piece) (p : Piece) → HasSeen inner.old r →
        spec.IsRetimedStamp p retimed stamp.entry.tick stamp.entry.space.now
        stamp.entry.body.now →
        (state_of_pieces 0 r).tick ≤ retimed →
        Emits W.Sink output.old output.new (copied_pieces (rules_of inner.old) r (p ∷ []))) }
    ensures seen { OnOk result ((r : List Piece) (p : Piece) → HasSeen inner.old r →
        spec.IsRetimedStamp p retimed stamp.entry.tick stamp.entry.space.now
        stamp.entry.body.now →
        (state_of_pieces 0 r).tick ≤ retimed → HasSeen inner.new (r ++ p ∷ [])) }
    ensures same { inner.new.amendment.now ≡ inner.old.amendment.now }
    ensures more { OnErr result (EmitsMore W.Sink output.old output.new) }
{
    if retimed == stamp.tick {
        inner.take_stamp(output, stamp.tick, stamp.space, stamp.body);
        return Ok(());
    }
    spell_stamp(text, retimed)?;
    inner.take_stamp(output, retimed, stamp.space, text.as_slice());
    Ok(())
}

/// Writes what is in the place of held changes.
fn put_changes<W: Sink>(inner: &mut FileAmender, output: &mut Output<W>, held: &[HeldChange])
    requires { (r ps : List Piece) × HasSeen inner.old r × ArePieces held.now ps }
    ensures written { (r ps : List Piece) → HasSeen inner.old r → ArePieces held.now ps →
        Emits W.Sink output.old output.new (copied_pieces (rules_of inner.old) r ps) }
    ensures seen { (r ps : List Piece) → HasSeen inner.old r → ArePieces held.now ps →
        HasSeen inner.new (r ++ ps) }
    ensures same { inner.new.amendment.now ≡ inner.old.amendment.now }
{
    for change in held {
        let bytes = ChangeBytes {
            is_text: change.is_text,
            code: change.code.as_slice(),
            space: change.space.as_slice(),
            body: change.body.as_slice(),
        };
        put_change(inner, output, bytes);
    }
}

/// Writes what is in the place of a change.
fn put_change<W: Sink>(inner: &mut FileAmender, output: &mut Output<W>, change: ChangeBytes)
    requires { (r : List Piece) × HasSeen inner.old r }
    ensures written { (r : List Piece) (p : Piece) → HasSeen inner.old r →
        IsGivenChange p change.entry →
        Emits W.Sink output.old output.new (copied_pieces (rules_of inner.old) r (p ∷ [])) }
    ensures seen { (r : List Piece) (p : Piece) → HasSeen inner.old r →
        IsGivenChange p change.entry → HasSeen inner.new (r ++ p ∷ []) }
    ensures same { inner.new.amendment.now ≡ inner.old.amendment.now }
{
    if change.is_text {
        let is_used = inner.let_real_stand(change.code);
        write_if(output, is_used, change.space, change.body);
        return;
    }
    inner.take_value(output, change.code, change.space, change.body);
}

/// What is in the place of a change.
fn settle_change(inner: &mut FileAmender, is_text: bool, code: &[u8]) -> InPlace
    requires { (r : List Piece) × HasSeen inner.old r }
    ensures stands { result ≡ places.Itself → (r : List Piece) (p : Piece) → HasSeen inner.old r →
        IsChangePiece p is_text code.now p.space p.body →
        (copied_pieces (rules_of inner.old) r (p ∷ []) ≡ p.space ++ p.body)
        × HasSeen inner.new (r ++ p ∷ []) }
    ensures goes { result ≡ places.Nothing → (r : List Piece) (p : Piece) → HasSeen inner.old r →
        IsChangePiece p is_text code.now p.space p.body →
        (copied_pieces (rules_of inner.old) r (p ∷ []) ≡ []) × HasSeen inner.new (r ++ p ∷ []) }
    ensures unchanged { result ≡ places.Other → inner.new ≡ inner.old }
    ensures same { inner.new.amendment.now ≡ inner.old.amendment.now }
{
    if is_text {
        return inner.settle_real(code);
    }
    inner.settle_value(code)
}

/// Notes a variable at its code.
fn note_at_code(
    variables: &mut CodeTargets<CodeVariables>,
    alloc: Global,
    body: &[u8],
) -> Result<(), NoMemory>
    ensures lasts { OnOk result ((kind size code : List ℕ) (names : List (List ℕ)) →
        IsVariable body.now kind size code names → (key : List ℕ) →
        (code_target variables.new key).lasts ≡ ((code_target variables.old key).lasts
        || (bytes_eq key code && not (bytes_eq kind (codes "event"))))) }
    ensures kept { OnOk result ((kind size code : List ℕ) (names : List (List ℕ)) →
        IsVariable body.now kind size code names → is_number size ≡ true → (key : List ℕ) →
        (code_target variables.new key).is_kept ≡ ((code_target variables.old key).is_kept
        || (bytes_eq key code && not (is_skipped_kind kind
        || (number_of size == 0 || nat_lt WIDTH_LIMIT (number_of size)))))) }
{
    let Some(declared) = VariableWords::read(body) else {
        return Ok(());
    };
    let lasts = !is_event(declared.kind);
    let is_kept = !declared.is_skipped();
    note_code(variables, alloc, declared.code, lasts, is_kept)?;
    Ok(())
}

/// Notes one more variable of a code.
fn note_code(
    variables: &mut CodeTargets<CodeVariables>,
    alloc: Global,
    code: &[u8],
    lasts: bool,
    is_kept: bool,
) -> Result<(), NoMemory>
    ensures lasts { OnOk result ((key : List ℕ) → (code_target variables.new key).lasts
        ≡ ((code_target variables.old key).lasts || (bytes_eq key code.now && lasts))) }
    ensures kept { OnOk result ((key : List ℕ) → (code_target variables.new key).is_kept
        ≡ ((code_target variables.old key).is_kept || (bytes_eq key code.now && is_kept))) }
{
    let found = variables.get(code);
    let target = CodeVariables {
        lasts: either(found.lasts, lasts),
        is_kept: either(found.is_kept, is_kept),
    };
    variables.insert(alloc, code, target)?;
    Ok(())
}

/// Whether one of both holds.
fn either(first: bool, second: bool) -> bool
    ensures { result ≡ (first || second) }
{
    if first {
        return true;
    }
    second
}

/// Whether variables of this kind are events, whose changes do not last.
pub fn is_event(kind: &[u8]) -> bool
    ensures { result ≡ bytes_eq kind.now (codes "event") }
{
    kind == b"event".as_slice()
}

impl<'a, W: Sink> Amender<W> for CutAmender<'a> {
    ghost use Rattle.vcd_copy.specs.Copied.{CopyRules};

    ghost Given = { CopyRules };

    ghost given = { cut_rules_of };

    ghost rules = { λ rules. rules };

    ghost has_seen = { HasSeenAll };

    ghost is_done = { λ _. false };

    fn settle(&mut self, item: AmendableItem, code: &[u8]) -> InPlace {
        if !is_idle(self.last.is_cut, &self.held) {
            return InPlace::Other;
        }
        match item {
            AmendableItem::Value => settle_change(&mut self.inner, false, code),
            AmendableItem::RealOrString => settle_change(&mut self.inner, true, code),
            _ => InPlace::Other,
        }
    }

    fn take(&mut self, output: &mut Output<W>, ended: &EndedItem) -> Result<(), NoMemory> {
        match ended.item {
            AmendableItem::Variable => {
                note_at_code(&mut self.variables, self.alloc, ended.body)?;
                self.inner.take_variable(output, ended.space, ended.body)
            }
            AmendableItem::EndDefinitions { open_scopes, .. } => {
                write_ended(
                    output,
                    self.inner.amendment,
                    open_scopes,
                    ended.space,
                    ended.body,
                );
                Ok(())
            }
            AmendableItem::Stamp { tick } => self.take_stamp(output, tick, ended.space, ended.body),
            AmendableItem::Value => {
                let change = ChangeBytes {
                    is_text: false,
                    code: ended.code,
                    space: ended.space,
                    body: ended.body,
                };
                self.take_change(output, change)
            }
            AmendableItem::RealOrString => {
                let change = ChangeBytes {
                    is_text: true,
                    code: ended.code,
                    space: ended.space,
                    body: ended.body,
                };
                self.take_change(output, change)
            }
        }
    }

    fn write_before(&self, _output: &mut Output<W>) {}

    fn pass(&mut self, _is_comment_or_other: bool) {}

    fn is_done(&self) -> bool {
        false
    }

    fn finish(&mut self, output: &mut Output<W>, space: &[u8]) -> Result<(), NoMemory> {
        let held = replace(&mut self.held, Vec::new(self.alloc));
        release(&mut self.inner, output, held, self.last, &mut self.stamp)?;
        self.inner.finish(output, space)
    }
}
