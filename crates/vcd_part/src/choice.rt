//! Which variables are kept, as they are declared.

ghost use Rattle.std.specs.Prelude.{◌≡◌, ◌+◌, ◌++◌, ◌==◌, ◌&&◌, ◌∷◌, [], ℕ, List, IfOk, OnOk};
ghost use Rattle.std.specs.Prelude.{option_map, if◌then◌else◌, not, bytes_eq, codes};
ghost use Rattle.vcd_text.specs.Grammar.{VariableDeclaration, word_texts};
ghost use Rattle.vcd_text.specs.Items.{end_word};
ghost use Rattle.vcd_text.specs.Words.{words_of};
ghost use Rattle.vcd_part.specs.Requests.{keeps, unmet, decide};
ghost use Rattle.vcd_part.specs.PartPieces.{bounded_count};
ghost use Rattle.vcd_part.specs.inside.Choice.{HasNoted};

use crate::code_uses::is_event;
use crate::name_text::read_name;
use crate::named_variable::{NamedVariable, note_named_variable};
use crate::patterns::Patterns;
use crate::request::{Refusal, Request};
use crate::scope_paths::ScopePaths;
use std::alloc::Global;
use vcd_core::{FullName, NoMemory, ScopeName, Timescale};
use vcd_text::TickRange;

/// The patterns of a request, with what the declarations so far say of them.
#[derive(Drop)]
pub struct VariableChoice<'m, 'a> {
    pub alloc: Global,
    pub keep: Patterns<'m, 'a>,
    pub remove: Patterns<'m, 'a>,
    /// How many variables are kept, of how many.
    pub kept: u64,
    pub all: u64,
    /// The variables to remove, in the order of the file.
    pub removed: Vec<NamedVariable>,
    /// The events that are kept, in the order of the file.
    pub events: Vec<NamedVariable>,
    /// The scopes of the variables.
    pub scopes: ScopePaths,
    /// Room for a name.
    pub name: Vec<u8>,
}

impl<'m, 'a> VariableChoice<'m, 'a> {
    /// Before the first variable.
    pub fn new(alloc: Global, request: Request<'m, 'a>) -> Result<VariableChoice<'m, 'a>, NoMemory>
        ensures { IfOk result (λ choice. HasNoted choice request.entry []) }
    {
        Ok(VariableChoice {
            alloc,
            keep: Patterns::new(alloc, request.keep)?,
            remove: Patterns::new(alloc, request.remove)?,
            kept: 0,
            all: 0,
            removed: Vec::new(alloc),
            events: Vec::new(alloc),
            scopes: ScopePaths::new(alloc),
            name: Vec::new(alloc),
        })
    }

    /// Notes the variable of this kind in these scopes, with this code and these words of a name,
    /// after which `$end` comes. Returns whether it is kept. It takes memory if the variable is to
    /// be removed, a kept event, or the first of its scope that is kept or left out.
    pub fn note(
        &mut self,
        scopes: &[ScopeName],
        kind: &[u8],
        code: &[u8],
        words: &[u8],
    ) -> Result<bool, NoMemory>
        ensures kept { IfOk result (λ is_kept.
            (r : Request) (declared : List VariableDeclaration) (d : VariableDeclaration) →
            HasNoted self.old r declared → d.scopes ≡ scopes.now →
            word_texts (words_of words.now) ≡ d.words ++ end_word ∷ [] → is_kept ≡ keeps r d) }
        ensures noted { OnOk result (
            (r : Request) (declared : List VariableDeclaration) (d : VariableDeclaration) →
            HasNoted self.old r declared → d.scopes ≡ scopes.now → kind.now ≡ d.kind →
            d.code ≡ code.now →
            word_texts (words_of words.now) ≡ d.words ++ end_word ∷ [] →
            HasNoted self.new r (declared ++ d ∷ [])) }
    {
        read_name(&mut self.name, words)?;
        let name = FullName::new(scopes, self.name.as_slice(), &[]);
        let is_among_kept = self.keep.note(name, true);
        let is_removed = self.remove.note(name, false);
        note_named_variable(self.alloc, &mut self.removed, is_removed, name, code)?;
        let is_kept = is_kept(is_among_kept, is_removed);
        let is_kept_event = is_kept_event(is_kept, kind);
        note_named_variable(self.alloc, &mut self.events, is_kept_event, name, code)?;
        self.scopes.note(scopes, is_kept)?;
        self.kept = count(self.kept, is_kept);
        self.all = self.all.saturating_add(1);
        Ok(is_kept)
    }

    /// The first pattern that no name has met: first those to keep are tried, then those to remove.
    pub fn unmet(&self) -> Option<&'a str>
        ensures { (r : Request) (declared : List VariableDeclaration) →
            HasNoted self.now r declared → option_map (λ p. p.now) result ≡ unmet r declared }
    {
        match self.keep.unmet() {
            Some(pattern) => Some(pattern),
            None => self.remove.unmet(),
        }
    }

    /// The window of the request, on a capture with this timescale, or why it is refused.
    pub fn decide(
        &self,
        request: &Request<'m, 'a>,
        timescale: Option<Timescale>,
    ) -> Result<TickRange, Refusal>
        ensures { (declared : List VariableDeclaration) → HasNoted self.now request.now declared →
            result ≡ decide request.now timescale declared }
    {
        if self.unmet().is_some() {
            return Err(Refusal::UnmetPattern);
        }
        if self.leaves_none() {
            return Err(Refusal::NoVariableLeft);
        }
        request.window(timescale)
    }

    /// Whether there are variables, and none is kept.
    fn leaves_none(&self) -> bool
        ensures { result ≡ (not (self.now.all == 0) && self.now.kept == 0) }
    {
        self.all != 0 && self.kept == 0
    }
}

/// Whether a name is kept that is among those to keep, and those to remove, or not.
fn is_kept(is_among_kept: bool, is_removed: bool) -> bool
    ensures { result ≡ (is_among_kept && not is_removed) }
{
    is_among_kept && !is_removed
}

/// Whether a variable of this kind, which is kept or not, is an event that is kept.
fn is_kept_event(is_kept: bool, kind: &[u8]) -> bool
    ensures { result ≡ (is_kept && bytes_eq kind.now (codes "event")) }
{
    is_kept && is_event(kind)
}

/// Counts one more, if it counts, as far as a `u64` goes.
pub fn count(so_far: u64, counts: bool) -> u64
    ensures { result ≡ bounded_count (if counts then so_far + 1 else so_far) }
{
    if counts {
        return so_far.saturating_add(1);
    }
    so_far
}
