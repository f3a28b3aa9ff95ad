//! The patterns of an option, and which of them a name has met.

ghost use Rattle.std.specs.Prelude.{◌≡◌, ◌++◌, ◌∷◌, [], ℕ, List, map, not, find, option_map};
ghost use Rattle.std.specs.Prelude.{IfOk, slice_set, slice_index_or, true, false};
ghost use Rattle.std.specs.Option.{unwrap_or};
ghost use Rattle.std.specs.List.{list_any, position};
ghost use Rattle.vcd_core.specs.FullName.{name_bytes};
ghost use Rattle.vcd_part.specs.Pattern as spec;
ghost use Rattle.vcd_part.specs.Requests.{meets_one, texts};
ghost use Rattle.vcd_part.specs.inside.Patterns.{HaveMet};

use crate::pattern::meets;
use std::alloc::Global;
use vcd_core::{FullName, NoMemory};

/// The patterns of an option, if it is given, and which of them names have met so far.
#[derive(Drop)]
pub struct Patterns<'m, 'a> {
    pub patterns: Option<&'m [&'a str]>,
    /// For each pattern, whether a name has met it.
    pub met: Vec<bool>,
}

impl<'m, 'a> Patterns<'m, 'a> {
    /// No name has come yet.
    pub fn new(alloc: Global, patterns: Option<&'m [&'a str]>) -> Result<Patterns<'m, 'a>, NoMemory>
        ensures met { IfOk result (λ made. HaveMet made []) }
        ensures patterns { IfOk result (λ made. made.patterns ≡ patterns.entry) }
    {
        let count = patterns.unwrap_or(&[]).len();
        let met = Vec::from_elem(alloc, false, count)?;
        Ok(Patterns { patterns, met })
    }

    /// Notes a name. Returns whether it meets one of the patterns; this, if there are none. It is
    /// compared with each pattern.
    pub fn note(&mut self, name: FullName<'_>, otherwise: bool) -> bool
        ensures meets { result
            ≡ meets_one otherwise (texts self.old.patterns) (name_bytes name.entry) }
        ensures met { (names : List (List ℕ)) → HaveMet self.old names →
            HaveMet self.new (names ++ name_bytes name.entry ∷ []) }
        ensures same { self.new.patterns ≡ self.old.patterns }
    {
        match self.patterns {
            Some(patterns) => note_met(patterns, &mut self.met, name),
            None => otherwise,
        }
    }

    /// The position of the first pattern that no name has met.
    pub fn unmet_position(&self) -> Option<usize>
        ensures { (names : List (List ℕ)) → HaveMet self.now names →
            result ≡ position (λ p. not (list_any (spec.meets p) names))
            (unwrap_or (texts self.now.patterns) []) }
    {
        self.met.iter().position(|is_met| !*is_met)
    }

    /// The first pattern that no name has met.
    pub fn unmet(&self) -> Option<&'a str>
        ensures { (names : List (List ℕ)) → HaveMet self.now names →
            option_map (λ p. p.now) result ≡ find (λ p. not (list_any (spec.meets p) names))
            (unwrap_or (texts self.now.patterns) []) }
    {
        first_unmet(self.patterns?, &self.met)
    }
}

/// Notes which of the patterns a name meets. Returns whether it meets one.
fn note_met(patterns: &[&str], met: &mut [bool], name: FullName<'_>) -> bool
    ensures meets { result
        ≡ list_any (λ p. spec.meets p (name_bytes name.entry)) (map (λ p. p.now) patterns.now) }
    ensures met { (names : List (List ℕ)) →
        met.old ≡ map (λ p. list_any (spec.meets p) names) (map (λ p. p.now) patterns.now) →
        met.new ≡ map (λ p. list_any (spec.meets p) (names ++ name_bytes name.entry ∷ []))
        (map (λ p. p.now) patterns.now) }
{
    let mut is_met = false;
    for (index, pattern) in patterns.iter().enumerate() {
        if meets(pattern.as_bytes(), name) {
            mark(met, index);
            is_met = true;
        }
    }
    is_met
}

/// Notes that the pattern at an index is met.
fn mark(met: &mut [bool], index: usize)
    ensures { met.new ≡ slice_set met.old index true }
{
    if index < met.len() {
        met[index] = true;
    }
}

/// The first of these patterns that no name has met.
fn first_unmet<'a>(patterns: &[&'a str], met: &[bool]) -> Option<&'a str>
    ensures { (names : List (List ℕ)) →
        met.now ≡ map (λ p. list_any (spec.meets p) names) (map (λ p. p.now) patterns.now) →
        option_map (λ p. p.now) result ≡ find (λ p. not (list_any (spec.meets p) names))
        (map (λ p. p.now) patterns.now) }
{
    for (index, pattern) in patterns.iter().enumerate() {
        if !is_met(met, index) {
            return Some(*pattern);
        }
    }
    None
}

/// Whether the pattern at an index is met.
fn is_met(met: &[bool], index: usize) -> bool
    ensures { result ≡ slice_index_or met.now index false }
{
    met.get(index).copied().unwrap_or(false)
}
