//! Which variables of two captures a request asks for, and which are a pair, by their names.

ghost use Rattle.std.specs.Prelude.{◌≡◌, ◌++◌, ℕ, List, true, IfOk, OnOk, map};
ghost use Rattle.vcd_part.specs.Requests.{meets_one, texts as patterns_of};
ghost use Rattle.vcd_part.specs.inside.Patterns.{HaveMet};
ghost use Rattle.vcd_compare.specs.inside.Matching.{IsMatching};
ghost use Rattle.vcd_compare.specs.inside.Pairing.{texts};

use crate::names::{mapped_names, unmet_map};
use crate::pairing::partners;
use crate::request::CompareRequest;
use std::alloc::Global;
use vcd_core::{FullName, NoMemory};
use vcd_part::Patterns;

/// What a request says of the variables of two captures.
#[derive(Drop)]
pub struct Matching {
    /// Whether each variable of the first capture is asked for by its name.
    pub by_name: Vec<bool>,
    /// The same by what its name is in the second capture.
    pub by_mapped: Vec<bool>,
    /// Whether each variable of the second capture is asked for.
    pub of_second: Vec<bool>,
    /// The partner of each variable of the first capture, by its name in the second.
    pub partners: Vec<Option<usize>>,
    /// The first pattern that no name meets.
    pub unmet_pattern: Option<usize>,
    /// The first map that fits no name.
    pub unmet_map: Option<usize>,
}

/// What a request says of variables with these names.
///
/// Time: two look-ups of each name, which is compared with each pattern and map, and of the first
/// capture what it is in the second, too.
pub fn match_signals(
    alloc: Global,
    request: &CompareRequest<'_, '_>,
    names: Vec<Vec<u8>>,
    others: Vec<Vec<u8>>,
) -> Result<Matching, NoMemory>
    ensures { IfOk result (IsMatching request.now (texts names.items) (texts others.items)) }
{
    let mapped = mapped_names(alloc, request.maps, names.as_slice())?;
    let mut patterns = Patterns::new(alloc, request.keep)?;
    let by_name = note_all(alloc, &mut patterns, names.as_slice())?;
    let by_mapped = note_all(alloc, &mut patterns, mapped.as_slice())?;
    let of_second = note_all(alloc, &mut patterns, others.as_slice())?;
    Ok(Matching {
        by_name,
        by_mapped,
        of_second,
        unmet_pattern: patterns.unmet_position(),
        unmet_map: unmet_map(request.maps, names.as_slice()),
        partners: partners(alloc, mapped, others)?,
    })
}

/// Notes names. Returns whether each meets one of the patterns; true, if there are none.
fn note_all(
    alloc: Global,
    patterns: &mut Patterns<'_, '_>,
    names: &[Vec<u8>],
) -> Result<Vec<bool>, NoMemory>
    ensures meets { IfOk result (λ meets. meets.items
        ≡ map (meets_one true (patterns_of patterns.old.patterns)) (texts names.now)) }
    ensures met { OnOk result ((before : List (List ℕ)) → HaveMet patterns.old before →
        HaveMet patterns.new (before ++ texts names.now)) }
    ensures same { OnOk result (patterns.new.patterns ≡ patterns.old.patterns) }
{
    let mut meets = Vec::with_capacity(alloc, names.len())?;
    for name in names {
        meets.push(patterns.note(FullName::of_text(name.as_slice()), true))?;
    }
    Ok(meets)
}
