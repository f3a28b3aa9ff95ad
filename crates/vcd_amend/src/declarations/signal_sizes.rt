//! Whether signals are those of declared variables, by their sizes.

ghost use Rattle.std.specs.Prelude.{◌≡◌, ◌∷◌, ◌↔◌, List, true, false, map, MatchOption};
ghost use Rattle.vcd_core.specs.CaptureContents.{signal_contents};
ghost use Rattle.vcd_text.specs.Grammar.{VariableDeclaration};
ghost use Rattle.vcd_amend.specs.DeclaredVariables.{declaration_of_variable, HaveSizesOf};

use super::DeclaredVariable;
use vcd_core::{Signal, WIDTH_LIMIT};

/// Whether the signals are as wide as the kept variables, in turn.
pub fn have_sizes_of(signals: &[Signal], variables: &[DeclaredVariable]) -> bool
    ensures sizes { result ≡ true → HaveSizesOf (map signal_contents signals.now)
        (map declaration_of_variable variables.now) }
    ensures others { result ≡ false → HaveSizesOf (map signal_contents signals.now)
        (map declaration_of_variable variables.now) → ⊥ }
{
    let mut left = signals;
    for variable in variables {
        match signals_after(left, variable) {
            Some(rest) => left = rest,
            None => return false,
        }
    }
    left.is_empty()
}

/// The signals after that of a variable, which is the first; none if that has another width. A
/// skipped variable has no signal.
fn signals_after<'a>(signals: &'a [Signal], variable: &DeclaredVariable) -> Option<&'a [Signal]>
    ensures { (others : List VariableDeclaration) → MatchOption result
        (HaveSizesOf (map signal_contents signals.now)
        (declaration_of_variable variable.now ∷ others) → ⊥)
        (λ left. HaveSizesOf (map signal_contents signals.now)
        (declaration_of_variable variable.now ∷ others)
        ↔ HaveSizesOf (map signal_contents left.now) others) }
{
    if variable.is_skipped() {
        return Some(signals);
    }
    let (signal, left) = signals.split_first()?;
    if signal.wave.width() != variable.size.up_to(WIDTH_LIMIT + 1) {
        return None;
    }
    Some(left)
}
