//! A kept variable with its waves in two captures, and a wave to which one changes.

ghost use Rattle.std.specs.Prelude.{◌≡◌};
ghost use Rattle.std.specs.Option.{ForSome};

use crate::declarations::DeclaredVariable;
use vcd_core::{Signal, Wave};

/// A kept variable with its wave in the first capture, and the signal that is left of it in the
/// last.
#[derive(Clone, Copy)]
pub struct KeptSignal<'a> {
    pub variable: &'a DeclaredVariable,
    pub old: &'a Wave,
    pub left: Option<&'a Signal>,
    /// Whether a signal is left, with the changes of the old wave.
    pub is_unchanged: bool,
    ghost old_size: { old.now.width ≡ variable.now.size },
    ghost left_size: { ForSome left (λ n. n.now.wave.width ≡ variable.now.size) },
}

/// A wave to which a variable changes: the code of the variable, its wave in the first capture, and
/// the new one.
#[derive(Clone, Copy)]
pub struct ChangedWave<'a> {
    pub code: &'a [u8],
    pub old: &'a Wave,
    pub new: &'a Wave,
    /// The index of the wave before it to which a variable of the same code changes, if there is
    /// one.
    pub earlier: Option<usize>,
    ghost same_width: { old.now.width ≡ new.now.width },
}
