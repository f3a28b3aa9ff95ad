//! The signals that a file declares, as a choice of a part sees them.

ghost use Rattle.std.specs.Prelude.{◌≡◌, ◌<◌, ℕ, Some, length, slice_get};
ghost use Rattle.vcd_text.specs.inside.reading.Chains.{chains_of};
ghost use Rattle.vcd_text.specs.inside.reading.Scopes.{IsWithin};
ghost use Rattle.vcd_text.specs.declared.reading.variables.Variable.{Variable as KeptVariable};

use crate::reading::scopes::Scopes;
use crate::reading::variables::Variable;
use vcd_core::{ScopeName, Word};

/// What a file declares of a signal: its scopes, its kind such as `wire`, the words of its name,
/// and its width.
#[derive(Clone, Copy)]
pub struct DeclaredSignal<'a> {
    pub scopes: &'a [ScopeName],
    pub kind: &'a [u8],
    pub words: &'a [Word],
    pub width: u64,
}

/// The signals that a file declares, in its order. Nothing is copied.
#[derive(Drop)]
pub struct Declarations<'a> {
    pub(crate) scopes: &'a Scopes,
    pub(crate) kept: &'a [Variable],
    ghost placed: { (position : ℕ) (v : KeptVariable) → slice_get kept.now position ≡ Some v
        → IsWithin (chains_of scopes.now) v.place },
}

impl<'a> Declarations<'a> {
    ghost use Rattle.vcd_text.specs.AsDeclared.{signal_declared};
    ghost use Rattle.vcd_text.specs.inside.reading.DeclaredSignals.{declared_contents};

    /// How many signals are declared.
    pub fn len(&self) -> usize
        ensures { result ≡ length (declared_contents self.now) }
    {
        self.kept.len()
    }

    /// What is declared of the signal at a position.
    pub fn get(&self, position: usize) -> DeclaredSignal<'a>
        requires { position < length (declared_contents self.now) }
        ensures { slice_get (declared_contents self.now) position ≡ Some (signal_declared result) }
    {
        let variable = &self.kept[position];
        DeclaredSignal {
            scopes: self.scopes.at(variable.place),
            kind: variable.kind.as_slice(),
            words: variable.words.as_slice(),
            width: variable.wave.width(),
        }
    }
}
