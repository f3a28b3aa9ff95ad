//! What is done to a file that is amended.

ghost use Rattle.std.specs.Prelude.{◌≡◌};

use vcd_core::{ScopePath, Seq, Word};
use vcd_stream::CompactWave;

/// What becomes of a kept variable.
#[derive(Drop)]
pub enum Fate {
    /// Its declaration stays as it is.
    Stays,
    /// It is left out.
    IsRemoved,
    /// It has these name words and this code.
    IsChanged { words: Seq<Word>, code: Word },
}

/// A variable that comes after those of the file.
#[derive(Drop)]
pub struct AddedVariable {
    pub scopes: ScopePath,
    pub kind: Word,
    pub width: u64,
    pub code: Word,
    pub words: Seq<Word>,
}

/// A code that is to mean another wave.
#[derive(Drop)]
pub struct AmendedCode {
    pub code: Word,
    /// Its wave in the file; x throughout, if no variable of the file has the code.
    pub old: CompactWave,
    /// Its wave in the amended file.
    pub new: CompactWave,
    ghost same_width: { old.width ≡ new.width },
}

/// What is done to a file.
#[derive(Drop)]
pub struct Amendment {
    /// What becomes of the kept variables, in their order. One for which none is here stays.
    pub fates: Vec<Fate>,
    /// The variables that come after those of the file.
    pub added: Vec<AddedVariable>,
    /// The amended codes, no two of them the same.
    pub codes: Vec<AmendedCode>,
}
