//! The variables that a file declares, with their waves so far.

ghost use Rattle.std.specs.Prelude.{◌≡◌, ◌≤◌, ◌+◌, false, length, map, IsOk, OnOk, All};
ghost use Rattle.vcd_text.specs.Grammar.{ParseState, initial_state, kept_variables};
ghost use Rattle.vcd_text.specs.inside.reading.DeclaredSignals.{declared_contents};
ghost use Rattle.vcd_text.specs.inside.reading.Part.{undriven};
ghost use Rattle.vcd_text.specs.inside.reading.Log.{AppliesToVariable, HasExactRoom};
ghost use Rattle.vcd_text.specs.inside.reading.Log.{counted_variable};
ghost use Rattle.vcd_text.specs.inside.reading.Variables.{VariablesMatch};

mod assigning;
mod choosing;
mod declaring;
mod finishing;

use crate::reading::code_targets::{CodeTarget, CodeTargets};
use crate::reading::declared_signals::Declarations;
use crate::reading::log::{ExpectedRoom, LoggedChange};
use crate::reading::scopes::{ScopePlace, Scopes};
pub use assigning::CodeChange;
pub use choosing::{remaining_signals, silent_variables};
pub use declaring::is_skipped;
use std::alloc::Global;
use std::mem::replace;
use vcd_core::{NameWords, NoMemory, Wave, Word};

/// A kept variable: its signal, with a place for its scopes.
///
/// The first variable of a code has the wave so far, without the changes in the log. The others
/// share its list at the end.
#[derive(Drop)]
pub struct Variable {
    pub place: ScopePlace,
    pub kind: Word,
    pub words: NameWords,
    pub wave: Wave,
    /// The position of the first variable with this code.
    pub first: usize,
    /// How many changes the wave is about to get from the log, at most.
    pub expected_room: ExpectedRoom,
}

impl Variable {
    /// Counts a change of the log that the wave is about to get.
    pub fn count_logged(&mut self, change: LoggedChange)
        ensures { self.new ≡ counted_variable self.old change }
    {
        self.expected_room = self.expected_room.with_change(change);
    }

    /// Takes a change of the log. Room for the counted changes is made first, and their count
    /// becomes 0.
    pub fn apply_logged(&mut self, change: LoggedChange) -> Result<(), NoMemory>
        requires narrow { self.old.wave.width ≤ 64 }
        requires none_later { All (λ c. c.tick ≤ change.tick) self.old.wave.changes }
        ensures taken { OnOk result (AppliesToVariable change self.old self.new) }
        // It succeeds if the wave's own list has room for the counted changes and this one.
        ensures in_place { self.old.wave.is_shared ≡ false →
            length self.old.wave.changes + 1 ≤ self.old.wave.capacity →
            length self.old.wave.changes + self.old.expected_room.count
            ≤ self.old.wave.capacity →
            IsOk result }
        ensures exact { OnOk result (HasExactRoom self.old self.new) }
        ensures counted { OnOk result (self.new.expected_room.count ≡ 0) }
    {
        let more = replace(&mut self.expected_room.count, 0);
        if more > 0 {
            self.wave.reserve_exact(more)?;
        }
        self.wave.push_block(change.tick, change.block)
    }
}

/// The declared variables, and their scopes.
#[derive(Drop)]
pub struct Variables {
    pub scopes: Scopes,
    /// The kept variables, in the order of the file.
    pub kept: Vec<Variable>,
    /// The target of each code.
    pub code_targets: CodeTargets<CodeTarget>,
    /// The number of skipped variables.
    pub skipped: u64,
    /// The most variables that may be kept.
    pub limit: u32,
    /// The changes that the waves of at most 64 bits do not have yet, in groups.
    pub log: Vec<Vec<LoggedChange>>,
}

impl Variables {
    /// No variables, of at most so many that may be kept. It takes no memory.
    pub fn new(alloc: Global, limit: u32) -> Variables
        ensures { VariablesMatch result (initial_state limit) }
    {
        Variables {
            scopes: Scopes::new(alloc),
            kept: Vec::new(alloc),
            code_targets: CodeTargets::new(alloc, CodeTarget::Undeclared),
            skipped: 0,
            limit,
            log: Vec::new(alloc),
        }
    }

    /// The kept variables as they are declared.
    pub fn declared_signals(&self) -> Declarations
        requires { (c : ParseState) × VariablesMatch self.now c }
        ensures { (c : ParseState) → VariablesMatch self.now c
            → declared_contents result ≡ map undriven (kept_variables c.declared) }
    {
        Declarations {
            scopes: &self.scopes,
            kept: self.kept.as_slice(),
        }
    }
}
