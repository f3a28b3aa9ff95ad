//! The steps of a session, and its answers to them.

ghost use Rattle.std.specs.Prelude.{◌≡◌};
ghost use Rattle.vcd_journal.specs.StepErrorNames.{step_error_name};

use thiserror::Error;
use vcd_core::NoMemory;
use vcd_edit::{Edit, EditError};

/// The most steps that a session may hold, to undo and to redo together.
pub const DEPTH_LIMIT: u64 = 1_000;

/// What a session is asked to do.
#[derive(Clone, Copy, Debug, PartialEq)]
pub enum Step<'a> {
    /// The capture is edited.
    Edit(Edit<'a>),
    /// The last edit in the history is undone.
    Undo,
    /// The edit that was undone last is made again.
    Redo,
    /// The history holds at most this many steps from now on, from 1 to [`DEPTH_LIMIT`].
    Depth(u64),
}

/// Why a step is refused.
#[derive(Clone, Copy, Debug, PartialEq, Eq, Error)]
#[error("{}", self.name())]
pub enum StepError {
    /// The edit is refused.
    Edit(EditError),
    /// There is no edit to undo.
    NothingToUndo,
    /// There is no edit to redo.
    NothingToRedo,
    /// The depth is not from 1 to [`DEPTH_LIMIT`].
    BadDepth,
    /// More edits than the new depth could be redone.
    DepthTooSmall,
    /// Memory was refused for an undo, a redo or a greater depth.
    NoMemory,
}

impl StepError {
    /// The refusal's name, as it is printed.
    pub fn name(&self) -> &'static str
        ensures { result.now ≡ step_error_name self.now }
    {
        match self {
            StepError::Edit(fault) => fault.name(),
            StepError::NothingToUndo => "NothingToUndo",
            StepError::NothingToRedo => "NothingToRedo",
            StepError::BadDepth => "BadDepth",
            StepError::DepthTooSmall => "DepthTooSmall",
            StepError::NoMemory => "NoMemory",
        }
    }
}

impl From<EditError> for StepError {
    ghost use Rattle.vcd_journal.specs.declared.step.StepError.TheVariants as refusals;

    ghost from_gives = { λ fault e. e ≡ refusals.Edit fault };

    fn from(fault: EditError) -> StepError {
        StepError::Edit(fault)
    }
}

impl From<NoMemory> for StepError {
    ghost use Rattle.vcd_journal.specs.declared.step.StepError.TheVariants as refusals;

    ghost from_gives = { λ _ e. e ≡ refusals.NoMemory };

    fn from(_refused: NoMemory) -> StepError {
        StepError::NoMemory
    }
}

/// What a session answers to a step.
#[derive(Clone, Copy, Debug, PartialEq, Eq)]
pub enum Answer {
    /// The step is made.
    Done,
    /// The step is refused, and nothing has changed.
    Refused(StepError),
}
