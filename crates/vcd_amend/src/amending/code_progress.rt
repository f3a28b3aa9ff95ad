//! What a file has had of an amended code.

ghost use Rattle.std.specs.Prelude.{◌≡◌, ◌<◌, ◌==◌, ℕ, length, IfSome, if◌then◌else◌};
ghost use Rattle.std.specs.Prelude.{slice_index_or};
ghost use Rattle.vcd_amend.specs.inside.amending.CodeProgress.{no_progress, noted_variable};
ghost use Rattle.vcd_amend.specs.inside.amending.CodeProgress.{noted_change, is_at_index};
ghost use Rattle.vcd_amend.specs.inside.amending.DueChanges.{is_last};

/// What the file has had of an amended code so far.
#[derive(Clone, Copy)]
pub struct CodeProgress {
    /// Whether the first variable of the code is kept, if there is one.
    pub is_kept: Option<bool>,
    /// The tick of the last change to digits of its kept variables.
    pub changed_at: Option<u64>,
}

/// Before the first variable.
pub const NO_PROGRESS: CodeProgress = CodeProgress {
    is_kept: None,
    changed_at: None,
};

impl CodeProgress {
    /// Whether the last change is at `tick`.
    pub fn is_changed_at(self, tick: u64) -> bool
        ensures { result ≡ is_last self.changed_at tick }
    {
        match self.changed_at {
            Some(last) => last == tick,
            None => false,
        }
    }

    /// After a variable of the code.
    fn with_variable(self, is_kept: bool) -> CodeProgress
        ensures { result ≡ noted_variable is_kept self }
    {
        match self.is_kept {
            Some(_) => self,
            None => CodeProgress {
                is_kept: Some(is_kept),
                changed_at: self.changed_at,
            },
        }
    }

    /// After a change of the code to digits.
    fn with_change(self, tick: u64) -> CodeProgress
        ensures { result ≡ noted_change tick self }
    {
        match self.is_kept {
            Some(true) => CodeProgress {
                is_kept: self.is_kept,
                changed_at: Some(tick),
            },
            _ => self,
        }
    }
}

/// A variable is declared, of the amended code at this index, if it is one.
pub fn note_variable(progress: &mut [CodeProgress], amended: Option<usize>, is_kept: bool)
    requires { IfSome amended (λ index. index < length progress.old) }
    ensures { (k : ℕ) → k < length progress.old → slice_index_or progress.new k no_progress
        ≡ (if is_at_index amended k
        then noted_variable is_kept (slice_index_or progress.old k no_progress)
        else slice_index_or progress.old k no_progress) }
{
    if let Some(index) = amended {
        progress[index] = progress[index].with_variable(is_kept);
    }
}

/// A change to digits comes, of the amended code at this index.
pub fn note_change(progress: &mut [CodeProgress], index: usize, tick: u64)
    requires { index < length progress.old }
    ensures { (k : ℕ) → k < length progress.old → slice_index_or progress.new k no_progress
        ≡ (if k == index then noted_change tick (slice_index_or progress.old k no_progress)
        else slice_index_or progress.old k no_progress) }
{
    progress[index] = progress[index].with_change(tick);
}
