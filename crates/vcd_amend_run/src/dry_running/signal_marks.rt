//! Marks of signals of the first capture.

ghost use Rattle.std.specs.Prelude.{◌≡◌, ◌∷◌, [], false, replicate, IfOk};
ghost use Rattle.std.specs.List.{filter_map};
ghost use Rattle.std.specs.Option.{option_to_list};
ghost use Rattle.vcd_hollow.specs.HollowRun.{origins_at};
ghost use Rattle.vcd_amend_run.specs.inside.dry_running.LinePlan.{marked};

use std::alloc::Global;
use vcd_core::NoMemory;

/// Of so many signals none is marked.
pub fn no_marks(alloc: Global, count: usize) -> Result<Vec<bool>, NoMemory>
    ensures { IfOk result (λ marks. marks.items ≡ replicate count false) }
{
    Ok(vec![in alloc; false; count]?)
}

/// Marks the signals at these positions, which have these origins.
pub fn mark_waves(marks: &mut [bool], origins: &[usize], waves: [Option<usize>; 4])
    ensures { marks.new ≡ marked marks.old
        (origins_at origins.now (filter_map (λ wave. wave) waves)) }
{
    for wave in waves {
        mark_wave(marks, origins, wave);
    }
}

/// Marks the signal at a position, if there is one.
fn mark_wave(marks: &mut [bool], origins: &[usize], wave: Option<usize>)
    ensures { marks.new ≡ marked marks.old (origins_at origins.now (option_to_list wave)) }
{
    if let Some(signal) = wave {
        mark_signal(marks, origins, signal);
    }
}

/// Marks the signal at a position. A derived signal has no origin.
fn mark_signal(marks: &mut [bool], origins: &[usize], signal: usize)
    ensures { marks.new ≡ marked marks.old (origins_at origins.now (signal ∷ [])) }
{
    if let Some(origin) = origins.get(signal) {
        mark(marks, *origin);
    }
}

/// Marks the signal at a position of the first capture.
fn mark(marks: &mut [bool], position: usize)
    ensures { marks.new ≡ marked marks.old (position ∷ []) }
{
    if position < marks.len() {
        marks[position] = true;
    }
}
