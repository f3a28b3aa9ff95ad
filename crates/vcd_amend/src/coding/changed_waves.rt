//! The waves to which variables change, each once.

ghost use Rattle.std.specs.Prelude.{◌≡◌, ◌++◌, ◌∷◌, ◌&&◌, [], ℕ, Bool, List, false, true, map};
ghost use Rattle.std.specs.Prelude.{length};
ghost use Rattle.std.specs.Prelude.{IfOk, OnOk, Some, if◌then◌else◌, MatchOption};
ghost use Rattle.std.specs.List.{list_any, slice_get};
ghost use Rattle.vcd_core.specs.CaptureContents.{signal_contents};
ghost use Rattle.vcd_amend.specs.GivenCodes.{NewWave, same_new_wave, same_own_code};
ghost use Rattle.vcd_amend.specs.GivenCodes as given;
ghost use Rattle.vcd_amend.specs.inside.coding.KeptSignals as spec;
ghost use Rattle.vcd_amend.specs.inside.coding.ChangedWaves.{kept_contents, new_waves_of};
ghost use Rattle.vcd_amend.specs.inside.coding.ChangedWaves.{LeadsToWaves, AreDistinct, unseen};
ghost use Rattle.vcd_amend.specs.inside.coding.ChangedWaves.{IsFirst, IsIndexOf, AreIndices};

use super::kept_signal::{ChangedWave, KeptSignal};
use super::kept_signals::same_changes;
use indexmap::IndexMap;
use std::alloc::Global;
use vcd_core::{NoMemory, Signal, Wave, copy_word};

/// The waves to which variables change, each once: two variables share one if they have one code
/// and change to the same wave.
#[derive(Drop)]
pub struct ChangedWaves<'a> {
    /// The waves, in the order of their first variables.
    pub waves: Vec<ChangedWave<'a>>,
    /// The index of the last wave of each code.
    pub newest: IndexMap<Vec<u8>, usize>,
}

/// The waves to which kept variables change, and for each of these variables the index of its wave,
/// if it changes.
pub fn changed_waves<'a>(
    alloc: Global,
    kept: &[KeptSignal<'a>],
) -> Result<(Vec<ChangedWave<'a>>, Vec<Option<usize>>), NoMemory>
    ensures waves { IfOk result (λ r. new_waves_of r.0.items
        ≡ spec.changed_waves (map kept_contents kept.now)) }
    ensures indices { IfOk result (λ r. AreIndices (new_waves_of r.0.items)
        (map kept_contents kept.now) r.1.items) }
{
    let mut changed = ChangedWaves {
        waves: Vec::new(alloc),
        newest: IndexMap::new(alloc),
    };
    let mut indices = Vec::with_capacity(alloc, kept.len())?;
    for signal in kept {
        indices.push(add_changed(&mut changed, alloc, signal)?)?;
    }
    let ChangedWaves { waves, newest: _ } = changed;
    Ok((waves, indices))
}

/// Adds the wave to which a variable changes, unless it is there, and gives its index.
fn add_changed<'a>(
    changed: &mut ChangedWaves<'a>,
    alloc: Global,
    kept: &KeptSignal<'a>,
) -> Result<Option<usize>, NoMemory>
    requires { LeadsToWaves changed.old }
    ensures waves { OnOk result (new_waves_of changed.new.waves.items
        ≡ new_waves_of changed.old.waves.items
        ++ unseen (new_waves_of changed.old.waves.items)
        (spec.changed_wave (kept_contents kept.now) (kept_contents kept.now).left)) }
    ensures leads { OnOk result (LeadsToWaves changed.new) }
    ensures index { IfOk result (λ index. AreDistinct (new_waves_of changed.old.waves.items)
        → IsIndexOf (new_waves_of changed.new.waves.items)
        (spec.changed_wave (kept_contents kept.now) (kept_contents kept.now).left) index) }
{
    if kept.is_unchanged {
        return Ok(None);
    }
    match kept.left {
        None => Ok(None),
        Some(signal) => Ok(Some(add_wave(changed, alloc, kept, signal)?)),
    }
}

/// Adds the wave of a signal to which a variable changes, unless it is there, and gives its index.
fn add_wave<'a>(
    changed: &mut ChangedWaves<'a>,
    alloc: Global,
    kept: &KeptSignal<'a>,
    signal: &'a Signal,
) -> Result<usize, NoMemory>
    requires leads { LeadsToWaves changed.old }
    requires size { signal.now.wave.width ≡ kept.now.variable.now.size }
    ensures waves { OnOk result (new_waves_of changed.new.waves.items
        ≡ new_waves_of changed.old.waves.items ++ unseen (new_waves_of changed.old.waves.items)
        (spec.wave_of_kept (kept_contents kept.now) (signal_contents signal.now) ∷ [])) }
    ensures leads { OnOk result (LeadsToWaves changed.new) }
    ensures index { IfOk result (λ i. AreDistinct (new_waves_of changed.old.waves.items)
        → IsFirst (same_new_wave (spec.wave_of_kept (kept_contents kept.now)
        (signal_contents signal.now))) (new_waves_of changed.new.waves.items) i) }
{
    let code = kept.variable.code.as_slice();
    if let Some(index) = index_of_wave(changed, code, &signal.wave) {
        return Ok(index);
    }
    let index = push_wave(changed, alloc, code, kept.old, &signal.wave)?;
    Ok(index)
}

/// Appends a wave, and gives its index.
fn push_wave<'a>(
    changed: &mut ChangedWaves<'a>,
    alloc: Global,
    code: &'a [u8],
    old: &'a Wave,
    new: &'a Wave,
) -> Result<usize, NoMemory>
    requires leads { LeadsToWaves changed.old }
    requires width { old.now.width ≡ new.now.width }
    ensures waves { OnOk result (new_waves_of changed.new.waves.items
        ≡ new_waves_of changed.old.waves.items ++ record {
          own = Some code.now;
          width = new.now.width;
          old = old.now.changes;
          new = new.now.changes;
        } ∷ []) }
    ensures leads { OnOk result (LeadsToWaves changed.new) }
    ensures index { IfOk result (λ index. index ≡ length changed.old.waves.items) }
{
    let index = changed.waves.len();
    let earlier = changed.newest.get(code).copied();
    let wave = ChangedWave {
        code,
        old,
        new,
        earlier,
    };
    let key = copy_word(alloc, code)?.into_vec();
    changed.newest.insert(key, index)?;
    changed.waves.push(wave)?;
    Ok(index)
}

/// The index of a wave of the code with these changes, if there is one. The waves of the code are
/// compared from the last one on back.
fn index_of_wave(changed: &ChangedWaves, code: &[u8], new: &Wave) -> Option<usize>
    requires { LeadsToWaves changed.now }
    ensures { let same : NewWave → Bool = λ v. same_own_code (Some code.now) v.own
        && given.same_changes new.now.changes v.new in
        MatchOption result (list_any same (new_waves_of changed.now.waves.items) ≡ false)
        (λ i. (v : NewWave) × (slice_get (new_waves_of changed.now.waves.items) i ≡ Some v)
        × (same v ≡ true)) }
{
    let mut next = changed.newest.get(code).copied();
    while let Some(index) = next {
        let wave = &changed.waves[index];
        if same_changes(new, wave.new) {
            return Some(index);
        }
        next = wave.earlier;
    }
    None
}
