//! Calls on a wave that is full: it holds one change, at tick 0, and has no room for another.

ghost use Rattle.std.specs.Prelude.{◌≡◌, ◌≤◌, All, IfOk};

use crate::calls::Call;
use crate::printing::{Failure, allow, outcome_of_copy, print_wave, refuse};
use std::alloc::Global;
use std::rt::Runtime;
use vcd_core::{Bit, LetterBlock, NoMemory, Value, Wave};

/// How many changes room is made for.
const MORE: usize = 9;

/// A wave of one change, at tick 0, without room for another.
fn full_wave(alloc: Global) -> Result<Wave, NoMemory>
    ensures width { IfOk result (λ w. w.width ≡ 1) }
    ensures early { IfOk result (λ w. All (λ c. c.tick ≤ 0) w.changes) }
{
    let mut wave = Wave::new(alloc, 1);
    wave.reserve_exact(1)?;
    wave.push(0, Value::filled(1, Bit::One))?;
    Ok(wave)
}

/// Makes the call `Wave::push`, `push_block`, `share`, `copy`, `reserve` or `reserve_exact`, by its
/// name. With the word `shared` another wave shares the list, and is printed, too.
pub fn call_on_wave<R: Runtime + AllocGlobal>(rt: &R, call: &Call) -> Result<(), Failure> {
    let mut wave = full_wave(rt.alloc())?;
    if call.argument == "shared" {
        let other = wave.share()?;
        make_growth(rt, call, &mut wave)?;
        return print_wave(rt, &other);
    }
    make_growth(rt, call, &mut wave)
}

/// Makes the call unless it is omitted, and prints its outcome and the wave.
fn make_growth<R: Runtime + AllocGlobal>(
    rt: &R,
    call: &Call,
    wave: &mut Wave,
) -> Result<(), Failure>
    requires width { wave.old.width ≡ 1 }
    requires early { All (λ c. c.tick ≤ 0) wave.old.changes }
{
    if call.makes {
        refuse(rt)?;
        allow(rt, outcome_of_copy(copy_or_grow(wave, call.name)))?;
    }
    print_wave(rt, wave)
}

/// Makes the call of a name: `share`, `copy`, or one that grows the wave. Answers whether the wave
/// that it gives, if it gives one, is equal.
fn copy_or_grow(wave: &mut Wave, name: &str) -> Result<bool, NoMemory>
    requires width { wave.old.width ≡ 1 }
    requires early { All (λ c. c.tick ≤ 0) wave.old.changes }
{
    match name {
        "share" => {
            let other = wave.share()?;
            Ok(are_equal_waves(&other, wave))
        }
        "copy" => {
            let other = wave.copy()?;
            Ok(are_equal_waves(&other, wave))
        }
        _ => {
            grow(wave, name)?;
            Ok(true)
        }
    }
}

/// Whether two waves have one width and the same changes.
fn are_equal_waves(wave: &Wave, other: &Wave) -> bool {
    wave.width() == other.width() && wave.changes() == other.changes()
}

/// Makes the call of a name: `push`, `push_block`, `reserve`, else `reserve_exact`.
fn grow(wave: &mut Wave, name: &str) -> Result<(), NoMemory>
    requires width { wave.old.width ≡ 1 }
    requires early { All (λ c. c.tick ≤ 0) wave.old.changes }
{
    match name {
        "push" => wave.push(5, Value::filled(1, Bit::Zero)),
        "push_block" => wave.push_block(5, LetterBlock { low: 0, high: 0 }),
        "reserve" => wave.reserve(MORE),
        _ => wave.reserve_exact(MORE),
    }
}
