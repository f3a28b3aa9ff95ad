//! Two waves that are compared, in the room that their values need.

ghost use Rattle.std.specs.Prelude.{ℕ, ◌≤◌, ◌<◌, ◌-◌, ◌^◌, true, false, IfOk, OnOk};
ghost use Rattle.vcd_core.specs.declared.value.TheConstants.{WIDTH_LIMIT};
ghost use Rattle.vcd_compare.specs.inside.Pairs.{HasText, AreToldOfWaves};
ghost use Rattle.vcd_compare.specs.inside.Planning.{AreFirstWaves};
ghost use Rattle.vcd_compare.specs.inside.SizedWaves.{waves_in, IsSized};

use crate::narrow_value::NarrowValue;
use crate::pairs::VariableChange;
use crate::told_differences::ToldDifferences;
use crate::wave_pair::{Bounds, WavePair};
use crate::word_value::WordValue;
use std::alloc::Global;
use vcd_core::{Bit, NoMemory, Value};
use vcd_text::value_of_digits;

/// Two waves of letters of one width, or of words.
#[derive(Drop)]
pub enum SizedWaves {
    /// Of at most 64 letters.
    Narrow(Box<WavePair<NarrowValue>>),
    /// Of letters of any width.
    Wide(Box<WavePair<Value>>),
    /// Of words.
    Words(Box<WavePair<WordValue>>),
}

impl SizedWaves {
    /// Two waves of letters at the first tick of the window, all x.
    pub fn new(alloc: Global, bounds: Bounds, width: u64) -> Result<SizedWaves, NoMemory>
        requires least { 1 ≤ width }
        requires most { width ≤ WIDTH_LIMIT }
        ensures sized { IfOk result (IsSized width) }
        ensures begun { IfOk result (λ made. AreFirstWaves bounds true width (waves_in made)) }
    {
        if width <= 64 {
            let x = NarrowValue::all_x(width);
            let waves = Box::new(alloc, WavePair::new(bounds, x, x)?)?;
            return Ok(SizedWaves::Narrow(waves));
        }
        let x = Value::filled(width, Bit::X);
        let waves = Box::new(alloc, WavePair::new(bounds, x, x)?)?;
        Ok(SizedWaves::Wide(waves))
    }

    /// Two waves of words at the first tick of the window, both empty.
    pub fn of_words(alloc: Global, bounds: Bounds) -> Result<SizedWaves, NoMemory>
        ensures sized { IfOk result (λ made. (width : ℕ) → IsSized width made) }
        ensures begun { IfOk result (λ made. AreFirstWaves bounds false 1 (waves_in made)) }
    {
        let waves = WavePair::new(bounds, WordValue::empty(alloc), WordValue::empty(alloc))?;
        Ok(SizedWaves::Words(Box::new(alloc, waves)?))
    }

    /// One of the waves has from a tick on the value that a text writes, or the text itself.
    pub fn change(
        &mut self,
        bounds: Bounds,
        width: u64,
        change: &VariableChange<'_>,
    ) -> Result<(), NoMemory>
        requires { IsSized width self.old }
        ensures sized { IsSized width self.new }
        ensures changed { OnOk result (HasText width bounds change.now.which change.now.tick
            change.now.text.now (waves_in self.old) (waves_in self.new)) }
    {
        match self {
            SizedWaves::Narrow(waves) => {
                let Some(value) = NarrowValue::of_digits(width, change.text) else {
                    return Ok(());
                };
                waves.change(bounds, change.which, change.tick, value)?;
                Ok(())
            }
            SizedWaves::Wide(waves) => {
                let Some(value) = value_of_digits(width, change.text) else {
                    return Ok(());
                };
                waves.change(bounds, change.which, change.tick, value)?;
                Ok(())
            }
            SizedWaves::Words(waves) => {
                let word = waves.a.with_bytes(change.text)?;
                waves.change(bounds, change.which, change.tick, word)?;
                Ok(())
            }
        }
    }

    /// What is told, if the waves keep their values up to `last`, the last tick of the window.
    pub fn finish(
        self,
        alloc: Global,
        bounds: Bounds,
        last: u64,
    ) -> Result<(ToldDifferences, Option<u64>), NoMemory>
        ensures { last < 2 ^ 64 - 1 →
            IfOk result (λ told. AreToldOfWaves bounds last (waves_in self) told.0 told.1) }
    {
        match self {
            SizedWaves::Narrow(waves) => {
                let found = Box::into_inner(waves).finish(bounds, last)?;
                let differences = ToldDifferences::narrow(alloc, found.differences)?;
                Ok((differences, found.short_run))
            }
            SizedWaves::Wide(waves) => {
                let found = Box::into_inner(waves).finish(bounds, last)?;
                let differences = ToldDifferences::wide(alloc, found.differences)?;
                Ok((differences, found.short_run))
            }
            SizedWaves::Words(waves) => {
                let found = Box::into_inner(waves).finish(bounds, last)?;
                let differences = ToldDifferences::words(alloc, found.differences)?;
                Ok((differences, found.short_run))
            }
        }
    }
}
