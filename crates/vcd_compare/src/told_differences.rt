//! The differences of two variables as they are told, in the room that they need.

ghost use Rattle.std.specs.Prelude.{◌≡◌, IfOk, option_map, true};
ghost use Rattle.vcd_compare.specs.VariableDifferences.{by_letters, by_words, of_letters, of_word};
ghost use Rattle.vcd_compare.specs.VariableDifferences.{count_of, first_of, last_of};
ghost use Rattle.vcd_compare.specs.VariableDifferences.{difference_map};
ghost use Rattle.vcd_compare.specs.inside.ToldDifferences.{told_difference};

use crate::differences::{Difference, Differences};
use crate::narrow_value::NarrowValue;
use crate::told_value::ToldValue;
use crate::word_value::WordValue;
use std::alloc::Global;
use std::marker::Model;
use vcd_core::{NoMemory, Value};

/// Differences, with values in the room that they need.
#[derive(Drop)]
pub enum SizedDifferences {
    /// None of two signals, which takes no memory.
    NoLetters,
    /// None of two other variables.
    NoWords,
    /// Of values of at most 64 bits.
    Narrow(Box<Differences<NarrowValue>>),
    /// Of values of any width.
    Wide(Box<Differences<Value>>),
    /// Of words.
    Words(Box<Differences<WordValue>>),
}

/// The differences of two variables. Contracts see them with letters or with words as values.
#[derive(Drop)]
pub struct ToldDifferences {
    sized: SizedDifferences,
}

impl Model for ToldDifferences {
    ghost use Rattle.vcd_compare.specs.VariableDifferences.{VariableDifferences};

    ghost Value = { VariableDifferences };

    ghost use Rattle.vcd_compare.specs.inside.ToldDifferences.{differences_in};

    ghost view = { λ told. differences_in told.sized };
}

impl ToldDifferences {
    /// Those of two signals of at most 64 bits.
    pub fn narrow(
        alloc: Global,
        differences: Differences<NarrowValue>,
    ) -> Result<ToldDifferences, NoMemory>
        ensures { IfOk result (λ told. told ≡ by_letters differences) }
    {
        if differences.is_empty() {
            return Ok(ToldDifferences {
                sized: SizedDifferences::NoLetters,
            });
        }
        let kept = Box::new(alloc, differences)?;
        Ok(ToldDifferences {
            sized: SizedDifferences::Narrow(kept),
        })
    }

    /// Those of two signals of any width.
    pub fn wide(alloc: Global, differences: Differences<Value>) -> Result<ToldDifferences, NoMemory>
        ensures { IfOk result (λ told. told ≡ by_letters differences) }
    {
        if differences.is_empty() {
            return Ok(ToldDifferences {
                sized: SizedDifferences::NoLetters,
            });
        }
        let kept = Box::new(alloc, differences)?;
        Ok(ToldDifferences {
            sized: SizedDifferences::Wide(kept),
        })
    }

    /// Those of two variables that are compared by words.
    pub fn words(
        alloc: Global,
        differences: Differences<WordValue>,
    ) -> Result<ToldDifferences, NoMemory>
        ensures { IfOk result (λ told. told ≡ by_words differences) }
    {
        if differences.is_empty() {
            return Ok(ToldDifferences {
                sized: SizedDifferences::NoWords,
            });
        }
        let kept = Box::new(alloc, differences)?;
        Ok(ToldDifferences {
            sized: SizedDifferences::Words(kept),
        })
    }

    /// How many there are.
    pub fn count(&self) -> u64
        ensures { result ≡ count_of self.now }
    {
        match &self.sized {
            SizedDifferences::NoLetters | SizedDifferences::NoWords => 0,
            SizedDifferences::Narrow(differences) => differences.count,
            SizedDifferences::Wide(differences) => differences.count,
            SizedDifferences::Words(differences) => differences.count,
        }
    }

    /// The first of them.
    pub fn first(&self) -> Option<Difference<ToldValue<'_>>>
        ensures { option_map told_difference result ≡ first_of self.now }
    {
        match &self.sized {
            SizedDifferences::NoLetters | SizedDifferences::NoWords => None,
            SizedDifferences::Narrow(differences) => told_narrow(&differences.first),
            SizedDifferences::Wide(differences) => told_wide(&differences.first),
            SizedDifferences::Words(differences) => told_words(&differences.first),
        }
    }

    /// The last of the others.
    pub fn last(&self) -> Option<Difference<ToldValue<'_>>>
        ensures { option_map told_difference result ≡ last_of self.now }
    {
        match &self.sized {
            SizedDifferences::NoLetters | SizedDifferences::NoWords => None,
            SizedDifferences::Narrow(differences) => told_narrow(&differences.last),
            SizedDifferences::Wide(differences) => told_wide(&differences.last),
            SizedDifferences::Words(differences) => told_words(&differences.last),
        }
    }
}

/// A difference of two signals of at most 64 bits, as it is told.
fn told_narrow(
    difference: &Option<Difference<NarrowValue>>,
) -> Option<Difference<ToldValue<'static>>>
    ensures { option_map told_difference result
        ≡ option_map (difference_map of_letters) difference.now }
{
    let difference = difference.as_ref()?;
    Some(Difference {
        ticks: difference.ticks,
        value_in_a: ToldValue::Letters(difference.value_in_a.widened()),
        value_in_b: ToldValue::Letters(difference.value_in_b.widened()),
    })
}

/// A difference of two signals of any width, as it is told.
fn told_wide(difference: &Option<Difference<Value>>) -> Option<Difference<ToldValue<'static>>>
    ensures { option_map told_difference result
        ≡ option_map (difference_map of_letters) difference.now }
{
    let difference = difference.as_ref()?;
    Some(Difference {
        ticks: difference.ticks,
        value_in_a: ToldValue::Letters(difference.value_in_a),
        value_in_b: ToldValue::Letters(difference.value_in_b),
    })
}

/// A difference of two other variables, as it is told.
fn told_words(difference: &Option<Difference<WordValue>>) -> Option<Difference<ToldValue<'_>>>
    ensures { option_map told_difference result
        ≡ option_map (difference_map of_word) difference.now }
{
    let difference = difference.as_ref()?;
    Some(Difference {
        ticks: difference.ticks,
        value_in_a: ToldValue::Word(difference.value_in_a.as_slice()),
        value_in_b: ToldValue::Word(difference.value_in_b.as_slice()),
    })
}
