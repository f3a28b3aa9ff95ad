//! The signals of the variables at the end of a file. Each has its own wave, or shares the list of
//! the first signal with its code.

ghost use Rattle.std.specs.Prelude.{◌≡◌, ◌++◌, ◌∷◌, [], map, slice_get, IfOk, OnOk};
ghost use Rattle.vcd_core.specs.CaptureContents.{signal_contents};
ghost use Rattle.vcd_text.specs.Grammar.{ParseState, kept_variables};
ghost use Rattle.vcd_text.specs.Meaning.{declared_signal};
ghost use Rattle.vcd_text.specs.inside.reading.Scopes.{IsWithin};
ghost use Rattle.vcd_text.specs.inside.reading.Variables.{VariablesMatch, Finishes, FinishesWave};

use crate::reading::log::move_log_to_waves;
use crate::reading::variables::{Variable, Variables};
use std::alloc::Global;
use std::mem::replace;
use vcd_core::{NoMemory, ScopePath, Signal, Wave};

impl Variables {
    /// The signals of the kept variables, in their order. The paths in one chain share its list.
    ///
    /// The waves are made from the log first. Each is moved. The later variables of a code share
    /// the list of the first, so no change is copied.
    pub fn into_signals(self, alloc: Global) -> Result<Vec<Signal>, NoMemory>
        requires { (c : ParseState) × VariablesMatch self c }
        ensures { IfOk result (λ signals. (c : ParseState) → VariablesMatch self c →
            map signal_contents signals.items ≡
            map (declared_signal c.value_changes c.tick) (kept_variables c.declared)) }
    {
        let mut variables = self;
        variables.move_log(alloc)?;
        variables.finished_signals(alloc)
    }

    /// Gives the waves their changes of the log, which is then empty.
    #[tactic(auto, using(crate::proofs::reading::log::MovedToWaves::variables_can_move))]
    fn move_log(&mut self, alloc: Global) -> Result<(), NoMemory>
        requires { (c : ParseState) × VariablesMatch self.old c }
        ensures same { OnOk result ((c : ParseState) → VariablesMatch self.old c
            → VariablesMatch self.new c) }
        ensures empty { OnOk result (self.new.log.items ≡ []) }
    {
        let groups = replace(&mut self.log, Vec::new(alloc));
        move_log_to_waves(&mut self.kept, groups)
    }

    /// The signals of the kept variables, if the log is empty.
    fn finished_signals(self, alloc: Global) -> Result<Vec<Signal>, NoMemory>
        requires empty { self.log.items ≡ [] }
        requires known { (c : ParseState) × VariablesMatch self c }
        ensures { IfOk result (λ signals. (c : ParseState) → VariablesMatch self c →
            map signal_contents signals.items ≡
            map (declared_signal c.value_changes c.tick) (kept_variables c.declared)) }
    {
        let Variables { scopes, kept, .. } = self;
        let chains = scopes.into_chains()?;
        let mut signals = Vec::with_capacity(alloc, kept.len())?;
        for variable in kept {
            push_signal(&mut signals, variable, &chains)?;
        }
        Ok(signals)
    }
}

/// Appends the signal of a variable to those of the variables before it.
fn push_signal(
    signals: &mut Vec<Signal>,
    variable: Variable,
    chains: &[ScopePath],
) -> Result<(), NoMemory>
    requires { IsWithin chains.now variable.place }
    ensures { OnOk result ((signal : Signal) × Finishes chains.now variable
        (slice_get signals.old.items variable.first) signal ×
        (map signal_contents signals.new.items
        ≡ map signal_contents signals.old.items ++ signal_contents signal ∷ [])) }
{
    let Variable {
        place,
        kind,
        words,
        wave,
        first,
        ..
    } = variable;
    let scopes = chains[place.chain].prefix(place.count)?;
    let wave = finished_wave(wave, first, signals.as_mut_slice())?;
    signals.push(Signal {
        scopes,
        kind,
        words,
        wave,
    })?;
    Ok(())
}

/// The wave of a variable, given the signals of the variables before it.
fn finished_wave(own: Wave, first: usize, before: &mut [Signal]) -> Result<Wave, NoMemory>
    ensures finished { IfOk result (FinishesWave own (slice_get before.old first)) }
    ensures contents { map signal_contents before.new ≡ map signal_contents before.old }
{
    if first < before.len() {
        return before[first].wave.share();
    }
    // No effect: the call's clause shows the prover that the list is a wave.
    own.changes();
    Ok(own)
}
