//! Changing the value of a code.

ghost use Rattle.std.specs.Prelude.{◌≡◌, ◌⊎◌, ◌≤◌, ℕ, List, is_some, IfErr, OnOk, All};
ghost use Rattle.vcd_text.specs.Grammar.{ParseState, variable_of};
ghost use Rattle.vcd_text.specs.inside.reading.Variables.{target_of, VariablesMatch, ChangeResult};
ghost use Rattle.vcd_text.specs.inside.reading.Variables.{HasValueFrom};
ghost use Rattle.vcd_text.specs.inside.reading.Part.{seen_tick, PartChange};
ghost use Rattle.vcd_text.specs.inside.reading.BinaryNumber.{RefusesBinaryNumber};
ghost use Rattle.vcd_text.specs.declared.fault.Fault.TheVariants.{NoMemory as NoMemoryFault};
ghost use Rattle.vcd_text.specs.declared.reading.code_targets.CodeTarget.TheVariants.{Kept};

use crate::fault::Fault;
use crate::reading::binary_number::{check_digits, read_letter_block, read_value};
use crate::reading::code_targets::CodeTarget;
use crate::reading::log::{LoggedChange, append};
use crate::reading::part::{Part, is_set};
use crate::reading::variables::{Variable, Variables};

/// From `tick` on, a code has the value of these digits.
#[derive(Clone, Copy)]
pub struct CodeChange<'a> {
    pub code: &'a [u8],
    pub tick: u64,
    pub digits: &'a [u8],
}

impl Variable {
    /// Appends a change to the wave: from `tick` on it has the value of these digits.
    fn change_wave(&mut self, tick: u64, digits: &[u8]) -> Result<(), Fault>
        requires none_later { All (λ change. change.tick ≤ tick) self.old.wave.changes }
        ensures values { OnOk result (HasValueFrom tick digits.now self.old self.new) }
        ensures refuses { IfErr result (λ fault. (fault ≡ NoMemoryFault) ⊎
            RefusesBinaryNumber self.old.wave.width digits.now fault) }
    {
        let value = read_value(self.wave.width(), digits)?;
        self.wave.push(tick, value)?;
        Ok(())
    }
}

impl Variables {
    /// Takes a change at its tick of the file. It takes one look-up of the code. A skipped code
    /// accepts any digits.
    ///
    /// The change is pushed to the log or a wave, at its tick in the part. If it is past the part,
    /// or its code is `silent` by the position of its first variable, it is only checked.
    #[inline(always)]
    pub fn change(
        &mut self,
        change: &CodeChange<'_>,
        part: &Part,
        silent: &[bool],
    ) -> Result<(), Fault>
        requires known { (c : ParseState) × VariablesMatch self.old c
            × (c.tick ≡ seen_tick part.now change.now.tick) }
        ensures { (c : ParseState) → c.tick ≡ seen_tick part.now change.now.tick
            → VariablesMatch self.old c → PartChange part.now silent.now change.now.tick c
            change.now.code.now change.now.digits.now self.old result self.new }
    {
        match self.code_targets.get(change.code) {
            CodeTarget::Undeclared => Err(Fault::UnknownCode),
            CodeTarget::Skipped => Ok(()),
            CodeTarget::Kept(width, first) => {
                let (width, first) = (u64::from(width), first as usize);
                // Two tests, not `||`: the proof cites each alone.
                if part.is_late(change.tick) {
                    return check_digits(width, change.digits);
                }
                if is_set(silent, first) {
                    return check_digits(width, change.digits);
                }
                let seen = CodeChange {
                    tick: part.seen_tick(change.tick),
                    ..*change
                };
                self.change_at(width, first, &seen, change.tick < part.first)
            }
        }
    }

    /// Appends a change of the variable of this width at a position, the first of its code. One of
    /// at most 64 bits gets it in the log, a wider one in its wave.
    ///
    /// While the log is empty, a change before the part (`early`) goes to the wave at once. It
    /// replaces the one before it there; the log would hold both. Its tick, which is that in the
    /// part, does not tell that it is early: up to the first tick of the part it is 0.
    #[inline(always)]
    fn change_at(
        &mut self,
        width: u64,
        first: usize,
        change: &CodeChange<'_>,
        early: bool,
    ) -> Result<(), Fault>
        requires known { (c : ParseState) × (code : List ℕ) × VariablesMatch self.old c
            × (c.tick ≤ change.now.tick)
            × (target_of self.old code ≡ Kept width first) }
        ensures changed { (c : ParseState) (code : List ℕ) → c.tick ≡ change.now.tick →
            VariablesMatch self.old c →
            target_of self.old code ≡ Kept width first →
            ChangeResult c code change.now.digits.now result self.new }
        ensures targets { self.new.code_targets ≡ self.old.code_targets }
    {
        if width > 64 {
            return self.kept[first].change_wave(change.tick, change.digits);
        }
        // Nested, not `&&`: the proof cites the second test alone.
        if early {
            if self.log.is_empty() {
                return self.kept[first].change_wave(change.tick, change.digits);
            }
        }
        let block = read_letter_block(width, change.digits)?;
        let logged = LoggedChange {
            tick: change.tick,
            position: first,
            block,
        };
        let alloc = *self.kept.allocator();
        append(&mut self.log, alloc, logged)?;
        Ok(())
    }

    /// Whether a code has been declared.
    pub fn has_code(&self, code: &[u8]) -> bool
        ensures { (c : ParseState) → VariablesMatch self.now c
            → result ≡ is_some (variable_of c code.now) }
    {
        match self.code_targets.get(code) {
            CodeTarget::Undeclared => false,
            CodeTarget::Skipped | CodeTarget::Kept(_, _) => true,
        }
    }
}
