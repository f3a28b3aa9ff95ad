//! A capture file while it is compared: its changes, one after another.

ghost use Rattle.std.specs.Prelude.{◌≡◌, ◌≤◌, ◌<◌, ◌*◌, ◌++◌, ◌∷◌, ℕ, true, false, List, Option};
ghost use Rattle.std.specs.Prelude.{IfOk, IfErr, IfSome, OnOk};
ghost use Rattle.vcd_core.specs.declared.capture.TheConstants.{SIGNAL_LIMIT};
ghost use Rattle.vcd_text.specs.Grammar.{ParseState};
ghost use Rattle.vcd_text.specs.HeardChanges.{HeardChange};
ghost use Rattle.vcd_text.specs.Refusals.{IsRefusal};
ghost use Rattle.vcd_text.specs.declared.reading.TheConstants.{LONG_FILE_LIMIT};
ghost use Rattle.vcd_text.specs.inside.reading.ChangeStream.{IsStreamAt};
ghost use Rattle.vcd_compare.specs.inside.Side.{IsSideAt, ReadsOn, ReadsToEnd, IsOpened, at_hand};
ghost use Rattle.vcd_compare.specs.inside.Side.{reads_to_come, first_tick};
ghost use Rattle.vcd_compare.specs.inside.Side as spec;

use crate::last_ticks::LastTicks;
use crate::left_out::{LeftOut, count_left_out};
use std::alloc::Global;
use vcd_core::Source;
use vcd_text::{ChangeStream, ReadError};

/// A capture file while it is compared.
#[derive(Drop)]
pub struct Side {
    pub stream: ChangeStream,
    /// How many changes of the last chunk were taken.
    pub taken: usize,
    /// Whether the file was read to its end.
    pub is_ended: bool,
    /// How many ticks of the comparison a tick of the file has.
    pub factor: u64,
    /// What is left out of what was read so far.
    pub left_out: LeftOut,
    /// The last ticks of its variables.
    pub last_ticks: LastTicks,
}

impl Side {
    /// A file of which nothing was taken. It is read until a change is at hand, or to its end.
    pub fn open<R: Source>(alloc: Global, source: &mut R) -> Result<Side, ReadError>
        requires ready { R.has_failed source.old ≡ false }
        ensures opened { IfOk result (IsOpened (R.coming source.old) (R.coming source.new)) }
        ensures not_failed { OnOk result (R.has_failed source.new ≡ false) }
        ensures refused { IfErr result (λ e. IfSome (R.coming source.old) (λ file.
            IsRefusal SIGNAL_LIMIT LONG_FILE_LIMIT file (R.has_failed source.new)
            (R.coming source.new) e)) }
    {
        let stream = ChangeStream::new(alloc);
        let taken = stream.heard().len();
        let mut side = Side {
            stream,
            taken,
            is_ended: false,
            factor: 1,
            left_out: LeftOut::nothing(),
            last_ticks: LastTicks::new(alloc),
        };
        side.reach_change(alloc, source)?;
        Ok(side)
    }

    /// Whether no change is at hand, and the file goes on.
    pub fn needs_chunk(&self) -> bool
        ensures { result ≡ spec.needs_chunk self.now }
    {
        !self.is_ended && self.stream.heard().len() <= self.taken
    }

    /// Reads until a change is at hand, or the file has ended.
    pub fn reach_change<R: Source>(
        &mut self,
        alloc: Global,
        source: &mut R,
    ) -> Result<(), ReadError>
        requires ready { R.has_failed source.old ≡ false }
        requires at { (coming : Option (List ℕ)) × (state : ParseState)
            × (given : List HeardChange)
            × IsSideAt coming (R.coming source.old) state given self.old }
        ensures reads { OnOk result ((coming : Option (List ℕ)) (state : ParseState)
            (given : List HeardChange) →
            IsSideAt coming (R.coming source.old) state given self.old →
            ReadsOn coming (R.coming source.new) state (given ++ at_hand self.old) given
            self.new) }
        ensures factor { self.new.factor ≡ self.old.factor }
        ensures reached { OnOk result (spec.needs_chunk self.new ≡ false) }
        ensures not_more { OnOk result (reads_to_come self.new ≤ reads_to_come self.old) }
        ensures fewer { spec.needs_chunk self.old ≡ true →
            OnOk result (reads_to_come self.new < reads_to_come self.old) }
        ensures not_failed { OnOk result (R.has_failed source.new ≡ false) }
        ensures refused { IfErr result (λ e. (coming : Option (List ℕ)) (state : ParseState)
            (given : List HeardChange) →
            IsSideAt coming (R.coming source.old) state given self.old →
            IfSome coming (λ file. IsRefusal SIGNAL_LIMIT LONG_FILE_LIMIT file
            (R.has_failed source.new) (R.coming source.new) e)) }
    {
        while self.needs_chunk() {
            self.read_chunk(alloc, source)?;
        }
        Ok(())
    }

    /// Reads the rest of the file, whose changes are not taken.
    pub fn read_rest<R: Source>(&mut self, alloc: Global, source: &mut R) -> Result<(), ReadError>
        requires ready { R.has_failed source.old ≡ false }
        requires at { (coming : Option (List ℕ)) × (state : ParseState)
            × (given : List HeardChange)
            × IsSideAt coming (R.coming source.old) state given self.old }
        ensures ended { OnOk result ((coming : Option (List ℕ)) (state : ParseState)
            (given : List HeardChange) →
            IsSideAt coming (R.coming source.old) state given self.old →
            ReadsToEnd coming state (given ++ at_hand self.old) self.old self.new) }
        ensures factor { self.new.factor ≡ self.old.factor }
        ensures not_failed { OnOk result (R.has_failed source.new ≡ false) }
        ensures refused { IfErr result (λ e. (coming : Option (List ℕ)) (state : ParseState)
            (given : List HeardChange) →
            IsSideAt coming (R.coming source.old) state given self.old →
            IfSome coming (λ file. IsRefusal SIGNAL_LIMIT LONG_FILE_LIMIT file
            (R.has_failed source.new) (R.coming source.new) e)) }
    {
        while !self.is_ended {
            self.read_chunk(alloc, source)?;
        }
        Ok(())
    }

    /// Reads a chunk, or finds the end of the file. The changes at hand are forgotten, and those of
    /// the chunk are counted.
    fn read_chunk<R: Source>(&mut self, alloc: Global, source: &mut R) -> Result<(), ReadError>
        requires ready { R.has_failed source.old ≡ false }
        requires goes_on { self.old.is_ended ≡ false }
        requires at { (coming : Option (List ℕ)) × (state : ParseState)
            × (given : List HeardChange)
            × IsSideAt coming (R.coming source.old) state given self.old }
        ensures reads { OnOk result ((coming : Option (List ℕ)) (state : ParseState)
            (given : List HeardChange) →
            IsSideAt coming (R.coming source.old) state given self.old →
            ReadsOn coming (R.coming source.new) state (given ++ at_hand self.old)
            (given ++ at_hand self.old) self.new) }
        ensures factor { self.new.factor ≡ self.old.factor }
        ensures fewer { OnOk result (reads_to_come self.new < reads_to_come self.old) }
        ensures not_failed { OnOk result (R.has_failed source.new ≡ false) }
        ensures refused { IfErr result (λ e. (coming : Option (List ℕ)) (state : ParseState)
            (given : List HeardChange) →
            IsSideAt coming (R.coming source.old) state given self.old →
            IfSome coming (λ file. IsRefusal SIGNAL_LIMIT LONG_FILE_LIMIT file
            (R.has_failed source.new) (R.coming source.new) e)) }
    {
        self.is_ended = !self.stream.read_more(alloc, source)?;
        self.taken = 0;
        let heard = self.stream.heard();
        count_left_out(&mut self.left_out, &mut self.last_ticks, heard)?;
        Ok(())
    }

    /// The tick of the change at hand, in ticks of the comparison, if there is one.
    pub fn next_tick(&self) -> Option<u128>
        ensures { result ≡ first_tick self.now.factor (at_hand self.now) }
    {
        let heard = self.stream.heard();
        if heard.len() <= self.taken {
            return None;
        }
        Some(u128::from(heard.get(self.taken).tick) * u128::from(self.factor))
    }

    /// The last stamp so far, in ticks of the comparison: at the file's end the end of its capture.
    pub fn reached(&self) -> u128
        ensures { (state : ParseState) → IsStreamAt self.now.stream state →
            result ≡ state.tick * self.now.factor }
    {
        u128::from(self.stream.tick()) * u128::from(self.factor)
    }

    /// Takes the change at hand.
    pub fn take(&mut self)
        ensures at_hand { (h : HeardChange) (rest : List HeardChange) →
            at_hand self.old ≡ h ∷ rest → at_hand self.new ≡ rest }
        ensures others { self.new ≡ record self.old { taken = self.new.taken } }
    {
        let count = self.stream.heard().len();
        self.taken = count.min(self.taken.saturating_add(1));
    }
}
