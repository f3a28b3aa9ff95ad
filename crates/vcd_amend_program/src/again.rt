//! The capture as it is opened once more, for each line that is decoded while it is read.

ghost use Rattle.std.specs.Prelude.{◌≡◌, ◌≢◌, ◌||◌, ℕ, false, true, Ok, IfErr, OnOk};
ghost use Rattle.vcd_devices.specs.Sums.{HasSum};
ghost use Rattle.vcd_amend_program.specs.ProgramEnds.{IsCaptureFault, not_read};
ghost use Rattle.vcd_amend_program.specs.Sums.{HaveSum, HaveOtherSum};
ghost use Rattle.vcd_amend_program.specs.declared.amend_error.AmendError.TheVariants as
    amend_errors;
ghost use Rattle.vcd_amend_program.specs.declared.again.Readings.TheVariants as readings;
ghost use Rattle.vcd_amend_run.specs.declared.running.AmendRunError.TheVariants as run_errors;

use crate::amend_error::{AmendError, NOT_READ};
use std::rt::Runtime;
use vcd_amend_run::{AmendRunError, Reopen};
use vcd_core::{DeviceFault, Source};
use vcd_devices::{Pass, Summed, Watch, open_pass};
use vcd_replace::SeenFile;

/// The capture file, of which each reading shows how far it is.
#[derive(Drop)]
pub struct CaptureAgain<'a, R> {
    rt: &'a R,
    capture: SeenFile<'a>,
    watch: Watch,
    // it could not be opened, or a reading has failed
    failed: bool,
}

/// A file whose readings are compared by their sums.
#[derive(Drop)]
pub struct SummedAgain<A> {
    file: A,
    failed: bool,
    readings: Readings,
}

/// What is known of the readings of a file.
#[derive(Clone, Copy)]
pub enum Readings {
    /// None was begun.
    NoneBegun,
    /// All that were begun have this sum.
    OneSum(u64),
    /// Two have different sums.
    TwoSums,
    /// One could not be read to its end.
    Unread,
}

impl<'a, R: Runtime + AllocGlobal> CaptureAgain<'a, R> {
    /// The capture, before it is opened.
    pub fn new(rt: &'a R, capture: SeenFile<'a>, watch: Watch) -> CaptureAgain<'a, R>
        ensures { result.failed ≡ false }
    {
        CaptureAgain {
            rt,
            capture,
            watch,
            failed: false,
        }
    }
}

impl<'a, R: Runtime + AllocGlobal> Reopen<Pass<'a, R>> for CaptureAgain<'a, R> {
    ghost has_failed = { λ file. file.failed };

    fn open(&mut self) -> Result<Pass<'a, R>, DeviceFault> {
        if self.failed {
            return Err(DeviceFault);
        }
        let line = self.watch.line_with_replies("decodes a line");
        let opened = open_pass(self.rt, self.capture, line);
        self.failed = opened.is_err();
        opened
    }

    fn close(&mut self, mut source: Pass<'a, R>) {
        self.failed = self.failed || source.failed();
        source.source().clear();
    }
}

impl<A> SummedAgain<A> {
    /// The same file, before it is opened.
    pub fn new(file: A) -> SummedAgain<A>
        ensures { result.failed ≡ false }
    {
        SummedAgain {
            file,
            failed: false,
            readings: Readings::NoneBegun,
        }
    }

    /// Refuses a file of which a reading has another sum. One that was not opened has none.
    pub fn refuse_other(&self, sum: u64) -> Result<(), AmendError>
        ensures same { OnOk result (HaveSum sum self.now.readings) }
        ensures fault { IfErr result IsCaptureFault }
        ensures changed { IfErr result (λ e. e ≡ amend_errors.Run run_errors.CaptureChanged →
            HaveOtherSum sum self.now.readings) }
        ensures unread { IfErr result (λ e. e ≡ not_read → self.now.readings ≡ readings.Unread) }
    {
        match self.readings {
            Readings::NoneBegun => Ok(()),
            Readings::OneSum(found) if found == sum => Ok(()),
            Readings::Unread => Err(NOT_READ),
            _ => Err(AmendError::Run(AmendRunError::CaptureChanged)),
        }
    }
}

impl<S: Source, A: Reopen<Summed<S>>> Reopen<Summed<S>> for SummedAgain<A> {
    ghost whole = { λ again. A.whole again.file };

    ghost has_failed = { λ again. again.failed };

    fn open(&mut self) -> Result<Summed<S>, DeviceFault> {
        if self.failed {
            return Err(DeviceFault);
        }
        let opened = self.file.open();
        self.failed = opened.is_err();
        opened
    }

    fn close(&mut self, mut source: Summed<S>)
        ensures kept { A.whole self.new.file ≡ A.whole self.old.file }
        ensures failed { self.new.failed ≡ (self.old.failed || S.has_failed source.source) }
        // a sum that all readings have, those before had
        ensures before { (sum : ℕ) → HaveSum sum self.new.readings → HaveSum sum self.old.readings }
        // and this one has it, which is read to its end
        ensures one_more { (sum : ℕ) → HaveSum sum self.new.readings
            → source.is_at_end ≡ true → HasSum sum source }
    {
        self.failed = self.failed || source.failed();
        self.readings = self.readings.with_reading(&mut source);
        self.file.close(source);
    }
}

impl Readings {
    /// These and one more, which is read to its end if it was begun.
    fn with_reading<S: Source>(self, reading: &mut Summed<S>) -> Readings
        ensures before { (sum : ℕ) → HaveSum sum result → HaveSum sum self }
        ensures one_more { (sum : ℕ) → HaveSum sum result
            → reading.old.is_at_end ≡ true → HasSum sum reading.old }
    {
        if !reading.is_begun() {
            return self;
        }
        self.with_sum(reading.whole_sum())
    }

    /// These and one more, with its sum, or without one if it could not be read to its end.
    fn with_sum(self, found: Result<u64, DeviceFault>) -> Readings
        ensures before { (sum : ℕ) → HaveSum sum result → HaveSum sum self }
        ensures one_more { (sum : ℕ) → HaveSum sum result → found ≡ Ok sum }
        ensures both { (sum : ℕ) → HaveSum sum self → found ≡ Ok sum → HaveSum sum result }
        ensures two { (first second : ℕ) → self ≡ readings.OneSum first → found ≡ Ok second
            → first ≢ second → result ≡ readings.TwoSums }
    {
        match (self, found) {
            (Readings::NoneBegun, Ok(sum)) => Readings::OneSum(sum),
            (Readings::OneSum(first), Ok(sum)) if first != sum => Readings::TwoSums,
            (Readings::OneSum(_) | Readings::NoneBegun, Err(_)) => Readings::Unread,
            _ => self,
        }
    }
}
