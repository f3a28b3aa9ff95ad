//! The passes over the capture file.

ghost use Rattle.std.specs.Prelude.{◌≡◌, ◌⊎◌, IfOk, IfErr, OnOk};
ghost use Rattle.vcd_amend_run.specs.AmendRunEnds.{AreReady};
ghost use Rattle.vcd_devices.specs.Sums.{HasSum, HasOtherSum};
ghost use Rattle.vcd_amend_program.specs.ProgramEnds.{IsCaptureFault, not_read};
ghost use Rattle.vcd_amend_program.specs.Sums.{HaveOneSum, HaveTwoSums};
ghost use Rattle.vcd_amend_program.specs.declared.amend_error.AmendError.TheVariants as
    amend_errors;
ghost use Rattle.vcd_amend_run.specs.declared.running.AmendRunError.TheVariants as run_errors;

use crate::again::{CaptureAgain, SummedAgain};
use crate::amend_error::{AmendError, NOT_READ};
use std::rt::Runtime;
use vcd_amend_run::{AmendRunError, Passes, Reopen};
use vcd_core::Source;
use vcd_devices::{Pass, Summed, Watch, open_first_pass, open_pass, tell_reason};
use vcd_replace::SeenFile;

/// Looks at the capture, which is to be a regular file.
pub fn find_capture<'a, R: Runtime + AllocGlobal>(
    rt: &R,
    path: &'a str,
) -> Result<SeenFile<'a>, AmendError>
    ensures fault { IfErr result (λ e. (e ≡ AmendError.NotAFile) ⊎ (e ≡ not_read)) }
{
    match SeenFile::find(rt, path) {
        Ok(Some(capture)) => Ok(capture),
        Ok(None) => Err(AmendError::NotAFile),
        Err(error) => {
            tell_reason(rt, path, &error);
            Err(NOT_READ)
        }
    }
}

/// The passes over a capture file.
pub type CapturePasses<'a, R> = Passes<Pass<'a, R>, SummedAgain<CaptureAgain<'a, R>>>;

/// Opens the capture for each pass but those of lines that are decoded while it is read.
pub fn open_passes<'a, R: Runtime + AllocGlobal>(
    rt: &'a R,
    capture: SeenFile<'a>,
) -> Result<CapturePasses<'a, R>, AmendError>
    ensures ready { IfOk result (AreReady ⟦<Pass<'a, R> as Source>⟧.has_failed
        ⟦<SummedAgain<CaptureAgain<'a, R>> as Reopen<Pass<'a, R>>>⟧.has_failed) }
    ensures fault { IfErr result (λ e. e ≡ not_read) }
{
    let watch = Watch::begin(rt, capture.length());
    let compares = watch.line("compares the passes");
    let reads = watch.line_with_forecast("reads the changes");
    let reads_others = watch.line_with_forecast("reads other changes");
    let writes = watch.line("writes the output");
    Ok(Passes {
        declarations: open_first_pass(rt, capture, compares).map_err(|_| NOT_READ)?,
        outline: open_pass(rt, capture, reads).map_err(|_| NOT_READ)?,
        changes: open_pass(rt, capture, reads_others).map_err(|_| NOT_READ)?,
        copy: open_pass(rt, capture, writes).map_err(|_| NOT_READ)?,
        again: SummedAgain::new(CaptureAgain::new(rt, capture, watch)),
    })
}

/// Takes what the passes have shown from the terminal.
pub fn clear_progress<R: Runtime + AllocGlobal>(passes: &mut CapturePasses<'_, R>) {
    passes.declarations.source().clear();
    passes.outline.source().clear();
    passes.changes.source().clear();
    passes.copy.source().clear();
}

/// Refuses a run if its capture was replaced or changed. So the edit that another program made
/// meanwhile is not lost.
pub fn refuse_replaced<R: Runtime + AllocGlobal>(
    rt: &R,
    capture: Option<SeenFile<'_>>,
) -> Result<(), AmendError>
    ensures fault { IfErr result IsCaptureFault }
{
    match capture {
        Some(capture) if capture.is_replaced(rt) => {
            Err(AmendError::Run(AmendRunError::CaptureChanged))
        }
        _ => Ok(()),
    }
}

/// Refuses a run whose passes did not all read the same bytes. A pass that is not at the end of the
/// file is read to it; one that was not begun read nothing.
pub fn refuse_changed<S: Source, A>(
    passes: &mut Passes<Summed<S>, SummedAgain<A>>,
) -> Result<(), AmendError>
    ensures same { OnOk result (HaveOneSum passes.new) }
    ensures fault { IfErr result IsCaptureFault }
    ensures changed { IfErr result (λ e. e ≡ amend_errors.Run run_errors.CaptureChanged →
        HaveTwoSums passes.new) }
{
    let sum = passes.declarations.whole_sum().map_err(|_| NOT_READ)?;
    refuse_other(&mut passes.outline, sum)?;
    refuse_other(&mut passes.changes, sum)?;
    refuse_other(&mut passes.copy, sum)?;
    passes.again.refuse_other(sum)
}

/// Refuses a pass that was begun, and that has another sum.
fn refuse_other<S: Source>(pass: &mut Summed<S>, sum: u64) -> Result<(), AmendError>
    ensures same { OnOk result (HasSum sum pass.new) }
    ensures fault { IfErr result IsCaptureFault }
    ensures changed { IfErr result (λ e. e ≡ amend_errors.Run run_errors.CaptureChanged →
        HasOtherSum sum pass.new) }
{
    if !pass.is_begun() || pass.whole_sum().map_err(|_| NOT_READ)? == sum {
        return Ok(());
    }
    Err(AmendError::Run(AmendRunError::CaptureChanged))
}
