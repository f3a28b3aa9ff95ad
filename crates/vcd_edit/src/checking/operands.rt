//! The faults of the operands of a formula.

ghost use Rattle.vcd_core.specs.CaptureContents.{contents};
ghost use Rattle.vcd_core.specs.Tests.{first_fault};
ghost use Rattle.vcd_edit.specs.EditFaults.{operand_tests};
ghost use Rattle.vcd_edit.specs.EditAnswers.{FaultIs};
ghost use Rattle.vcd_edit.specs.declared.edit.Formula.TheVariants.{Negation, Pair, BitSelect};
ghost use Rattle.vcd_edit.specs.declared.edit.Operator.TheVariants.{And};

use crate::edit::Formula;
use crate::fault::EditError;
use vcd_core::Capture;

/// Whether the operands exist, an operator's operands have one bit, and the chosen bit exists.
pub(crate) fn check_operands(capture: &Capture, formula: Formula) -> Result<(), EditError>
    ensures { FaultIs result (first_fault (operand_tests formula (contents capture.now))) }
{
    match formula {
        Formula::Negation(a) => check_scalar(capture, a),
        Formula::Pair(_, a, b) => check_scalar_pair(capture, a, b),
        Formula::BitSelect(a, k) => check_bit(capture, a, k),
    }
}

fn check_scalar(capture: &Capture, a: usize) -> Result<(), EditError>
    ensures { FaultIs result (first_fault (operand_tests (Negation a) (contents capture.now))) }
{
    let signals = capture.signals();
    if a >= signals.len() {
        return Err(EditError::NoSuchSignal);
    }
    if signals[a].wave.width() != 1 {
        return Err(EditError::NotScalar);
    }
    Ok(())
}

/// The tests are the same for each operator.
fn check_scalar_pair(capture: &Capture, a: usize, b: usize) -> Result<(), EditError>
    ensures { FaultIs result (first_fault (operand_tests (Pair And a b) (contents capture.now))) }
{
    let signals = capture.signals();
    if a >= signals.len() || b >= signals.len() {
        return Err(EditError::NoSuchSignal);
    }
    if signals[a].wave.width() != 1 || signals[b].wave.width() != 1 {
        return Err(EditError::NotScalar);
    }
    Ok(())
}

fn check_bit(capture: &Capture, a: usize, k: u64) -> Result<(), EditError>
    ensures { FaultIs result (first_fault (operand_tests (BitSelect a k) (contents capture.now))) }
{
    let signals = capture.signals();
    if a >= signals.len() {
        return Err(EditError::NoSuchSignal);
    }
    if k >= signals[a].wave.width() {
        return Err(EditError::BadBit);
    }
    Ok(())
}
