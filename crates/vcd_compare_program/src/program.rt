//! The program: both captures are opened and compared, and the report is written.

ghost use Rattle.std.specs.Prelude.{◌≡◌, false, IfErr};
ghost use Rattle.vcd_compare_program.specs.CommandLine.{options_in};
ghost use Rattle.vcd_compare_program.specs.ProgramEnds as spec;
ghost use Rattle.vcd_compare_program.specs.inside.Words.{IsBothStandard};

use crate::command_line::{Options, command_line, options_of};
use crate::compare_fault::{CompareFault, WordFault};
use crate::error_report::{PROGRAM, report_fault, verdict_status};
use crate::reporting::{ReportRequest, Verdict, report_comparison};
use crate::request_words::{maps_of, request_of};
use clap::{ArgMatches, Command};
use std::alloc::{AllocError, Global};
use std::fs::File;
use std::io;
use std::rt::Runtime;
use vcd_compare::CompareError;
use vcd_core::{FromRead, Sink, Source, ToWrite};
use vcd_shell::{Program, open_capture};
use vcd_text::{Fault, ReadError};

/// A capture could not be opened: a read fault before its first line ends.
const NOT_OPENED: ReadError = ReadError {
    line: 1,
    fault: Fault::ReadFault,
};

/// The program `vcdedit-compare`.
pub struct VcdeditCompare;

impl Program for VcdeditCompare {
    ghost use Rattle.std.specs.Prelude.{codes, refl};
    ghost use Rattle.vcd_compare_program.specs.CommandLine.{asked_options, option_app};
    ghost use Rattle.vcd_compare_program.specs.ErrorReport.{outcome_status, outcome_text};
    ghost use Rattle.vcd_compare_program.specs.ProgramEnds.{IsOutcomeOfOptions};

    type Outcome = Result<Verdict, CompareFault>;

    ghost name = { codes "vcdedit-compare" };

    ghost options = { option_app };

    ghost can_end = { λ words. IsOutcomeOfOptions (asked_options words) };

    ghost status = { outcome_status };

    ghost text = { outcome_text };

    ghost is_free = { refl };

    fn name() -> &'static [u8] {
        PROGRAM
    }

    fn command_line<'a>(alloc: Global) -> Result<Command<'a>, AllocError> {
        command_line(alloc)
    }

    fn carry_out<R: Runtime<File = File> + AllocGlobal>(
        rt: &R,
        matches: &ArgMatches<'_>,
    ) -> Result<Verdict, CompareFault> {
        run_options(rt, &options_of(matches))
    }

    fn report<W: Sink>(outcome: &Result<Verdict, CompareFault>, writer: &mut W) -> u8 {
        match outcome {
            Ok(verdict) => verdict_status(*verdict),
            Err(fault) => report_fault(fault, writer),
        }
    }
}

/// Does what options ask for.
fn run_options<R: Runtime + AllocGlobal>(
    rt: &R,
    options: &Options<'_, '_>,
) -> Result<Verdict, CompareFault>
    ensures { spec.IsOutcomeOfOptions (options_in options.now) result }
{
    let maps = maps_of(rt.alloc(), options.maps)?;
    let asked = request_of(options, maps.as_slice())?;
    refuse_two_standard(&asked)?;
    run_request(rt, &asked)
}

/// Refuses two captures that are both standard input.
fn refuse_two_standard(asked: &ReportRequest<'_, '_>) -> Result<(), WordFault>
    ensures { IfErr result (IsBothStandard asked.now) }
{
    if asked.first != "-" {
        return Ok(());
    }
    if asked.second != "-" {
        return Ok(());
    }
    Err(WordFault::BothStandard)
}

/// Opens both captures before either is read, compares them, and writes the report to standard
/// output.
fn run_request<R: Runtime + AllocGlobal>(
    rt: &R,
    asked: &ReportRequest<'_, '_>,
) -> Result<Verdict, CompareFault>
    ensures { spec.IsOutcomeOfRequest asked.now result }
{
    let Ok(first) = open_capture(rt, Some(asked.first)) else {
        return Err(CompareFault::Compare(CompareError::First(NOT_OPENED)));
    };
    let Ok(second) = open_capture(rt, Some(asked.second)) else {
        return Err(CompareFault::Compare(CompareError::Second(NOT_OPENED)));
    };
    let first = &mut FromRead::new(first);
    let second = &mut FromRead::new(second);
    let output = &mut ToWrite::new(io::writer(rt));
    report_on_devices(rt.alloc(), first, second, asked, output)
}

/// Compares captures on these devices, and writes the report. It is a function of its own for the
/// prover, which takes the devices apart once.
fn report_on_devices<A: Source, B: Source, W: Sink>(
    alloc: Global,
    first: &mut A,
    second: &mut B,
    asked: &ReportRequest<'_, '_>,
    output: &mut W,
) -> Result<Verdict, CompareFault>
    requires first_ready { A.has_failed first.old ≡ false }
    requires second_ready { B.has_failed second.old ≡ false }
    requires output_ready { W.has_failed output.old ≡ false }
    ensures { spec.IsOutcomeOfRequest asked.now result }
{
    report_comparison(alloc, first, second, asked, output)
}
