//! The comparison of two captures, and the report on it, over devices.

ghost use Rattle.std.specs.Prelude.{◌≡◌, false, true, IfOk, OnOk};
ghost use Rattle.vcd_core.specs.Devices.{device_end};
ghost use Rattle.vcd_text.specs.Grammar.{ParseState};
ghost use Rattle.vcd_text.specs.inside.reading.ChangeStream.{IsStreamAt};
ghost use Rattle.vcd_compare_program.specs.Reports as spec;
ghost use Rattle.vcd_compare_program.specs.inside.Facts.{facts_of};
ghost use Rattle.vcd_compare_program.specs.inside.Reports.{IsReportOf, IsReportAt, IsWritten};

use crate::capture_facts::ReportedCapture;
use crate::compare_fault::CompareFault;
use crate::comparison_text::comparison_text;
use crate::json_text::comparison_json;
use crate::report_line::{is_same, is_whole, report_lines};
use std::alloc::Global;
use vcd_compare::{CompareRequest, Comparison, compare};
use vcd_core::{NoMemory, Sink, Source, write_and_flush};

/// What is compared, and how the report is.
#[derive(Clone, Copy)]
pub struct ReportRequest<'m, 'a> {
    pub compared: CompareRequest<'m, 'a>,
    /// The paths of both captures.
    pub first: &'a str,
    pub second: &'a str,
    /// Whether the report is JSON.
    pub is_json: bool,
    /// Whether all has to be compared.
    pub is_strict: bool,
}

/// What a comparison finds.
#[derive(Clone, Copy, Debug, PartialEq, Eq)]
pub enum Verdict {
    /// Nothing that was compared differs.
    Same,
    /// Something differs.
    Different,
    /// Nothing that was compared differs, but not all was, though that was asked for.
    Partial,
}

/// A report, and what it finds.
#[derive(Drop)]
pub struct Report {
    pub text: Vec<u8>,
    pub verdict: Verdict,
}

/// Compares two captures, and writes the report. If they can't be compared, nothing is written.
///
/// Memory: that of the comparison, and then the names and the report.
pub fn report_comparison<A: Source, B: Source, W: Sink>(
    alloc: Global,
    first: &mut A,
    second: &mut B,
    asked: &ReportRequest,
    output: &mut W,
) -> Result<Verdict, CompareFault>
    requires first_ready { A.has_failed first.old ≡ false }
    requires second_ready { B.has_failed second.old ≡ false }
    requires output_ready { W.has_failed output.old ≡ false }
    ensures ends { spec.ReportEnds asked.now
        (device_end A.coming A.has_failed first.old first.new)
        (device_end B.coming B.has_failed second.old second.new)
        (device_end W.taken W.has_failed output.old output.new) result }
    ensures flushed { OnOk result (W.is_flushed output.new ≡ true) }
{
    let comparison = compare(alloc, first, second, &asked.compared)?;
    let report = last_report_of(alloc, asked, comparison)?;
    write_report(report, output)
}

/// Writes a report.
fn write_report<W: Sink>(report: Report, output: &mut W) -> Result<Verdict, CompareFault>
    requires { W.has_failed output.old ≡ false }
    ensures written { IsWritten report (device_end W.taken W.has_failed output.old output.new)
        result }
    ensures flushed { OnOk result (W.is_flushed output.new ≡ true) }
{
    match write_and_flush(output, report.text.as_slice()) {
        Ok(()) => Ok(report.verdict),
        Err(_) => Err(CompareFault::NotWritten),
    }
}

/// The report of a comparison, whose memory is given back before the report is written.
fn last_report_of(
    alloc: Global,
    asked: &ReportRequest,
    comparison: Comparison,
) -> Result<Report, NoMemory>
    requires first { (s : ParseState) × IsStreamAt comparison.first.stream s }
    requires second { (t : ParseState) × IsStreamAt comparison.second.stream t }
    ensures { IfOk result (IsReportAt asked.now comparison) }
{
    report_of(alloc, asked, &comparison)
}

/// The report of a comparison.
fn report_of(
    alloc: Global,
    asked: &ReportRequest,
    comparison: &Comparison,
) -> Result<Report, NoMemory>
    requires first { (s : ParseState) × IsStreamAt comparison.now.first.stream s }
    requires second { (t : ParseState) × IsStreamAt comparison.now.second.stream t }
    ensures { IfOk result (IsReportAt asked.now comparison.now) }
{
    let first = ReportedCapture::new(alloc, asked.first, &comparison.first, asked.is_strict)?;
    let second = ReportedCapture::new(alloc, asked.second, &comparison.second, asked.is_strict)?;
    report_on(alloc, asked, &first, &second, comparison)
}

/// The report of a comparison of captures that are shown so.
fn report_on(
    alloc: Global,
    asked: &ReportRequest,
    first: &ReportedCapture,
    second: &ReportedCapture,
    comparison: &Comparison,
) -> Result<Report, NoMemory>
    ensures { IfOk result (IsReportOf asked.now (facts_of first.now) (facts_of second.now)
        comparison.now) }
{
    let lines = report_lines(alloc, first, second, comparison)?;
    let verdict = verdict_of(asked.is_strict, is_same(&lines), is_whole(first, second));
    if asked.is_json {
        let text = comparison_json(alloc, first, second, comparison, &lines)?;
        return Ok(Report { text, verdict });
    }
    let text = comparison_text(alloc, first, second, comparison, &lines)?;
    Ok(Report { text, verdict })
}

/// What is found, if lines say that nothing differs, and all or not all was compared.
fn verdict_of(is_strict: bool, is_same: bool, is_whole: bool) -> Verdict
    ensures { result ≡ spec.verdict_of is_strict is_same is_whole }
{
    if !is_same {
        return Verdict::Different;
    }
    if is_strict && !is_whole {
        return Verdict::Partial;
    }
    Verdict::Same
}
