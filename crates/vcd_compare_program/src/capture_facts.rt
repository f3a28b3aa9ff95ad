//! What the report of a comparison shows of a capture.

ghost use Rattle.std.specs.Prelude.{◌≡◌, IfOk};
ghost use Rattle.vcd_text.specs.Grammar.{ParseState};
ghost use Rattle.vcd_text.specs.inside.reading.ChangeStream.{IsStreamAt};
ghost use Rattle.vcd_compare_program.specs.CaptureFacts as spec;
ghost use Rattle.vcd_compare_program.specs.ReportLines.{facts_in};
ghost use Rattle.vcd_compare_program.specs.inside.Facts.{facts_of, meaning_with_all};

use crate::variable_facts::{ReportedVariable, reported_variables};
use std::alloc::Global;
use vcd_compare::{ComparedCapture, LeftOut};
use vcd_core::{NoMemory, Timescale};
use vcd_shell::append_shown;

/// A capture as it is shown.
#[derive(Drop)]
pub struct ReportedCapture {
    pub path: Vec<u8>,
    variables: Vec<ReportedVariable>,
    pub timescale: Option<Timescale>,
    /// Its end, in ticks of the comparison.
    pub end: u128,
    /// What of it is left out, if that is told.
    pub left_out: LeftOut,
}

impl ReportedCapture {
    /// What there is to show of a capture at a path, which was read to its end.
    ///
    /// It takes the memory of the names, and twice as much meanwhile.
    pub fn new(
        alloc: Global,
        path: &str,
        capture: &ComparedCapture,
        is_strict: bool,
    ) -> Result<ReportedCapture, NoMemory>
        requires { (s : ParseState) × IsStreamAt capture.now.stream s }
        ensures { IfOk result (λ made. (s : ParseState) → IsStreamAt capture.now.stream s →
            facts_of made
            ≡ spec.capture_facts path.now (meaning_with_all s) capture.now.factor
            (spec.left_out_told is_strict capture.now.left_out)) }
    {
        let mut shown = Vec::new(alloc);
        append_shown(&mut shown, path.as_bytes())?;
        let stream = &capture.stream;
        let variables = reported_variables(alloc, &stream.signals(), stream.skipped_variables())?;
        Ok(ReportedCapture {
            path: shown,
            variables,
            timescale: stream.timescale(),
            end: u128::from(stream.tick()) * u128::from(capture.factor),
            left_out: left_out_told(is_strict, capture.left_out),
        })
    }

    /// The name of the variable at a position as it is shown; empty if there is none.
    pub fn name(&self, position: usize) -> &[u8]
        ensures { result.now ≡ (facts_in (facts_of self.now) position).name }
    {
        match self.variables.get(position) {
            Some(variable) => variable.name.as_slice(),
            None => b"".as_slice(),
        }
    }

    /// The kind of the variable at a position.
    pub fn kind(&self, position: usize) -> &[u8]
        ensures { result.now ≡ (facts_in (facts_of self.now) position).kind }
    {
        match self.variables.get(position) {
            Some(variable) => variable.kind.as_slice(),
            None => b"".as_slice(),
        }
    }

    /// The width of the variable at a position.
    pub fn width(&self, position: usize) -> u64
        ensures { result ≡ (facts_in (facts_of self.now) position).width }
    {
        match self.variables.get(position) {
            Some(variable) => variable.width,
            None => 0,
        }
    }
}

/// What is told of what is left out: nothing without `--strict`.
fn left_out_told(is_strict: bool, left_out: LeftOut) -> LeftOut
    ensures { result ≡ spec.left_out_told is_strict left_out }
{
    match is_strict {
        true => left_out,
        false => LeftOut { replaced: 0 },
    }
}
