//! A line among planned lines, and what it gives.

ghost use Rattle.std.specs.Prelude.{◌≡◌, None, Some, MatchOption};
ghost use Rattle.vcd_amend_run.specs.inside.PlannedLine as spec;
ghost use Rattle.vcd_amend_run.specs.inside.PlannedLine.{streamed_at};

use crate::streamed_line::StreamedLine;
use vcd_script::MemoryResult;

/// A line of the script, before it is run.
#[derive(Clone, Copy)]
pub struct PlannedLine<'s> {
    /// The number of the line, from 1 on.
    pub number: u64,
    /// How many variables of the capture's file were left out.
    pub skipped: u64,
    pub text: &'s [u8],
    /// The streamed lines from this one on.
    pub streamed: &'s [StreamedLine],
}

/// What a line gave, all of whose reply was written.
#[derive(Drop)]
pub struct LineTaken {
    /// How many bytes its reply has.
    pub written: u128,
    /// Whether the line is refused.
    pub is_refused: bool,
    /// The remarks to be written after the reply, unless memory ran out for them.
    pub remarks: MemoryResult<Vec<u8>>,
}

/// The streamed line that a line is, if it is one.
pub fn streamed_here<'s>(line: &PlannedLine<'s>) -> Option<&'s StreamedLine>
    ensures { MatchOption result (streamed_at line.now ≡ None)
        (λ streamed. streamed_at line.now ≡ Some streamed.now) }
{
    let Some(first) = line.streamed.first() else {
        return None;
    };
    if first.number != line.number {
        return None;
    }
    Some(first)
}

/// The streamed lines after a line.
pub fn streamed_after<'s>(line: &PlannedLine<'s>) -> &'s [StreamedLine]
    ensures { result.now ≡ spec.streamed_after line.now.number line.now.streamed.now }
{
    let Some((first, later)) = line.streamed.split_first() else {
        return line.streamed;
    };
    if first.number != line.number {
        return line.streamed;
    }
    later
}
