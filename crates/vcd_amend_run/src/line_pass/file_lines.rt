//! What the changes that are heard of a file are to the lines of a decoder, after cuts.

ghost use Rattle.std.specs.Prelude.{◌≡◌, ◌∷◌, [], OnOk};
ghost use Rattle.vcd_text.specs.Grammar.{ParseState, kept_variables};
ghost use Rattle.vcd_text.specs.inside.reading.ChangeStream.{IsStreamAt};
ghost use Rattle.vcd_text.specs.LentChanges.{heard_contents};
ghost use Rattle.vcd_amend_run.specs.inside.FileLines as spec;
ghost use Rattle.vcd_amend_run.specs.inside.FileLines.{changes_of_heard, changes_of_lines};
ghost use Rattle.vcd_amend_run.specs.inside.PassSteps.{HasGivenAll};

use vcd_amend::CutTicks;
use vcd_core::Bit;
use vcd_decode::{EdgeMaker, LineChange};
use vcd_remarks::StreamedReply;
use vcd_script::MemoryResult;
use vcd_text::{ChangeStream, ChangeTarget, HeardChange, HeardChanges};

/// The lines of a decoder in a file.
#[derive(Clone, Copy)]
pub struct FileLines<'a> {
    /// By line, the position of the first variable with the code of its signal.
    pub firsts: [Option<usize>; 4],
    /// The cuts that move its changes, the oldest first.
    pub cuts: &'a [CutTicks],
}

/// The first variables of lines, by the declarations so far.
pub fn firsts_of(stream: &ChangeStream, lines: [Option<usize>; 4]) -> [Option<usize>; 4]
    requires { (s : ParseState) × IsStreamAt stream.now s }
    ensures { (s : ParseState) → IsStreamAt stream.now s →
        result ≡ spec.firsts_of (kept_variables s.declared) lines }
{
    [
        first_of_line(stream, lines[0]),
        first_of_line(stream, lines[1]),
        first_of_line(stream, lines[2]),
        first_of_line(stream, lines[3]),
    ]
}

/// The first variable of a line.
fn first_of_line(stream: &ChangeStream, line: Option<usize>) -> Option<usize>
    requires { (s : ParseState) × IsStreamAt stream.now s }
    ensures { (s : ParseState) → IsStreamAt stream.now s →
        result ≡ spec.first_of_line (kept_variables s.declared) line }
{
    let position = line?;
    if position < stream.signals().len() {
        return Some(stream.first_of(position));
    }
    None
}

/// Gives a reply the changes of its lines among those that were heard, as edges.
pub fn give_heard<F: StreamedReply>(
    heard: &HeardChanges,
    lines: &FileLines<'_>,
    maker: &mut EdgeMaker,
    reply: &mut F,
    text: &mut Vec<u8>,
) -> MemoryResult<()>
    ensures { OnOk result (HasGivenAll F.text_left F.remarks_left
        (changes_of_heard lines.now.cuts.now lines.now.firsts heard.now)
        maker.old maker.new reply.old reply.new text.old.items text.new.items) }
{
    for position in 0..heard.len() {
        let change = heard.get(position);
        give_lines(&change, lines, maker, reply, text)?;
    }
    Ok(())
}

/// Gives a reply the changes of its lines at a heard change.
fn give_lines<F: StreamedReply>(
    change: &HeardChange<'_>,
    lines: &FileLines<'_>,
    maker: &mut EdgeMaker,
    reply: &mut F,
    text: &mut Vec<u8>,
) -> MemoryResult<()>
    ensures { OnOk result (HasGivenAll F.text_left F.remarks_left
        (changes_of_lines lines.now.cuts.now lines.now.firsts 0 (heard_contents change.now))
        maker.old maker.new reply.old reply.new text.old.items text.new.items) }
{
    for line in 0..4 {
        if is_of_line(lines.firsts[line], change.target) {
            give_edge(line_change(lines.cuts, line, change), maker, reply, text)?;
        }
    }
    Ok(())
}

/// Whether a change of this target is one of a line whose first variable is this.
fn is_of_line(first: Option<usize>, target: ChangeTarget) -> bool
    ensures { result ≡ spec.is_of_line first target }
{
    match (first, target) {
        (Some(first), ChangeTarget::Kept(variable)) => first == variable,
        _ => false,
    }
}

/// Gives a reply the edge that a change of a line completes.
fn give_edge<F: StreamedReply>(
    change: LineChange,
    maker: &mut EdgeMaker,
    reply: &mut F,
    text: &mut Vec<u8>,
) -> MemoryResult<()>
    ensures { OnOk result (HasGivenAll F.text_left F.remarks_left (change ∷ [])
        maker.old maker.new reply.old reply.new text.old.items text.new.items) }
{
    match maker.take(change) {
        Some(edge) => reply.take(text, &edge),
        None => Ok(()),
    }
}

/// The change of a line that a heard change is.
fn line_change(cuts: &[CutTicks], line: usize, change: &HeardChange<'_>) -> LineChange
    ensures { result ≡ spec.line_change cuts.now line (heard_contents change.now) }
{
    LineChange {
        tick: tick_moved_by_cuts(cuts, change.tick),
        line,
        letter: last_letter(change.text),
    }
}

/// Where a change at a tick is after cuts, each made on what the earlier ones leave. The time grows
/// with the number of cuts.
fn tick_moved_by_cuts(cuts: &[CutTicks], tick: u64) -> u64
    ensures { result ≡ spec.tick_moved_by_cuts cuts.now tick }
{
    let mut moved = tick;
    for cut in cuts {
        moved = tick_moved_by_cut(*cut, moved);
    }
    moved
}

/// Where a change at a tick is after a cut: one that is cut out moves to the first tick after it.
fn tick_moved_by_cut(cut: CutTicks, tick: u64) -> u64
    ensures { result ≡ spec.tick_moved_by_cut cut tick }
{
    tick.min(cut.from.saturating_add(tick.saturating_sub(cut.to)))
}

/// The lowest letter of the value that digits write.
fn last_letter(digits: &[u8]) -> Bit
    ensures { result ≡ spec.last_letter digits.now }
{
    match digits.last() {
        Some(digit) => digit_letter(*digit),
        None => Bit::X,
    }
}

/// The letter that a digit writes.
fn digit_letter(digit: u8) -> Bit
    ensures { result ≡ spec.digit_letter digit }
{
    match digit {
        b'0' | b'l' | b'L' => Bit::Zero,
        b'1' | b'h' | b'H' => Bit::One,
        b'z' | b'Z' => Bit::Z,
        _ => Bit::X,
    }
}
