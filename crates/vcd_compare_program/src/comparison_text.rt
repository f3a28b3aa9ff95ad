//! The report of a comparison as lines of text.

ghost use Rattle.std.specs.Prelude.{◌≡◌, ◌++◌, IfOk, OnOk, codes, option_map, slice_get};
ghost use Rattle.vcd_compare.specs.inside.ToldDifferences.{told_difference, told_value};
ghost use Rattle.vcd_compare_program.specs.ReportLines.{report_lines, facts_in};
ghost use Rattle.vcd_compare_program.specs.ComparisonText as spec;
ghost use Rattle.vcd_compare_program.specs.inside.Facts.{facts_of};

use crate::capture_facts::ReportedCapture;
use crate::report_line::{ReportLine, difference_count, is_whole, same_count};
use crate::text_parts::{append_letters, append_scale, append_ticks};
use std::alloc::Global;
use vcd_compare::{ComparedPair, Comparison, Difference, ToldValue};
use vcd_core::{NoMemory, Timescale};
use vcd_shell::{append_bytes, append_decimal, append_shown};
use vcd_text::TickRange;

/// The whole text, whose lines but the last are given.
pub fn comparison_text(
    alloc: Global,
    first: &ReportedCapture,
    second: &ReportedCapture,
    comparison: &Comparison,
    lines: &[ReportLine],
) -> Result<Vec<u8>, NoMemory>
    ensures { lines.now ≡ report_lines (facts_of first.now) (facts_of second.now) comparison.now →
        IfOk result (λ text. text.items
        ≡ spec.comparison_text (facts_of first.now) (facts_of second.now) comparison.now) }
{
    let mut text = Vec::new(alloc);
    for line in lines {
        append_line(&mut text, first, second, comparison, *line)?;
        append_bytes(&mut text, b"\n")?;
    }
    append_last_line(&mut text, first, second, comparison, lines)?;
    Ok(text)
}

/// Appends a line but the last, without a line feed.
fn append_line(
    text: &mut Vec<u8>,
    first: &ReportedCapture,
    second: &ReportedCapture,
    comparison: &Comparison,
    line: ReportLine,
) -> Result<(), NoMemory>
    ensures { OnOk result (text.new.items ≡ text.old.items
        ++ spec.line_text (facts_of first.now) (facts_of second.now) comparison.now line) }
{
    match line {
        ReportLine::FinerTicks => append_finer(text, first, second, comparison.timescale),
        ReportLine::OneTimescale => append_unscaled(text, first, second),
        ReportLine::OtherEnd => append_ends(text, first, second),
        ReportLine::OnlyInFirst(position) => append_only_in(text, first, position),
        ReportLine::OnlyInSecond(position) => append_only_in(text, second, position),
        ReportLine::OtherKind(position, partner) => {
            append_kinds(text, first, position, second.kind(partner))
        }
        ReportLine::OtherWidth(position, partner) => {
            append_widths(text, first, position, second.width(partner))
        }
        ReportLine::OtherValues(place) => {
            append_values(text, first, comparison.compared.as_slice(), place)
        }
        ReportLine::ShortRun(place) => {
            append_short_run(text, first, comparison.compared.as_slice(), place)
        }
        ReportLine::LeftOutOfFirst => append_left_out(text, first),
        ReportLine::LeftOutOfSecond => append_left_out(text, second),
    }
}

/// Appends the timescales of both captures.
fn append_scales(
    text: &mut Vec<u8>,
    first: &ReportedCapture,
    second: &ReportedCapture,
) -> Result<(), NoMemory>
    ensures { OnOk result (text.new.items ≡ text.old.items
        ++ spec.scales_text (facts_of first.now) (facts_of second.now)) }
{
    append_bytes(text, b"timescale: ")?;
    append_scale(text, first.timescale)?;
    append_bytes(text, b", ")?;
    append_scale(text, second.timescale)
}

/// Appends the line on the timescales of both captures, of which one is finer.
fn append_finer(
    text: &mut Vec<u8>,
    first: &ReportedCapture,
    second: &ReportedCapture,
    finer: Option<Timescale>,
) -> Result<(), NoMemory>
    ensures { OnOk result (text.new.items ≡ text.old.items
        ++ spec.finer_text (facts_of first.now) (facts_of second.now) finer) }
{
    append_scales(text, first, second)?;
    append_bytes(text, b" (ticks are those of ")?;
    append_scale(text, finer)?;
    append_bytes(text, b")")
}

/// Appends the line on the timescale that only one capture has.
fn append_unscaled(
    text: &mut Vec<u8>,
    first: &ReportedCapture,
    second: &ReportedCapture,
) -> Result<(), NoMemory>
    ensures { OnOk result (text.new.items ≡ text.old.items
        ++ spec.unscaled_text (facts_of first.now) (facts_of second.now)) }
{
    append_scales(text, first, second)?;
    append_bytes(text, b" (ticks are compared as they are)")
}

/// Appends the line on the ends of both captures.
fn append_ends(
    text: &mut Vec<u8>,
    first: &ReportedCapture,
    second: &ReportedCapture,
) -> Result<(), NoMemory>
    ensures { OnOk result (text.new.items ≡ text.old.items
        ++ spec.ends_text (facts_of first.now) (facts_of second.now)) }
{
    append_bytes(text, b"end: ")?;
    append_ticks(text, first.end)?;
    append_bytes(text, b", ")?;
    append_ticks(text, second.end)?;
    append_bytes(text, b" (compared up to the smaller)")
}

/// Appends the name of a variable, before what is said of it.
fn append_about(
    text: &mut Vec<u8>,
    capture: &ReportedCapture,
    position: usize,
) -> Result<(), NoMemory>
    ensures { OnOk result (text.new.items ≡ text.old.items
        ++ (facts_in (facts_of capture.now) position).name ++ codes ": ") }
{
    append_bytes(text, capture.name(position))?;
    append_bytes(text, b": ")
}

/// Appends the line on a variable that only this capture has.
fn append_only_in(
    text: &mut Vec<u8>,
    capture: &ReportedCapture,
    position: usize,
) -> Result<(), NoMemory>
    ensures { OnOk result (text.new.items ≡ text.old.items
        ++ spec.only_in_text (facts_of capture.now) position) }
{
    append_about(text, capture, position)?;
    append_bytes(text, b"only in ")?;
    append_bytes(text, capture.path.as_slice())
}

/// Appends the line on the kinds of a variable and its partner.
fn append_kinds(
    text: &mut Vec<u8>,
    first: &ReportedCapture,
    position: usize,
    other: &[u8],
) -> Result<(), NoMemory>
    ensures { OnOk result (text.new.items ≡ text.old.items
        ++ spec.kinds_text (facts_in (facts_of first.now) position) other.now) }
{
    append_about(text, first, position)?;
    append_shown(text, first.kind(position))?;
    append_bytes(text, b", ")?;
    append_shown(text, other)
}

/// Appends the line on the widths of a variable and its partner.
fn append_widths(
    text: &mut Vec<u8>,
    first: &ReportedCapture,
    position: usize,
    other: u64,
) -> Result<(), NoMemory>
    ensures { OnOk result (text.new.items ≡ text.old.items
        ++ spec.widths_text (facts_in (facts_of first.now) position) other) }
{
    append_about(text, first, position)?;
    append_width(text, first.width(position))?;
    append_bytes(text, b", ")?;
    append_width(text, other)
}

/// Appends a width.
fn append_width(text: &mut Vec<u8>, width: u64) -> Result<(), NoMemory>
    ensures { OnOk result (text.new.items ≡ text.old.items ++ spec.width_text width) }
{
    if width == 0 {
        return append_bytes(text, b"no bits");
    }
    append_counted(text, width, b"bit")
}

/// Appends a number of things.
fn append_counted(text: &mut Vec<u8>, count: u64, thing: &[u8]) -> Result<(), NoMemory>
    ensures { OnOk result (text.new.items ≡ text.old.items ++ spec.counted count thing.now) }
{
    append_decimal(text, count)?;
    append_bytes(text, b" ")?;
    append_bytes(text, thing)?;
    append_bytes(
        text,
        if count == 1 {
            b"".as_slice()
        } else {
            b"s".as_slice()
        },
    )
}

/// Appends the line on the waves of two variables, by their place.
fn append_values(
    text: &mut Vec<u8>,
    first: &ReportedCapture,
    compared: &[ComparedPair],
    place: usize,
) -> Result<(), NoMemory>
    ensures { OnOk result (text.new.items ≡ text.old.items
        ++ spec.values_text (facts_of first.now) (slice_get compared.now place)) }
{
    match compared.get(place) {
        Some(pair) => append_pair(text, first, pair),
        None => Ok(()),
    }
}

/// Appends the line on the waves of two variables that were compared.
fn append_pair(
    text: &mut Vec<u8>,
    first: &ReportedCapture,
    pair: &ComparedPair,
) -> Result<(), NoMemory>
    ensures { OnOk result (text.new.items ≡ text.old.items
        ++ spec.pair_text (facts_of first.now) pair.now) }
{
    append_about(text, first, pair.first)?;
    append_counted(text, pair.differences.count(), b"difference")?;
    append_difference(text, b"first", &pair.differences.first())?;
    append_difference(text, b"last", &pair.differences.last())
}

/// Appends one of the differences that are shown, with both values at its first tick.
fn append_difference(
    text: &mut Vec<u8>,
    which: &[u8],
    difference: &Option<Difference<ToldValue<'_>>>,
) -> Result<(), NoMemory>
    ensures { OnOk result (text.new.items ≡ text.old.items
        ++ spec.difference_text which.now (option_map told_difference difference.now)) }
{
    let Some(difference) = difference else {
        return Ok(());
    };
    append_bytes(text, b", ")?;
    append_bytes(text, which)?;
    append_bytes(text, b" at tick ")?;
    append_decimal(text, difference.ticks.first)?;
    append_bytes(text, b": ")?;
    append_both_values(text, difference)
}

/// Appends both values at the first tick of a difference.
fn append_both_values(
    text: &mut Vec<u8>,
    difference: &Difference<ToldValue<'_>>,
) -> Result<(), NoMemory>
    ensures { OnOk result (text.new.items ≡ text.old.items
        ++ spec.both (spec.printed_value (told_value difference.now.value_in_a))
        (spec.printed_value (told_value difference.now.value_in_b))) }
{
    append_value(text, &difference.value_in_a)?;
    append_bytes(text, b", ")?;
    append_value(text, &difference.value_in_b)
}

/// Appends a value.
fn append_value(text: &mut Vec<u8>, value: &ToldValue<'_>) -> Result<(), NoMemory>
    ensures { OnOk result (text.new.items ≡ text.old.items
        ++ spec.printed_value (told_value value.now)) }
{
    match value {
        ToldValue::Letters(value) => append_letters(text, value),
        ToldValue::Word(word) => append_word(text, word),
    }
}

/// Appends the word of a change, or `none`.
fn append_word(text: &mut Vec<u8>, word: &[u8]) -> Result<(), NoMemory>
    ensures { OnOk result (text.new.items ≡ text.old.items ++ spec.printed_word word.now) }
{
    if word.is_empty() {
        return append_bytes(text, b"none");
    }
    append_shown(text, word)
}

/// Appends the line on the shortest run of two variables, by their place.
fn append_short_run(
    text: &mut Vec<u8>,
    first: &ReportedCapture,
    compared: &[ComparedPair],
    place: usize,
) -> Result<(), NoMemory>
    ensures { OnOk result (text.new.items ≡ text.old.items
        ++ spec.short_run_text (facts_of first.now) (slice_get compared.now place)) }
{
    match compared.get(place) {
        Some(pair) => append_pair_run(text, first, pair),
        None => Ok(()),
    }
}

/// Appends the line on the shortest run of two variables that were compared.
fn append_pair_run(
    text: &mut Vec<u8>,
    first: &ReportedCapture,
    pair: &ComparedPair,
) -> Result<(), NoMemory>
    ensures { OnOk result (text.new.items ≡ text.old.items
        ++ spec.pair_run_text (facts_of first.now) pair.now) }
{
    append_bytes(text, first.name(pair.first))?;
    append_bytes(text, b": the shortest run has ")?;
    append_run(text, pair.short_run)?;
    append_bytes(text, b", so more may be forgiven than late edges")
}

/// Appends how many ticks the shortest run has.
fn append_run(text: &mut Vec<u8>, ticks: Option<u64>) -> Result<(), NoMemory>
    ensures { OnOk result (text.new.items ≡ text.old.items ++ spec.run_text ticks) }
{
    match ticks {
        Some(ticks) => append_counted(text, ticks, b"tick"),
        None => Ok(()),
    }
}

/// Appends the line on what is left out of a capture.
fn append_left_out(text: &mut Vec<u8>, capture: &ReportedCapture) -> Result<(), NoMemory>
    ensures { OnOk result (text.new.items ≡ text.old.items
        ++ spec.left_out_text (facts_of capture.now)) }
{
    append_bytes(text, capture.path.as_slice())?;
    append_bytes(text, b": not compared: ")?;
    append_counted(text, capture.left_out.replaced, b"replaced change")
}

/// Appends the last line, with a line feed.
fn append_last_line(
    text: &mut Vec<u8>,
    first: &ReportedCapture,
    second: &ReportedCapture,
    comparison: &Comparison,
    lines: &[ReportLine],
) -> Result<(), NoMemory>
    ensures { lines.now ≡ report_lines (facts_of first.now) (facts_of second.now) comparison.now →
        OnOk result (text.new.items ≡ text.old.items ++ spec.ended_line
        (spec.last_line (facts_of first.now) (facts_of second.now) comparison.now)) }
{
    append_differing(text, difference_count(lines) as u64)?;
    append_same(text, first, second, comparison.compared.as_slice())?;
    append_bytes(text, b" ")?;
    append_window(text, comparison.window)?;
    append_bytes(text, b"\n")
}

/// Appends how many lines say that something differs, if there is one.
fn append_differing(text: &mut Vec<u8>, count: u64) -> Result<(), NoMemory>
    ensures { OnOk result (text.new.items ≡ text.old.items ++ spec.differing_text count) }
{
    if count == 0 {
        return Ok(());
    }
    append_bytes(text, b"lines that differ: ")?;
    append_decimal(text, count)?;
    append_bytes(text, b"; ")
}

/// Appends how many variables are the same, as far as all was compared.
fn append_same(
    text: &mut Vec<u8>,
    first: &ReportedCapture,
    second: &ReportedCapture,
    compared: &[ComparedPair],
) -> Result<(), NoMemory>
    ensures { OnOk result (text.new.items ≡ text.old.items
        ++ spec.same_text (facts_of first.now) (facts_of second.now) compared.now) }
{
    append_extent(text, is_whole(first, second))?;
    append_counted(
        text,
        same_count(first, second, compared) as u64,
        b"variable",
    )
}

/// Appends whether all that is the same was compared.
fn append_extent(text: &mut Vec<u8>, is_whole: bool) -> Result<(), NoMemory>
    ensures { OnOk result (text.new.items ≡ text.old.items ++ spec.extent_text is_whole) }
{
    match is_whole {
        true => append_bytes(text, b"the same: "),
        false => append_bytes(text, b"the same as far as compared: "),
    }
}

/// Appends the ticks that were compared.
fn append_window(text: &mut Vec<u8>, window: TickRange) -> Result<(), NoMemory>
    ensures { OnOk result (text.new.items ≡ text.old.items ++ spec.window_text window) }
{
    append_window_begin(text, window.first)?;
    append_decimal(text, window.last)
}

/// Appends the first tick that was compared, if it is not 0.
fn append_window_begin(text: &mut Vec<u8>, first: u64) -> Result<(), NoMemory>
    ensures { OnOk result (text.new.items ≡ text.old.items ++ spec.window_begin first) }
{
    if first == 0 {
        return append_bytes(text, b"up to tick ");
    }
    append_bytes(text, b"from tick ")?;
    append_decimal(text, first)?;
    append_bytes(text, b" to ")
}
