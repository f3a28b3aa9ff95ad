//! The report of a comparison as one JSON object.

ghost use Rattle.std.specs.Prelude.{◌≡◌, ◌++◌, IfOk, OnOk, codes, option_map, slice_get};
ghost use Rattle.std.specs.Fmt.{decimal};
ghost use Rattle.vcd_text.specs.Letters.{printed_letters};
ghost use Rattle.vcd_compare.specs.inside.ToldDifferences.{told_difference, told_value};
ghost use Rattle.vcd_compare_program.specs.ComparisonText.{scale_text};
ghost use Rattle.vcd_compare_program.specs.JsonText as spec;
ghost use Rattle.vcd_compare_program.specs.ReportLines.{report_lines, facts_in};
ghost use Rattle.vcd_compare_program.specs.inside.Facts.{facts_of};

use crate::capture_facts::ReportedCapture;
use crate::report_line::{ReportLine, difference_count, same_count};
use crate::text_parts::{append_letters, append_scale, append_ticks};
use std::alloc::Global;
use vcd_compare::{ComparedPair, Comparison, Difference, LeftOut, ToldDifferences, ToldValue};
use vcd_core::{NoMemory, Timescale, Value};
use vcd_shell::{append_bytes, append_decimal, append_shown};
use vcd_text::TickRange;

/// The whole object, in which the given lines are a list.
pub fn comparison_json(
    alloc: Global,
    first: &ReportedCapture,
    second: &ReportedCapture,
    comparison: &Comparison,
    lines: &[ReportLine],
) -> Result<Vec<u8>, NoMemory>
    ensures { lines.now ≡ report_lines (facts_of first.now) (facts_of second.now) comparison.now →
        IfOk result (λ text. text.items
        ≡ spec.comparison_json (facts_of first.now) (facts_of second.now) comparison.now) }
{
    let mut text = Vec::new(alloc);
    append_head(&mut text, first, second, comparison)?;
    append_member(&mut text, b"lines")?;
    append_lines(&mut text, first, second, comparison, lines)?;
    let same = same_count(first, second, comparison.compared.as_slice());
    append_totals(&mut text, difference_count(lines) as u64, same as u64)?;
    append_bytes(&mut text, b"}\n")?;
    Ok(text)
}

/// Appends what was compared.
fn append_head(
    text: &mut Vec<u8>,
    first: &ReportedCapture,
    second: &ReportedCapture,
    comparison: &Comparison,
) -> Result<(), NoMemory>
    ensures { OnOk result (text.new.items ≡ text.old.items
        ++ spec.head_json (facts_of first.now) (facts_of second.now) comparison.now) }
{
    append_captures(text, first, second)?;
    append_bounds(text, comparison)
}

/// Appends the captures: their paths, timescales and ends.
fn append_captures(
    text: &mut Vec<u8>,
    first: &ReportedCapture,
    second: &ReportedCapture,
) -> Result<(), NoMemory>
    ensures { OnOk result (text.new.items ≡ text.old.items
        ++ spec.captures_json (facts_of first.now) (facts_of second.now)) }
{
    append_files(text, first, second)?;
    append_member(text, b"ends")?;
    append_numbers(text, first.end, second.end)
}

/// Appends the paths and the timescales.
fn append_files(
    text: &mut Vec<u8>,
    first: &ReportedCapture,
    second: &ReportedCapture,
) -> Result<(), NoMemory>
    ensures { OnOk result (text.new.items ≡ text.old.items
        ++ spec.files_json (facts_of first.now) (facts_of second.now)) }
{
    append_bytes(text, b"{\"files\": ")?;
    append_strings(text, first.path.as_slice(), second.path.as_slice())?;
    append_member(text, b"timescales")?;
    append_scales(text, first.timescale, second.timescale)
}

/// Appends the timescale whose ticks all others are, the window and the tolerance.
fn append_bounds(text: &mut Vec<u8>, comparison: &Comparison) -> Result<(), NoMemory>
    ensures { OnOk result (text.new.items ≡ text.old.items ++ spec.bounds_json comparison.now) }
{
    append_finer(text, comparison.timescale)?;
    append_number(text, b"from", comparison.window.first)?;
    append_number(text, b"to", comparison.window.last)?;
    append_number(text, b"within", comparison.tolerance)
}

/// Appends the timescale whose ticks all others are.
fn append_finer(text: &mut Vec<u8>, timescale: Option<Timescale>) -> Result<(), NoMemory>
    ensures { OnOk result (text.new.items ≡ text.old.items
        ++ spec.member (codes "timescale") (spec.quoted (scale_text timescale))) }
{
    append_member(text, b"timescale")?;
    append_quoted_scale(text, timescale)
}

/// Appends lines as a list.
fn append_lines(
    text: &mut Vec<u8>,
    first: &ReportedCapture,
    second: &ReportedCapture,
    comparison: &Comparison,
    lines: &[ReportLine],
) -> Result<(), NoMemory>
    ensures { OnOk result (text.new.items ≡ text.old.items
        ++ spec.lines_json (facts_of first.now) (facts_of second.now) comparison.now lines.now) }
{
    append_bytes(text, b"[")?;
    for (place, line) in lines.iter().enumerate() {
        append_separator(text, place)?;
        append_line(text, first, second, comparison, *line)?;
    }
    append_bytes(text, b"\n]")
}

/// Appends what is before an item of a list.
fn append_separator(text: &mut Vec<u8>, place: usize) -> Result<(), NoMemory>
    ensures { OnOk result (text.new.items ≡ text.old.items ++ spec.separator place) }
{
    append_bytes(
        text,
        if place == 0 {
            b"\n".as_slice()
        } else {
            b",\n".as_slice()
        },
    )
}

/// Appends how much differs, how much is the same, and whether all is.
fn append_totals(text: &mut Vec<u8>, differing: u64, same: u64) -> Result<(), NoMemory>
    ensures { OnOk result (text.new.items ≡ text.old.items ++ spec.totals_json differing same) }
{
    append_number(text, b"lines_that_differ", differing)?;
    append_number(text, b"same_variables", same)?;
    append_same(text, differing == 0)
}

/// Appends whether all is the same.
fn append_same(text: &mut Vec<u8>, is_same: bool) -> Result<(), NoMemory>
    ensures { OnOk result (text.new.items ≡ text.old.items
        ++ spec.member (codes "same") (spec.bool_json is_same)) }
{
    append_member(text, b"same")?;
    append_bool(text, is_same)
}

/// Appends a truth value.
fn append_bool(text: &mut Vec<u8>, holds: bool) -> Result<(), NoMemory>
    ensures { OnOk result (text.new.items ≡ text.old.items ++ spec.bool_json holds) }
{
    match holds {
        true => append_bytes(text, b"true"),
        false => append_bytes(text, b"false"),
    }
}

/// Appends a line as an object.
fn append_line(
    text: &mut Vec<u8>,
    first: &ReportedCapture,
    second: &ReportedCapture,
    comparison: &Comparison,
    line: ReportLine,
) -> Result<(), NoMemory>
    ensures { OnOk result (text.new.items ≡ text.old.items
        ++ spec.line_json (facts_of first.now) (facts_of second.now) comparison.now line) }
{
    match line {
        ReportLine::FinerTicks => append_bare(text, b"finer ticks"),
        ReportLine::OneTimescale => append_bare(text, b"one timescale"),
        ReportLine::OtherEnd => append_bare(text, b"end"),
        ReportLine::OnlyInFirst(position) => {
            append_named(text, b"only in first", first.name(position))
        }
        ReportLine::OnlyInSecond(position) => {
            append_named(text, b"only in second", second.name(position))
        }
        ReportLine::OtherKind(position, partner) => {
            append_kinds(text, first, position, second.kind(partner))
        }
        ReportLine::OtherWidth(position, partner) => {
            append_widths(text, first, position, second.width(partner))
        }
        ReportLine::OtherValues(place) => {
            append_values(text, first, comparison.compared.as_slice(), place)
        }
        ReportLine::ShortRun(place) => {
            append_short_run(text, first, comparison.compared.as_slice(), place)
        }
        ReportLine::LeftOutOfFirst => {
            append_left_out(text, b"left out of first", first.left_out)
        }
        ReportLine::LeftOutOfSecond => {
            append_left_out(text, b"left out of second", second.left_out)
        }
    }
}

/// Appends an object that says only what it is about.
fn append_bare(text: &mut Vec<u8>, what: &[u8]) -> Result<(), NoMemory>
    ensures { OnOk result (text.new.items ≡ text.old.items ++ spec.about_json what.now) }
{
    append_bytes(text, b"{\"what\": \"")?;
    append_bytes(text, what)?;
    append_bytes(text, b"\"}")
}

/// Appends the begin of an object that says something of a variable.
fn append_variable(text: &mut Vec<u8>, what: &[u8], name: &[u8]) -> Result<(), NoMemory>
    ensures { OnOk result (text.new.items ≡ text.old.items
        ++ spec.variable_begin what.now name.now) }
{
    append_bytes(text, b"{\"what\": \"")?;
    append_bytes(text, what)?;
    append_bytes(text, b"\", \"name\": ")?;
    append_string(text, name)
}

/// Appends an object that only names a variable.
fn append_named(text: &mut Vec<u8>, what: &[u8], name: &[u8]) -> Result<(), NoMemory>
    ensures { OnOk result (text.new.items ≡ text.old.items ++ spec.name_json what.now name.now) }
{
    append_variable(text, what, name)?;
    append_bytes(text, b"}")
}

/// Appends the kinds of a variable and its partner.
fn append_kinds(
    text: &mut Vec<u8>,
    first: &ReportedCapture,
    position: usize,
    other: &[u8],
) -> Result<(), NoMemory>
    ensures { OnOk result (text.new.items ≡ text.old.items
        ++ spec.kinds_json (facts_in (facts_of first.now) position) other.now) }
{
    append_variable(text, b"kind", first.name(position))?;
    append_member(text, b"kinds")?;
    append_strings(text, first.kind(position), other)?;
    append_bytes(text, b"}")
}

/// Appends the widths of a variable and its partner.
fn append_widths(
    text: &mut Vec<u8>,
    first: &ReportedCapture,
    position: usize,
    other: u64,
) -> Result<(), NoMemory>
    ensures { OnOk result (text.new.items ≡ text.old.items
        ++ spec.widths_json (facts_in (facts_of first.now) position) other) }
{
    append_variable(text, b"width", first.name(position))?;
    append_member(text, b"widths")?;
    append_numbers(text, u128::from(first.width(position)), u128::from(other))?;
    append_bytes(text, b"}")
}

/// Appends the differences of the waves of two variables, by their place.
fn append_values(
    text: &mut Vec<u8>,
    first: &ReportedCapture,
    compared: &[ComparedPair],
    place: usize,
) -> Result<(), NoMemory>
    ensures { OnOk result (text.new.items ≡ text.old.items
        ++ spec.values_json (facts_of first.now) (slice_get compared.now place)) }
{
    match compared.get(place) {
        Some(pair) => append_pair(text, first, pair),
        None => Ok(()),
    }
}

/// Appends the differences of the waves of two variables that were compared.
fn append_pair(
    text: &mut Vec<u8>,
    first: &ReportedCapture,
    pair: &ComparedPair,
) -> Result<(), NoMemory>
    ensures { OnOk result (text.new.items ≡ text.old.items
        ++ spec.pair_json (facts_of first.now) pair.now) }
{
    append_variable(text, b"values", first.name(pair.first))?;
    append_differences(text, &pair.differences)?;
    append_bytes(text, b"}")
}

/// Appends how many differences stand, the first and the last of them.
fn append_differences(text: &mut Vec<u8>, differences: &ToldDifferences) -> Result<(), NoMemory>
    ensures { OnOk result (text.new.items ≡ text.old.items
        ++ spec.differences_json differences.now) }
{
    append_number(text, b"count", differences.count())?;
    append_difference(text, b"first", &differences.first())?;
    append_difference(text, b"last", &differences.last())
}

/// Appends one of the differences that are shown, with both values at its first tick.
fn append_difference(
    text: &mut Vec<u8>,
    which: &[u8],
    difference: &Option<Difference<ToldValue<'_>>>,
) -> Result<(), NoMemory>
    ensures { OnOk result (text.new.items ≡ text.old.items
        ++ spec.difference_json which.now (option_map told_difference difference.now)) }
{
    let Some(difference) = difference else {
        return Ok(());
    };
    append_member(text, which)?;
    append_ticks_of(text, difference.ticks)?;
    append_member(text, b"values")?;
    append_both_values(text, difference)?;
    append_bytes(text, b"}")
}

/// Appends the ticks of a difference.
fn append_ticks_of(text: &mut Vec<u8>, ticks: TickRange) -> Result<(), NoMemory>
    ensures { OnOk result (text.new.items ≡ text.old.items ++ spec.ticks_json ticks) }
{
    append_bytes(text, b"{\"from\": ")?;
    append_decimal(text, ticks.first)?;
    append_number(text, b"to", ticks.last)
}

/// Appends both values at the first tick of a difference.
fn append_both_values(
    text: &mut Vec<u8>,
    difference: &Difference<ToldValue<'_>>,
) -> Result<(), NoMemory>
    ensures { OnOk result (text.new.items ≡ text.old.items
        ++ spec.both_values_json (told_difference difference.now)) }
{
    append_bytes(text, b"[")?;
    append_value(text, &difference.value_in_a)?;
    append_bytes(text, b", ")?;
    append_value(text, &difference.value_in_b)?;
    append_bytes(text, b"]")
}

/// Appends a value as a string.
fn append_value(text: &mut Vec<u8>, value: &ToldValue<'_>) -> Result<(), NoMemory>
    ensures { OnOk result (text.new.items ≡ text.old.items ++ spec.value_json
        (told_value value.now)) }
{
    match value {
        ToldValue::Letters(value) => append_quoted_letters(text, value),
        ToldValue::Word(word) => append_string(text, word),
    }
}

/// Appends the letters of a value as a string.
fn append_quoted_letters(text: &mut Vec<u8>, value: &Value) -> Result<(), NoMemory>
    ensures { OnOk result (text.new.items ≡ text.old.items
        ++ spec.quoted (printed_letters value.now)) }
{
    append_bytes(text, b"\"")?;
    append_letters(text, value)?;
    append_bytes(text, b"\"")
}

/// Appends the shortest run of two variables, by their place.
fn append_short_run(
    text: &mut Vec<u8>,
    first: &ReportedCapture,
    compared: &[ComparedPair],
    place: usize,
) -> Result<(), NoMemory>
    ensures { OnOk result (text.new.items ≡ text.old.items
        ++ spec.short_run_json (facts_of first.now) (slice_get compared.now place)) }
{
    match compared.get(place) {
        Some(pair) => append_pair_run(text, first, pair),
        None => Ok(()),
    }
}

/// Appends the shortest run of two variables that were compared.
fn append_pair_run(
    text: &mut Vec<u8>,
    first: &ReportedCapture,
    pair: &ComparedPair,
) -> Result<(), NoMemory>
    ensures { OnOk result (text.new.items ≡ text.old.items
        ++ spec.pair_run_json (facts_of first.now) pair.now) }
{
    append_variable(text, b"short run", first.name(pair.first))?;
    append_member(text, b"ticks")?;
    append_run(text, pair.short_run)?;
    append_bytes(text, b"}")
}

/// Appends how many ticks the shortest run has.
fn append_run(text: &mut Vec<u8>, ticks: Option<u64>) -> Result<(), NoMemory>
    ensures { OnOk result (text.new.items ≡ text.old.items ++ spec.run_json ticks) }
{
    match ticks {
        Some(ticks) => append_decimal(text, ticks),
        None => append_bytes(text, b"null"),
    }
}

/// Appends an object on what is left out of a capture.
fn append_left_out(text: &mut Vec<u8>, what: &[u8], left_out: LeftOut) -> Result<(), NoMemory>
    ensures { OnOk result (text.new.items ≡ text.old.items
        ++ spec.left_out_json what.now left_out) }
{
    append_left_out_begin(text, what)?;
    append_number(text, b"replaced", left_out.replaced)?;
    append_bytes(text, b"}")
}

/// Appends the begin of an object on what is left out.
fn append_left_out_begin(text: &mut Vec<u8>, what: &[u8]) -> Result<(), NoMemory>
    ensures { OnOk result (text.new.items ≡ text.old.items ++ spec.left_out_begin what.now) }
{
    append_bytes(text, b"{\"what\": \"")?;
    append_bytes(text, what)?;
    append_bytes(text, b"\"")
}

/// Appends the name of one more member of an object.
fn append_member(text: &mut Vec<u8>, name: &[u8]) -> Result<(), NoMemory>
    ensures { OnOk result (text.new.items ≡ text.old.items ++ spec.member_name name.now) }
{
    append_bytes(text, b", \"")?;
    append_bytes(text, name)?;
    append_bytes(text, b"\": ")
}

/// Appends a member that is a number.
fn append_number(text: &mut Vec<u8>, name: &[u8], number: u64) -> Result<(), NoMemory>
    ensures { OnOk result (text.new.items ≡ text.old.items
        ++ spec.member name.now (decimal number)) }
{
    append_member(text, name)?;
    append_decimal(text, number)
}

/// Appends a number of each capture.
fn append_numbers(text: &mut Vec<u8>, first: u128, second: u128) -> Result<(), NoMemory>
    ensures { OnOk result (text.new.items ≡ text.old.items
        ++ spec.both_json (decimal first) (decimal second)) }
{
    append_bytes(text, b"[")?;
    append_ticks(text, first)?;
    append_bytes(text, b", ")?;
    append_ticks(text, second)?;
    append_bytes(text, b"]")
}

/// Appends a text of each capture.
fn append_strings(text: &mut Vec<u8>, first: &[u8], second: &[u8]) -> Result<(), NoMemory>
    ensures { OnOk result (text.new.items ≡ text.old.items
        ++ spec.both_json (spec.string_json first.now) (spec.string_json second.now)) }
{
    append_bytes(text, b"[")?;
    append_string(text, first)?;
    append_bytes(text, b", ")?;
    append_string(text, second)?;
    append_bytes(text, b"]")
}

/// Appends the timescale of each capture.
fn append_scales(
    text: &mut Vec<u8>,
    first: Option<Timescale>,
    second: Option<Timescale>,
) -> Result<(), NoMemory>
    ensures { OnOk result (text.new.items ≡ text.old.items ++ spec.both_json
        (spec.quoted (scale_text first)) (spec.quoted (scale_text second))) }
{
    append_bytes(text, b"[")?;
    append_quoted_scale(text, first)?;
    append_bytes(text, b", ")?;
    append_quoted_scale(text, second)?;
    append_bytes(text, b"]")
}

/// Appends a timescale as a string.
fn append_quoted_scale(text: &mut Vec<u8>, timescale: Option<Timescale>) -> Result<(), NoMemory>
    ensures { OnOk result (text.new.items ≡ text.old.items ++ spec.quoted (scale_text timescale)) }
{
    append_bytes(text, b"\"")?;
    append_scale(text, timescale)?;
    append_bytes(text, b"\"")
}

/// Appends a text as a string.
fn append_string(text: &mut Vec<u8>, bytes: &[u8]) -> Result<(), NoMemory>
    ensures { OnOk result (text.new.items ≡ text.old.items ++ spec.string_json bytes.now) }
{
    append_bytes(text, b"\"")?;
    for byte in bytes {
        append_escaped(text, *byte)?;
    }
    append_bytes(text, b"\"")
}

/// Appends a byte within a string.
fn append_escaped(text: &mut Vec<u8>, byte: u8) -> Result<(), NoMemory>
    ensures { OnOk result (text.new.items ≡ text.old.items ++ spec.escaped byte) }
{
    if byte == b'"' || byte == b'\\' {
        text.push(b'\\')?;
    }
    append_shown(text, &[byte])
}
