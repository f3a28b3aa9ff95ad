//! A signal computed from others.

ghost use Rattle.std.specs.Prelude.{◌≡◌, ◌<◌, ℕ, [], ◌∷◌, Some, None, IfOk, IsTrue, true, length};
ghost use Rattle.std.specs.Prelude.{map};
ghost use Rattle.std.specs.List.{list_all};
ghost use Rattle.vcd_core.specs.CaptureContents.{contents, signal_contents};
ghost use Rattle.vcd_core.specs.Sound.{IsSound};
ghost use Rattle.vcd_core.specs.Value.{letter_at};
ghost use Rattle.vcd_core.specs.Wave.{value_at, AllUpTo, IsWave};
ghost use Rattle.vcd_edit.specs.Operators.{operator_bit};
ghost use Rattle.vcd_edit.specs.Effect.{derived_signal, formula, formula_bit};
ghost use Rattle.vcd_edit.specs.EditFaults.{is_signal, operands, width_test, edit_fault};
ghost use Rattle.vcd_edit.specs.inside.plans.Derive.{selected_bit, HasOperands, HasBitsUpTo};
ghost use Rattle.vcd_edit.specs.inside.plans.Plan.{IsPlan};
ghost use Rattle.vcd_edit.specs.declared.edit.Edit.TheVariants as edits;

use crate::edit::{Formula, Operator, Rule};
use crate::plans::operators::not;
use crate::plans::pieces::signal_at;
use crate::record::Record;
use std::alloc::Global;
use vcd_core::{Bit, BitEdges, Capture, NameWords, NoMemory, Seq, Signal, Value, Wave, copy_word};

/// How a bit of an operand is taken.
#[derive(Clone, Copy)]
enum Polarity {
    AsIs,
    Negated,
}

/// The record that puts the new signal in after the last.
pub(crate) fn plan(
    alloc: Global,
    capture: &Capture,
    word: &[u8],
    rule: Rule,
) -> Result<Record, NoMemory>
    requires sound { IsSound (contents capture.now) }
    requires allowed { edit_fault (edits.Derive word rule) (contents capture.now) ≡ None }
    ensures { IfOk result (IsPlan (edits.Derive word.entry rule) (contents capture.now)) }
{
    let signal = new_signal(alloc, capture, word, rule)?;
    Ok(Record {
        pieces: Vec::new(alloc),
        word: None,
        signal: Some((capture.signals().len(), Some(signal))),
        other_end: None,
    })
}

/// The new signal.
fn new_signal(alloc: Global, capture: &Capture, word: &[u8], rule: Rule) -> Result<Signal, NoMemory>
    requires sound { IsSound (contents capture.now) }
    requires operands_exist { IsTrue (list_all (is_signal (contents capture.now))
        (operands (formula rule))) }
    requires operand_widths { IsTrue (width_test (formula rule) (contents capture.now)).holds }
    ensures { IfOk result (λ s. signal_contents s
        ≡ derived_signal word.now rule (contents capture.now)) }
{
    let formula = rule.formula();
    let first = signal_at(capture, formula.first_operand());
    Ok(Signal {
        scopes: first.scopes.share()?,
        kind: copy_word(alloc, b"wire")?,
        words: name_of_one_word(alloc, word)?,
        wave: derived_wave(alloc, capture, formula)?,
    })
}

fn name_of_one_word(alloc: Global, word: &[u8]) -> Result<NameWords, NoMemory>
    ensures { IfOk result (λ words. words ≡ word.now ∷ []) }
{
    let mut words = Vec::new(alloc);
    words.push(copy_word(alloc, word)?)?;
    Ok(NameWords::new(Seq::from_vec(words)))
}

/// The wave that has the formula's bit at each tick. Its list has no spare room.
fn derived_wave(alloc: Global, capture: &Capture, formula: Formula) -> Result<Wave, NoMemory>
    requires sound { IsSound (contents capture.now) }
    requires operands { HasOperands (contents capture.now) formula }
    ensures { IfOk result (HasBitsUpTo capture.now.end
        (formula_bit formula (contents capture.now))) }
{
    match formula {
        Formula::Negation(a) => wave_of_one(
            alloc,
            &signal_at(capture, a).wave,
            0,
            Polarity::Negated,
        ),
        Formula::BitSelect(a, k) => wave_of_one(
            alloc,
            &signal_at(capture, a).wave,
            k,
            Polarity::AsIs,
        ),
        Formula::Pair(operator, a, b) => {
            let first = &signal_at(capture, a).wave;
            wave_of_two(alloc, first, &signal_at(capture, b).wave, operator)
        }
    }
}

/// States that the changes of a wave have the form of a wave's.
fn changes_have_form(wave: &Wave)
    ensures { IsWave wave.now.width wave.now.changes }
{
    let _changes = wave.changes();
}

/// The wave of bit `k` of another wave, negated or as it is.
fn wave_of_one(alloc: Global, operand: &Wave, k: u64, polarity: Polarity) -> Result<Wave, NoMemory>
    requires { k < operand.now.width }
    ensures { (end : ℕ) → AllUpTo end operand.now.changes → IfOk result (HasBitsUpTo end
        (λ t. selected_bit k polarity (value_at operand.now.width operand.now.changes t))) }
{
    let mut wave = Wave::new(alloc, 1);
    for change in operand.changes() {
        let bit = selected_bit(&change.value, k, polarity);
        wave.push(change.tick, Value::filled(1, bit))?;
    }
    wave.shrink_to_fit();
    changes_have_form(&wave);
    Ok(wave)
}

/// The wave of an operator on two waves of one bit.
fn wave_of_two<'a>(
    alloc: Global,
    first: &'a Wave,
    last: &'a Wave,
    operator: Operator,
) -> Result<Wave, NoMemory>
    requires end { (end : ℕ) × AllUpTo end first.now.changes × AllUpTo end last.now.changes }
    requires one_bit { (first.now.width ≡ 1) × (last.now.width ≡ 1) }
    ensures { (end : ℕ) → AllUpTo end first.now.changes → AllUpTo end last.now.changes
        → IfOk result (HasBitsUpTo end (λ t. operator_bit operator
        (letter_at (value_at first.now.width first.now.changes t) 0)
        (letter_at (value_at last.now.width last.now.changes t) 0))) }
{
    let mut wave = Wave::new(alloc, 1);
    for edge in BitEdges::new(Some(first), Some(last), None, None) {
        let bit = operator.apply(edge.at[0].unwrap(), edge.at[1].unwrap());
        wave.push(edge.tick, Value::filled(1, bit))?;
    }
    wave.shrink_to_fit();
    changes_have_form(&wave);
    Ok(wave)
}

/// Bit `k` of a value, negated or as it is.
fn selected_bit(value: &Value, k: u64, polarity: Polarity) -> Bit
    requires { k < length value.now }
    ensures { result ≡ selected_bit k polarity value.now }
{
    let bit = value.bit(k);
    match polarity {
        Polarity::AsIs => bit,
        Polarity::Negated => not(bit),
    }
}
