//! Timescales (IEEE 1364-2005, 18.2).

ghost use Rattle.std.specs.Prelude.{◌≡◌, IfOk};
ghost use Rattle.std.specs.List.{concat};
ghost use Rattle.vcd_core.specs.UnitNames.{unit_named};
ghost use Rattle.vcd_text.specs.Items.{timescale_of};
ghost use Rattle.vcd_text.specs.inside.reading.Timescale.{timescale_spelled, timescale_of_unit};

use std::alloc::Global;
use vcd_core::{NoMemory, TimeUnit, Timescale, Word};

/// The timescale that words spell when they are run together; none if they spell none.
pub fn timescale_in(alloc: Global, words: &[Word]) -> Result<Option<Timescale>, NoMemory>
    ensures { IfOk result (λ found. timescale_of words.now ≡ found) }
{
    let text = joined_words(alloc, words)?;
    Ok(timescale_of_text(&text))
}

/// The words run together.
fn joined_words(alloc: Global, words: &[Word]) -> Result<Vec<u8>, NoMemory>
    ensures { IfOk result (λ text. text.items ≡ concat words.now) }
{
    let mut text = Vec::new(alloc);
    for word in words {
        text.extend_from_slice(word.as_slice())?;
    }
    Ok(text)
}

/// The timescale that a text spells; none if it spells none.
fn timescale_of_text(text: &[u8]) -> Option<Timescale>
    ensures { result ≡ timescale_spelled text.now }
{
    if let Some(unit) = text.strip_prefix(b"100") {
        return timescale_with(100, unit);
    }
    if let Some(unit) = text.strip_prefix(b"10") {
        return timescale_with(10, unit);
    }
    if let Some(unit) = text.strip_prefix(b"1") {
        return timescale_with(1, unit);
    }
    None
}

/// `count` of the unit that a text names; none if it names none.
fn timescale_with(count: u64, unit: &[u8]) -> Option<Timescale>
    ensures { result ≡ timescale_of_unit count (unit_named unit.now) }
{
    let unit = TimeUnit::from_symbol(unit)?;
    Some(Timescale { count, unit })
}
