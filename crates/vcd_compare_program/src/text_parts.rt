//! Parts of both forms of the report.

ghost use Rattle.std.specs.Prelude.{◌≡◌, ◌++◌, OnOk};
ghost use Rattle.std.specs.Fmt.{decimal};
ghost use Rattle.vcd_text.specs.Letters.{printed_letters};
ghost use Rattle.vcd_compare_program.specs.ComparisonText as spec;

use itoa::Buffer;
use vcd_core::{NoMemory, Timescale, Value};
use vcd_shell::{append_bytes, append_decimal};

/// Appends a number of ticks in decimal digits.
pub fn append_ticks(text: &mut Vec<u8>, ticks: u128) -> Result<(), NoMemory>
    ensures { OnOk result (text.new.items ≡ text.old.items ++ decimal ticks) }
{
    append_bytes(text, Buffer::new().format(ticks).as_bytes())
}

/// Appends a timescale, or `none`.
pub fn append_scale(text: &mut Vec<u8>, timescale: Option<Timescale>) -> Result<(), NoMemory>
    ensures { OnOk result (text.new.items ≡ text.old.items ++ spec.scale_text timescale) }
{
    let Some(timescale) = timescale else {
        return append_bytes(text, b"none");
    };
    append_decimal(text, timescale.count)?;
    append_bytes(text, b" ")?;
    append_bytes(text, timescale.unit.symbol().as_bytes())
}

/// Appends all letters of a value, most significant first.
pub fn append_letters(text: &mut Vec<u8>, value: &Value) -> Result<(), NoMemory>
    ensures { OnOk result (text.new.items ≡ text.old.items ++ printed_letters value.now) }
{
    let width = value.width();
    for k in 0..width {
        text.push(value.bit(width - 1 - k).printed_letter())?;
    }
    Ok(())
}
