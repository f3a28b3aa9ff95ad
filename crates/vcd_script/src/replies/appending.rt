//! The parts of replies: the letters of a value, and decimal numbers.

ghost use Rattle.std.specs.Prelude.{◌≡◌, ◌++◌, OnOk};
ghost use Rattle.std.specs.Fmt.{decimal};
ghost use Rattle.vcd_text.specs.Letters.{printed_letters};
ghost use Rattle.vcd_script.specs.inside.replies.Listing.{number_line};

use crate::replies::MemoryResult;
use itoa::Buffer;
use vcd_core::Value;

/// Appends all letters of a value, most significant first. The cost is the width.
pub fn append_letters(text: &mut Vec<u8>, value: &Value) -> MemoryResult<()>
    ensures { OnOk result (text.new.items ≡ text.old.items ++ printed_letters value.now) }
{
    let width = value.width();
    for k in 0..width {
        text.push(value.bit(width - 1 - k).printed_letter())?;
    }
    Ok(())
}

/// Appends a number in decimal digits.
pub fn append_decimal(text: &mut Vec<u8>, number: u64) -> MemoryResult<()>
    ensures { OnOk result (text.new.items ≡ text.old.items ++ decimal number) }
{
    append_bytes(text, Buffer::new().format(number).as_bytes())
}

/// Appends bytes.
pub fn append_bytes(text: &mut Vec<u8>, bytes: &[u8]) -> MemoryResult<()>
    ensures { OnOk result (text.new.items ≡ text.old.items ++ bytes.now) }
{
    text.extend_from_slice(bytes)?;
    Ok(())
}

/// Appends a word and a number.
pub fn append_number(text: &mut Vec<u8>, word: &[u8], number: u64) -> MemoryResult<()>
    ensures { OnOk result (text.new.items ≡ text.old.items ++ number_line word.now number) }
{
    text.extend_from_slice(word)?;
    text.extend_from_slice(b" ")?;
    append_decimal(text, number)
}
