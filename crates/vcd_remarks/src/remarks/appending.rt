//! The parts of remarks.

ghost use Rattle.std.specs.Prelude.{◌≡◌, ◌++◌, OnOk};
ghost use Rattle.vcd_remarks.specs.Remarks as spec;
ghost use Rattle.vcd_remarks.specs.inside.remarks.Parts.{remark_head};

use vcd_script::{MemoryResult, append_bytes, append_decimal, append_number};

/// Appends what begins each remark: the number of its line.
pub fn append_remark_head(text: &mut Vec<u8>, number: u64) -> MemoryResult<()>
    ensures { OnOk result (text.new.items ≡ text.old.items ++ remark_head number) }
{
    append_number(text, b"line", number)?;
    append_bytes(text, b": ")
}

/// Appends how many more there are than are shown, if any.
pub fn append_more(text: &mut Vec<u8>, count: u64) -> MemoryResult<()>
    ensures { OnOk result (text.new.items ≡ text.old.items ++ spec.more_text count) }
{
    if count == 0 {
        return Ok(());
    }
    text.extend_from_slice(b", and ")?;
    append_decimal(text, count)?;
    append_bytes(text, b" more")
}
