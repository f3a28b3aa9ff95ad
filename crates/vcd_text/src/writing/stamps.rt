//! The stamps of ticks (IEEE 1364-2005, 18.2).

ghost use Rattle.std.specs.Prelude.{◌≡◌, decimal};
ghost use Rattle.std.specs.List.{flat_map};
ghost use Rattle.vcd_text.specs.Items.{stamp};
ghost use Rattle.vcd_text.specs.Text.{item_line};
ghost use Rattle.vcd_text.specs.inside.writing.Transitions.{new_stamp};
ghost use Rattle.vcd_text.specs.EmittedText.{Emits};

use super::output::{Output, write_byte, write_bytes};
use itoa::Buffer;
use vcd_core::Sink;

/// Writes the stamp of `tick`, unless it is that of the tick before, `last`.
pub fn write_new_stamp<W: Sink>(output: &mut Output<W>, last: u64, tick: u64)
    ensures { Emits W.Sink output.old output.new (flat_map item_line (new_stamp last tick)) }
{
    if tick == last {
        return;
    }
    write_stamp(output, tick);
}

/// Writes the line of a stamp.
pub fn write_stamp<W: Sink>(output: &mut Output<W>, tick: u64)
    ensures { Emits W.Sink output.old output.new (item_line (stamp (decimal tick))) }
{
    write_byte(output, b'#');
    write_bytes(output, Buffer::new().format(tick).as_bytes());
    write_byte(output, b'\n');
}
