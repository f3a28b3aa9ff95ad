//! The values at tick 0 (IEEE 1364-2005, 18.2).

ghost use Rattle.std.specs.Prelude.{◌≡◌, ◌≤◌, length, map};
ghost use Rattle.std.specs.List.{enumerate_from, flat_map};
ghost use Rattle.vcd_core.specs.CaptureContents.{signal_contents};
ghost use Rattle.vcd_core.specs.declared.capture.TheConstants.{SIGNAL_LIMIT};
ghost use Rattle.vcd_text.specs.Text.{first_items, item_line, value_items};
ghost use Rattle.vcd_text.specs.EmittedText.{Emits};

use super::output::{Output, write_bytes};
use super::stamps::write_stamp;
use super::values::write_value_near;
use vcd_core::{Signal, Sink};

/// Writes the values at tick 0.
pub fn write_first_values<W: Sink>(output: &mut Output<W>, signals: &[Signal])
    requires { length signals.now ≤ SIGNAL_LIMIT }
    ensures { Emits W.Sink output.old output.new
        (flat_map item_line (first_items (map signal_contents signals.now))) }
{
    write_stamp(output, 0);
    write_bytes(output, b"$dumpvars\n");
    write_all_values(output, signals);
    write_bytes(output, b"$end\n");
}

/// Writes the values at tick 0 of all signals, in order.
fn write_all_values<W: Sink>(output: &mut Output<W>, signals: &[Signal])
    requires { length signals.now ≤ SIGNAL_LIMIT }
    ensures { Emits W.Sink output.old output.new
        (flat_map item_line (value_items 0 (enumerate_from 0 (map signal_contents signals.now)))) }
{
    for (position, signal) in signals.iter().enumerate() {
        write_value_near(output, position, &signal.wave, 0, 0);
    }
}
