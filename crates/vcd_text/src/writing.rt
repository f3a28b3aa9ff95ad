//! The text of a capture: the lines of the format in a fixed order (IEEE 1364-2005, 18.2).

ghost use Rattle.std.specs.Prelude.{◌≡◌, false, true, IfErr, OnOk};
ghost use Rattle.std.specs.Io.KnownBytes.{Appends};
ghost use Rattle.vcd_core.specs.CaptureContents.{contents};
ghost use Rattle.vcd_core.specs.Sound.{IsSound};
ghost use Rattle.vcd_text.specs.Text.{text};
ghost use Rattle.vcd_text.specs.WriteEnds.{TookBefore};

mod codes;
mod cursors;
pub(crate) mod declarations;
mod first_values;
mod lines;
pub(crate) mod output;
mod stamps;
mod transitions;
mod values;
mod window;

use crate::fault::WriteError;
use declarations::write_declarations;
pub use declarations::{write_declaration, write_scopes, write_upscopes};
use first_values::write_first_values;
use output::{Output, empty_buffer, flush, send_buffer};
pub use stamps::write_stamp;
use std::alloc::Global;
use transitions::write_transitions;
pub use values::write_change;
use vcd_core::{Capture, Sink};
use window::Window;

/// Writes the text of a capture (IEEE 1364-2005, 18.2), and flushes the writer once after its last
/// byte. All memory is taken before the first byte is written.
///
/// At `NoMemory` the writer took nothing and has not failed. At `WriteFault` it has failed, and
/// took exactly the first `written` bytes of the text: all of them if the flush failed.
/// The count of a text of 2^128 bytes or more stops at the limit of its type.
///
/// The time is that of sorting the changes, a part at a time; ticks without a change cost nothing.
/// The memory is at most 96 KiB, and 48 bytes for each signal. For more than 4,096 signals it is
/// 64 KiB, and 56 bytes for each.
pub fn write<W: Sink>(alloc: Global, capture: &Capture, writer: &mut W) -> Result<(), WriteError>
    requires sound { IsSound (contents capture.now) }
    requires ready { W.has_failed writer.old ≡ false }
    ensures written { OnOk result (Appends (W.taken writer.old) (W.taken writer.new)
        (text (contents capture.now))) }
    ensures not_failed { OnOk result (W.has_failed writer.new ≡ false) }
    ensures flushed { OnOk result (W.is_flushed writer.new ≡ true) }
    ensures failed { IfErr result (TookBefore (text (contents capture.now)) (W.taken writer.old)
        (W.taken writer.new) (W.has_failed writer.new)) }
{
    let signals = capture.signals();
    let end = capture.end();
    let mut window = Window::new(alloc, signals, end)?;
    let unsent = empty_buffer(alloc)?;
    let mut output = Output {
        unsent,
        sent_count: 0,
        writer,
    };
    write_declarations(&mut output, capture);
    write_first_values(&mut output, signals);
    write_transitions(&mut output, signals, &mut window, end);
    send_buffer(&mut output);
    // Taken apart with each field named, as only so the prover knows what the writer is at the end.
    let Output {
        unsent,
        sent_count,
        writer,
    } = output;
    drop(unsent);
    flush(writer, sent_count)
}
