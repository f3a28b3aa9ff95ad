//! The lines of a decoder whose signals no edit read.

ghost use Rattle.std.specs.Prelude.{◌≡◌, Some, None, [], false, IfSome, length};
ghost use Rattle.std.specs.List.{slice_get};
ghost use Rattle.std.specs.Option.{option_map};
ghost use Rattle.vcd_remarks.specs.DecoderLines as spec;
ghost use Rattle.vcd_amend_run.specs.inside.dry_running.LinePlan.{AreUnread};

use vcd_script::Command;

/// The positions of the four lines of a command, if it decodes.
pub fn decoder_lines(command: &Command) -> Option<[Option<usize>; 4]>
    ensures lines { IfSome result (λ lines. spec.decoder_lines command.now ≡ lines) }
    ensures four { IfSome result (λ lines. length (spec.decoder_lines command.now) ≡ 4) }
    ensures none { result ≡ None → spec.decoder_lines command.now ≡ [] }
{
    match command {
        Command::Uart { signal, .. } => Some([Some(*signal), None, None, None]),
        Command::Spi {
            clk,
            mosi,
            miso,
            cs,
            ..
        } => Some([Some(*clk), *mosi, *miso, *cs]),
        Command::I2c { scl, sda } => Some([Some(*scl), Some(*sda), None, None]),
        _ => None,
    }
}

/// The positions in the first capture of the signals of a decoder's lines, if each is there and not
/// marked as read.
pub fn unread_lines(
    read: &[bool],
    origins: &[usize],
    lines: [Option<usize>; 4],
) -> Option<[Option<usize>; 4]>
    ensures { IfSome result (AreUnread read.now origins.now lines) }
{
    let [first, second, third, fourth] = lines;
    Some([
        unread_line(read, origins, first)?,
        unread_line(read, origins, second)?,
        unread_line(read, origins, third)?,
        unread_line(read, origins, fourth)?,
    ])
}

/// The same for one line. An absent one is absent there, too.
fn unread_line(read: &[bool], origins: &[usize], line: Option<usize>) -> Option<Option<usize>>
    ensures { IfSome result (λ found.
        (option_map (slice_get origins.now) line ≡ option_map (λ k. Some k) found)
        × IfSome found (λ k. slice_get read.now k ≡ Some false)) }
{
    match line {
        Some(signal) => Some(Some(unread_origin(read, origins, signal)?)),
        None => Some(None),
    }
}

/// The position in the first capture of the signal at a position, if it has one and is not marked
/// as read.
fn unread_origin(read: &[bool], origins: &[usize], signal: usize) -> Option<usize>
    ensures origin { IfSome result (λ k. slice_get origins.now signal ≡ Some k) }
    ensures unread { IfSome result (λ k. slice_get read.now k ≡ Some false) }
{
    let origin = *origins.get(signal)?;
    if *read.get(origin)? {
        None
    } else {
        Some(origin)
    }
}
