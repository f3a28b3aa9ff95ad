//! Annotations of decoders as text.

ghost use Rattle.std.specs.Prelude.{◌≡◌, ◌<◌, ◌++◌, codes, OnOk, IfOk, false};
ghost use Rattle.std.specs.Fmt.{decimal, digit_glyph};
ghost use Rattle.vcd_script.specs.DecoderReply.{hex_digits, hex_text, data_text, direction_text};
ghost use Rattle.vcd_script.specs.DecoderReply.{kind_text, annotation_line};
ghost use Rattle.vcd_script.specs.AnnotationLines.{annotations_text};
ghost use Rattle.vcd_script.specs.inside.replies.Reply.{with_line_feed};
ghost use Rattle.vcd_decode.specs.declared.annotation.Kind.TheVariants as kinds;

use crate::replies::MemoryResult;
use crate::replies::appending::{append_bytes, append_decimal, append_number};
use std::alloc::Global;
use vcd_decode::{Annotation, Direction, Kind, LineData};

/// A line for each annotation of a decoder: its first and last tick, the decoder's name and the
/// kind. Data of UART and SPI have `digits` hexadecimal digits.
pub fn annotations_to_bytes(
    alloc: Global,
    decoder: &[u8],
    digits: u64,
    annotations: &[Annotation],
) -> MemoryResult<Vec<u8>>
    ensures { IfOk result (λ text. text.items
        ≡ annotations_text decoder.now digits annotations.now) }
{
    let mut text = Vec::new(alloc);
    append_annotations(&mut text, decoder, digits, annotations)?;
    Ok(text)
}

/// Appends the line of each of some annotations.
pub fn append_annotations(
    text: &mut Vec<u8>,
    decoder: &[u8],
    digits: u64,
    annotations: &[Annotation],
) -> MemoryResult<()>
    ensures { OnOk result (text.new.items
        ≡ text.old.items ++ annotations_text decoder.now digits annotations.now) }
{
    for annotation in annotations {
        append_annotation(text, decoder, digits, annotation)?;
    }
    Ok(())
}

/// Appends the line of an annotation.
fn append_annotation(
    text: &mut Vec<u8>,
    decoder: &[u8],
    digits: u64,
    annotation: &Annotation,
) -> MemoryResult<()>
    ensures { OnOk result (text.new.items
        ≡ text.old.items ++ with_line_feed (annotation_line decoder.now digits annotation.now)) }
{
    append_ticks(text, annotation)?;
    text.extend_from_slice(decoder)?;
    text.extend_from_slice(b" ")?;
    append_kind(text, digits, annotation.kind)?;
    append_bytes(text, b"\n")
}

/// Appends the first and the last tick of an annotation, with a blank.
fn append_ticks(text: &mut Vec<u8>, annotation: &Annotation) -> MemoryResult<()>
    ensures { OnOk result (text.new.items ≡ text.old.items ++ (decimal annotation.now.start
        ++ codes "-" ++ decimal annotation.now.end ++ codes " ")) }
{
    append_decimal(text, annotation.start)?;
    text.extend_from_slice(b"-")?;
    append_decimal(text, annotation.end)?;
    append_bytes(text, b" ")
}

/// Appends the kind of an annotation.
fn append_kind(text: &mut Vec<u8>, digits: u64, kind: Kind) -> MemoryResult<()>
    ensures { OnOk result (text.new.items ≡ text.old.items ++ kind_text digits kind) }
{
    match kind {
        Kind::Byte(data) => append_data(text, b"byte ", digits, u32::from(data)),
        Kind::ParityError(data) => append_data(text, b"parity-error ", digits, u32::from(data)),
        Kind::FrameError => append_bytes(text, b"frame-error"),
        Kind::Unknown => append_bytes(text, b"unknown"),
        Kind::CutOff => append_bytes(text, b"partial"),
        Kind::Word { mosi, miso } => append_line_data(text, digits, mosi, miso),
        Kind::Unfinished(count) => append_number(text, b"partial", count),
        Kind::Start => append_bytes(text, b"start"),
        Kind::RepeatedStart => append_bytes(text, b"repeated-start"),
        Kind::Stop => append_bytes(text, b"stop"),
        Kind::Address { address, direction } => {
            append_address(text, b"address ", 2, u32::from(address), direction)
        }
        Kind::AddressHigh { bits, direction } => {
            append_address(text, b"address-high ", 1, u32::from(bits), direction)
        }
        Kind::TenBitAddress { address, direction } => {
            append_address(text, b"address ", 3, u32::from(address), direction)
        }
        Kind::Data(byte) => append_data(text, b"data ", 2, u32::from(byte)),
        Kind::Ack => append_bytes(text, b"ack"),
        Kind::Nack => append_bytes(text, b"nack"),
    }
}

/// Appends a name and a number in `digits` hexadecimal digits.
fn append_data(text: &mut Vec<u8>, name: &[u8], digits: u64, number: u32) -> MemoryResult<()>
    ensures { OnOk result (text.new.items
        ≡ text.old.items ++ (name.now ++ hex_text digits number)) }
{
    text.extend_from_slice(name)?;
    text.extend_from_slice(b"0x")?;
    append_hex(text, digits, number)
}

/// Appends a name, an address in `digits` hexadecimal digits, and the direction.
fn append_address(
    text: &mut Vec<u8>,
    name: &[u8],
    digits: u64,
    address: u32,
    direction: Direction,
) -> MemoryResult<()>
    ensures { OnOk result (text.new.items
        ≡ text.old.items ++ (name.now ++ hex_text digits address ++ direction_text direction)) }
{
    append_data(text, name, digits, address)?;
    match direction {
        Direction::Write => append_bytes(text, b" write"),
        Direction::Read => append_bytes(text, b" read"),
    }
}

/// Appends what the two SPI data lines show of a word.
fn append_line_data(
    text: &mut Vec<u8>,
    digits: u64,
    mosi: LineData,
    miso: LineData,
) -> MemoryResult<()>
    ensures { OnOk result (text.new.items
        ≡ text.old.items ++ kind_text digits (kinds.Word mosi miso)) }
{
    text.extend_from_slice(b"word")?;
    append_line(text, b" mosi ", digits, mosi)?;
    append_line(text, b" miso ", digits, miso)
}

/// Appends a name and what its data line shows; nothing if the line is absent.
fn append_line(text: &mut Vec<u8>, name: &[u8], digits: u64, shown: LineData) -> MemoryResult<()>
    ensures { OnOk result (text.new.items
        ≡ text.old.items ++ data_text digits name.now shown) }
{
    match shown {
        LineData::Absent => Ok(()),
        LineData::Unknown => {
            text.extend_from_slice(name)?;
            append_bytes(text, b"?")
        }
        LineData::Number(number) => append_data(text, name, digits, number),
    }
}

/// Appends the last `digits` hexadecimal digits of a number.
fn append_hex(text: &mut Vec<u8>, digits: u64, number: u32) -> MemoryResult<()>
    ensures { OnOk result (text.new.items ≡ text.old.items ++ hex_digits digits number) }
{
    if digits == 0 {
        return Ok(());
    }
    append_hex(text, digits - 1, number / 16)?;
    text.push(hex_digit((number % 16) as u8))?;
    Ok(())
}

/// The hexadecimal digit of a number, in lower case.
fn hex_digit(n: u8) -> u8
    requires { n < 16 }
    ensures { result ≡ digit_glyph false n }
{
    if n < 10 { b'0' + n } else { b'a' + (n - 10) }
}
