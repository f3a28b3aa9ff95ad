//! What a mark says first.

ghost use Rattle.std.specs.Prelude.{◌<◌, ◌^◌};

use vcd_core::Word;

/// What a mark says first.
#[derive(Clone, Copy)]
pub struct MarkHead<'a> {
    /// The version of the program.
    pub version: &'a [u8],
    /// The name of the file that was read.
    pub name: &'a [u8],
    /// Its size in bytes.
    pub size: u64,
    /// Its SHA-256, in hexadecimal digits.
    pub digest: &'a [u8],
    /// Which part of it was taken: lines, each the name of an option and its value.
    pub part: &'a [Word],
    ghost fits: { size < 2 ^ 64 },
}
