//! A mark in a written file: a comment that says by which version of the program it was written, of
//! which file or part of it, and with which edits.

ghost use Rattle.std.specs.Prelude.{◌≡◌, ◌<◌, ◌∷◌, ◌++◌, ℕ, List};
ghost use Rattle.std.specs.List.{flat_map, join_with_byte};
ghost use Rattle.vcd_text.specs.EmittedText.{Emits};
ghost use Rattle.vcd_copy.specs.MarkText as spec;

mod head;
mod marked;

pub use head::MarkHead;
use itoa::Buffer;
pub use marked::Marked;
use vcd_core::{Sink, Word};
use vcd_text::{Output, Words, write_byte, write_bytes};

/// A mark, with the lines of the script that made the edits in force, the oldest first.
#[derive(Clone, Copy)]
pub struct Mark<'a> {
    pub head: MarkHead<'a>,
    pub edits: &'a [Word],
}

/// Writes a mark.
fn write_mark<W: Sink>(output: &mut Output<W>, mark: &Mark<'_>)
    ensures { Emits W.Sink output.old output.new
        (spec.mark_with_edits mark.now.head mark.now.edits.now).bytes }
{
    write_head(output, mark.head);
    write_lines(output, b"\npart", mark.head.part);
    write_lines(output, b"\nedit", mark.edits);
    write_bytes(output, b"\n$end");
}

/// Writes the lines on the program and on what was read.
fn write_head<W: Sink>(output: &mut Output<W>, head: MarkHead<'_>)
    ensures { Emits W.Sink output.old output.new
        (join_with_byte 32 (spec.title_words head.entry)
        ++ 10 ∷ join_with_byte 32 (spec.read_words head.entry)) }
{
    write_bytes(output, b"$comment vcdedit-amend ");
    write_escaped(output, head.version);
    write_bytes(output, b"\nread ");
    write_escaped(output, head.name);
    write_byte(output, b' ');
    write_bytes(output, Buffer::new().format(head.size).as_bytes());
    write_bytes(output, b" bytes SHA-256 ");
    write_escaped(output, head.digest);
}

/// Writes bytes as one word.
fn write_escaped<W: Sink>(output: &mut Output<W>, bytes: &[u8])
    ensures { Emits W.Sink output.old output.new (spec.escaped_word bytes.now) }
{
    if bytes.is_empty() {
        write_byte(output, b'-');
        return;
    }
    for byte in bytes {
        write_escaped_byte(output, *byte);
    }
}

/// Writes a byte, or `%` and its hexadecimal digits.
fn write_escaped_byte<W: Sink>(output: &mut Output<W>, byte: u8)
    ensures { Emits W.Sink output.old output.new (spec.escaped_byte byte) }
{
    if is_plain(byte) {
        write_byte(output, byte);
        return;
    }
    write_bytes(output, &[b'%', hex_digit(byte / 16), hex_digit(byte % 16)]);
}

/// Whether a byte means itself.
fn is_plain(byte: u8) -> bool
    ensures { result ≡ spec.is_plain byte }
{
    byte > 32 && byte != 127 && byte != b'%' && byte != b'$'
}

/// The hexadecimal digit of a number.
fn hex_digit(number: u8) -> u8
    requires { number < 16 }
    ensures { result ≡ spec.hex_digit number }
{
    if number < 10 {
        return b'0' + number;
    }
    87 + number
}

/// Writes lines, each on a line of its own after this line feed and word.
fn write_lines<W: Sink>(output: &mut Output<W>, first: &[u8], lines: &[Word])
    ensures { (word : List ℕ) → first.now ≡ 10 ∷ word → Emits W.Sink output.old output.new
        (flat_map (λ line. 10 ∷ join_with_byte 32 (spec.line_words word line)) lines.now) }
{
    for line in lines {
        write_line(output, first, line.as_slice());
    }
}

/// Writes the words of a line after a line feed and a word.
fn write_line<W: Sink>(output: &mut Output<W>, first: &[u8], line: &[u8])
    ensures { (word : List ℕ) → first.now ≡ 10 ∷ word → Emits W.Sink output.old output.new
        (10 ∷ join_with_byte 32 (spec.line_words word line.now)) }
{
    write_bytes(output, first);
    for word in Words::new(line) {
        write_byte(output, b' ');
        write_bytes(output, word_in_comment(word.text));
    }
}

/// A word that does not end a comment.
fn word_in_comment(word: &[u8]) -> &[u8]
    ensures { result.now ≡ spec.word_in_comment word.now }
{
    if word == b"$end".as_slice() {
        return b"%24end";
    }
    word
}
