//! Words on a line: one space before each but the first, and a line feed after the last.

ghost use Rattle.std.specs.Prelude.{◌≡◌, ◌∷◌, [], codes};
ghost use Rattle.vcd_text.specs.inside.writing.Lines.{spaced_words};
ghost use Rattle.vcd_text.specs.EmittedText.{Emits};

use super::output::{Output, write_byte, write_bytes};
use vcd_core::{Sink, Word};

/// Writes a space and a word.
pub fn write_word<W: Sink>(output: &mut Output<W>, word: &[u8])
    ensures { Emits W.Sink output.old output.new (spaced_words (word.now ∷ [])) }
{
    write_byte(output, b' ');
    write_bytes(output, word);
}

/// Writes words, each after a space.
pub fn write_words<W: Sink>(output: &mut Output<W>, words: &[Word])
    ensures { Emits W.Sink output.old output.new (spaced_words words.now) }
{
    for word in words {
        write_word(output, word.as_slice());
    }
}

/// Ends the line of a declaration.
pub fn write_end<W: Sink>(output: &mut Output<W>)
    ensures { Emits W.Sink output.old output.new (codes " $end\n") }
{
    write_bytes(output, b" $end\n");
}
