//! Tests of the words that begin items.

ghost use Rattle.std.specs.Prelude.{◌≡◌};
ghost use Rattle.vcd_core.specs.Word.{is_one_of};
ghost use Rattle.vcd_text.specs.Items.{is_command, declaration_words, dump_words};

/// Whether a word belongs to a dump: `$dumpoff`, `$end` and so on.
pub fn is_dump_word(text: &[u8]) -> bool
    ensures { result ≡ is_one_of dump_words text.now }
{
    // Comparisons in a row: a `match` on byte strings leaves goals open.
    text == b"$dumpall".as_slice()
        || text == b"$dumpoff".as_slice()
        || text == b"$dumpon".as_slice()
        || text == b"$dumpvars".as_slice()
        || text == b"$end".as_slice()
}

/// Whether a word begins with `$`.
pub fn is_command(text: &[u8]) -> bool
    ensures { result ≡ is_command text.now }
{
    matches!(text, [b'$', ..])
}

/// Whether a word is one of the declarations alone.
pub fn is_declaration_word(text: &[u8]) -> bool
    ensures { result ≡ is_one_of declaration_words text.now }
{
    // As above.
    text == b"$scope".as_slice()
        || text == b"$upscope".as_slice()
        || text == b"$var".as_slice()
        || text == b"$timescale".as_slice()
        || text == b"$enddefinitions".as_slice()
}
