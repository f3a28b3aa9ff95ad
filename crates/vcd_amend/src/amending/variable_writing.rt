//! Writes declarations of variables: those that are added, and those with another name or code.

ghost use Rattle.std.specs.Prelude.{◌≡◌, ◌∷◌, ◌-◌, ◌==◌, [], ℕ, List, length, map, nat_lt};
ghost use Rattle.std.specs.Prelude.{slice_index_or};
ghost use Rattle.std.specs.Prelude.{if◌then◌else◌, false};
ghost use Rattle.std.specs.List.{flat_map};
ghost use Rattle.vcd_text.specs.EmittedText.{Emits};
ghost use Rattle.vcd_text.specs.Grammar.{word_texts};
ghost use Rattle.vcd_text.specs.Items.{variable};
ghost use Rattle.vcd_text.specs.Text.{item_line};
ghost use Rattle.vcd_copy.specs.VariableWords.{IsVariable};
ghost use Rattle.vcd_text.specs.Words.{words_of};
ghost use Rattle.vcd_amend.specs.AmendedItems.{added_items};
ghost use Rattle.vcd_amend.specs.AmendedText.{exchanged_bytes, with_words};
ghost use Rattle.vcd_amend.specs.AmendmentContents.{added_contents};
ghost use Rattle.vcd_amend.specs.inside.amending.WordsInPlace.{word_in_place};
ghost use Rattle.vcd_amend.specs.inside.amending.WordsInPlace.{words_in_place};

use crate::amendment::AddedVariable;
use itoa::Buffer;
use vcd_copy::VariableWords;
use vcd_core::{Sink, Word};
use vcd_text::{
    Output, Words, write_byte, write_bytes, write_declaration, write_scopes, write_upscopes,
};

/// Writes the lines of variables that are added, each in its scopes.
pub fn write_added<W: Sink>(output: &mut Output<W>, added: &[AddedVariable])
    ensures { Emits W.Sink output.old output.new
        (flat_map item_line (flat_map added_items (map added_contents added.now))) }
{
    for variable in added {
        write_added_variable(output, variable);
    }
}

/// Writes the lines of a variable in its scopes.
fn write_added_variable<W: Sink>(output: &mut Output<W>, variable: &AddedVariable)
    ensures { Emits W.Sink output.old output.new
        (flat_map item_line (added_items (added_contents variable.now))) }
{
    let scopes = variable.scopes.as_slice();
    write_scopes(output, scopes);
    write_declaration(
        output,
        variable.kind.as_slice(),
        Buffer::new().format(variable.width).as_bytes(),
        variable.code.as_slice(),
        variable.words.as_slice(),
    );
    write_byte(output, b'\n');
    write_upscopes(output, scopes.len());
}

/// Writes a `$var` with these name words and this code in the place of one with these bytes. If it
/// has as many words, the white space between them stays.
pub fn write_changed<W: Sink>(
    output: &mut Output<W>,
    body: &[u8],
    declared: VariableWords,
    names: &[Word],
    code: &[u8],
)
    ensures { (old : List ℕ) (own : List (List ℕ)) →
        IsVariable body.now declared.entry.kind.now declared.entry.size.now old own →
        Emits W.Sink output.old output.new (exchanged_bytes (record {
          item = variable (declared.entry.kind.now ∷ declared.entry.size.now ∷ old ∷ own);
          space = [];
          body = body.now;
        })
        (variable (declared.entry.kind.now ∷ declared.entry.size.now ∷ code.now ∷ names.now))) }
{
    if count_words(body) == names.len().saturating_add(5) {
        write_in_words(output, body, names, code);
    } else {
        write_declaration(output, declared.kind, declared.size, code, names);
    }
}

/// The number of words.
fn count_words(text: &[u8]) -> usize
    ensures { result ≡ length (words_of text.now) }
{
    Words::new(text).count()
}

/// Writes a `$var` with these bytes, with this code and these name words in the place of its own.
fn write_in_words<W: Sink>(output: &mut Output<W>, body: &[u8], names: &[Word], code: &[u8])
    ensures { Emits W.Sink output.old output.new (with_words false body.now
        (words_in_place 0 (word_texts (words_of body.now)) names.now code.now)) }
{
    let mut words = Words::new(body);
    let mut left = body;
    let mut index = 0usize;
    while let Some(word) = words.next_word() {
        write_bytes(
            output,
            &left[..left.len() - words.rest.len() - word.text.len()],
        );
        write_bytes(output, word_at(index, word.text, names, code));
        left = words.rest;
        index = index.saturating_add(1);
    }
    write_bytes(output, left);
}

/// The word at an index of a `$var` with this code and these name words; the others are its own.
fn word_at<'a>(index: usize, own: &'a [u8], names: &'a [Word], code: &'a [u8]) -> &'a [u8]
    ensures { result.now ≡ word_in_place index own.now names.now code.now }
{
    if index == 3 {
        return code;
    }
    if index < 3 {
        return own;
    }
    match names.get(index - 4) {
        Some(name) => name.as_slice(),
        None => own,
    }
}
