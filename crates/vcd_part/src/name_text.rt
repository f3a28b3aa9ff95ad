//! The text of a name, of the words of a `$var`.

ghost use Rattle.std.specs.Prelude.{◌≡◌, ◌++◌, ◌∷◌, [], ℕ, List, OnOk};
ghost use Rattle.std.specs.List.{concat};
ghost use Rattle.vcd_text.specs.Words.{words_of};
ghost use Rattle.vcd_text.specs.Items.{end_word};
ghost use Rattle.vcd_text.specs.Grammar.{word_texts};

use vcd_core::NoMemory;
use vcd_text::Words;

/// Makes this the text of a name: its words, run together. The last word is `$end`, which is no
/// word of the name.
pub fn read_name(text: &mut Vec<u8>, words: &[u8]) -> Result<(), NoMemory>
    ensures { OnOk result ((names : List (List ℕ)) →
        word_texts (words_of words.now) ≡ names ++ end_word ∷ [] →
        text.new.items ≡ concat names) }
{
    text.clear();
    let mut left = Words::new(words);
    let mut last = b"".as_slice();
    while let Some(word) = left.next_word() {
        text.extend_from_slice(last)?;
        last = word.text;
    }
    Ok(())
}
