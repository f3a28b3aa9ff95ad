//! The words of a `$var` in a file.

ghost use Rattle.std.specs.Prelude.{◌≡◌, ◌++◌, ◌∷◌, ◌==◌, ◌||◌, [], ℕ, List, MatchOption, nat_lt};
ghost use Rattle.std.specs.Prelude.{true};
ghost use Rattle.vcd_core.specs.Decimal.{is_number, number_of};
ghost use Rattle.vcd_core.specs.Word as spec;
ghost use Rattle.vcd_text.specs.Words.{words_of};
ghost use Rattle.vcd_text.specs.Items.{end_word};
ghost use Rattle.vcd_text.specs.Grammar.{word_texts};
ghost use Rattle.vcd_copy.specs.VariableWords.{IsVariable};

use vcd_core::{WIDTH_LIMIT, is_skipped_kind, number_up_to};
use vcd_text::Words;

/// The words of a `$var`.
#[derive(Clone, Copy)]
pub struct VariableWords<'a> {
    pub kind: &'a [u8],
    pub size: &'a [u8],
    pub code: &'a [u8],
    /// What comes after the code: the words of the name, and `$end`.
    pub names: &'a [u8],
}

impl<'a> VariableWords<'a> {
    /// The words of a `$var` with these bytes, if there are as many.
    pub fn read(body: &'a [u8]) -> Option<VariableWords<'a>>
        ensures { (kind size code : List ℕ) (names : List (List ℕ)) →
            IsVariable body.now kind size code names → MatchOption result ⊥ (λ words.
            (words.kind.now ≡ kind) × (words.size.now ≡ size) × (words.code.now ≡ code)
            × (word_texts (words_of words.names.now) ≡ names ++ end_word ∷ [])) }
    {
        let mut words = Words::new(body);
        words.next_word()?;
        let kind = words.next_word()?.text;
        let size = words.next_word()?.text;
        let code = words.next_word()?.text;
        Some(VariableWords {
            kind,
            size,
            code,
            names: words.rest,
        })
    }

    /// Whether the variable is skipped.
    pub fn is_skipped(self) -> bool
        ensures { is_number self.entry.size.now ≡ true →
            result ≡ (spec.is_skipped_kind self.entry.kind.now
            || (number_of self.entry.size.now == 0
            || nat_lt WIDTH_LIMIT (number_of self.entry.size.now))) }
    {
        is_skipped_kind(self.kind) || is_no_width(self.size)
    }
}

/// Whether a size is no width of values.
fn is_no_width(size: &[u8]) -> bool
    ensures { is_number size.now ≡ true → result
        ≡ (number_of size.now == 0 || nat_lt WIDTH_LIMIT (number_of size.now)) }
{
    match number_up_to(size, WIDTH_LIMIT + 1) {
        Some(width) => width == 0 || width > WIDTH_LIMIT,
        None => true,
    }
}
