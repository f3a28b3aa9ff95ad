//! The words of a text, one after another.

ghost use Rattle.std.specs.Prelude.{◌≡◌, ◌+◌, ◌<◌, ◌≤◌, ◌^◌, ◌∷◌, ◌++◌, ℕ, List, [], Bool, true};
ghost use Rattle.std.specs.Prelude.{false, not};
ghost use Rattle.std.specs.Prelude.{length, map, take, drop, MatchOption, IfSome, IfNone};
ghost use Rattle.std.specs.List.{list_all, prefix_len};
ghost use Rattle.std.specs.Simd.Lanes.{mask_l};
ghost use Rattle.vcd_core.specs.Word as spec;
ghost use Rattle.vcd_text.specs.Words.{words_of};
ghost use Rattle.vcd_text.specs.inside.Words.{words_from};
ghost use Rattle.vcd_text.specs.inside.Words.{begins_with_space, ends_before};
ghost use Rattle.vcd_text.specs.LineFeeds.{line_feeds_in};

use std::simd::prelude::*;
use vcd_core::is_white_space;

/// A word, borrowed from its text, and its line, counted from 1.
#[derive(Clone, Copy)]
pub struct WordOnLine<'a> {
    pub text: &'a [u8],
    pub line: u64,
}

/// The words of a text that are still to come. Each takes a step for each byte, and no memory.
#[derive(Drop)]
pub struct Words<'a> {
    /// The rest of the text.
    pub rest: &'a [u8],
    /// The number of line feeds before it.
    pub line_feeds: u64,
    ghost lines_fit: { line_feeds + length rest.now < 2 ^ 64 },
}

impl<'a> Words<'a> {
    ghost use Rattle.vcd_text.specs.LentWords.{word_contents, words_left};

    /// All words of a text.
    #[tactic(auto, using(crate::proofs::shared::WordsByBytes::after_are_few))]
    pub fn new(text: &'a [u8]) -> Words<'a>
        ensures words { words_left result ≡ words_of text.now }
        ensures few { length (words_left result) < 2 ^ 63 }
        ensures rest { result.rest.now ≡ text.now }
    {
        Words {
            rest: text,
            line_feeds: 0,
        }
    }

    /// The next word; none at the end. It moves past the word, or to the end.
    #[tactic(auto, using(crate::proofs::shared::WordsByBytes::next_word_steps))]
    pub fn next_word(&mut self) -> Option<WordOnLine<'a>>
        ensures words { MatchOption result (words_left self.old ≡ []) (λ word.
            words_left self.old ≡ word_contents word ∷ words_left self.new) }
        ensures some { IfSome result (λ word. 0 < length word.text.now) }
        ensures none_left { IfNone result (words_left self.new ≡ []) }
        ensures end { IfNone result (self.new.rest.now ≡ []) }
        ensures bytes { IfSome result (λ word. (space : List ℕ)
            × (self.old.rest.now ≡ space ++ (word.text.now ++ self.new.rest.now))
            × (list_all spec.is_white_space space ≡ true)) }
        ensures no_space { IfSome result (λ word.
            list_all (λ b. not (spec.is_white_space b)) word.text.now ≡ true) }
        ensures ended { IfSome result (λ _. ends_before true self.new.rest.now ≡ true) }
        ensures space { IfNone result (list_all spec.is_white_space self.old.rest.now ≡ true) }
        ensures line_feeds { self.new.line_feeds + line_feeds_in self.new.rest.now
            ≡ self.old.line_feeds + line_feeds_in self.old.rest.now }
    {
        let (rest, line_feeds) = after_space(self.rest, self.line_feeds);
        let (text, following) = rest.split_at(word_len(rest));
        self.rest = following;
        self.line_feeds = line_feeds;
        if text.is_empty() {
            return None;
        }
        Some(WordOnLine {
            text,
            line: line_feeds + 1,
        })
    }
}

impl<'a> Iterator for Words<'a> {
    ghost use Rattle.std.specs.Iterator.{YieldsFirstBy, item_count};
    ghost use Rattle.vcd_text.specs.LentWords.{word_contents, words_left};

    type Item = WordOnLine<'a>;

    ghost next_gives = { YieldsFirstBy word_contents words_left };

    ghost remaining = { item_count words_left };

    fn next(&mut self) -> Option<WordOnLine<'a>> {
        self.next_word()
    }
}

/// The text after the white space at its front, and the number of line feeds before that.
fn after_space(text: &[u8], line_feeds: u64) -> (&[u8], u64)
    requires { line_feeds + length text.now < 2 ^ 64 }
    ensures words { (end_counts : Bool) →
        words_from end_counts [] (result.1 + 1) result.0.now
        ≡ words_from end_counts [] (line_feeds + 1) text.now }
    ensures lines { result.1 + length result.0.now ≤ line_feeds + length text.now }
    ensures line_feeds { result.1 + line_feeds_in result.0.now
        ≡ line_feeds + line_feeds_in text.now }
    ensures no_space { begins_with_space result.0.now ≡ false }
    ensures space { (space : List ℕ) × (text.now ≡ space ++ result.0.now)
        × (list_all spec.is_white_space space ≡ true) }
{
    let mut rest = text;
    let mut lines = line_feeds;
    while let Some((byte, following)) = rest.split_first() {
        if !is_white_space(*byte) {
            break;
        }
        if *byte == b'\n' {
            lines += 1;
        }
        rest = following;
    }
    (rest, lines)
}

/// How many bytes are looked at together.
const LANES: usize = 16;

/// The number of bytes before the first white space. It looks at `LANES` bytes at a time.
#[inline(always)]
fn word_len(text: &[u8]) -> usize
    ensures within { result ≤ length text.now }
    ensures no_space { list_all (λ b. not (spec.is_white_space b)) (take result text.now) ≡ true }
    ensures ends { ends_before true (drop result text.now) ≡ true }
{
    let mut len = 0;
    while text.len() - len >= LANES {
        let found = white_space_among(u8x16::from_slice(&text[len..]));
        if found != 0 {
            return len + found.trailing_zeros() as usize;
        }
        len += LANES;
    }
    word_end(text, len)
}

/// A mask of the bytes that are white space, the first at the low end.
#[inline(always)]
fn white_space_among(bytes: u8x16) -> u64
    ensures { result ≡ mask_l (map spec.is_white_space bytes) }
{
    let control = bytes.simd_ge(u8x16::splat(9)) & bytes.simd_le(u8x16::splat(13));
    (control | bytes.simd_eq(u8x16::splat(32))).to_bitmask()
}

/// The index of the first white space from `from` on, or else the length. It goes byte by byte.
#[inline(never)]
fn word_end(text: &[u8], from: usize) -> usize
    requires { from ≤ length text.now }
    ensures { result ≡ from + prefix_len (λ b. not (spec.is_white_space b)) (drop from text.now) }
{
    let mut end = from;
    while end < text.len() && !is_white_space(text[end]) {
        end += 1;
    }
    end
}
