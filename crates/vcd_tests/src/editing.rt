//! Edits and their undo, through the public calls.

mod refusals;
mod worked;

use crate::fixtures::bit_of_letter;
use vcd_core::Value;
use vcd_edit::{Edit, Rule};

/// The word at an index, if there is one.
fn word_at<'a>(words: &[&'a str], k: usize) -> Option<&'a str> {
    match words.get(k) {
        Some(word) => Some(*word),
        None => None,
    }
}

/// The position that the word at an index gives.
fn position(words: &[&str], k: usize) -> Option<usize> {
    word_at(words, k)?.parse::<usize>().ok()
}

/// The number that the word at an index gives.
fn number(words: &[&str], k: usize) -> Option<u64> {
    word_at(words, k)?.parse::<u64>().ok()
}

/// The rule that words ask for from the third on, as `derive y and 0 1`.
fn rule_of(words: &[&str]) -> Option<Rule> {
    let name = word_at(words, 2)?;
    let a = position(words, 3)?;
    if name == "not" {
        return Some(Rule::Not(a));
    }
    if name == "and" {
        return Some(Rule::And(a, position(words, 4)?));
    }
    if name == "or" {
        return Some(Rule::Or(a, position(words, 4)?));
    }
    if name == "xor" {
        return Some(Rule::Xor(a, position(words, 4)?));
    }
    if name == "bit" {
        return Some(Rule::BitOf(a, number(words, 4)?));
    }
    None
}

/// The edit that words ask for, as `force 0 2 9 z`, with a value of one bit.
fn edit_of<'a>(words: &[&'a str]) -> Option<Edit<'a>> {
    let name = word_at(words, 0)?;
    if name == "derive" {
        let rule = rule_of(words)?;
        let word = word_at(words, 1)?.as_bytes();
        return Some(Edit::Derive { word, rule });
    }
    if name == "cut" {
        let from = number(words, 1)?;
        let to = number(words, 2)?;
        return Some(Edit::Cut { from, to });
    }
    edit_of_signal(name, position(words, 1)?, words)
}

/// The same for an edit of the signal at this position.
fn edit_of_signal<'a>(name: &str, signal: usize, words: &[&'a str]) -> Option<Edit<'a>> {
    if name == "remove" {
        return Some(Edit::Remove { signal });
    }
    if name == "invert" {
        return Some(Edit::Invert { signal });
    }
    if name == "rename" {
        let word = word_at(words, 2)?.as_bytes();
        return Some(Edit::Rename { signal, word });
    }
    if name == "shift" {
        let by = word_at(words, 2)?.parse::<i64>().ok()?;
        return Some(Edit::Shift { signal, by });
    }
    if name == "deglitch" {
        let ticks = number(words, 2)?;
        return Some(Edit::Deglitch { signal, ticks });
    }
    Some(Edit::Force {
        signal,
        from: number(words, 2)?,
        to: number(words, 3)?,
        value: Value::filled(1, bit_of_letter(word_at(words, 4)?)),
    })
}
