//! Captures made of their parts, and whether a file can hold them.

use crate::fixtures::{check_holds, load_file};
use std::alloc::{AllocError, Global};
use std::process::Abort;
use std::test::Fail;
use vcd_core::{
    Capture, END_LIMIT, HeaderKind, HeaderWords, NameWords, Seq, SpacedWords, TimeUnit, Timescale,
    Word,
};

/// A signal that is 1 from tick 5 on, with a scope of one word.
const FILE: &[u8] = b"\
$version $end $timescale 10 ns $end $scope module top $end $var wire 1 ! a $end
$enddefinitions $end #5 1! #9";

fn word(alloc: Global, text: &str) -> Result<Word, AllocError> {
    Ok(Seq::from_vec(Vec::from_slice(alloc, text.as_bytes())?))
}

fn name_of_one_word(alloc: Global, text: &str) -> Result<NameWords, AllocError> {
    let mut words = Vec::new(alloc);
    words.push(word(alloc, text)?)?;
    Ok(NameWords::new(Seq::from_vec(words)))
}

#[test]
fn a_capture_gives_its_parts(rt: HostRuntime) -> Result<(), Fail> {
    let capture = load_file(rt.alloc(), FILE)?.capture;
    assert!(rt; capture.header().len() == 1);
    assert!(rt; capture.header()[0].kind == HeaderKind::Version);
    assert!(rt; capture.timescale().map(|scale| scale.count) == Some(10));
    assert!(rt; capture.end() == 9);
    assert!(rt; capture.signals().len() == 1);
    assert!(rt; capture.signals()[0].kind.as_slice() == b"wire".as_slice());
    Ok(())
}

#[test]
fn the_words_of_a_header_entry_are_one_text(rt: HostRuntime) -> Result<(), Fail> {
    let mut words = SpacedWords::new(rt.alloc());
    words.push(b"a")?;
    words.clear();
    words.push(b"two")?;
    words.push(b"words")?;
    let entry = HeaderWords::shared(words)?;
    let other = entry.share()?;
    assert!(rt; entry.text() == b" two words".as_slice());
    drop(entry);
    assert!(rt; other.text() == b" two words".as_slice());
    assert!(rt; other.are_words());
    Ok(())
}

#[test]
fn the_word_that_ends_an_entry_is_none_of_its_words(rt: HostRuntime) -> Result<(), Fail> {
    let mut words = SpacedWords::new(rt.alloc());
    words.push(b"two")?;
    words.push(b"$end")?;
    assert!(rt; !HeaderWords::shared(words)?.are_words());
    Ok(())
}

/// The kind and the name of the signal, the count of the timescale and the end, and whether a file
/// can hold that.
const CAPTURES: &str = "\
wire:a:10:5 => sound
reg:[1,0]:100:9 => sound
wire:a:2:9 => not
wire:a:1:4 => not
event:a:1:9 => not
:a:1:9 => not
wire::1:9 => not
wire:a b:1:9 => not
wire:a\r:1:9 => not
wire:$end:1:9 => not";

/// The capture of the file with what a row gives.
fn capture_of(rt: &impl Abort, alloc: Global, fields: &str) -> Result<Capture, Fail> {
    let (kind, rest) = fields.split_once(':').ok_or("no kind")?;
    let (name, numbers) = rest.split_once(':').ok_or("no name")?;
    let (count, end) = numbers.split_once(':').ok_or("no count")?;
    let (count, end) = (count.parse::<u64>()?, end.parse::<u64>()?);
    let kind = word(alloc, kind)?;
    let words = name_of_one_word(alloc, name)?;
    let mut capture = load_file(alloc, FILE)?.capture;
    assert!(rt; capture.signals.len() == 1);
    capture.signals.item_mut(0).kind = kind;
    capture.signals.item_mut(0).words = words;
    let unit = TimeUnit::Nanosecond;
    capture.timescale = Some(Timescale { count, unit });
    capture.end = end;
    Ok(capture)
}

/// Stops unless the capture of a row is sound, as the row says.
fn check_sound(rt: &impl Abort, alloc: Global, row: &str) -> Result<(), Fail> {
    let (fields, answer) = row.split_once(" => ").ok_or("no answer")?;
    let capture = capture_of(rt, alloc, fields)?;
    check_holds(rt, capture.is_sound() == (answer == "sound"), row);
    Ok(())
}

#[test]
fn a_capture_is_sound_where_a_file_can_say_it(rt: HostRuntime) -> Result<(), Fail> {
    for row in CAPTURES.lines() {
        check_sound(&rt, rt.alloc(), row)?;
    }
    Ok(())
}

#[test]
fn the_greatest_end(rt: HostRuntime) -> Result<(), Fail> {
    let mut capture = capture_of(&rt, rt.alloc(), "wire:a:1:9")?;
    capture.end = END_LIMIT;
    assert!(rt; capture.is_sound());
    capture.end = END_LIMIT + 1;
    assert!(rt; !capture.is_sound());
    Ok(())
}

#[test]
fn a_signal_without_a_name_is_not_sound(rt: HostRuntime) -> Result<(), Fail> {
    let mut capture = capture_of(&rt, rt.alloc(), "wire:a:1:9")?;
    assert!(rt; capture.signals.len() == 1);
    capture.signals.item_mut(0).words = NameWords::new(Seq::new(rt.alloc()));
    assert!(rt; !capture.is_sound());
    Ok(())
}
