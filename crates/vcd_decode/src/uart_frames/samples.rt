//! The samples of an asynchronous serial line between two edges, where it keeps its letter.

ghost use Rattle.std.specs.Prelude.{◌≡◌, ◌≤◌, IfOk, OnOk};
ghost use Rattle.vcd_decode.specs.inside.UartFrames as spec;

use crate::annotation::Annotation;
use crate::letters::is_zero;
use crate::uart_frames::frame_kinds::frame_kind;
use crate::uart_setup::{FRAME_BITS, Uart};
use std::collections::VecDeque;
use vcd_core::{Bit, NoMemory};

/// The beginning of the frame under way. If there is none yet, that is the first fall whose start
/// bit is 0, on a line that keeps its letter up to the tick `through`.
///
/// Falls of which that shows that they begin no frame are removed.
pub(crate) fn find_start(
    falls: &mut VecDeque<u64>,
    start: Option<u64>,
    setup: &Uart,
    letter: Bit,
    through: u64,
) -> Option<u64>
    ensures found { result
        ≡ spec.start_among setup.now letter through falls.old.items start }
    ensures left { falls.new.items
        ≡ spec.falls_beside setup.now letter through falls.old.items start }
{
    match start {
        Some(start) => Some(start),
        None => zero_start(falls, setup, letter, through),
    }
}

/// The first fall whose start bit is 0, on a line that keeps its letter up to the tick `through`.
/// The falls before it are removed, and those after it as well, since they are within its frame.
fn zero_start(falls: &mut VecDeque<u64>, setup: &Uart, letter: Bit, through: u64) -> Option<u64>
    ensures found { result ≡ spec.zero_start setup.now letter through falls.old.items }
    ensures left { falls.new.items ≡ spec.open_falls setup.now letter through falls.old.items }
{
    while !falls.is_empty() {
        let fall = falls[0];
        if !is_sampled(setup, fall, 0, through) {
            return None;
        }
        if is_zero(letter) {
            falls.clear();
            return Some(fall);
        }
        let _fall = falls.pop_front();
    }
    None
}

/// Takes the samples of the frame under way, on a line that keeps its letter up to the tick
/// `through`. Returns the frame if it is then whole.
pub(crate) fn take_samples(
    letters: &mut Vec<Bit>,
    start: Option<u64>,
    setup: &Uart,
    letter: Bit,
    through: u64,
) -> Result<Option<Annotation>, NoMemory>
    ensures frame { IfOk result (λ frame. frame
        ≡ spec.frame_through setup.now letter through letters.old.items start) }
    ensures letters { OnOk result (letters.new.items
        ≡ spec.letters_beside setup.now letter through letters.old.items start) }
{
    let Some(start) = start else {
        return Ok(None);
    };
    push_letters(letters, start, setup, letter, through)?;
    let frame = whole_frame(letters, setup, start, through);
    if frame.is_some() {
        letters.clear();
    }
    Ok(frame)
}

/// Appends the letter of the line for each bit that is sampled up to the tick `through`.
fn push_letters(
    letters: &mut Vec<Bit>,
    start: u64,
    setup: &Uart,
    letter: Bit,
    through: u64,
) -> Result<(), NoMemory>
    ensures { OnOk result (letters.new.items
        ≡ spec.letters_through setup.now letter start through letters.old.items) }
{
    for bit in letters.len()..setup.last_bit() {
        if !is_sampled(setup, start, bit + 1, through) {
            return Ok(());
        }
        letters.push(letter)?;
    }
    Ok(())
}

/// The frame with these letters, if they are all of its letters.
fn whole_frame(letters: &[Bit], setup: &Uart, start: u64, through: u64) -> Option<Annotation>
    ensures { result ≡ spec.whole_frame setup.now start through letters.now }
{
    let last = setup.last_bit();
    if letters.len() != last || !is_sampled(setup, start, last, through) {
        return None;
    }
    Some(Annotation {
        start,
        end: start + setup.sample_offset(last),
        kind: frame_kind(setup, letters),
    })
}

/// Whether a bit of the frame that begins at `start` is sampled at the tick `through` or before.
fn is_sampled(setup: &Uart, start: u64, bit: usize, through: u64) -> bool
    requires { bit ≤ FRAME_BITS }
    ensures { result ≡ spec.is_sampled setup.now start bit through }
{
    start <= through && setup.sample_offset(bit) <= through - start
}
