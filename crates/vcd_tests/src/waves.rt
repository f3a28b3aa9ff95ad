//! Waves: the results of pushes, and what they show.

use crate::fixtures::{changes_in_text, check_holds, wave_after_pushes, wave_of};
use std::alloc::Global;
use std::process::Abort;
use std::test::Fail;
use vcd_core::{Bit, END_LIMIT, LetterBlock, Value, WIDTH_LIMIT, Wave};

/// Pushes, and the changes after them. A value equal to the one before adds nothing, and an equal
/// tick replaces.
const PUSHES: &str = "\
=>
0@0 1@5 z@9 => 0@0 1@5 z@9
x@0 =>
x@9 =>
1@3 1@7 => 1@3
1@3 0@7 z@7 => 1@3 z@7
1@3 0@7 z@7 1@7 => 1@3
1@0 x@0 => 
1@0 x@0 0@1 x@2 => 0@1 x@2";

/// Stops unless pushes give these changes.
fn check_pushes(rt: &impl Abort, alloc: Global, row: &str) -> Result<(), Fail> {
    let (pushes, after) = row.split_once("=>").ok_or("no arrow")?;
    let pushes = changes_in_text(alloc, pushes)?;
    let after = changes_in_text(alloc, after)?;
    let wave = wave_after_pushes(alloc, pushes.as_slice())?;
    check_holds(rt, wave.changes() == after.as_slice(), row);
    Ok(())
}

#[test]
fn pushes_at_the_end(rt: HostRuntime) -> Result<(), Fail> {
    for row in PUSHES.lines() {
        check_pushes(&rt, rt.alloc(), row)?;
    }
    Ok(())
}

/// Stops unless a wave has this value at a tick.
fn check_value(rt: &impl Abort, wave: &Wave, tick: u64, bit: Bit) {
    assert!(rt; wave.at(tick) == Value::filled(1, bit));
}

#[test]
fn a_wave_keeps_its_value_until_the_next_change(rt: HostRuntime) -> Result<(), Fail> {
    let wave = wave_of(rt.alloc(), "0@1 1@5 z@9")?;
    check_value(&rt, &wave, 0, Bit::X);
    check_value(&rt, &wave, 4, Bit::Zero);
    check_value(&rt, &wave, 5, Bit::One);
    check_value(&rt, &wave, 8, Bit::One);
    check_value(&rt, &wave, u64::MAX, Bit::Z);
    Ok(())
}

#[test]
fn changes_before_a_tick_are_counted(rt: HostRuntime) -> Result<(), Fail> {
    let wave = wave_of(rt.alloc(), "0@0 1@5 z@9")?;
    assert!(rt; wave.count_until(0) == 0);
    assert!(rt; wave.count_until(5) == 1);
    assert!(rt; wave.count_until(6) == 2);
    assert!(rt; wave.count_through_near(0, 9) == 3);
    assert!(rt; wave.count_through_near(1000, 4) == 1);
    Ok(())
}

#[test]
fn a_value_is_pushed_by_its_words(rt: HostRuntime) -> Result<(), Fail> {
    let mut wave = Wave::new(rt.alloc(), 4);
    wave.push_block(
        2,
        LetterBlock {
            low: 0b0011,
            high: 0b1010,
        },
    )?;
    assert!(rt; format!(in rt.alloc(); "{:?}", wave.at(2))?.as_str() == "z0x1");
    Ok(())
}

#[test]
fn the_greatest_tick_of_the_widest_wave(rt: HostRuntime) -> Result<(), Fail> {
    let mut wave = Wave::new(rt.alloc(), WIDTH_LIMIT);
    wave.push(0, Value::filled(WIDTH_LIMIT, Bit::One))?;
    wave.push(END_LIMIT, Value::filled(WIDTH_LIMIT, Bit::Z))?;
    assert!(rt; wave.width() == WIDTH_LIMIT);
    assert!(rt; wave.at(END_LIMIT - 1) == Value::filled(WIDTH_LIMIT, Bit::One));
    assert!(rt; wave.at(END_LIMIT) == Value::filled(WIDTH_LIMIT, Bit::Z));
    Ok(())
}

#[test]
fn room_is_made(rt: HostRuntime) -> Result<(), Fail> {
    let mut wave = wave_of(rt.alloc(), "1@3 0@5")?;
    assert!(rt; wave.reserve(1000) == Ok(()));
    assert!(rt; wave.reserve_exact(2000) == Ok(()));
    assert!(rt; wave.changes().len() == 2);
    Ok(())
}
