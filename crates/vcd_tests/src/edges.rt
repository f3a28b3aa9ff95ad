//! Edges of one to four waves.

use crate::fixtures::{check_holds, wave_of};
use std::process::Abort;
use std::test::Fail;
use vcd_core::{Edge, Edges, Value};

/// The tick of each edge, and the values before and at it; `-` for an absent wave.
const EDGES: &str = "\
0 xx-x 0x-x
3 0x-x 0x-1
5 0x-1 11-0
7 11-0 z1-1
9 z1-1 zx-1
9223372036854775806 zx-1 z0-1";

/// The letters of values of one bit, `-` for an absent one.
fn letters(values: [Option<Value>; 4]) -> [u8; 4] {
    let mut letters = [b'-'; 4];
    for (letter, value) in letters.iter_mut().zip(values) {
        if let Some(value) = value
            && value.width() == 1
        {
            *letter = value.bit(0).printed_letter();
        }
    }
    letters
}

fn has_letters(values: [Option<Value>; 4], text: &str) -> bool {
    letters(values).as_slice() == text.as_bytes()
}

/// Stops unless an edge is the one of its row.
fn check_edge(rt: &impl Abort, edge: Edge, row: &str) -> Result<(), Fail> {
    let (tick, values) = row.split_once(' ').ok_or("no tick")?;
    let (before, at) = values.split_once(' ').ok_or("no values")?;
    let tick = tick.parse::<u64>()?;
    check_holds(rt, edge.tick == tick, row);
    check_holds(rt, has_letters(edge.before, before), row);
    check_holds(rt, has_letters(edge.at, at), row);
    Ok(())
}

#[test]
fn no_change_has_no_edge(rt: HostRuntime) -> Result<(), Fail> {
    let still = wave_of(rt.alloc(), "")?;
    let mut edges = Edges::new(None, Some(&still), None, Some(&still));
    assert!(rt; edges.next().is_none());
    Ok(())
}

#[test]
fn each_tick_comes_once_and_in_order(rt: HostRuntime) -> Result<(), Fail> {
    let a = wave_of(rt.alloc(), "0@0 1@5 z@7")?;
    let b = wave_of(rt.alloc(), "1@5 x@9 0@9223372036854775806")?;
    let d = wave_of(rt.alloc(), "1@3 0@5 1@7")?;
    let mut edges = Edges::new(Some(&a), Some(&b), None, Some(&d));
    for row in EDGES.lines() {
        check_edge(&rt, edges.next().ok_or("an edge is missing")?, row)?;
    }
    assert!(rt; edges.next().is_none());
    assert!(rt; edges.next().is_none());
    Ok(())
}

#[test]
fn four_waves_that_change_at_once_are_one_edge(rt: HostRuntime) -> Result<(), Fail> {
    let clock = wave_of(rt.alloc(), "0@0 1@10")?;
    let mut edges = Edges::new(Some(&clock), Some(&clock), Some(&clock), Some(&clock));
    check_edge(&rt, edges.next().ok_or("no edge")?, "0 xxxx 0000")?;
    check_edge(&rt, edges.next().ok_or("no edge")?, "10 0000 1111")?;
    assert!(rt; edges.next().is_none());
    Ok(())
}
