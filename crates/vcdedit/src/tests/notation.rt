//! The short notation of a capture. `[a:1 0@0 1@5 | v:4 z1@2; end 9]` has two wires in the one
//! scope `module top`: `a` of one bit, which is 0 at tick 0 and 1 from tick 5 on, and `v` of four
//! bits. It has no header and no timescale.

use std::alloc::Global;
use std::test::Fail;

/// The codes of signals, by their positions.
const CODES: &[u8] = b"!\"#$%&'(";

/// A line of the changes past tick 0.
#[derive(Drop)]
struct ChangeLine {
    tick: u64,
    text: String,
}

/// The lines of a capture that its signals make.
#[derive(Drop)]
struct SignalLines {
    declarations: String,
    /// The lines of the values at tick 0.
    values: String,
    changes: Vec<ChangeLine>,
}

/// The text of a capture as the tool writes it.
pub fn capture_text(alloc: Global, notation: &str) -> Result<String, Fail> {
    let inner = notation.trim_start_matches('[').trim_end_matches(']');
    let (signals, end) = inner.split_once("; end ").ok_or("no end")?;
    let mut lines = signal_lines(alloc, signals)?;
    // changes at one tick keep their order
    lines.changes.sort_by_key(|line| line.tick)?;
    let mut text = String::new(alloc);
    text.push_str("$scope module top $end\n")?;
    text.push_str(lines.declarations.as_str())?;
    text.push_str("$upscope $end\n$enddefinitions $end\n#0\n$dumpvars\n")?;
    text.push_str(lines.values.as_str())?;
    text.push_str("$end\n")?;
    push_changes(
        alloc,
        &mut text,
        lines.changes.as_slice(),
        end.parse::<u64>()?,
    )?;
    Ok(text)
}

fn signal_lines(alloc: Global, signals: &str) -> Result<SignalLines, Fail> {
    let mut lines = SignalLines {
        declarations: String::new(alloc),
        values: String::new(alloc),
        changes: Vec::new(alloc),
    };
    for (k, signal) in signals.split(" | ").enumerate() {
        let code = *CODES.get(k).ok_or("no code")? as char;
        push_signal(alloc, &mut lines, code, signal)?;
    }
    Ok(lines)
}

/// Appends the lines of a signal, as `a:1 0@0 1@5`.
fn push_signal(
    alloc: Global,
    lines: &mut SignalLines,
    code: char,
    signal: &str,
) -> Result<(), Fail> {
    let (name, rest) = signal.split_once(':').ok_or("no width")?;
    let (width, changes) = rest.split_once(' ').unwrap_or((rest, ""));
    let declaration = format!(in alloc; "$var wire {width} {code} {name} $end\n")?;
    lines.declarations.push_str(declaration.as_str())?;
    for change in changes.split_whitespace() {
        let (letters, tick) = change.split_once('@').ok_or("no tick")?;
        if tick != "0" {
            let text = value_line(alloc, width, letters, code)?;
            let tick = tick.parse::<u64>()?;
            lines.changes.push(ChangeLine { tick, text })?;
        }
    }
    let value = value_line(alloc, width, letters_at_0(changes), code)?;
    lines.values.push_str(value.as_str())?;
    Ok(())
}

/// The letters of the change at tick 0, or x without one.
fn letters_at_0(changes: &str) -> &str {
    for change in changes.split_whitespace() {
        if let Some((letters, tick)) = change.split_once('@') {
            if tick == "0" {
                return letters;
            }
        }
    }
    "x"
}

fn value_line(alloc: Global, width: &str, letters: &str, code: char) -> Result<String, Fail> {
    if width == "1" {
        return Ok(format!(in alloc; "{letters}{code}\n")?);
    }
    Ok(format!(in alloc; "b{letters} {code}\n")?)
}

/// Appends the changes, each tick once before those at it, and the end if it is past them.
fn push_changes(
    alloc: Global,
    text: &mut String,
    changes: &[ChangeLine],
    end: u64,
) -> Result<(), Fail> {
    let mut last = 0;
    for change in changes {
        if last != change.tick {
            last = change.tick;
            text.push_str(format!(in alloc; "#{last}\n")?.as_str())?;
        }
        text.push_str(change.text.as_str())?;
    }
    if last < end {
        text.push_str(format!(in alloc; "#{end}\n")?.as_str())?;
    }
    Ok(())
}
