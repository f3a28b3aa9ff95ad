//! What a line asks for, by `parse_line`, and why some lines are no command.

use crate::parse_line;
use crate::tests::notation::capture_text;
use std::alloc::Global;
use std::process::Abort;
use std::test::Fail;
use vcd_core::{Capture, FromRead};
use vcd_text::read;

/// Lines on a capture of the signals `top.a` and `top.b` of one bit, with `top.v` of four bits
/// between them, each with its answer.
const LINES: &str = "\
# undo => Ok(Nothing)
rename top.a b => Ok(Step(Edit(Rename { signal: 0, word: [98] })))
 remove\t@1 => Ok(Step(Edit(Remove { signal: 1 })))
invert top.v => Ok(Step(Edit(Invert { signal: 1 })))
shift top.a 2 => Ok(Step(Edit(Shift { signal: 0, by: 2 })))
shift top.a +2 => Ok(Step(Edit(Shift { signal: 0, by: 2 })))
shift top.b -4 => Ok(Step(Edit(Shift { signal: 2, by: -4 })))
shift top.a 9223372036854775807 => Ok(Step(Edit(Shift { signal: 0, by: 9223372036854775807 })))
shift top.a -9223372036854775808 => Ok(Step(Edit(Shift { signal: 0, by: -9223372036854775808 })))
cut 3 7 => Ok(Step(Edit(Cut { from: 3, to: 7 })))
cut 0 18446744073709551615 => Ok(Step(Edit(Cut { from: 0, to: 18446744073709551615 })))
deglitch top.a 007 => Ok(Step(Edit(Deglitch { signal: 0, ticks: 7 })))
force top.v 3 5 x0 => Ok(Step(Edit(Force { signal: 1, from: 3, to: 5, value: xxx0 })))
derive n not top.a => Ok(Step(Edit(Derive { word: [110], rule: Not(0) })))
derive n and top.a top.v => Ok(Step(Edit(Derive { word: [110], rule: And(0, 1) })))
derive n or @1 @0 => Ok(Step(Edit(Derive { word: [110], rule: Or(1, 0) })))
derive n xor top.a top.a => Ok(Step(Edit(Derive { word: [110], rule: Xor(0, 0) })))
derive n bit top.v 3 => Ok(Step(Edit(Derive { word: [110], rule: BitOf(1, 3) })))
undo => Ok(Step(Undo))
redo => Ok(Step(Redo))
depth 12 => Ok(Step(Depth(12)))
list => Ok(List)
value top.v 12 => Ok(Value { signal: 1, tick: 12 })
changes @2 => Ok(Changes { signal: 2 })
uart top.a 10 8 none 1 => Ok(Uart { signal: 0, setup: \
Uart { numerator: 10, denominator: 1, data_bits: 8, parity: None, stop_bits: 1 } })
uart @2 25/10 5 even 2 => Ok(Uart { signal: 2, setup: \
Uart { numerator: 25, denominator: 10, data_bits: 5, parity: Even, stop_bits: 2 } })
uart top.a 010/5 9 odd 1 => Ok(Uart { signal: 0, setup: \
Uart { numerator: 10, denominator: 5, data_bits: 9, parity: Odd, stop_bits: 1 } })
spi top.a - - - 0 8 msb => Ok(Spi { clk: 0, mosi: None, miso: None, cs: None, setup: \
Spi { mode: 0, bits: 8, order: Msb } })
spi top.a @0 - top.b 3 32 lsb => Ok(Spi { clk: 0, mosi: Some(0), miso: None, cs: Some(2), setup: \
Spi { mode: 3, bits: 32, order: Lsb } })
i2c top.b @0 => Ok(I2c { scl: 2, sda: 0 })
frob => Err(UnknownCommand)
Undo => Err(UnknownCommand)
redo now => Err(WrongCount)
list now => Err(WrongCount)
cut x => Err(WrongCount)
value top.a => Err(WrongCount)
uart top.a 10 8 none => Err(WrongCount)
spi top.a - - - 0 8 => Err(WrongCount)
i2c top.a => Err(WrongCount)
shift top.q x => Err(NoSuchName)
value top.q x => Err(NoSuchName)
changes @3 => Err(NoSuchName)
shift top.a x => Err(BadNumber)
shift top.a - => Err(BadNumber)
shift top.a 9223372036854775808 => Err(BadNumber)
shift top.a -9223372036854775809 => Err(BadNumber)
cut 0 18446744073709551616 => Err(BadNumber)
cut 0 +1 => Err(BadNumber)
value top.a x => Err(BadNumber)
force top.a 0 y q => Err(BadNumber)
force top.a 0 1 q => Err(BadValueText)
force top.v 0 1 00000 => Err(BadValueText)
derive => Err(WrongCount)
derive x => Err(WrongCount)
derive x bogus => Err(BadOption)
derive x not => Err(WrongCount)
derive x and top.a => Err(WrongCount)
derive x bit top.q y => Err(NoSuchName)
derive x bit top.a y => Err(BadNumber)
uart top.q 10/ 8 mark 1 => Err(NoSuchName)
uart top.a 10/ 8 mark 1 => Err(BadNumber)
uart top.a /5 8 none 1 => Err(BadNumber)
uart top.a 4/1/1 8 none 1 => Err(BadNumber)
uart top.a 10 8 mark x => Err(BadOption)
uart top.v 10 8 none x => Err(BadNumber)
uart top.v 1 8 none 1 => Err(NotScalar)
uart top.a 0 8 none 1 => Err(Setup(BadRatio))
uart top.a 10/0 8 none 1 => Err(Setup(BadRatio))
uart top.a 1 8 none 1 => Err(Setup(BitTooShort))
uart top.a 10 4 none 1 => Err(Setup(BadData))
uart top.a 10 8 none 3 => Err(Setup(BadStop))
spi - - - - 0 8 msb => Err(NoSuchName)
spi top.a - - top.q x 8 msb => Err(NoSuchName)
spi top.a - - - x 8 msb => Err(BadNumber)
spi top.a top.v - - 4 8 big => Err(BadOption)
spi top.a top.v - - 4 8 msb => Err(NotScalar)
spi top.a - - top.v 4 8 msb => Err(NotScalar)
spi top.a - - - 4 0 msb => Err(Setup(BadMode))
spi top.a - - - 0 0 msb => Err(Setup(BadBits))
spi top.a - - - 0 33 msb => Err(Setup(BadBits))
i2c - top.a => Err(NoSuchName)
i2c top.v top.q => Err(NoSuchName)
i2c top.a top.v => Err(NotScalar)";

fn check_line(rt: &impl Abort, alloc: Global, capture: &Capture, row: &str) -> Result<(), Fail> {
    let (line, wanted) = row.split_once(" => ").ok_or("no answer")?;
    let answer = format!(in alloc; "{:?}", parse_line(line.as_bytes(), capture))?;
    assert!(rt; answer.as_str() == wanted, "{row}");
    Ok(())
}

#[test]
fn commands_of_lines(rt: HostRuntime) -> Result<(), Fail> {
    let file = capture_text(rt.alloc(), "[a:1 0@0 | v:4 0@0 | b:1 1@0; end 9]")?;
    let loaded = read(rt.alloc(), &mut FromRead::new(file.as_bytes()))?;
    for row in LINES.lines() {
        check_line(&rt, rt.alloc(), &loaded.capture, row)?;
    }
    Ok(())
}
