//! Values of one bit, next to the borders of the planes' words, and of the greatest width.

use std::test::Fail;
use vcd_core::{Bit, Value, WIDTH_LIMIT};

#[test]
fn a_value_is_read_bit_by_bit(rt: HostRuntime) {
    let value = Value::filled(4, Bit::Z).with_bit(0, Bit::One);
    assert!(rt; value.width() == 4);
    assert!(rt; value.bit(0) == Bit::One);
    assert!(rt; value.bit(1) == Bit::Z);
    assert!(rt; value.bit(3) == Bit::Z);
}

#[test]
fn a_value_prints_its_most_significant_letter_first(rt: HostRuntime) -> Result<(), Fail> {
    let value = Value::filled(4, Bit::Zero)
        .with_bit(1, Bit::X)
        .with_bit(3, Bit::Z);
    assert!(rt; format!(in rt.alloc(); "{value:?}")?.as_str() == "z0x0");
    Ok(())
}

#[test]
fn the_greatest_width(rt: HostRuntime) {
    let last = WIDTH_LIMIT - 1;
    let wide = Value::filled(WIDTH_LIMIT, Bit::Zero).with_bit(last, Bit::One);
    assert!(rt; wide.width() == WIDTH_LIMIT);
    assert!(rt; wide.bit(last) == Bit::One);
    assert!(rt; wide.bit(last - 1) == Bit::Zero);
    assert!(rt; wide.bit(63) == Bit::Zero);
}

#[test]
fn the_words_of_a_plane_meet_between_bit_63_and_bit_64(rt: HostRuntime) {
    let word = Value::filled(64, Bit::One);
    assert!(rt; word.bit(63) == Bit::One);
    assert!(rt; word != Value::filled(65, Bit::One), "another width");
    let longer = Value::filled(65, Bit::One).with_bit(64, Bit::Z);
    assert!(rt; longer.bit(63) == Bit::One);
    assert!(rt; longer.bit(64) == Bit::Z);
    assert!(rt; longer.with_bit(64, Bit::One) == Value::filled(65, Bit::One));
    assert!(rt; longer != Value::filled(65, Bit::One), "one letter differs");
}
