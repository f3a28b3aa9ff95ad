//! The words of a decoder's line, one by one.

ghost use Rattle.std.specs.Prelude.{◌≡◌, ◌<◌, ◌==◌, Some, IfSome, IfOk, length};
ghost use Rattle.std.specs.List.{position};
ghost use Rattle.vcd_core.specs.CaptureContents.{contents};
ghost use Rattle.vcd_decode.specs.UartSetup.{uart_setup};
ghost use Rattle.vcd_decode.specs.SpiSetup.{spi_setup};
ghost use Rattle.vcd_decode.specs.SetupFaults.{uart_fault, spi_fault};
ghost use Rattle.vcd_script.specs.CommandSignals.{IsScalarAt};
ghost use Rattle.vcd_script.specs.DecoderWords as spec;

use crate::script::LineError;
use crate::script::edits::signal_of_name;
use crate::script::numbers::number_of_word;
use vcd_core::Capture;
use vcd_decode::{BitOrder, Parity, Spi, Uart};

/// The two numbers of the ratio that a word writes: `N/D`, or `N` with 1 as the second.
pub fn ratio_of_word(word: &[u8]) -> Result<(u64, u64), LineError>
    ensures { result ≡ spec.ratio_of_word word.now }
{
    match slash_index(word) {
        Some(index) => ratio_at(word, index),
        None => Ok((number_of_word(word)?, 1)),
    }
}

/// The index of the first `/` of a word.
fn slash_index(word: &[u8]) -> Option<usize>
    ensures index { result ≡ position (λ b. b == 47) word.now }
    ensures within { IfSome result (λ index. index < length word.now) }
{
    word.iter().position(|byte| *byte == b'/')
}

/// The numbers before and after the `/` of a word.
fn ratio_at(word: &[u8], index: usize) -> Result<(u64, u64), LineError>
    requires { index < length word.now }
    ensures { result ≡ spec.ratio_at word.now (Some index) }
{
    let numerator = number_of_word(&word[..index])?;
    let denominator = number_of_word(&word[index + 1..])?;
    Ok((numerator, denominator))
}

/// The parity bit that a word names.
pub fn parity_of_word(word: &[u8]) -> Result<Parity, LineError>
    ensures { result ≡ spec.parity_of_word word.now }
{
    if word == b"none".as_slice() {
        return Ok(Parity::None);
    }
    if word == b"even".as_slice() {
        return Ok(Parity::Even);
    }
    if word == b"odd".as_slice() {
        return Ok(Parity::Odd);
    }
    Err(LineError::BadOption)
}

/// The order of bits that a word names.
pub fn order_of_word(word: &[u8]) -> Result<BitOrder, LineError>
    ensures { result ≡ spec.order_of_word word.now }
{
    if word == b"msb".as_slice() {
        return Ok(BitOrder::Msb);
    }
    if word == b"lsb".as_slice() {
        return Ok(BitOrder::Lsb);
    }
    Err(LineError::BadOption)
}

/// The position of the signal that a word names, or none if the word is `-`: the line is absent.
pub fn signal_or_absent(capture: &Capture, word: &[u8]) -> Result<Option<usize>, LineError>
    ensures found { result ≡ spec.signal_or_absent (contents capture.now) word.now }
    ensures within { IfOk result (λ line.
        IfSome line (λ k. k < length capture.now.signals)) }
{
    if word == b"-".as_slice() {
        return Ok(None);
    }
    let signal = signal_of_name(capture, word)?;
    Ok(Some(signal))
}

/// Checks that a signal has one bit.
pub fn one_bit_signal(capture: &Capture, signal: usize) -> Result<usize, LineError>
    requires { signal < length capture.now.signals }
    ensures tested { result ≡ spec.one_bit_signal (contents capture.now) signal }
    ensures one_bit { IfOk result (IsScalarAt (contents capture.now)) }
{
    if capture.signals()[signal].wave.width() == 1 {
        Ok(signal)
    } else {
        Err(LineError::NotScalar)
    }
}

/// Checks that a line, if it is there, has one bit.
pub fn one_bit_signal_or_absent(
    capture: &Capture,
    line: Option<usize>,
) -> Result<Option<usize>, LineError>
    requires { IfSome line (λ k. k < length capture.now.signals) }
    ensures tested { result ≡ spec.one_bit_signal_or_absent (contents capture.now) line }
    ensures one_bit { IfOk result (λ there. IfSome there (IsScalarAt (contents capture.now))) }
{
    match line {
        Some(signal) => Ok(Some(one_bit_signal(capture, signal)?)),
        None => Ok(None),
    }
}

/// The setup of a UART line, or its first fault.
pub fn uart_of(
    ratio: (u64, u64),
    data_bits: u64,
    parity: Parity,
    stop_bits: u64,
) -> Result<Uart, LineError>
    ensures { result ≡ spec.faultless uart_fault
        (uart_setup ratio.0 ratio.1 data_bits parity stop_bits) }
{
    match Uart::new(ratio.0, ratio.1, data_bits, parity, stop_bits) {
        Ok(setup) => Ok(setup),
        Err(fault) => Err(LineError::Setup(fault)),
    }
}

/// The setup of a serial peripheral interface, or its first fault.
pub fn spi_of(mode: u64, bits: u64, order: BitOrder) -> Result<Spi, LineError>
    ensures { result ≡ spec.faultless spi_fault (spi_setup mode bits order) }
{
    match Spi::new(mode, bits, order) {
        Ok(setup) => Ok(setup),
        Err(fault) => Err(LineError::Setup(fault)),
    }
}
