//! The roles of bytes, and the bits of the current byte.

ghost use Rattle.std.specs.Prelude.{◌≡◌, ◌<◌, IfSome};
ghost use Rattle.vcd_decode.specs.BusBytes as spec;
ghost use Rattle.vcd_decode.specs.inside.i2c_bus.BusWalk.{no_bits, partial_byte_with};
ghost use Rattle.vcd_decode.specs.inside.i2c_bus.BusWalk.{IsPartialByte};

use crate::annotation::{Direction, Kind};
use crate::i2c_bus::events::{BusBit, is_line_high};
use crate::letters::is_zero;

/// The role of a byte.
#[derive(Clone, Copy)]
pub(super) enum ByteRole {
    /// The byte after a START, with the address of ten bits that the bits just before that START
    /// gave.
    Address(Option<u16>),
    /// The second byte of an address of ten bits, with the two high bits of the first.
    AddressLow(u8),
    /// A byte after an address.
    Data,
}

/// The bits of the current byte: how many, the ticks of the first and the last, and the number that
/// they give, most significant bit first. The value is none if a bit is neither high nor low.
#[derive(Clone, Copy)]
pub(super) struct PartialByte {
    pub(super) count: u64,
    pub(super) first: u64,
    pub(super) last: u64,
    pub(super) number: Option<u8>,
}

impl PartialByte {
    /// No bits.
    pub(super) fn new() -> PartialByte
        ensures bits { result ≡ no_bits }
        ensures partial { IsPartialByte result }
    {
        PartialByte {
            count: 0,
            first: 0,
            last: 0,
            number: Some(0),
        }
    }

    /// These bits and one more. There are eight at most.
    pub(super) fn with(self, bit: BusBit) -> PartialByte
        requires partial { IsPartialByte self }
        requires not_full { self.count < 8 }
        ensures bits { result ≡ partial_byte_with self bit }
        ensures partial { IsPartialByte result }
    {
        PartialByte {
            count: self.count + 1,
            first: if self.count == 0 {
                bit.tick
            } else {
                self.first
            },
            last: bit.tick,
            number: number_with(self.number, bit),
        }
    }
}

/// A number with one more bit at its low end.
pub(super) fn number_with(number: Option<u8>, bit: BusBit) -> Option<u8>
    requires { IfSome number (λ n. n < 128) }
    ensures { result ≡ spec.number_with number bit }
{
    let number = number?;
    if is_line_high(bit.level) {
        return Some(2 * number + 1);
    }
    if is_zero(bit.level) {
        return Some(2 * number);
    }
    None
}

/// The kind of a byte. The byte is none if one of its bits is neither high nor low.
pub(super) fn byte_kind(role: ByteRole, byte: Option<u8>) -> Kind
    ensures { result ≡ spec.byte_kind role byte }
{
    let Some(byte) = byte else {
        return Kind::Unknown;
    };
    match role {
        ByteRole::Address(given) => address_kind(given, byte),
        ByteRole::AddressLow(high) => Kind::TenBitAddress {
            address: 256 * u16::from(high) + u16::from(byte),
            direction: Direction::Write,
        },
        ByteRole::Data => Kind::Data(byte),
    }
}

pub(super) fn role_after(role: ByteRole, byte: Option<u8>) -> ByteRole
    ensures { result ≡ spec.role_after role byte }
{
    let Some(byte) = byte else {
        return ByteRole::Data;
    };
    match role {
        ByteRole::Address(_) => role_after_address(byte),
        _ => ByteRole::Data,
    }
}

fn role_after_address(byte: u8) -> ByteRole
    ensures { result ≡ spec.role_after_address byte (spec.direction_of byte) }
{
    match direction_of(byte) {
        Direction::Write if is_ten_bit(byte) => ByteRole::AddressLow(high_bits(byte)),
        _ => ByteRole::Data,
    }
}

/// The kind of the byte after a START, with the address of ten bits that the bits before the START
/// gave.
fn address_kind(given: Option<u16>, byte: u8) -> Kind
    ensures { result ≡ spec.address_kind given byte }
{
    let direction = direction_of(byte);
    if is_ten_bit(byte) {
        return ten_bit_kind(given, high_bits(byte), direction);
    }
    Kind::Address {
        address: byte / 2,
        direction,
    }
}

fn ten_bit_kind(given: Option<u16>, bits: u8, direction: Direction) -> Kind
    ensures { result ≡ spec.ten_bit_kind given bits direction }
{
    match (direction, given) {
        (Direction::Read, Some(address)) if address / 256 == u16::from(bits) => {
            Kind::TenBitAddress { address, direction }
        }
        _ => Kind::AddressHigh { bits, direction },
    }
}

fn direction_of(byte: u8) -> Direction
    ensures { result ≡ spec.direction_of byte }
{
    if byte % 2 == 1 {
        Direction::Read
    } else {
        Direction::Write
    }
}

/// Whether a byte begins an address of ten bits.
fn is_ten_bit(byte: u8) -> bool
    ensures { result ≡ spec.is_ten_bit byte }
{
    byte / 8 == 0b11110
}

/// The two high bits of an address of ten bits.
fn high_bits(byte: u8) -> u8
    ensures { result ≡ spec.high_bits byte }
{
    byte / 2 % 4
}

pub(super) fn acknowledge_kind(bit: Option<u8>) -> Kind
    ensures { result ≡ spec.acknowledge_kind bit }
{
    match bit {
        None => Kind::Unknown,
        Some(0) => Kind::Ack,
        Some(_) => Kind::Nack,
    }
}

/// The address of ten bits that a kind shows.
pub(super) fn ten_bit_address(kind: Kind) -> Option<u16>
    ensures { result ≡ spec.ten_bit_address kind }
{
    match kind {
        Kind::TenBitAddress { address, .. } => Some(address),
        _ => None,
    }
}
