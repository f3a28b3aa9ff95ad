//! The state of a bus between two events, and the annotations of an event.

ghost use Rattle.std.specs.Prelude.{◌≡◌, ◌++◌, ◌∷◌, [], ◌<◌, IfOk, OnOk};
ghost use Rattle.vcd_decode.specs.Lines.{annotation};
ghost use Rattle.vcd_decode.specs.inside.i2c_bus.BusWalk as walk;

use crate::annotation::{Annotation, Kind};
use crate::i2c_bus::bytes::{
    ByteRole, PartialByte, acknowledge_kind, byte_kind, number_with, role_after, ten_bit_address,
};
use crate::i2c_bus::events::{BusBit, BusEvent};
use vcd_core::NoMemory;

/// The state since the last START, if no STOP came after it.
#[derive(Clone, Copy)]
pub(super) struct Transfer {
    /// The role of the current byte.
    pub(super) role: ByteRole,
    /// The bits of the current byte, at most eight.
    pub(super) byte: PartialByte,
    /// The address of ten bits that came since the START.
    pub(super) address: Option<u16>,
}

/// Appends the annotations of an event. Returns the transfer after it.
pub(super) fn take_event(
    found: &mut Vec<Annotation>,
    transfer: Option<Transfer>,
    event: BusEvent,
) -> Result<Option<Transfer>, NoMemory>
    requires sound { walk.IsSoundTransfer transfer }
    ensures annotations { OnOk result
        (found.new.items ≡ found.old.items ++ walk.event_annotations transfer event) }
    ensures transfer { IfOk result (λ next. next ≡ walk.bus_after transfer event) }
    ensures sound { IfOk result walk.IsSoundTransfer }
{
    match event {
        BusEvent::Start(tick) => {
            append_rest(found, transfer)?;
            append_annotation(found, tick, tick, bus_start_kind(transfer))?;
            Ok(Some(new_transfer(transfer)))
        }
        BusEvent::Stop(tick) => {
            append_rest(found, transfer)?;
            append_annotation(found, tick, tick, Kind::Stop)?;
            Ok(None)
        }
        BusEvent::Bit(bit) => take_bit(found, transfer, bit),
    }
}

/// Appends the annotations of a bit.
fn take_bit(
    found: &mut Vec<Annotation>,
    transfer: Option<Transfer>,
    bit: BusBit,
) -> Result<Option<Transfer>, NoMemory>
    requires sound { walk.IsSoundTransfer transfer }
    ensures annotations { OnOk result
        (found.new.items ≡ found.old.items ++ walk.event_annotations transfer (BusEvent.Bit bit)) }
    ensures transfer { IfOk result (λ next. next ≡ walk.bus_after transfer (BusEvent.Bit bit)) }
    ensures sound { IfOk result walk.IsSoundTransfer }
{
    let Some(transfer) = transfer else {
        return Ok(None);
    };
    if transfer.byte.count < 8 {
        return Ok(Some(transfer_with_bit(transfer, bit)));
    }
    Ok(Some(end_byte(found, transfer, bit)?))
}

/// The transfer with one more bit of the current byte.
fn transfer_with_bit(transfer: Transfer, bit: BusBit) -> Transfer
    requires partial { walk.IsPartialByte transfer.byte }
    requires not_full { transfer.byte.count < 8 }
    ensures bits { result ≡ record transfer { byte = walk.partial_byte_with transfer.byte bit } }
    ensures partial { walk.IsPartialByte result.byte }
{
    Transfer {
        role: transfer.role,
        byte: transfer.byte.with(bit),
        address: transfer.address,
    }
}

/// Appends the current byte and its acknowledge.
fn end_byte(
    found: &mut Vec<Annotation>,
    transfer: Transfer,
    bit: BusBit,
) -> Result<Transfer, NoMemory>
    ensures annotations { OnOk result
        (found.new.items ≡ found.old.items ++ walk.whole_byte_annotations transfer bit) }
    ensures transfer { IfOk result (λ next. next ≡ walk.transfer_after_byte transfer) }
{
    let byte = transfer.byte;
    let kind = byte_kind(transfer.role, byte.number);
    append_annotation(found, byte.first, byte.last, kind)?;
    let acknowledge = acknowledge_kind(number_with(Some(0), bit));
    append_annotation(found, bit.tick, bit.tick, acknowledge)?;
    Ok(Transfer {
        role: role_after(transfer.role, byte.number),
        byte: PartialByte::new(),
        address: transfer.address.or(ten_bit_address(kind)),
    })
}

/// Appends the current bits when a condition comes. A single bit is the rise of SCL before the
/// condition, and gives nothing.
fn append_rest(found: &mut Vec<Annotation>, transfer: Option<Transfer>) -> Result<(), NoMemory>
    ensures { OnOk result (found.new.items
        ≡ found.old.items ++ walk.transfer_rest_annotations transfer) }
{
    let Some(transfer) = transfer else {
        return Ok(());
    };
    let byte = transfer.byte;
    if byte.count < 2 {
        return Ok(());
    }
    append_annotation(found, byte.first, byte.last, Kind::Unfinished(byte.count))
}

fn append_annotation(
    found: &mut Vec<Annotation>,
    start: u64,
    end: u64,
    kind: Kind,
) -> Result<(), NoMemory>
    ensures { OnOk result (found.new.items ≡ found.old.items ++ annotation start end kind ∷ []) }
{
    found.push(Annotation { start, end, kind })?;
    Ok(())
}

fn new_transfer(transfer: Option<Transfer>) -> Transfer
    ensures bits { result ≡ walk.new_transfer transfer }
    ensures partial { walk.IsPartialByte result.byte }
{
    Transfer {
        role: ByteRole::Address(transfer.and_then(|transfer| transfer.address)),
        byte: PartialByte::new(),
        address: None,
    }
}

/// The kind of a START: a repeated one if the last condition was a START.
fn bus_start_kind(transfer: Option<Transfer>) -> Kind
    ensures { result ≡ walk.bus_start_kind transfer }
{
    match transfer {
        Some(_) => Kind::RepeatedStart,
        None => Kind::Start,
    }
}
