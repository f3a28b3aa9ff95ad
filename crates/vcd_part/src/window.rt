//! The window of a part, and the stamps in it.

ghost use Rattle.std.specs.Prelude.{◌≡◌, ◌<◌, ◌^◌, ◌++◌, ◌∷◌, [], List, true, OnOk, decimal};
ghost use Rattle.vcd_copy.specs.Pieces.{Piece, piece_bytes};
ghost use Rattle.vcd_part.specs.PartPieces as spec;
ghost use Rattle.vcd_part.specs.inside.PartCopy.{waiting_after};

use itoa::Buffer;
use vcd_core::NoMemory;
use vcd_text::TickRange;

/// Whether a tick is the first of a window that begins after tick 0, or before it.
#[inline(always)]
pub fn is_up_to_first(window: TickRange, tick: u64) -> bool
    ensures { result ≡ spec.is_up_to_first window tick }
{
    window.first > 0 && tick <= window.first
}

/// Whether a tick is within a window, and past the first tick of one that begins after tick 0.
#[inline(always)]
pub fn is_within(window: TickRange, tick: u64) -> bool
    ensures { result ≡ spec.is_within window tick }
{
    !is_up_to_first(window, tick) && tick <= window.last
}

/// Spells the stamp of a tick within the window as the part has it.
pub fn spell_stamp_in_part(
    text: &mut Vec<u8>,
    window: TickRange,
    tick: u64,
    space: &[u8],
    body: &[u8],
) -> Result<(), NoMemory>
    requires { spec.is_within window tick ≡ true }
    ensures { OnOk result ((p : Piece) → p.space ≡ space.now → p.body ≡ body.now →
        text.new.items ≡ piece_bytes (spec.stamp_in_part window p tick ∷ [])) }
{
    if window.first == 0 {
        text.clear();
        text.extend_from_slice(space)?;
        text.extend_from_slice(body)?;
        return Ok(());
    }
    spell_stamp(text, space, tick - window.first)
}

/// Spells the stamp of the part's last tick, if the last stamp is one before it.
pub fn spell_last_stamp(text: &mut Vec<u8>, window: TickRange, tick: u64) -> Result<(), NoMemory>
    ensures { OnOk result ((waiting : List Piece) → text.old.items ≡ piece_bytes waiting →
        text.new.items ≡ piece_bytes (waiting_after waiting (spec.last_stamp window tick))) }
{
    if tick.max(window.first) >= window.last {
        return Ok(());
    }
    spell_stamp(text, b"\n", window.last - window.first)
}

/// Spells a stamp after white space.
fn spell_stamp(text: &mut Vec<u8>, space: &[u8], tick: u64) -> Result<(), NoMemory>
    ensures spelled { OnOk result (text.new.items ≡ space.now ++ 35 ∷ decimal tick) }
    ensures fits { tick < 2 ^ 64 }
{
    text.clear();
    text.extend_from_slice(space)?;
    text.push(b'#')?;
    text.extend_from_slice(Buffer::new().format(tick).as_bytes())?;
    Ok(())
}
