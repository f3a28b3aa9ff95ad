//! Where a line of a decoder is lost.

ghost use Rattle.std.specs.Prelude.{◌≡◌};
ghost use Rattle.vcd_remarks.specs.LostLines as spec;
ghost use Rattle.vcd_remarks.specs.inside.LostLines as inside;

use vcd_core::Bit;

/// What a line is that nothing drives, shown as z.
#[derive(Clone, Copy)]
pub enum Pull {
    /// Neither 0 nor 1.
    Floating,
    /// Pulled up to 1, as the lines of an I2C bus.
    Up,
}

/// Whether a bit is lost, and was not just before.
pub fn become_lost(pull: Pull, before: Option<Bit>, at: Option<Bit>) -> bool
    ensures { result ≡ inside.become_lost pull before at }
{
    match (before, at) {
        (Some(before), Some(at)) => !is_lost(pull, before) & is_lost(pull, at),
        _ => false,
    }
}

/// Whether a letter is neither 0 nor 1.
fn is_lost(pull: Pull, letter: Bit) -> bool
    ensures { result ≡ spec.is_lost pull letter }
{
    match letter {
        Bit::X => true,
        Bit::Z => match pull {
            Pull::Floating => true,
            Pull::Up => false,
        },
        Bit::Zero | Bit::One => false,
    }
}
