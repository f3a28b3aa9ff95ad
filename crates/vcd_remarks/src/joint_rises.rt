//! The edges at which SCL rises and SDA changes.

ghost use Rattle.std.specs.Prelude.{◌≡◌};
ghost use Rattle.vcd_remarks.specs.inside.JointRises as inside;

use vcd_core::{Bit, BitEdge};
use vcd_decode::{is_line_high, is_zero};

/// Whether the first line rises at an edge, and the second changes.
pub fn is_joint_rise(edge: &BitEdge) -> bool
    ensures { result ≡ inside.is_joint_rise edge.now }
{
    rise(edge.before[0], edge.at[0])
        & (rise(edge.before[1], edge.at[1]) | fall(edge.before[1], edge.at[1]))
}

/// Whether bits go from low to high.
fn rise(before: Option<Bit>, at: Option<Bit>) -> bool
    ensures { result ≡ inside.rise before at }
{
    match (before, at) {
        (Some(before), Some(at)) => is_zero(before) & is_line_high(at),
        _ => false,
    }
}

/// Whether bits go from high to low.
fn fall(before: Option<Bit>, at: Option<Bit>) -> bool
    ensures { result ≡ inside.fall before at }
{
    match (before, at) {
        (Some(before), Some(at)) => is_line_high(before) & is_zero(at),
        _ => false,
    }
}
