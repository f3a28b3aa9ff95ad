//! The names of signals, and looking signals up by them.

ghost use Rattle.std.specs.Prelude.{◌≡◌, ◌<◌, ◌↔◌, ◌&&◌, IsTrue, Some, None, length, nat_lt};
ghost use Rattle.std.specs.Prelude.{slice_get, if◌then◌else◌};
ghost use Rattle.vcd_core.specs.CaptureContents.{contents};
ghost use Rattle.vcd_core.specs.Decimal.{is_number, number_of};
ghost use Rattle.vcd_core.specs.Names.{full_names, is_numbered, number_in, lookup};

pub(crate) mod full_name;
pub(crate) mod name_words;
pub(crate) mod scope_path;
pub(crate) mod text_end;

use crate::capture::Capture;
use crate::decimal::number_up_to;
use crate::names::full_name::FullName;

impl Capture {
    /// Whether the signal at position `k` has this full name: the names of its scopes and its own,
    /// joined by `.`.
    pub fn name_is(&self, k: usize, name: &[u8]) -> bool
        requires { k < length self.now.signals }
        ensures { IsTrue result ↔
            (slice_get (full_names (contents self.now).signals) k ≡ Some name.now) }
    {
        let signal = &self.signals.as_slice()[k];
        FullName::of_text(name).has_same_bytes(FullName::of(signal))
    }

    /// The position of the signal that `name` names. `@` and a decimal number name the signal at
    /// that position, if there is one. Any other name means the first signal with that full name.
    pub fn find(&self, name: &[u8]) -> Option<usize>
        ensures { result ≡ lookup (contents self.now).signals name.now }
    {
        let signals = self.signals.as_slice();
        match position_in(name, signals.len()) {
            Some(k) => Some(k),
            None => FullName::of_text(name).position_in(signals),
        }
    }
}

/// The position that a name gives as `@` and a decimal number, if it is below `count`.
fn position_in(name: &[u8], count: usize) -> Option<usize>
    ensures { result ≡ (if is_numbered name.now && nat_lt (number_in name.now) count
        then Some (number_in name.now) else None) }
{
    match name {
        [b'@', digits @ ..] => match number_up_to(digits, count as u64) {
            Some(number) if number < count as u64 => Some(number as usize),
            _ => None,
        },
        _ => None,
    }
}
