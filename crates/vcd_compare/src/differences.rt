//! The differences of two waves, as they are told.

ghost use Rattle.std.specs.Prelude.{◌≡◌, ◌-◌, ◌<◌, ◌∷◌, ◌++◌, ◌^◌, [], List, length, true};
ghost use Rattle.vcd_compare.specs.Differences.{summary};
ghost use Rattle.vcd_compare.specs.declared.differences.Difference.{Difference as DifferenceTold};

use vcd_text::TickRange;

/// A difference of two waves, with both values at its first tick.
#[derive(Debug, Drop, PartialEq)]
pub struct Difference<V> {
    pub ticks: TickRange,
    pub value_in_a: V,
    pub value_in_b: V,
}

/// How many differences there are, the first of them, and the last of the others.
#[derive(Debug, Drop, PartialEq)]
pub struct Differences<V> {
    pub count: u64,
    pub first: Option<Difference<V>>,
    pub last: Option<Difference<V>>,
}

impl<V: Drop> Differences<V> {
    /// No difference.
    pub fn none() -> Differences<V>
        ensures { result ≡ summary [] }
    {
        Differences {
            count: 0,
            first: None,
            last: None,
        }
    }

    /// Whether there is none.
    pub fn is_empty(&self) -> bool
        ensures empty { result ≡ true → self.now ≡ summary [] }
        ensures found { self.now ≡ summary [] → result ≡ true }
    {
        self.count == 0 && self.first.is_none() && self.last.is_none()
    }

    /// Counts one more, which is the last of them, as far as a `u64` goes.
    pub fn add(&mut self, difference: Difference<V>)
        ensures { (found : List (DifferenceTold V)) → length found < 2 ^ 64 - 1 →
            self.old ≡ summary found → self.new ≡ summary (found ++ difference ∷ []) }
    {
        self.count = self.count.saturating_add(1);
        if self.first.is_none() {
            self.first = Some(difference);
        } else {
            self.last = Some(difference);
        }
    }
}
