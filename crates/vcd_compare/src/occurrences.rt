//! Where numbers stand in a list: the last place of each, and the place before each.

ghost use Rattle.std.specs.Prelude.{◌≡◌, ◌<◌, ◌++◌, ◌∷◌, [], ℕ, List, length, IfOk, OnOk, IfSome};
ghost use Rattle.std.specs.Prelude.{Some, None, slice_set, slice_index_or};
ghost use Rattle.vcd_compare.specs.inside.Occurrences.{HasOccurrences, IsLastPlace};

use std::alloc::Global;
use vcd_core::NoMemory;

/// The places of the numbers below a limit in a list.
#[derive(Drop)]
pub struct Occurrences {
    /// The last place of each number.
    last: Vec<Option<usize>>,
    /// For each place, the one before it of the same number.
    before: Vec<Option<usize>>,
}

impl Occurrences {
    /// An empty list of numbers below a limit.
    pub fn new(alloc: Global, limit: usize) -> Result<Occurrences, NoMemory>
        ensures { IfOk result (HasOccurrences limit []) }
    {
        Ok(Occurrences {
            last: Vec::from_elem(alloc, None, limit)?,
            before: Vec::new(alloc),
        })
    }

    /// Appends a number.
    pub fn push(&mut self, number: usize) -> Result<(), NoMemory>
        ensures { OnOk result ((limit : ℕ) (numbers : List ℕ) → number < limit →
            HasOccurrences limit numbers self.old →
            HasOccurrences limit (numbers ++ number ∷ []) self.new) }
    {
        let place = self.before.len();
        let before = self.last(number);
        self.before.push(before)?;
        set_last(&mut self.last, number, place);
        Ok(())
    }

    /// The last place of a number.
    pub fn last(&self, number: usize) -> Option<usize>
        ensures { (limit : ℕ) (numbers : List ℕ) → number < limit →
            HasOccurrences limit numbers self.now →
            IsLastPlace numbers (length numbers) number result }
    {
        option_at(&self.last, number)
    }

    /// The place before one at which the same number stands.
    pub fn before(&self, place: usize) -> Option<usize>
        ensures before { (limit : ℕ) (numbers : List ℕ) → HasOccurrences limit numbers self.now →
            place < length numbers →
            IsLastPlace numbers place (slice_index_or numbers place 0) result }
        ensures lower { IfSome result (λ before. before < place) }
    {
        let before = option_at(&self.before, place)?;
        if before < place { Some(before) } else { None }
    }
}

/// Sets the last place of a number, if it is below the limit.
fn set_last(last: &mut [Option<usize>], number: usize, place: usize)
    ensures { last.new ≡ slice_set last.old number (Some place) }
{
    if number < last.len() {
        last[number] = Some(place);
    }
}

/// The item at an index, if there is one.
fn option_at(items: &[Option<usize>], index: usize) -> Option<usize>
    ensures { result ≡ slice_index_or items.now index None }
{
    items.get(index).copied().unwrap_or(None)
}
