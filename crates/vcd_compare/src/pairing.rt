//! The variables of two captures as pairs, by their full names.

ghost use Rattle.std.specs.Prelude.{◌≡◌, ◌<◌, ◌-◌, None, length, slice_index_or};
ghost use Rattle.std.specs.Prelude.{IfOk, IfSome};
ghost use Rattle.vcd_compare.specs.Pairs.{partners_of};
ghost use Rattle.vcd_compare.specs.inside.Pairing.{texts, HasNamesakes, partner_after, index_in};

use indexmap::IndexMap;
use std::alloc::Global;
use vcd_core::NoMemory;

/// The variables of a capture by their names.
#[derive(Drop)]
struct Namesakes {
    /// The position of the first variable of each name.
    first: IndexMap<Vec<u8>, usize>,
    /// The position of the next variable with the name of each one, that of the last one first.
    next: Vec<Option<usize>>,
}

impl Namesakes {
    /// The variables with these names.
    fn new(alloc: Global, names: Vec<Vec<u8>>) -> Result<Namesakes, NoMemory>
        ensures { IfOk result (HasNamesakes (texts names.items)) }
    {
        let mut left = names;
        let mut first = IndexMap::new(alloc);
        let mut next = Vec::new(alloc);
        while let Some(name) = left.pop() {
            let later = first.insert(name, left.len())?;
            next.push(later)?;
        }
        Ok(Namesakes { first, next })
    }

    /// The first variable of a name.
    fn first(&self, name: &Vec<u8>) -> Option<usize>
        ensures { result ≡ index_in self.now.first name.now.items }
    {
        self.first.get(name.as_slice()).copied()
    }

    /// The partner of a variable, where `before` is the last one before it with its name, and
    /// `first` the first of the other capture. Those before it have these partners.
    fn partner_after(
        &self,
        partners: &[Option<usize>],
        before: Option<usize>,
        first: Option<usize>,
    ) -> Option<usize>
        requires within { IfSome before (λ k. k < length partners.now) }
        requires listed { IfSome before (λ k. IfSome (slice_index_or partners.now k None)
            (λ j. j < length self.now.next.items)) }
        ensures { result ≡ partner_after self.now.next.items partners.now before first }
    {
        let Some(before) = before else {
            return first;
        };
        let partner = partners[before]?;
        self.next[self.next.len() - 1 - partner]
    }
}

/// The partner of each variable of the first capture, by its position in the second: of several
/// with one name the first and the first are a pair, the second and the second, and so on.
///
/// Time: two look-ups of each name. Memory: the names, and a few words for each variable.
pub fn partners(
    alloc: Global,
    names: Vec<Vec<u8>>,
    others: Vec<Vec<u8>>,
) -> Result<Vec<Option<usize>>, NoMemory>
    ensures { IfOk result (λ r. r.items ≡ partners_of (texts names.items) (texts others.items)) }
{
    let others = Namesakes::new(alloc, others)?;
    let mut last = IndexMap::new(alloc);
    let mut partners = Vec::with_capacity(alloc, names.len())?;
    for name in names {
        let first = others.first(&name);
        let before = last.insert(name, partners.len())?;
        let partner = others.partner_after(&partners, before, first);
        partners.push(partner)?;
    }
    Ok(partners)
}
