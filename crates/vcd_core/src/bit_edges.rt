//! The edges of up to four waves of one bit.

ghost use Rattle.std.specs.Prelude.{◌≡◌, ℕ, [], ◌∷◌};
ghost use Rattle.std.specs.Option.{option_copied};

use crate::bit::Bit;
use crate::edge_walk::EdgeWalk;
use crate::wave::Wave;
use std::marker::Model;

/// A tick at which a wave of one bit changes, with the bits of the waves just before it and at it.
///
/// An absent wave has no bit. The bit before tick 0 is x.
#[derive(Clone, Copy)]
pub struct BitEdge {
    pub tick: u64,
    pub before: [Option<Bit>; 4],
    pub at: [Option<Bit>; 4],
}

/// The ticks at which at least one of up to four waves of one bit changes, in rising order. Each
/// has the bits just before it and at it.
///
/// It is [`Edges`](crate::Edges) with a letter in place of a whole value. Contracts see the list of
/// the edges to come. Each edge takes a constant number of steps.
#[derive(Drop)]
pub struct BitEdges<'a> {
    walk: EdgeWalk<'a>,
    /// The bits just before the walk.
    bits: [Option<Bit>; 4],
}

impl<'a> Model for BitEdges<'a> {
    ghost use Rattle.std.specs.Prelude.{List, ◌≡◌, map};
    ghost use Rattle.vcd_core.specs.declared.bit_edges.BitEdge.{BitEdge};
    ghost use Rattle.vcd_core.specs.BitEdges.{lowest_bit};
    ghost use Rattle.vcd_core.specs.inside.EdgeWalk.{traces_left, bit_edges_left, EachRises};

    ghost Value = { List BitEdge };

    ghost view = { λ e. bit_edges_left (traces_left e.walk) };

    ghost invariant = { λ e. EachRises 0 (traces_left e.walk)
        × (e.bits ≡ map (λ trace. lowest_bit trace.before) (traces_left e.walk)) };
}

impl<'a> BitEdges<'a> {
    ghost use Rattle.vcd_core.specs.Edges.{EachUpTo};
    ghost use Rattle.vcd_core.specs.BitEdges.{bit_edges_of, EachOneBit};

    /// The edges of the waves that are given, each of one bit.
    pub fn new(
        a: Option<&'a Wave>,
        b: Option<&'a Wave>,
        c: Option<&'a Wave>,
        d: Option<&'a Wave>,
    ) -> BitEdges<'a>
        requires one_bit { EachOneBit (option_copied a ∷ option_copied b
            ∷ option_copied c ∷ option_copied d ∷ []) }
        ensures edges { let waves = option_copied a.entry ∷ option_copied b.entry
            ∷ option_copied c.entry ∷ option_copied d.entry ∷ [] in
            (end : ℕ) → EachUpTo end waves → result ≡ bit_edges_of waves end }
    {
        let walk = EdgeWalk::new(a, b, c, d);
        let bits = walk.bits();
        BitEdges { walk, bits }
    }
}

impl<'a> Iterator for BitEdges<'a> {
    ghost use Rattle.std.specs.Iterator.{YieldsFirst, item_count};

    type Item = BitEdge;

    ghost next_gives = { YieldsFirst (λ left. left) };

    ghost remaining = { item_count (λ left. left) };

    fn next(&mut self) -> Option<BitEdge> {
        let tick = self.walk.next_tick()?;
        let before = self.bits;
        self.walk = self.walk.after(tick);
        let at = self.walk.bits();
        self.bits = at;
        Some(BitEdge { tick, before, at })
    }
}
