//! The edges of up to four waves.

ghost use Rattle.std.specs.Prelude.{◌≡◌, ℕ, [], ◌∷◌};
ghost use Rattle.std.specs.Option.{option_copied};

use crate::edge_walk::EdgeWalk;
use crate::value::Value;
use crate::wave::Wave;
use std::marker::Model;

/// A tick at which a wave changes, with the values of the waves just before it and at it.
///
/// An absent wave has no value. The value before tick 0 is all x.
#[derive(Clone, Copy)]
pub struct Edge {
    pub tick: u64,
    pub before: [Option<Value>; 4],
    pub at: [Option<Value>; 4],
}

/// The ticks at which at least one of up to four waves changes, in rising order. Each has the
/// values just before it and at it.
///
/// Contracts see the list of the edges to come. Each edge takes a constant number of steps.
#[derive(Drop)]
pub struct Edges<'a> {
    walk: EdgeWalk<'a>,
}

impl<'a> Model for Edges<'a> {
    ghost use Rattle.std.specs.Prelude.{List};
    ghost use Rattle.vcd_core.specs.declared.edges.Edge.{Edge};
    ghost use Rattle.vcd_core.specs.inside.EdgeWalk.{traces_left, edges_left, EachRises};

    ghost Value = { List Edge };

    ghost view = { λ e. edges_left (traces_left e.walk) };

    ghost invariant = { λ e. EachRises 0 (traces_left e.walk) };
}

impl<'a> Edges<'a> {
    ghost use Rattle.vcd_core.specs.Edges.{edges_of, EachUpTo};

    /// The edges of the waves that are given.
    pub fn new(
        a: Option<&'a Wave>,
        b: Option<&'a Wave>,
        c: Option<&'a Wave>,
        d: Option<&'a Wave>,
    ) -> Edges<'a>
        ensures edges { let waves = option_copied a.entry ∷ option_copied b.entry
            ∷ option_copied c.entry ∷ option_copied d.entry ∷ [] in
            (end : ℕ) → EachUpTo end waves → result ≡ edges_of waves end }
    {
        Edges {
            walk: EdgeWalk::new(a, b, c, d),
        }
    }
}

impl<'a> Iterator for Edges<'a> {
    ghost use Rattle.std.specs.Iterator.{YieldsFirst, item_count};

    type Item = Edge;

    ghost next_gives = { YieldsFirst (λ left. left) };

    ghost remaining = { item_count (λ left. left) };

    fn next(&mut self) -> Option<Edge> {
        let tick = self.walk.next_tick()?;
        let before = self.walk.values();
        self.walk = self.walk.after(tick);
        let at = self.walk.values();
        Some(Edge { tick, before, at })
    }
}
