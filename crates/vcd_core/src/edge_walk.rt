//! The walk over up to four waves, of which edges are views.

ghost use Rattle.std.specs.Prelude.{◌≡◌, [], ◌∷◌, map, None};
ghost use Rattle.std.specs.Option.{option_copied};
ghost use Rattle.vcd_core.specs.Edges.{trace_of};
ghost use Rattle.vcd_core.specs.BitEdges.{lowest_bit};
ghost use Rattle.vcd_core.specs.inside.EdgeWalk.{trace_left, traces_left, trace_after, next_tick};
ghost use Rattle.vcd_core.specs.inside.EdgeWalk.{earlier_tick, next_tick_of, Rises, EachRises};

use crate::bit::Bit;
use crate::value::Value;
use crate::wave::{Change, Wave};

/// What gives the value of a wave at some tick.
#[derive(Clone, Copy)]
enum Latest<'a> {
    /// The wave is absent.
    Absent,
    /// No change came yet: the value is all x.
    Start(&'a Wave),
    /// The last change.
    Change(&'a Change),
}

/// A wave from some tick on: its value just before, and its changes from there on.
#[derive(Clone, Copy)]
struct Trace<'a> {
    latest: Latest<'a>,
    rest: &'a [Change],
}

impl<'a> Trace<'a> {
    /// A whole wave.
    fn new(wave: Option<&'a Wave>) -> Trace<'a>
        ensures line { trace_left result ≡ trace_of (option_copied wave.entry) }
        ensures rises { Rises 0 (trace_left result) }
    {
        match wave {
            Some(wave) => Trace {
                latest: Latest::Start(wave),
                rest: wave.changes(),
            },
            None => Trace {
                latest: Latest::Absent,
                rest: &[],
            },
        }
    }

    /// The wave after `tick`, if no change is before that tick.
    fn after(self, tick: u64) -> Trace<'a>
        ensures { trace_left result ≡ trace_after tick (trace_left self.entry) }
    {
        match self.rest {
            [change, rest @ ..] if change.tick == tick => Trace {
                latest: Latest::Change(change),
                rest,
            },
            _ => self,
        }
    }

    /// The value just before.
    fn value(self) -> Option<Value>
        ensures { result ≡ (trace_left self.entry).before }
    {
        match self.latest {
            Latest::Absent => None,
            Latest::Start(wave) => Some(Value::filled(wave.width(), Bit::X)),
            Latest::Change(change) => Some(change.value),
        }
    }

    /// The bit just before.
    fn bit(self) -> Option<Bit>
        ensures { result ≡ lowest_bit (trace_left self.entry).before }
    {
        match self.latest {
            Latest::Absent => None,
            Latest::Start(_) => Some(Bit::X),
            Latest::Change(change) => Some(change.value.lowest_bit()),
        }
    }
}

/// Up to four waves from some tick on.
#[derive(Clone, Copy)]
pub(crate) struct EdgeWalk<'a> {
    // Four fields in place of an array: the borrow checker's part of the proof does not cover an
    // array.
    a: Trace<'a>,
    b: Trace<'a>,
    c: Trace<'a>,
    d: Trace<'a>,
}

impl<'a> EdgeWalk<'a> {
    /// The waves that are given, from their start.
    pub fn new(
        a: Option<&'a Wave>,
        b: Option<&'a Wave>,
        c: Option<&'a Wave>,
        d: Option<&'a Wave>,
    ) -> EdgeWalk<'a>
        ensures traces { traces_left result ≡ map trace_of (option_copied a.entry
            ∷ option_copied b.entry ∷ option_copied c.entry ∷ option_copied d.entry ∷ []) }
        ensures rises { EachRises 0 (traces_left result) }
    {
        EdgeWalk {
            a: Trace::new(a),
            b: Trace::new(b),
            c: Trace::new(c),
            d: Trace::new(d),
        }
    }

    /// The tick of the next change.
    pub fn next_tick(self) -> Option<u64>
        ensures { result ≡ next_tick_of (traces_left self.entry) }
    {
        // From the last wave to the first, in the order in which `next_tick_of` goes over a list.
        let last = earlier_tick(next_tick(self.d.rest), None);
        let later = earlier_tick(next_tick(self.c.rest), last);
        earlier_tick(
            next_tick(self.a.rest),
            earlier_tick(next_tick(self.b.rest), later),
        )
    }

    /// The waves after `tick`, if no change is before that tick.
    pub fn after(self, tick: u64) -> EdgeWalk<'a>
        ensures { traces_left result ≡ map (trace_after tick) (traces_left self.entry) }
    {
        EdgeWalk {
            a: self.a.after(tick),
            b: self.b.after(tick),
            c: self.c.after(tick),
            d: self.d.after(tick),
        }
    }

    /// The values just before.
    pub fn values(self) -> [Option<Value>; 4]
        ensures { result ≡ map (λ trace. trace.before) (traces_left self.entry) }
    {
        [
            self.a.value(),
            self.b.value(),
            self.c.value(),
            self.d.value(),
        ]
    }

    /// The bits just before, of waves of one bit. It reads one letter of a change.
    pub fn bits(self) -> [Option<Bit>; 4]
        ensures { result ≡ map (λ trace. lowest_bit trace.before) (traces_left self.entry) }
    {
        [self.a.bit(), self.b.bit(), self.c.bit(), self.d.bit()]
    }
}

fn next_tick(changes: &[Change]) -> Option<u64>
    ensures { result ≡ next_tick changes.now }
{
    match changes {
        [change, ..] => Some(change.tick),
        [] => None,
    }
}

fn earlier_tick(left: Option<u64>, right: Option<u64>) -> Option<u64>
    ensures { result ≡ earlier_tick left right }
{
    match (left, right) {
        (Some(left), Some(right)) => Some(left.min(right)),
        (Some(left), None) => Some(left),
        (None, right) => right,
    }
}
