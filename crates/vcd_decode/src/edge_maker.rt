//! Edges of a decoder's lines, made of their changes.

ghost use Rattle.std.specs.Prelude.{◌≡◌, ◌++◌, ◌∷◌, [], ℕ, List};
ghost use Rattle.std.specs.Option.{option_to_list};
ghost use Rattle.vcd_decode.specs.LineEdges.{AreEdgesOf};
ghost use Rattle.vcd_decode.specs.LineChanges.{lines_fed, InOrder};
ghost use Rattle.vcd_decode.specs.inside.EdgeMaker as spec;
ghost use Rattle.vcd_decode.specs.inside.EdgeMaker.{edges_left};
ghost use Rattle.vcd_decode.specs.declared.edge_maker.LineChange.{LineChange};

use vcd_core::{Bit, BitEdge};

/// A change of one of a decoder's four lines of one bit.
#[derive(Clone, Copy)]
pub struct LineChange {
    pub tick: u64,
    /// The line's place in an edge, from 0 on.
    pub line: usize,
    pub letter: Bit,
}

/// Makes edges of the changes of up to four lines, which come in the order of their ticks, several
/// perhaps at one tick.
#[derive(Clone, Copy)]
pub struct EdgeMaker {
    /// The letters before the current tick.
    before: [Option<Bit>; 4],
    /// The letters at the current tick, as far as its changes have come.
    at: [Option<Bit>; 4],
    tick: u64,
}

impl EdgeMaker {
    /// Before the first change: the lines that are present are x.
    pub fn new(present: [bool; 4]) -> EdgeMaker
        ensures { (end : ℕ) (fed : List LineChange) → InOrder 0 end fed
            → AreEdgesOf (lines_fed present fed) end (edges_left result fed) }
    {
        let letters = first_letters(present);
        EdgeMaker {
            before: letters,
            at: letters,
            tick: 0,
        }
    }

    /// Takes the next change. If its tick is later, gives the edge of the tick before. A change of
    /// a line that is absent changes nothing.
    #[tactic(auto, unfolding(crate::specs::inside::EdgeMaker::edges_left))]
    pub fn take(&mut self, change: LineChange) -> Option<BitEdge>
        ensures { (more : List LineChange) → option_to_list result ++ edges_left self.new more
            ≡ edges_left self.old (change ∷ more) }
    {
        let before = self.at;
        let at = letters_after(before, change);
        if change.tick <= self.tick {
            self.at = at;
            return None;
        }
        let completed = self.edge();
        self.before = before;
        self.at = at;
        self.tick = change.tick;
        Some(completed)
    }

    /// The edge of the last tick.
    #[tactic(auto, unfolding(crate::specs::inside::EdgeMaker::edges_left))]
    pub fn finish(self) -> BitEdge
        ensures { edges_left self [] ≡ result ∷ [] }
    {
        self.edge()
    }

    /// The edge of the current tick, as far as its changes have come.
    fn edge(self) -> BitEdge
        ensures { result ≡ spec.edge_of_maker self }
    {
        let before = self.before;
        let at = self.at;
        BitEdge {
            tick: self.tick,
            before,
            at,
        }
    }
}

/// The letters of lines before their first change, of those that are present.
fn first_letters(present: [bool; 4]) -> [Option<Bit>; 4]
    ensures { result ≡ spec.first_letters present }
{
    present.map(|is_present| if is_present { Some(Bit::X) } else { None })
}

/// The letters of lines after a change.
fn letters_after(letters: [Option<Bit>; 4], change: LineChange) -> [Option<Bit>; 4]
    ensures { result ≡ spec.letters_after letters change }
{
    let mut letters = letters;
    if change.line < 4 && letters[change.line].is_some() {
        letters[change.line] = Some(change.letter);
    }
    letters
}
