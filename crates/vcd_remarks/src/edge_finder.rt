//! Finders of what there is to say of lines whose edges come one at a time.

ghost use Rattle.std.specs.Prelude.{◌≡◌, ◌++◌, ◌∷◌, [], ℕ, List, OnOk};
ghost use Rattle.vcd_core.specs.declared.bit_edges.BitEdge.{BitEdge as Edge};
ghost use Rattle.vcd_remarks.specs.Remarks.{remarks_text};

use vcd_core::{BitEdge, BitEdges};
use vcd_script::MemoryResult;

/// What is found of the lines of a decoder, whose edges come one at a time.
pub trait EdgeFinder {
    // the remarks on what is found, once any edges to come have been taken
    ghost remarks_left: { Self → List Edge → List (List ℕ) };

    /// Takes the next edge.
    fn take(&mut self, edge: &BitEdge) -> MemoryResult<()>
        ensures { OnOk result ((more : List Edge)
            → remarks_left self.new more ≡ remarks_left self.old (edge.now ∷ more)) };

    /// Appends the remarks on the line of this number, after the last edge.
    fn append_remarks(&mut self, remarks: &mut Vec<u8>, number: u64) -> MemoryResult<()>
        ensures { OnOk result (remarks.new.items
            ≡ remarks.old.items ++ remarks_text number (remarks_left self.old [])) };
}

/// Appends the remarks on what is found at the edges of waves, for the line of this number.
pub fn append_found<F: EdgeFinder + Drop>(
    remarks: &mut Vec<u8>,
    number: u64,
    mut finder: F,
    edges: BitEdges,
) -> MemoryResult<()>
    ensures { OnOk result (remarks.new.items
        ≡ remarks.old.items ++ remarks_text number (F.remarks_left finder edges.entry)) }
{
    for edge in edges {
        finder.take(&edge)?;
    }
    finder.append_remarks(remarks, number)
}
