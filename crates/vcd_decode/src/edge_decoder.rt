//! Decoders of lines whose edges come one at a time.

ghost use Rattle.std.specs.Prelude.{◌≡◌, ◌++◌, ◌∷◌, [], List, IfOk, OnOk};
ghost use Rattle.vcd_core.specs.declared.bit_edges.BitEdge.{BitEdge as Edge};
ghost use Rattle.vcd_decode.specs.declared.annotation.Annotation.{Annotation as Shown};

use crate::annotation::Annotation;
use std::alloc::Global;
use vcd_core::{BitEdge, BitEdges, NoMemory};

/// A decoder of lines whose edges come one at a time.
pub trait EdgeDecoder {
    // the annotations left to give, for any edges to come
    ghost annotations_left: { Self → List Edge → List Shown };

    /// Takes the next edge, and appends the annotations that it completes.
    fn take(&mut self, found: &mut Vec<Annotation>, edge: &BitEdge) -> Result<(), NoMemory>
        ensures { OnOk result ((more : List Edge)
            → found.new.items ++ annotations_left self.new more
            ≡ found.old.items ++ annotations_left self.old (edge.now ∷ more)) };

    /// Appends the annotations that are left after the last edge.
    fn finish(&mut self, found: &mut Vec<Annotation>) -> Result<(), NoMemory>
        ensures { OnOk result
            (found.new.items ≡ found.old.items ++ annotations_left self.old []) };
}

/// The annotations that a decoder has left to give for the edges of waves.
pub fn decode_edges<D: EdgeDecoder + Drop>(
    alloc: Global,
    mut decoder: D,
    edges: BitEdges,
) -> Result<Vec<Annotation>, NoMemory>
    ensures { IfOk result (λ found. found.items ≡ D.annotations_left decoder edges.entry) }
{
    let mut found = Vec::new(alloc);
    for edge in edges {
        decoder.take(&mut found, &edge)?;
    }
    decoder.finish(&mut found)?;
    Ok(found)
}
