//! The reply to a line that decodes, made while the edges of the lines come.

ghost use Rattle.std.specs.Prelude.{◌≡◌, ◌++◌, ◌∷◌, [], ℕ, List, OnOk};
ghost use Rattle.vcd_core.specs.declared.bit_edges.BitEdge.{BitEdge as Edge};
ghost use Rattle.vcd_remarks.specs.Remarks.{remarks_text};

use vcd_core::BitEdge;
use vcd_script::MemoryResult;

/// The reply to a line of the script that decodes, and the remarks on it, for lines whose edges
/// come one at a time. It holds no more than a decoder does.
pub trait StreamedReply {
    // what is left to give of the reply, and the remarks, for any edges to come
    ghost text_left: { Self → List Edge → List ℕ };

    ghost remarks_left: { Self → List Edge → List (List ℕ) };

    /// Takes the next edge, and appends the text of what it completes.
    fn take(&mut self, text: &mut Vec<u8>, edge: &BitEdge) -> MemoryResult<()>
        ensures text { OnOk result ((more : List Edge)
            → text.new.items ++ text_left self.new more
            ≡ text.old.items ++ text_left self.old (edge.now ∷ more)) }
        ensures remarks { OnOk result ((more : List Edge)
            → remarks_left self.new more ≡ remarks_left self.old (edge.now ∷ more)) };

    /// Appends the remarks on the line of this number, after the last edge.
    fn append_remarks(&mut self, remarks: &mut Vec<u8>, number: u64) -> MemoryResult<()>
        ensures remarks { OnOk result (remarks.new.items
            ≡ remarks.old.items ++ remarks_text number (remarks_left self.old [])) }
        ensures text { (more : List Edge) → text_left self.new more ≡ text_left self.old more };

    /// Appends the rest of the reply, after the last edge.
    fn finish(&mut self, text: &mut Vec<u8>) -> MemoryResult<()>
        ensures { OnOk result
            (text.new.items ≡ text.old.items ++ text_left self.old []) };
}
