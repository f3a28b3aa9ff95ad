//! Laws about pieces and marks of a file: the contract of each function is the law.

ghost use Rattle.vcd_copy.specs.CutLaws.{EveryFileIsCut, CutIsUnique};
ghost use Rattle.vcd_copy.specs.Marks.{MarkedFileMeansSame, CopyWithMarkIsCopyOfMarked};
ghost use Rattle.vcd_copy.specs.MarkText.{EveryMarkIsComment};

/// Every file whose words spell items is cut into the pieces of these items, and in one way.
pub fn file_is_cut()
    ensures cut { EveryFileIsCut }
    ensures one { CutIsUnique }
{}

/// A file with a mark means what it means without; every mark is a comment. A copy with a mark is
/// the copy of the file with the mark.
pub fn mark_changes_no_meaning()
    ensures comment { EveryMarkIsComment }
    ensures same { MarkedFileMeansSame }
    ensures copy { CopyWithMarkIsCopyOfMarked }
{}
