//! Laws about the definitions of a file and of a text.

ghost use Rattle.vcd_text.specs.Laws.{EveryFileHasAtMostOneMeaning, EveryFileHasAtMostOneFault};
ghost use Rattle.vcd_text.specs.Laws.{NoFileHasMeaningAndFault, EveryFileHasMeaningOrFault};
ghost use Rattle.vcd_text.specs.Laws.{EveryFaultIsFound};
ghost use Rattle.vcd_text.specs.Laws.{EveryPrefixHasAtMostOneFault, PrefixFaultIsFileFault};
ghost use Rattle.vcd_text.specs.Laws.{TextIsReadBack, NothingElseIsReadBack, TextHasNoFault};
ghost use Rattle.vcd_text.specs.HeardLaws.{HeardChangesGiveValues, HeardChangesRise};
ghost use Rattle.vcd_text.specs.HeardLaws.{DeclarationsStay, HeardChangesFit};
ghost use Rattle.vcd_text.specs.PartLaws.{PartOfPartIsPart, AllIsPart};

/// A file has at most one result. It has no two meanings, no two faults, no two lines of one fault,
/// and never both a meaning and a fault.
pub fn has_one_answer()
    ensures one_meaning { EveryFileHasAtMostOneMeaning }
    ensures one_fault { EveryFileHasAtMostOneFault }
    ensures never_both { NoFileHasMeaningAndFault }
{}

/// A file has a result, whatever its bytes are: a meaning or a fault. A fault is that of a word, or
/// the words end too early.
pub fn has_an_answer()
    ensures one { EveryFileHasMeaningOrFault }
    ensures found { EveryFaultIsFound }
{}

/// A prefix of a file shows at most one fault, at one line. Only words of the prefix that white
/// space follows count.
pub fn prefix_has_one_fault()
    ensures { EveryPrefixHasAtMostOneFault }
{}

/// The fault that a prefix of a file shows is the fault of the file, at the same line, whatever
/// bytes follow.
pub fn prefix_fault_stays()
    ensures { PrefixFaultIsFileFault }
{}

/// The text of a sound capture is accepted as a file, means that capture, and has no skipped
/// variable.
pub fn text_is_read_back()
    ensures { TextIsReadBack }
{}

/// The text of a sound capture means only that capture, with no variable skipped, and it has no
/// fault.
pub fn nothing_else_is_read_back()
    ensures same_capture { NothingElseIsReadBack }
    ensures no_fault { TextHasNoFault }
{}

/// A part of a part of a capture is a part, if it begins in the first one. All signals, from tick 0
/// to the end or further, are the capture.
pub fn parts_agree()
    ensures part_of_part { PartOfPartIsPart }
    ensures all { AllIsPart }
{}

/// What is heard of a file is what it means: it gives each signal its value at every tick, comes in
/// the order of ticks, and fits the variables, which stay once they are declared.
pub fn heard_changes_are_meant()
    ensures values { HeardChangesGiveValues }
    ensures rise { HeardChangesRise }
    ensures fit { HeardChangesFit }
    ensures stay { DeclarationsStay }
{}
