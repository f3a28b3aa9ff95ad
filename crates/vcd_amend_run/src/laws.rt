//! Laws about runs that amend files: each function has an empty body, and its contract is the law.

ghost use Rattle.vcd_amend_run.specs.AmendedRun.{RemainingThenDerived, RemainingAreOfVariables};
ghost use Rattle.vcd_amend_run.specs.AmendedRun.{RemainingByHollow};
ghost use Rattle.vcd_amend_run.specs.EditedText.{CutsInForceLeaveTicks};
ghost use Rattle.vcd_amend_run.specs.EditedText.{RetimedCaptureIsReplayOfCuts};
ghost use Rattle.vcd_amend_run.specs.EditedText.{AcceptedFileHasPieces, EditedTextMeansLastCapture};
ghost use Rattle.vcd_amend_run.specs.EditedText.{NoCutLeavesPieces};
ghost use Rattle.vcd_amend_run.specs.EditsInForce.{LinesInForceAskForEdits};
ghost use Rattle.vcd_amend_run.specs.MarkedRun.{MarkedTextMeansLastCapture};
ghost use Rattle.vcd_amend_run.specs.OutputRemarks.{NamedJustIfChangesDiffer};

/// What a run leaves of the variables of a file can be left of them, in their order, and then come
/// the derived signals. It is known from the run on a capture that lacks the waves of silent
/// signals.
pub fn signals_remain()
    ensures order { RemainingThenDerived }
    ensures variables { RemainingAreOfVariables }
    ensures hollow { RemainingByHollow }
{}

/// Each accepted file that is edited in place means the last capture of the run, with as many
/// variables skipped. After the cuts every item stands in it that no difference of the captures
/// touches. This holds for any lines and depth, and however the file is cut into items with their
/// bytes; it can always be cut so. With a mark the last entry of the header is the mark.
pub fn edited_file_is_read_again()
    ensures pieces { AcceptedFileHasPieces }
    ensures text { EditedTextMeansLastCapture }
    ensures marked { MarkedTextMeansLastCapture }
{}

/// The cuts in force leave ticks of a file and its end, and the file after them means what the cuts
/// alone make of its capture. Without a cut its items stay, with all their bytes.
pub fn cuts_in_force_retime_files()
    ensures ticks { CutsInForceLeaveTicks }
    ensures capture { RetimedCaptureIsReplayOfCuts }
    ensures no_cut { NoCutLeavesPieces }
{}

/// The lines whose edits are in force, as a mark has them, ask in their order for these edits.
pub fn lines_in_force_ask_for_edits()
    ensures { LinesInForceAskForEdits }
{}

/// Variables of one code are named as ones that differ from now on just if their changes in the
/// last capture of the run do: none is named if all that are left have the same changes, and else
/// all that are left are named.
pub fn named_variables_differ()
    ensures { NamedJustIfChangesDiffer }
{}
