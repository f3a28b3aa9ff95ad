//! Laws about amended files: each function has an empty body, and its contract is the law.

ghost use Rattle.vcd_amend.specs.AmendedMeaning.{AmendedFileMeansAmendedCapture};
ghost use Rattle.vcd_amend.specs.AmendedText.{AmendedTextMeansAmendedCapture};
ghost use Rattle.vcd_amend.specs.AmendedCopy.{CopyIsAmendedText};
ghost use Rattle.vcd_amend.specs.RetimedCopy.{RetimedCopyIsCopyOfRetimed};
ghost use Rattle.vcd_amend.specs.CodedAmendment.{CodedAmendmentGivesCapture};
ghost use Rattle.vcd_amend.specs.FreshCodes.{FreshCodesAreFresh, FreshCodesAreInOrder};
ghost use Rattle.vcd_amend.specs.GivenCodes.{GivenCodesFit};
ghost use Rattle.vcd_amend.specs.WhatStands.{UntouchedItemsStand};
ghost use Rattle.vcd_amend.specs.RetimedLaws.{RetimedFileMeansRetimedCapture, CutsLeaveTicks};
ghost use Rattle.vcd_amend.specs.RetimedLaws.{PiecesAfterCutsAreRetimed};
ghost use Rattle.vcd_amend.specs.RetimedLaws.{RetimedTextMeansRetimedCapture};

/// If an amendment fits an accepted file, the amended file is accepted, and means the amended
/// capture. As many variables are skipped as before.
pub fn amended_file_is_read_again()
    ensures items { AmendedFileMeansAmendedCapture }
    ensures text { AmendedTextMeansAmendedCapture }
{}

/// If the signals of another capture have codes that fit a file, the amendment by these gives that
/// capture; and the codes that are given to them fit.
pub fn other_capture_is_read_again()
    ensures coded { CodedAmendmentGivesCapture }
    ensures fits { GivenCodesFit }
{}

/// A file that is amended for another capture means it, and every item stands in it with its bytes
/// that no difference of the captures touches.
pub fn untouched_items_stand()
    ensures { UntouchedItemsStand }
{}

/// A file always has fresh codes for new variables: words that no variable of the file has, no two
/// of them the same. They are the first ones of a written text that are fresh, in order.
pub fn fresh_codes_are_fresh()
    ensures fresh { FreshCodesAreFresh }
    ensures in_order { FreshCodesAreInOrder }
{}

/// The copy of a file by the rules of an amendment is the amended text: what `copy` writes for an
/// amender with these rules.
pub fn copy_is_amended_text()
    ensures { CopyIsAmendedText }
{}

/// What is copied by rules for the file after cuts is the copy of its pieces after the cuts.
pub fn retimed_copy_is_copy_of_retimed()
    ensures { RetimedCopyIsCopyOfRetimed }
{}

/// The pieces of a file after cuts are cut from its bytes and accepted, and mean the capture after
/// the cuts. All stands in them but stamps, and at ticks that are cut out the changes of events and
/// the earlier ones of a code: each with its bytes, and at its new tick if its tick is left.
pub fn retimed_file_is_meant()
    ensures pieces { RetimedFileMeansRetimedCapture }
    ensures bytes { RetimedTextMeansRetimedCapture }
    ensures ticks { CutsLeaveTicks }
    ensures retimed { PiecesAfterCutsAreRetimed }
{}
