//! The law about parts: the function has an empty body, and its contract is the law.

ghost use Rattle.vcd_part.specs.PartLaws.{PartMeansPart};

/// The part of an accepted file means, read again, the part of the capture: the signals that are
/// kept, each with its values within the window, and the comment.
pub fn part_is_read_again()
    ensures { PartMeansPart }
{}
