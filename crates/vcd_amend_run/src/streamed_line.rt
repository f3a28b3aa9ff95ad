//! A line of the script that is decoded while the file is read.

use vcd_amend::CutTicks;

/// A line of the script that decodes signals of the file which no edit in force reads, so that only
/// cuts have changed them.
#[derive(Drop)]
pub struct StreamedLine {
    /// The number of the line, from 1 on.
    pub number: u64,
    /// The positions of its signals in the file's capture, in the order of a decoder's lines.
    pub lines: [Option<usize>; 4],
    /// The cuts in force at the line, the oldest first.
    pub cuts: Vec<CutTicks>,
}
