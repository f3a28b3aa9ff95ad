//! Laws about the definitions: the contract of each function is the law. Its body is empty, or
//! calls the law on which it rests.

ghost use Rattle.vcd_script.specs.FileLaws.{CutFileIsReadAgain, SameBytesSameResult};
ghost use Rattle.vcd_script.specs.SessionLines.{SessionLinesAreRun};

/// Two runs on the same bytes and of the same depth have the same result, if memory runs out in
/// neither.
pub fn same_bytes_same_result()
    ensures { SameBytesSameResult }
{}

/// If only the first ticks of a file are cut out, the written file, read again, has the file's
/// waves from there on.
pub fn cut_file_is_read_again()
    ensures { CutFileIsReadAgain }
{}

/// Lines that are carried out on a new session, as [`run_lines`](crate::run_lines) does, have the
/// replies of a run, and leave its last capture.
pub fn session_lines_are_run()
    ensures { SessionLinesAreRun }
{}
