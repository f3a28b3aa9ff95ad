//! The script that the command line names.

ghost use Rattle.std.specs.Prelude.{IfOk};
ghost use Rattle.vcd_shell.specs.Opening.{IsFile};

use std::io::Input;
use std::rt::Files;
use std::{fs, io};
use vcd_shell::Origin;

/// The script without a path: the capture is listed.
pub const DEFAULT_SCRIPT: &[u8] = b"list\n";

/// Opens the script: the file at `path`.
pub fn open_script<R: Files + Input>(rt: &R, path: &str) -> io::Result<Origin<R::Reader, R::File>>
    ensures { IfOk result IsFile }
{
    Ok(Origin::File(fs::open(rt, path)?))
}
