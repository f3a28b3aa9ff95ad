//! The inputs that the command line names.

ghost use Rattle.std.specs.Prelude.{IfOk};
ghost use Rattle.vcd_shell.specs.Opening.{IsStandard, CaptureComesFrom};

use std::io::{Input, Read};
use std::rt::Files;
use std::{fs, io};

/// Where the bytes of an input come from.
#[derive(Drop)]
pub enum Origin<S, F> {
    Standard(S),
    File(F),
}

impl<S: Read, F: Read> Read for Origin<S, F> {
    ghost use Rattle.vcd_shell.specs.Opening.{bytes_to_come};

    ghost remaining = { bytes_to_come S.remaining F.remaining };

    fn read(&mut self, buf: &mut [u8]) -> io::Result<usize> {
        match self {
            Origin::Standard(reader) => reader.read(buf),
            Origin::File(file) => file.read(buf),
        }
    }
}

/// Opens the capture: the file at `path`, or standard input without a path or if it is `-`.
pub fn open_capture<R: Files + Input>(
    rt: &R,
    path: Option<&str>,
) -> io::Result<Origin<R::Reader, R::File>>
    ensures { IfOk result (CaptureComesFrom path.entry) }
{
    match path {
        Some(path) if path != "-" => Ok(Origin::File(fs::open(rt, path)?)),
        _ => open_standard(rt.reader()),
    }
}

/// Opens standard input by a read of no byte, which fails if it is closed. Else the next file that
/// is opened would take its place.
fn open_standard<S: Read + Drop, F>(mut reader: S) -> io::Result<Origin<S, F>>
    ensures { IfOk result IsStandard }
{
    let _ = reader.read(&mut [])?;
    Ok(Origin::Standard(reader))
}
