//! An output that has its target's name, and then is in its place.

ghost use Rattle.std.specs.Prelude.{IfErr};
ghost use Rattle.vcd_replace.specs.Errors.{IsChange, IsLateError};

use crate::replace_error::ReplaceError;
use crate::seen_file::SeenFile;
use crate::synced::Place;
use crate::unchanged::{Unchanged, refuse_replaced};
use std::io;
use std::rt::Files;

/// A file that has its target's name. Only [`Renamed::rename`] makes one.
#[derive(Drop)]
pub struct Renamed<'a, R: Files> {
    place: Place<'a, R>,
}

impl<'a, R: Files> Renamed<'a, R> {
    /// Gives a file its target's name. It fails if the system refuses that.
    pub fn rename(new: Unchanged<'a, R>) -> io::Result<Renamed<'a, R>> {
        let place = new.into_place();
        place.folder.rename_new()?;
        Ok(Renamed { place })
    }
}

/// That an output is in its place: an answer that nothing else gives.
#[derive(Clone, Copy)]
pub struct InPlace {
    // read by nobody
    _made: (),
}

impl InPlace {
    /// Looks once more at a capture that has a second name. If it has changed up to the rename, it
    /// comes back to its place. What is there is written to the disk, if the system does.
    pub fn look_again<R: Files>(
        new: Renamed<'_, R>,
        capture: Option<SeenFile<'_>>,
    ) -> Result<InPlace, ReplaceError>
        ensures { IfErr result (IsLateError capture.entry) }
    {
        let Renamed { place } = new;
        if let Some(capture) = capture {
            if capture.is_unlike(place.folder.look_at_old()) {
                place.folder.put_old_back()?;
                place.folder.sync_above();
                return Err(ReplaceError::CaptureChanged);
            }
        }
        place.folder.sync_above();
        Ok(InPlace { _made: () })
    }

    /// A target that was written as it is has all bytes. Only the capture is looked at.
    pub fn as_it_is<R: Files>(
        files: &R,
        capture: Option<SeenFile<'_>>,
    ) -> Result<InPlace, ReplaceError>
        ensures { IfErr result (IsChange capture.entry) }
    {
        refuse_replaced(files, capture)?;
        Ok(InPlace { _made: () })
    }
}
