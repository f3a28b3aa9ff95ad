//! The last look at the capture before a new file takes the place of its target.

ghost use Rattle.std.specs.Prelude.{IfErr};
ghost use Rattle.vcd_replace.specs.Errors.{IsChange};

use crate::replace_error::ReplaceError;
use crate::seen_file::SeenFile;
use crate::synced::{Place, Synced};
use std::rt::Files;

/// A file on the disk, after whose sync the capture was found as it was. Only [`Unchanged::look`]
/// makes one.
#[derive(Drop)]
pub struct Unchanged<'a, R: Files> {
    place: Place<'a, R>,
}

impl<'a, R: Files> Unchanged<'a, R> {
    /// Looks at the capture, and refuses one that has changed since it was found, or that another
    /// file has replaced. If the target is the capture, that first gets a second name, and is
    /// looked at in its folder, too.
    pub fn look(
        files: &R,
        new: Synced<'a, R>,
        capture: Option<SeenFile<'_>>,
    ) -> Result<Unchanged<'a, R>, ReplaceError>
        ensures { IfErr result (IsChange capture.entry) }
    {
        let place = new.into_place();
        if place.is_capture {
            place.folder.keep_old();
        }
        refuse_replaced(files, capture)?;
        if let Some(capture) = capture {
            if has_lost(&place, &capture) {
                return Err(ReplaceError::CaptureChanged);
            }
        }
        Ok(Unchanged { place })
    }

    pub fn into_place(self) -> Place<'a, R> {
        self.place
    }
}

/// Refuses a capture that has changed since it was found, or that another file has replaced.
pub fn refuse_replaced<R: Files>(
    files: &R,
    capture: Option<SeenFile<'_>>,
) -> Result<(), ReplaceError>
    ensures { IfErr result (IsChange capture.entry) }
{
    match capture {
        Some(capture) if capture.is_replaced(files) => Err(ReplaceError::CaptureChanged),
        _ => Ok(()),
    }
}

/// Whether the target was this capture, and is another file by now. One that has the capture's path
/// must have been the capture, or a link there led elsewhere for a while.
fn has_lost<R: Files>(place: &Place<'_, R>, capture: &SeenFile<'_>) -> bool {
    if !place.is_capture {
        return place.has_capture_path;
    }
    // what got the second name may have had the target's for a moment only
    capture.is_unlike(place.folder.look_at_old()) || capture.is_other(place.folder.look_at_target())
}
