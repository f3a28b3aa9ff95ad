//! A pass over a capture file.

ghost use Rattle.std.specs.Prelude.{◌≡◌, false, IfOk};

use crate::progress::ProgressLine;
use crate::summed::Summed;
use crate::watched::{Watched, watched_or_told};
use std::rt::{Files, Runtime};
use vcd_core::{DeviceFault, Source};
use vcd_replace::SeenFile;

/// A pass over a capture file, which shows how far it is.
pub type Pass<'a, R> = Summed<Watched<'a, R, <R as Files>::File>>;

/// Opens a capture for the first pass, with this line: what there is to tell of the capture is
/// looked for. If it can't be opened, or its path leads to another file by now, the reason is told.
pub fn open_first_pass<'a, R: Runtime + AllocGlobal>(
    rt: &'a R,
    capture: SeenFile<'a>,
    line: ProgressLine,
) -> Result<Pass<'a, R>, DeviceFault>
    ensures { IfOk result (λ s. ⟦<Pass<'a, R> as Source>⟧.has_failed s ≡ false) }
{
    let opened = capture.open(rt);
    Ok(Summed::new(watched_or_told(rt, capture.path(), opened, line)?))
}

/// Opens it for any other pass.
pub fn open_pass<'a, R: Runtime + AllocGlobal>(
    rt: &'a R,
    capture: SeenFile<'a>,
    line: ProgressLine,
) -> Result<Pass<'a, R>, DeviceFault>
    ensures { IfOk result (λ s. ⟦<Pass<'a, R> as Source>⟧.has_failed s ≡ false) }
{
    let opened = capture.open(rt);
    let watched = watched_or_told(rt, capture.path(), opened, line)?;
    Ok(Summed::new(watched.unsearched()))
}
