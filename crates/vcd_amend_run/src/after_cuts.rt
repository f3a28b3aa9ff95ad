//! A capture after cuts.

ghost use Rattle.std.specs.Prelude.{◌≡◌, IfOk, OnOk};
ghost use Rattle.vcd_core.specs.CaptureContents.{contents};
ghost use Rattle.vcd_core.specs.Sound.{IsSound};
ghost use Rattle.vcd_edit.specs.Effect.{cut_contents};
ghost use Rattle.vcd_amend_run.specs.inside.CaptureAfterCuts.{capture_after_cuts};

use std::alloc::Global;
use vcd_amend::CutTicks;
use vcd_core::{Capture, NoMemory};
use vcd_edit::{Edit, apply};

/// The capture after these cuts, each of which is made on what the earlier ones leave, and takes
/// out ticks that are there.
///
/// It takes memory for what one cut takes out. The time of each cut grows with the changes at its
/// ticks and after them.
pub fn after_cuts(alloc: Global, capture: Capture, cuts: &[CutTicks]) -> Result<Capture, NoMemory>
    requires { IsSound (contents capture) }
    ensures { IfOk result (λ after. contents after
        ≡ capture_after_cuts (contents capture) cuts.now) }
{
    let mut after = capture;
    for cut in cuts {
        make_cut(alloc, &mut after, *cut)?;
    }
    Ok(after)
}

/// Makes a cut.
#[tactic(auto, unfolding(vcd_edit::specs::Effect::effect))]
fn make_cut(alloc: Global, capture: &mut Capture, cut: CutTicks) -> Result<(), NoMemory>
    requires { IsSound (contents capture.old) }
    ensures made { OnOk result
        (contents capture.new ≡ cut_contents cut.from cut.to (contents capture.old)) }
    ensures sound { OnOk result (IsSound (contents capture.new)) }
{
    let edit = Edit::Cut {
        from: cut.from,
        to: cut.to,
    };
    match apply(alloc, capture, &edit) {
        Ok(_) => Ok(()),
        Err(_) => Err(NoMemory),
    }
}
