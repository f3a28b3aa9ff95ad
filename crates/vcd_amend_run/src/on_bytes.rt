//! The run over bytes in memory: what it gives is said of bytes alone.

ghost use Rattle.std.specs.Prelude.{◌≡◌, ◌≤◌, IfOk};
ghost use Rattle.vcd_script.specs.Run.{RunOutcome};
ghost use Rattle.vcd_amend_run.specs.AmendRun.{IsAmendRun};
ghost use Rattle.vcd_amend_run.specs.AmendRunEnds.{AreReady, pass_ends, AllShow};
ghost use Rattle.vcd_amend_run.specs.AmendOnBytes.{AmendGives};

use crate::reopen::{BytesAgain, Reopen};
use crate::running::{AmendRunError, Passes, RunOptions, amend_run};
use std::alloc::Global;
use vcd_amend::Nowhere;
use vcd_core::{FromBytes, Source, ToBytes};
use vcd_journal::DEPTH_LIMIT;
use vcd_script::RunTexts;

/// Why bytes were not amended: the error of [`amend_run`], whose devices fail only if memory runs
/// out, and the replies that were written before it.
#[derive(Debug, Drop)]
pub struct AmendRefusal {
    pub error: AmendRunError,
    pub replies: Vec<u8>,
}

/// Runs the lines of the script on the capture, and gives the replies and the file as it is after
/// the script: every byte stands that no edit in force touches. `depth` is how many edits can be
/// undone.
///
/// This is [`amend_run`] on devices in memory. So its contract speaks of bytes alone, and of no
/// device. It holds the replies and the new file, too.
pub fn amend_on_bytes(
    alloc: Global,
    file: &[u8],
    script: &[u8],
    depth: u64,
) -> Result<RunTexts, AmendRefusal>
    requires depth_least { 1 ≤ depth }
    requires depth_most { depth ≤ DEPTH_LIMIT }
    ensures headline { AmendGives file.now script.now depth result }
    // each byte of the file after the script
    ensures text { IfOk result (λ texts. (written : RunOutcome)
        × IsAmendRun file.now script.now depth written
        × (texts.output.items ≡ written.output)) }
{
    let mut passes = passes_over(file);
    let mut replies = ToBytes::new(alloc);
    let mut output = ToBytes::new(alloc);
    let mut remarks = Nowhere { is_flushed: false };
    let options = RunOptions {
        depth,
        mark: None,
        is_all_or_nothing: false,
    };
    let ending = amend_run(
        alloc,
        &mut passes,
        &mut FromBytes::new(script),
        &mut replies,
        &mut remarks,
        Some(&mut output),
        &options,
    );
    let replies = replies.into_bytes();
    match ending {
        Ok(summary) => Ok(RunTexts {
            replies,
            output: output.into_bytes(),
            refused: summary.refused,
        }),
        Err(error) => Err(AmendRefusal { error, replies }),
    }
}

/// Sources of the same bytes.
fn passes_over<'a>(file: &'a [u8]) -> Passes<FromBytes<'a>, BytesAgain<'a>>
    ensures declarations { ⟦<FromBytes<'a> as Source>⟧.coming result.declarations ≡ Some file.now }
    ensures outline { ⟦<FromBytes<'a> as Source>⟧.coming result.outline ≡ Some file.now }
    ensures changes { ⟦<FromBytes<'a> as Source>⟧.coming result.changes ≡ Some file.now }
    ensures copy { ⟦<FromBytes<'a> as Source>⟧.coming result.copy ≡ Some file.now }
    ensures again { ⟦<BytesAgain<'a> as Reopen<FromBytes<'a>>>⟧.whole result.again
        ≡ Some file.now }
{
    Passes {
        declarations: FromBytes::new(file),
        outline: FromBytes::new(file),
        changes: FromBytes::new(file),
        copy: FromBytes::new(file),
        again: BytesAgain { bytes: file },
    }
}
