//! Laws about the definitions: the contract of each function is the law.

ghost use Rattle.vcd_remarks.specs.RemarkLaws.{DelaysAreAll, ValueRunsAreAll};
ghost use Rattle.vcd_remarks.specs.RemarkLaws.{PulsesAreTakenOut};
ghost use Rattle.vcd_remarks.specs.RemarksOfRun.{RemarksOnHollow, RemarksWithOthers};
ghost use Rattle.vcd_remarks.specs.SessionRemarks.{SessionRemarksAreRun};
ghost use Rattle.vcd_remarks.specs.SpiLine.{SpiSamplesAreOfWords};

use vcd_edit::deglitch_takes_short_runs_out;

/// The runs of a signal, by which pulses are found and places named, are all its runs of one value,
/// from tick 0 to the end. The pulses are just those that a deglitch takes out. The late edges are
/// those of the signal after it, right after ticks that are not steady.
pub fn remarks_are_true()
    ensures runs { ValueRunsAreAll }
    ensures pulses { PulsesAreTakenOut }
    ensures edges { DelaysAreAll }
{
    deglitch_takes_short_runs_out();
}

/// Lines that are carried out on a new session have the remarks of a run.
pub fn session_remarks_are_run()
    ensures { SessionRemarksAreRun }
{}

/// Where the edits in force read no silent wave, a line that asks for none has the same remarks on
/// the capture without these waves.
pub fn remarks_on_hollow_captures()
    ensures command { RemarksWithOthers }
    ensures line { RemarksOnHollow }
{}

/// The samples that `spi_line_findings` looks at are those of the words
/// that `spi` finds: what the parts between the ticks at which the chip is not
/// selected have of them, one after the other.
pub fn spi_samples_are_of_words()
    ensures { SpiSamplesAreOfWords }
{}
