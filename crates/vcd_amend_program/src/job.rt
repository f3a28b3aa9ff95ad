//! What a run is to do.

ghost use Rattle.std.specs.Prelude.{◌≡◌, is_some};
ghost use Rattle.vcd_amend_program.specs.CommandLine.{options_in};
ghost use Rattle.vcd_amend_program.specs.inside.Jobs.{HasDepth, IsReadyRun};

use crate::command_line::Options;
use vcd_amend_run::RunOptions;
use vcd_copy::MarkHead;
use vcd_part::Request;
use vcd_replace::SeenFile;

/// What a run is to do.
#[derive(Clone, Copy)]
pub struct Job<'r> {
    pub options: &'r Options<'r, 'r>,
    /// The capture as it was found, if it is a regular file. If it was changed since, no output is
    /// put in its place.
    pub capture: Option<SeenFile<'r>>,
    /// What the options ask of a run of the script.
    pub run: RunOptions<'r>,
}

/// What a run on a part is to do.
#[derive(Clone, Copy)]
pub struct PartJob<'r> {
    pub job: Job<'r>,
    pub request: Request<'r, 'r>,
}

/// What these options ask of a run, with the head of the mark, if one is asked for.
pub fn run_of<'r>(options: &Options<'_, '_>, mark: Option<MarkHead<'r>>) -> RunOptions<'r>
    requires depth { HasDepth options.now }
    requires marked { is_some mark ≡ options.now.is_marked }
    ensures ready { IsReadyRun (options_in options.now) result }
    ensures mark { result.mark ≡ mark.entry }
{
    RunOptions {
        depth: options.depth,
        mark,
        is_all_or_nothing: options.is_all_or_nothing,
    }
}
