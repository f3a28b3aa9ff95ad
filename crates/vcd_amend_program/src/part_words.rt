//! The part that the words of the command line ask for.

ghost use Rattle.std.specs.Prelude.{◌≡◌, IfOk, IfErr};
ghost use Rattle.vcd_amend_program.specs.CommandLine.{options_in};
ghost use Rattle.vcd_amend_program.specs.PartOutcome as spec;

use crate::amend_error::{AmendError, PartFault};
use crate::command_line::Options;
use vcd_part::{Request, time_asked};

/// What is asked for, if both times are such.
pub fn request_of<'m, 'a>(options: &Options<'m, 'a>) -> Result<Request<'m, 'a>, AmendError>
    ensures asked { IfOk result (spec.IsRequest (options_in options.now)) }
    ensures fault { IfErr result (spec.IsTimeFault (options_in options.now)) }
{
    let from = time_asked(options.from, 0).ok_or(AmendError::Part(PartFault::BadFrom))?;
    let to = time_asked(options.to, u64::MAX).ok_or(AmendError::Part(PartFault::BadTo))?;
    Ok(Request {
        keep: options.keep,
        remove: options.remove,
        from,
        to,
    })
}
