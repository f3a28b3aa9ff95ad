//! The signals that a command refers to.

ghost use Rattle.std.specs.Prelude.{◌≡◌, ◌∷◌, [], Some, None};
ghost use Rattle.std.specs.List.{filter_map};
ghost use Rattle.vcd_core.specs.Contents.{Contents};
ghost use Rattle.vcd_remarks.specs.EditFindings.{edit_findings};
ghost use Rattle.vcd_remarks.specs.NamedSignals as spec;
ghost use Rattle.vcd_remarks.specs.NamedSignals.{signals_of_edit, signals_of_command};

use vcd_edit::Edit;
use vcd_hollow::{waves_of_command, waves_read};
use vcd_journal::Step;
use vcd_script::Command;

/// The positions of the signals that a command refers to.
pub fn signals_of_command(command: &Command) -> [Option<usize>; 4]
    ensures { filter_map (λ signal. signal) result ≡ signals_of_command command.now }
{
    match command {
        Command::Step(Step::Edit(edit)) => signals_of_edit(edit),
        Command::Nothing
        | Command::Step(_)
        | Command::List
        | Command::Value { .. }
        | Command::Changes { .. }
        | Command::Uart { .. }
        | Command::Spi { .. }
        | Command::I2c { .. } => waves_of_command(command),
    }
}

/// The positions of the signals that an edit refers to.
fn signals_of_edit(edit: &Edit) -> [Option<usize>; 4]
    ensures { filter_map (λ signal. signal) result ≡ signals_of_edit edit.now }
{
    match edit {
        Edit::Rename { signal, .. } => [Some(*signal), None, None, None],
        Edit::Remove { signal } => [Some(*signal), None, None, None],
        Edit::Invert { .. }
        | Edit::Shift { .. }
        | Edit::Cut { .. }
        | Edit::Deglitch { .. }
        | Edit::Force { .. }
        | Edit::Derive { .. } => waves_read(edit),
    }
}

/// The position of the signal at whose changes something may be found by an edit, if there is one.
pub fn searched_signal(edit: &Edit) -> Option<usize>
    ensures signal { result ≡ spec.searched_signal edit.now }
    ensures others { result ≡ None → (c : Contents) → edit_findings edit.now c ≡ [] }
{
    match *edit {
        Edit::Invert { signal }
        | Edit::Shift { signal, .. }
        | Edit::Deglitch { signal, .. }
        | Edit::Force { signal, .. } => Some(signal),
        Edit::Rename { .. } | Edit::Remove { .. } | Edit::Cut { .. } | Edit::Derive { .. } => None,
    }
}
