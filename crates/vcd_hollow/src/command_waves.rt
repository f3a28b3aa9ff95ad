//! The signals whose changes a command needs.

ghost use Rattle.std.specs.Prelude.{◌≡◌, ◌∷◌, [], Some, None};
ghost use Rattle.std.specs.List.{filter_map};
ghost use Rattle.vcd_hollow.specs.OtherWaves.{waves_read};
ghost use Rattle.vcd_edit.specs.EditFaults.{operands};
ghost use Rattle.vcd_edit.specs.Effect.{formula};
ghost use Rattle.vcd_hollow.specs.HollowRun.{waves_of_command};

use vcd_edit::{Edit, Rule};
use vcd_journal::Step;
use vcd_script::Command;

/// Positions of at most four signals.
type Waves = [Option<usize>; 4];

/// The positions of the signals whose changes a command shows, or its edit reads. Any other command
/// does the same without changes.
pub fn waves_of_command(command: &Command) -> [Option<usize>; 4]
    ensures { filter_map (λ wave. wave) result ≡ waves_of_command command.now }
{
    match command {
        Command::Step(Step::Edit(edit)) => waves_read(edit),
        Command::Value { signal, .. } => one_wave(*signal),
        Command::Changes { signal } => one_wave(*signal),
        Command::Uart { signal, .. } => one_wave(*signal),
        Command::Spi {
            clk,
            mosi,
            miso,
            cs,
            ..
        } => [Some(*clk), *mosi, *miso, *cs],
        Command::I2c { scl, sda } => [Some(*scl), Some(*sda), None, None],
        Command::Nothing | Command::Step(_) | Command::List => [None; 4],
    }
}

/// The positions of the signals whose changes an edit reads.
pub fn waves_read(edit: &Edit) -> [Option<usize>; 4]
    ensures { filter_map (λ wave. wave) result ≡ waves_read edit.now }
{
    match edit {
        Edit::Invert { signal } => one_wave(*signal),
        Edit::Shift { signal, .. } => one_wave(*signal),
        Edit::Deglitch { signal, .. } => one_wave(*signal),
        Edit::Force { signal, .. } => one_wave(*signal),
        Edit::Derive { rule, .. } => operands(*rule),
        Edit::Rename { .. } | Edit::Remove { .. } | Edit::Cut { .. } => [None; 4],
    }
}

/// The operands of a rule.
fn operands(rule: Rule) -> Waves
    ensures { filter_map (λ wave. wave) result ≡ operands (formula rule) }
{
    match rule {
        Rule::Not(a) | Rule::BitOf(a, _) => one_wave(a),
        Rule::And(a, b) | Rule::Or(a, b) | Rule::Xor(a, b) => [Some(a), Some(b), None, None],
    }
}

/// One position alone.
fn one_wave(signal: usize) -> Waves
    ensures { result ≡ Some signal ∷ None ∷ None ∷ None ∷ [] }
{
    [Some(signal), None, None, None]
}
