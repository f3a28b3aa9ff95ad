//! Edits as the signal sees them, and their stages.

ghost use Rattle.std.specs.Prelude.{◌≡◌, ◌≤◌, ℕ, List};
ghost use Rattle.vcd_core.specs.declared.value.TheConstants.{WIDTH_LIMIT};
ghost use Rattle.vcd_core.specs.declared.wave.Change.{Change};
ghost use Rattle.vcd_core.specs.Value.{all_x};
ghost use Rattle.vcd_stream.specs.Stages.{made_changes, replaced_changes};
ghost use Rattle.vcd_stream.specs.WaveEdits as spec;
ghost use Rattle.vcd_stream.specs.WaveEdits.{IsAllowed, IsStageOf};
ghost use Rattle.vcd_stream.specs.inside.WaveEdits.{made_by, shifted_changes, cut_ticks};

use crate::letters::Letters;
use crate::stage::{ChangeTo, ReplacedTicks, Stage, Work};
use vcd_core::{Bit, Value, WIDTH_LIMIT};

/// An edit as a signal sees it: one of its own, or a cut.
#[derive(Clone, Copy)]
pub enum WaveEdit {
    Invert,
    Deglitch { ticks: u64 },
    Shift { by: i64 },
    Force { from: u64, to: u64, value: Value },
    Cut { from: u64, to: u64 },
}

impl WaveEdit {
    /// The stage of this edit of a wave of `width` bits, in a capture up to the tick `end`.
    pub fn stage<V: Letters>(&self, width: u64, end: u64) -> Stage<V>
        requires least { 1 ≤ width }
        requires most { width ≤ V.widest }
        requires limit { width ≤ WIDTH_LIMIT }
        requires allowed { IsAllowed end width self.now }
        ensures { IsStageOf (V.letters width) self.now end width result }
    {
        let x = x_value(width);
        Stage {
            work: self.work(width, end, x),
            last: x,
        }
    }

    /// What the stage does before the first change.
    fn work<V: Letters>(&self, width: u64, end: u64, x: V) -> Work<V>
        requires most { width ≤ V.widest }
        requires allowed { IsAllowed end width self.now }
        ensures { (cs : List Change) → made_changes (V.letters width) result cs
            ≡ made_by self.now end (V.letters width x) cs }
    {
        match self {
            WaveEdit::Invert => Work::Invert,
            WaveEdit::Deglitch { ticks } => Work::Deglitch {
                ticks: *ticks,
                held: ChangeTo { tick: 0, value: x },
            },
            WaveEdit::Shift { by } => shift_work(*by, end, x),
            WaveEdit::Force { from, to, value } => Work::Replace {
                ticks: ReplacedTicks {
                    from: *from,
                    until: *to,
                    by: 0,
                    end,
                },
                value: V::of_value(value),
                now: x,
            },
            WaveEdit::Cut { from, to } => cut_work(*from, *to, self.end_after(end), x),
        }
    }

    /// The end of the capture after this edit.
    pub fn end_after(&self, end: u64) -> u64
        ensures { result ≡ spec.end_after self.now end }
    {
        match self {
            WaveEdit::Cut { from, to } => end.saturating_sub(to.saturating_sub(*from)),
            _ => end,
        }
    }
}

/// The value that is x in every bit.
pub(crate) fn x_value<V: Letters>(width: u64) -> V
    requires least { 1 ≤ width }
    requires most { width ≤ V.widest }
    requires limit { width ≤ WIDTH_LIMIT }
    ensures { V.letters width result ≡ all_x width }
{
    V::of_value(&Value::filled(width, Bit::X))
}

/// The work of a shift by so many ticks, up to the tick `end`.
fn shift_work<V: Letters>(by: i64, end: u64, x: V) -> Work<V>
    ensures { (width : ℕ) (cs : List Change) → made_changes (V.letters width) result cs
        ≡ shifted_changes by end (V.letters width x) cs }
{
    if by < 0 {
        return cut_work(0, by.unsigned_abs(), end, x);
    }
    Work::Later {
        by: by.unsigned_abs(),
        end,
    }
}

/// The work by which the ticks from `from` to before `to` go; `end` is the last one that is left.
fn cut_work<V: Letters>(from: u64, to: u64, end: u64, x: V) -> Work<V>
    ensures { (width : ℕ) (cs : List Change) → made_changes (V.letters width) result cs
        ≡ replaced_changes (cut_ticks from to end) (V.letters width x) (V.letters width x) cs }
{
    Work::Replace {
        ticks: ReplacedTicks {
            from,
            until: from,
            by: to.saturating_sub(from),
            end,
        },
        value: x,
        now: x,
    }
}
