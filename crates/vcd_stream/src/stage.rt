//! A stage: an edit of one wave that takes its changes one after another.

ghost use Rattle.std.specs.Prelude.{◌≡◌, ◌<◌, ◌≤◌, ◌++◌, ◌∷◌, [], List, IfOk, OnOk};
ghost use Rattle.vcd_core.specs.declared.wave.Change.{Change as ChangeView};
ghost use Rattle.vcd_edit.specs.inside.plans.RemainingChanges.{without_repeats};
ghost use Rattle.vcd_stream.specs.Stages.{seen, all_seen, given, GoesOn, shown_changes};
ghost use Rattle.vcd_stream.specs.Stages.{begins_steady_before, begun, replaced_changes};
ghost use Rattle.vcd_stream.specs.declared.stage.Work.TheVariants as works;

use crate::letters::Letters;
use vcd_core::NoMemory;

/// From `tick` on, a signal has `value`, whose width is known elsewhere.
#[derive(Clone, Copy)]
pub struct ChangeTo<V> {
    pub tick: u64,
    pub value: V,
}

/// At the ticks from `from` to before `until` a wave gets one value, and from `until` on the values
/// that it had `by` ticks later, up to the tick `end`.
#[derive(Clone, Copy)]
pub struct ReplacedTicks {
    pub from: u64,
    pub until: u64,
    pub by: u64,
    pub end: u64,
}

/// What a stage does, with what it holds: one change, or two values.
#[derive(Clone, Copy)]
pub enum Work<V> {
    /// Each bit is negated.
    Invert,
    /// Runs of fewer ticks go. The last change is held until the next one comes.
    Deglitch {
        ticks: u64,
        held: ChangeTo<V>,
    },
    /// Each change comes `by` ticks later, unless that is past the end.
    Later {
        by: u64,
        end: u64,
    },
    /// Before the replaced ticks; `value` is theirs, and `now` the one so far.
    Replace {
        ticks: ReplacedTicks,
        value: V,
        now: V,
    },
    /// At the replaced ticks; `now` is the value so far, which is hidden.
    Hide {
        ticks: ReplacedTicks,
        now: V,
    },
    /// Each change comes `by` ticks earlier.
    Earlier {
        by: u64,
    },
    /// Of changes at one tick, as a file may have them, the last counts. It is held until its tick
    /// is over.
    OfFile {
        held: ChangeTo<V>,
    },
}

/// An edit of one wave, with the value that it gave last.
#[derive(Clone, Copy)]
pub struct Stage<V> {
    pub work: Work<V>,
    pub last: V,
}

/// The value that a stage gave last, and the width of its wave.
#[derive(Clone, Copy)]
struct LastGiven<V> {
    width: u64,
    value: V,
}

/// Replaced ticks, and the value that they get.
#[derive(Clone, Copy)]
struct Replacement<V> {
    ticks: ReplacedTicks,
    value: V,
}

impl<V: Letters> Stage<V> {
    /// Takes the next change of a wave of `width` bits, and gives the changes that are settled by
    /// it.
    pub fn take(
        self,
        width: u64,
        out: &mut Vec<ChangeTo<V>>,
        change: ChangeTo<V>,
    ) -> Result<Stage<V>, NoMemory>
        requires least { 1 ≤ width }
        requires most { width ≤ V.widest }
        ensures { IfOk result (GoesOn (V.letters width) out.old.items out.new.items self change) }
    {
        let value = self.last;
        let last = LastGiven { width, value };
        let work = self.work;
        match &work {
            Work::Invert => take_inverse(out, last, change),
            Work::Deglitch { ticks, held } => take_run(out, last, *ticks, *held, change),
            Work::Later { by, end } => take_later(out, last, *by, *end, change),
            Work::Replace { ticks, value, now } => {
                let (ticks, value) = (*ticks, *value);
                take_replaced(out, last, Replacement { ticks, value }, *now, change)
            }
            Work::Hide { ticks, now } => take_hidden(out, last, *ticks, *now, change),
            Work::Earlier { by } => take_earlier(out, last, *by, change),
            Work::OfFile { held } => take_of_file(out, last, *held, change),
        }
    }

    /// Gives what is left after the last change.
    pub fn finish(self, width: u64, out: &mut Vec<ChangeTo<V>>) -> Result<(), NoMemory>
        requires least { 1 ≤ width }
        requires most { width ≤ V.widest }
        ensures { OnOk result (all_seen (V.letters width) out.new.items
            ≡ all_seen (V.letters width) out.old.items ++ given (V.letters width) self []) }
    {
        let value = self.last;
        let last = LastGiven { width, value };
        let work = self.work;
        match &work {
            Work::Deglitch { ticks: _, held } => finish_with(out, last, *held),
            Work::Replace { ticks, value, now } => {
                let (ticks, value) = (*ticks, *value);
                finish_replaced(out, last, Replacement { ticks, value }, *now)
            }
            Work::Hide { ticks, now } => finish_hidden(out, last, *ticks, *now),
            Work::OfFile { held } => finish_with(out, last, *held),
            Work::Invert => Ok(()),
            Work::Later { .. } => Ok(()),
            Work::Earlier { .. } => Ok(()),
        }
    }
}

/// Gives a change, unless it repeats the value given last. The result is the value given last.
fn give<V: Letters>(
    out: &mut Vec<ChangeTo<V>>,
    last: LastGiven<V>,
    change: ChangeTo<V>,
) -> Result<V, NoMemory>
    requires least { 1 ≤ last.width }
    requires most { last.width ≤ V.widest }
    ensures { IfOk result (λ v. (more : List ChangeView)
        → all_seen (V.letters last.width) out.new.items
        ++ without_repeats (V.letters last.width v) more
        ≡ all_seen (V.letters last.width) out.old.items
        ++ without_repeats (V.letters last.width last.value)
        (seen (V.letters last.width) change ∷ more)) }
{
    if change.value.has_letters_of(&last.value, last.width) {
        return Ok(last.value);
    }
    out.push(change)?;
    Ok(change.value)
}

fn take_inverse<V: Letters>(
    out: &mut Vec<ChangeTo<V>>,
    last: LastGiven<V>,
    change: ChangeTo<V>,
) -> Result<Stage<V>, NoMemory>
    requires least { 1 ≤ last.width }
    requires most { last.width ≤ V.widest }
    ensures { IfOk result (GoesOn (V.letters last.width) out.old.items out.new.items
        (record { work = works.Invert; last = last.value }) change) }
{
    let tick = change.tick;
    let value = change.value.inverse();
    let last = give(out, last, ChangeTo { tick, value })?;
    Ok(Stage {
        work: Work::Invert,
        last,
    })
}

/// Whether the run that begins with a change stays if the next one is at `next`.
fn begins_steady_before(tick: u64, ticks: u64, next: u64) -> bool
    ensures { result ≡ begins_steady_before ticks tick next }
{
    tick == 0 || ticks <= next.saturating_sub(tick)
}

fn take_run<V: Letters>(
    out: &mut Vec<ChangeTo<V>>,
    last: LastGiven<V>,
    ticks: u64,
    held: ChangeTo<V>,
    change: ChangeTo<V>,
) -> Result<Stage<V>, NoMemory>
    requires least { 1 ≤ last.width }
    requires most { last.width ≤ V.widest }
    ensures { IfOk result (GoesOn (V.letters last.width) out.old.items out.new.items
        (record { work = works.Deglitch ticks held; last = last.value }) change) }
{
    let work = Work::Deglitch {
        ticks,
        held: change,
    };
    if !begins_steady_before(held.tick, ticks, change.tick) {
        let last = last.value;
        return Ok(Stage { work, last });
    }
    let last = give(out, last, held)?;
    Ok(Stage { work, last })
}

fn take_later<V: Letters>(
    out: &mut Vec<ChangeTo<V>>,
    last: LastGiven<V>,
    by: u64,
    end: u64,
    change: ChangeTo<V>,
) -> Result<Stage<V>, NoMemory>
    requires least { 1 ≤ last.width }
    requires most { last.width ≤ V.widest }
    ensures { IfOk result (GoesOn (V.letters last.width) out.old.items out.new.items
        (record { work = works.Later by end; last = last.value }) change) }
{
    let work = Work::Later { by, end };
    if by > end || change.tick > end - by {
        let last = last.value;
        return Ok(Stage { work, last });
    }
    let tick = change.tick + by;
    let value = change.value;
    let last = give(out, last, ChangeTo { tick, value })?;
    Ok(Stage { work, last })
}

fn take_earlier<V: Letters>(
    out: &mut Vec<ChangeTo<V>>,
    last: LastGiven<V>,
    by: u64,
    change: ChangeTo<V>,
) -> Result<Stage<V>, NoMemory>
    requires least { 1 ≤ last.width }
    requires most { last.width ≤ V.widest }
    ensures { IfOk result (GoesOn (V.letters last.width) out.old.items out.new.items
        (record { work = works.Earlier by; last = last.value }) change) }
{
    let tick = change.tick.saturating_sub(by);
    let value = change.value;
    let last = give(out, last, ChangeTo { tick, value })?;
    Ok(Stage {
        work: Work::Earlier { by },
        last,
    })
}

fn take_hidden<V: Letters>(
    out: &mut Vec<ChangeTo<V>>,
    last: LastGiven<V>,
    ticks: ReplacedTicks,
    now: V,
    change: ChangeTo<V>,
) -> Result<Stage<V>, NoMemory>
    requires least { 1 ≤ last.width }
    requires most { last.width ≤ V.widest }
    ensures { IfOk result (GoesOn (V.letters last.width) out.old.items out.new.items
        (record { work = works.Hide ticks now; last = last.value }) change) }
{
    if change.tick.saturating_sub(ticks.by) <= ticks.until {
        let work = Work::Hide {
            ticks,
            now: change.value,
        };
        let last = last.value;
        return Ok(Stage { work, last });
    }
    let shown = ChangeTo {
        tick: ticks.until,
        value: now,
    };
    let width = last.width;
    let value = give(out, last, shown)?;
    take_earlier(out, LastGiven { width, value }, ticks.by, change)
}

/// Gives the change to the value of the replaced ticks, if there is one.
fn begin_replaced<V: Letters>(
    out: &mut Vec<ChangeTo<V>>,
    last: LastGiven<V>,
    replacement: Replacement<V>,
) -> Result<V, NoMemory>
    requires least { 1 ≤ last.width }
    requires most { last.width ≤ V.widest }
    ensures { IfOk result (λ v. (more : List ChangeView)
        → all_seen (V.letters last.width) out.new.items
        ++ without_repeats (V.letters last.width v) more
        ≡ all_seen (V.letters last.width) out.old.items
        ++ without_repeats (V.letters last.width last.value)
        (begun replacement.ticks (V.letters last.width replacement.value) more)) }
{
    let Replacement { ticks, value } = replacement;
    if ticks.from >= ticks.until {
        return Ok(last.value);
    }
    let tick = ticks.from;
    give(out, last, ChangeTo { tick, value })
}

fn take_replaced<V: Letters>(
    out: &mut Vec<ChangeTo<V>>,
    last: LastGiven<V>,
    replacement: Replacement<V>,
    now: V,
    change: ChangeTo<V>,
) -> Result<Stage<V>, NoMemory>
    requires least { 1 ≤ last.width }
    requires most { last.width ≤ V.widest }
    ensures { IfOk result (GoesOn (V.letters last.width) out.old.items out.new.items
        (record { work = works.Replace replacement.ticks replacement.value now; last = last.value })
        change) }
{
    let Replacement { ticks, value } = replacement;
    if change.tick < ticks.from {
        let last = give(out, last, change)?;
        let now = change.value;
        let work = Work::Replace { ticks, value, now };
        return Ok(Stage { work, last });
    }
    let width = last.width;
    let value = begin_replaced(out, last, replacement)?;
    take_hidden(out, LastGiven { width, value }, ticks, now, change)
}

fn take_of_file<V: Letters>(
    out: &mut Vec<ChangeTo<V>>,
    last: LastGiven<V>,
    held: ChangeTo<V>,
    change: ChangeTo<V>,
) -> Result<Stage<V>, NoMemory>
    requires least { 1 ≤ last.width }
    requires most { last.width ≤ V.widest }
    ensures { IfOk result (GoesOn (V.letters last.width) out.old.items out.new.items
        (record { work = works.OfFile held; last = last.value }) change) }
{
    let work = Work::OfFile { held: change };
    if change.tick <= held.tick {
        let last = last.value;
        return Ok(Stage { work, last });
    }
    let last = give(out, last, held)?;
    Ok(Stage { work, last })
}

/// Gives one last change.
fn finish_with<V: Letters>(
    out: &mut Vec<ChangeTo<V>>,
    last: LastGiven<V>,
    change: ChangeTo<V>,
) -> Result<(), NoMemory>
    requires least { 1 ≤ last.width }
    requires most { last.width ≤ V.widest }
    ensures { OnOk result (all_seen (V.letters last.width) out.new.items
        ≡ all_seen (V.letters last.width) out.old.items
        ++ without_repeats (V.letters last.width last.value)
        (seen (V.letters last.width) change ∷ [])) }
{
    let _ = give(out, last, change)?;
    Ok(())
}

fn finish_hidden<V: Letters>(
    out: &mut Vec<ChangeTo<V>>,
    last: LastGiven<V>,
    ticks: ReplacedTicks,
    now: V,
) -> Result<(), NoMemory>
    requires least { 1 ≤ last.width }
    requires most { last.width ≤ V.widest }
    ensures { OnOk result (all_seen (V.letters last.width) out.new.items
        ≡ all_seen (V.letters last.width) out.old.items
        ++ without_repeats (V.letters last.width last.value)
        (shown_changes ticks (V.letters last.width now) [])) }
{
    if ticks.until > ticks.end {
        return Ok(());
    }
    let tick = ticks.until;
    finish_with(out, last, ChangeTo { tick, value: now })
}

fn finish_replaced<V: Letters>(
    out: &mut Vec<ChangeTo<V>>,
    last: LastGiven<V>,
    replacement: Replacement<V>,
    now: V,
) -> Result<(), NoMemory>
    requires least { 1 ≤ last.width }
    requires most { last.width ≤ V.widest }
    ensures { OnOk result (all_seen (V.letters last.width) out.new.items
        ≡ all_seen (V.letters last.width) out.old.items
        ++ without_repeats (V.letters last.width last.value) (replaced_changes replacement.ticks
        (V.letters last.width replacement.value) (V.letters last.width now) [])) }
{
    let width = last.width;
    let value = begin_replaced(out, last, replacement)?;
    finish_hidden(out, LastGiven { width, value }, replacement.ticks, now)
}
