//! The ticks that cuts take out of a file.

ghost use Rattle.std.specs.Prelude.{◌≡◌, ◌≤◌, ◌<◌, ◌-◌, ◌^◌, ◌||◌, ℕ, true, All};
ghost use Rattle.vcd_amend.specs.Retimed.{new_tick};
ghost use Rattle.vcd_amend.specs.RetimedLaws.{is_in_cut};
ghost use Rattle.vcd_amend.specs.RetimedCopy.{is_cut_by};
ghost use Rattle.vcd_amend.specs.declared.cut_ticks.RetimedTick.{RetimedTick as Retimed};
ghost use Rattle.vcd_amend.specs.inside.CutTicks.{GoesOn, later};

use std::marker::Model;

/// A cut: the ticks from `from` to before `to` of a capture are taken out.
#[derive(Clone, Copy, Debug, PartialEq, Eq)]
pub struct CutTicks {
    pub from: u64,
    pub to: u64,
}

/// A tick of a file after cuts.
#[derive(Clone, Copy, Debug, PartialEq, Eq)]
pub struct RetimedTick {
    /// Whether it is cut out.
    pub is_cut: bool,
    /// How many ticks before it are left.
    pub tick: u64,
}

/// Cuts, each of which is made on what the earlier ones leave, and where a walk over the ticks of a
/// file is.
///
/// A tick that is cut out with the last one, or left with it, takes one step, and any other a step
/// for each cut. So a walk takes a step for each tick, and the square of the number of cuts.
#[derive(Drop)]
pub struct CutWalk<'a> {
    cuts: &'a [CutTicks],
    // the last tick that was asked for
    last: u64,
    found: RetimedTick,
    // for so many ticks, with the last one, it goes on as with this one
    ticks: u64,
}

impl<'a> Model for CutWalk<'a> {
    ghost use Rattle.std.specs.Prelude.{◌≤◌, ◌<◌, ℕ, All, List};
    ghost use Rattle.vcd_amend.specs.declared.cut_ticks.CutTicks.{CutTicks as Cut};
    ghost use Rattle.vcd_amend.specs.inside.CutTicks.{GoesOn};

    ghost Value = { List Cut };

    ghost view = { λ w. w.cuts.now };

    ghost invariant = { λ w. (All (λ c. c.from ≤ c.to) w.cuts.now)
        × ((more : ℕ) → more < w.ticks → GoesOn w.cuts.now w.last w.found more) };
}

impl<'a> CutWalk<'a> {
    /// Before the first tick.
    pub fn new(cuts: &'a [CutTicks]) -> CutWalk<'a>
        requires { All (λ c. c.from ≤ c.to) cuts.now }
        ensures { result ≡ cuts.now }
    {
        CutWalk {
            cuts,
            last: 0,
            found: RetimedTick {
                is_cut: false,
                tick: 0,
            },
            ticks: 0,
        }
    }

    /// A tick after the cuts.
    pub fn retimed(&mut self, tick: u64) -> RetimedTick
        ensures cut { result.is_cut ≡ is_cut_by self.old tick }
        ensures tick { result.tick ≡ new_tick (is_cut_by self.old) tick }
        ensures same { self.new ≡ self.old }
    {
        if is_within(self.last, self.ticks, tick) {
            return later(self.found, tick - self.last);
        }
        let (found, ticks) = retimed_tick(self.cuts, tick);
        self.last = tick;
        self.found = found;
        self.ticks = ticks;
        found
    }
}

/// Whether a tick is one of so many from the last one on.
fn is_within(last: u64, ticks: u64, tick: u64) -> bool
    ensures { result ≡ true → (last ≤ tick) × (tick - last < ticks) }
{
    if tick < last {
        return false;
    }
    tick - last < ticks
}

/// What is found `more` ticks later, while it goes on so.
fn later(found: RetimedTick, more: u64) -> RetimedTick
    requires { later found more < 2 ^ 64 }
    ensures cut { result.is_cut ≡ found.is_cut }
    ensures tick { result.tick ≡ later found more }
{
    if found.is_cut {
        return found;
    }
    RetimedTick {
        is_cut: false,
        tick: found.tick + more,
    }
}

/// A tick after these cuts, and for how many ticks, with this one, it goes on so. The time grows
/// with the number of cuts.
fn retimed_tick(cuts: &[CutTicks], tick: u64) -> (RetimedTick, u64)
    requires { All (λ c. c.from ≤ c.to) cuts.now }
    ensures cut { result.0.is_cut ≡ is_cut_by cuts.now tick }
    ensures tick { result.0.tick ≡ new_tick (is_cut_by cuts.now) tick }
    ensures goes_on { (more : ℕ) → more < result.1 → GoesOn cuts.now tick result.0 more }
{
    let mut found = RetimedTick {
        is_cut: false,
        tick,
    };
    let mut ticks = u64::MAX;
    for cut in cuts {
        ticks = ticks_through(*cut, found, ticks);
        found = after_cut(*cut, found);
    }
    (found, ticks)
}

/// For how many of these ticks it goes on after one cut more as with the first of them.
fn ticks_through(cut: CutTicks, found: RetimedTick, ticks: u64) -> u64
    requires { cut.from ≤ cut.to }
    ensures fewer { result ≤ ticks }
    ensures goes_on { (more : ℕ) → more < result → (passed : Retimed) →
        passed.is_cut ≡ (found.is_cut || is_in_cut cut.from cut.to found.tick) →
        passed.tick ≡ new_tick (is_in_cut cut.from cut.to) found.tick →
        (passed.is_cut ≡ (found.is_cut || is_in_cut cut.from cut.to (later found more)))
        × (later passed more ≡ new_tick (is_in_cut cut.from cut.to) (later found more)) }
{
    if found.is_cut {
        return ticks;
    }
    if found.tick < cut.from {
        return ticks.min(cut.from - found.tick);
    }
    if found.tick < cut.to {
        return ticks.min(cut.to - found.tick);
    }
    ticks
}

/// A tick after one cut more.
fn after_cut(cut: CutTicks, found: RetimedTick) -> RetimedTick
    requires { cut.from ≤ cut.to }
    ensures cut { result.is_cut ≡ (found.is_cut || is_in_cut cut.from cut.to found.tick) }
    ensures tick { result.tick ≡ new_tick (is_in_cut cut.from cut.to) found.tick }
{
    if found.tick < cut.from {
        return found;
    }
    if found.tick < cut.to {
        return RetimedTick {
            is_cut: true,
            tick: cut.from,
        };
    }
    RetimedTick {
        is_cut: found.is_cut,
        tick: found.tick - (cut.to - cut.from),
    }
}
