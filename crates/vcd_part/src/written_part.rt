//! What there is to say of a part that was written, beside its text.

ghost use Rattle.std.specs.Prelude.{◌≡◌, IfSome, nat_lt};
ghost use Rattle.vcd_part.specs.WrittenPart as spec;
ghost use Rattle.vcd_part.specs.inside.PartAmender.{IsSaid};

use crate::amender::PartAmender;
use crate::events::events_left_out_at_first;
use crate::named_variable::NamedVariable;
use crate::removed::still_shown;
use vcd_core::{END_LIMIT, Seq, Word};
use vcd_text::TickRange;

/// What there is to say of a part that was written, beside its text.
#[derive(Drop)]
pub struct WrittenPart {
    /// The last tick of the capture.
    pub end: u64,
    /// Whether the capture ends before the last tick that was asked for. A tick past [`END_LIMIT`],
    /// which no capture has, asks for all up to the end.
    pub ends_early: bool,
    /// The variables that meet a pattern to remove and whose code a kept one has, in the order of
    /// the file: under that code the part still shows their values.
    pub still_shown: Seq<NamedVariable>,
    /// How many comments of the declarations and other commands stay as they are, as far as a `u64`
    /// goes. `$date` and `$version` of the declarations do not count, nor does the comment of the
    /// part.
    pub comments: u64,
    /// The paths of the scopes of variables that are left out, each once, in the order of the file,
    /// without those that have a kept one. A scope has its own variables alone, not those of the
    /// scopes within it.
    pub emptied_scopes: Seq<Word>,
    /// The events that are kept, in the order of the file, but left out at the first tick of the
    /// window: it begins after tick 0, and no kept variable of another kind has their code.
    pub events_left_out_at_first: Seq<NamedVariable>,
}

/// What there is to say of a part with this window, once the whole file is copied.
pub fn written_part(amender: PartAmender<'_, '_>, window: Option<TickRange>) -> WrittenPart
    ensures { IfSome window (λ w. IsSaid amender.entry w result) }
{
    let PartAmender {
        choice,
        codes,
        tick,
        comments,
        ..
    } = amender;
    WrittenPart {
        end: tick,
        ends_early: ends_early(window, tick),
        still_shown: still_shown(choice.removed, &codes),
        comments,
        emptied_scopes: choice.scopes.emptied(),
        events_left_out_at_first: events_left_out_at_first(
            choice.events,
            &codes,
            begins_later(window),
        ),
    }
}

/// Whether a window begins after tick 0, if there is one.
fn begins_later(window: Option<TickRange>) -> bool
    ensures { IfSome window (λ w. result ≡ nat_lt 0 w.first) }
{
    match window {
        Some(window) => window.first > 0,
        None => false,
    }
}

/// Whether a capture with this end ends before the last tick of a window, if there is one, and if
/// that is a tick that a capture can have.
fn ends_early(window: Option<TickRange>, end: u64) -> bool
    ensures { IfSome window (λ w. result ≡ spec.ends_early w end) }
{
    match window {
        Some(window) => end < window.last && window.last <= END_LIMIT,
        None => false,
    }
}
