//! Laws about captures that lack changes: the contract of each function is the law.

ghost use Rattle.vcd_hollow.specs.OtherWaves.{FaultIsOfOutline, EffectKeepsOutlines};
ghost use Rattle.vcd_hollow.specs.OtherWaves.{OthersKeepOutline, EffectWithOthers, OthersFitEffect};
ghost use Rattle.vcd_hollow.specs.Origins.{OriginsRise, OriginIsInList, SignalsComeFromOrigins};
ghost use Rattle.vcd_hollow.specs.Cuts.{CutsKeepOrder, CutsAreOne};
ghost use Rattle.vcd_hollow.specs.Hollow.{ReplayKeepsOutlines, StepsAreOfOutline, ReplayOnHollow};
ghost use Rattle.vcd_hollow.specs.Hollow.{SilentAreCutAlone, HollowIsSound};
ghost use Rattle.vcd_hollow.specs.HollowPart.{HollowIsPart};
ghost use Rattle.vcd_hollow.specs.HollowRun.{CommandIsOfOutline, HistoryIsOfOutline};
ghost use Rattle.vcd_hollow.specs.HollowRun.{AskedIsOfOutline, ReplyWithOthers, AnswerOnHollow};
ghost use Rattle.vcd_hollow.specs.HollowRun.{RunOnHollow, CutsOfRunFit};

/// What an outline leaves out, the changes, decides neither whether an edit is refused nor what the
/// outline is after it. So a script can be tried on names, widths and the end alone.
pub fn outline_decides_faults()
    ensures fault { FaultIsOfOutline }
    ensures effect { EffectKeepsOutlines }
{}

/// A capture with other waves at some of its signals has the same outline. An edit that reads none
/// of these waves makes the same of it, with what is left of them: only a cut changes any. So they
/// need not be known.
pub fn edits_leave_other_waves_alone()
    ensures outline { OthersKeepOutline }
    ensures effect { EffectWithOthers }
    ensures fit { OthersFitEffect }
{}

/// The signals of the first capture that are left stand first, in their order, and a derived one
/// after all of them. What is left of a signal has its scopes, kind and width.
pub fn signals_keep_their_places()
    ensures rise { OriginsRise }
    ensures one { OriginIsInList }
    ensures places { SignalsComeFromOrigins }
{}

/// All cuts among edits together move ticks as one: in their order, each with its values.
pub fn cuts_are_one()
    ensures order { CutsKeepOrder }
    ensures capture { CutsAreOne }
{}

/// Steps have the same answers on each capture of one outline. The same edits are then in force,
/// and leave one outline.
pub fn steps_are_of_outline()
    ensures steps { StepsAreOfOutline }
    ensures replay { ReplayKeepsOutlines }
{}

/// Edits that read no silent wave make of a capture that lacks these waves the same, without them.
/// The whole capture is known from that, as cuts alone change the silent waves. What lacks waves is
/// as sound as the whole.
pub fn replays_on_hollow_captures()
    ensures replay { ReplayOnHollow }
    ensures whole { SilentAreCutAlone }
    ensures sound { HollowIsSound }
{}

/// What a line asks for, whether it is refused, which edits are in force, and whose changes a line
/// asks for: all of this depends on the outline of the capture alone.
pub fn lines_are_of_outline()
    ensures command { CommandIsOfOutline }
    ensures history { HistoryIsOfOutline }
    ensures asked { AskedIsOfOutline }
{}

/// Where the edits in force read no silent wave, a line that asks for none has the same answer on
/// the capture without these waves. The last capture is known from a run on that, whatever other
/// lines ask for.
pub fn runs_on_hollow_captures()
    ensures reply { ReplyWithOthers }
    ensures answer { AnswerOnHollow }
    ensures run { RunOnHollow }
    ensures cuts { CutsOfRunFit }
{}

/// What is read of a part of a file, put into the declarations, is the capture without the changes
/// of the signals that are not taken.
pub fn hollow_captures_are_parts()
    ensures { HollowIsPart }
{}
