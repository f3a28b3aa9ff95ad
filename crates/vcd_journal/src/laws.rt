//! Laws about the definitions: each function has an empty body, and its contract is the law.

ghost use Rattle.vcd_journal.specs.Laws.{HistoryIsBounded, SessionIsReplay};

/// After any steps, accepted or refused, the capture is what the edits in force make of the first
/// capture.
///
/// The captures that undo reaches are the same without the last edit in force, without the last
/// two, and so on. Those that redo reaches are the same with the undone edits made again, one after
/// another.
#[tactic(auto, using(crate::proofs::shared::Replay::session_is_replay))]
pub fn session_is_replay()
    ensures { SessionIsReplay }
{}

/// After any steps, undo and redo together reach at most as many captures as the depth then allows.
#[tactic(auto, using(crate::proofs::laws::BoundedHistory::history_is_bounded))]
pub fn history_is_bounded()
    ensures { HistoryIsBounded }
{}
