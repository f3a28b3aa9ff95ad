//! Many steps, one after another.

ghost use Rattle.std.specs.Prelude.{◌≡◌, ◌≤◌, ◌+◌, ◌++◌, List, length};
ghost use Rattle.std.specs.Vec.{vec_len, vec_capacity};
ghost use Rattle.vcd_journal.specs.Machine.{IsStep, AreSteps};
ghost use Rattle.vcd_journal.specs.declared.step.Answer.{Answer};

use crate::session::Session;
use crate::step::{Answer, Step};

/// Makes the steps in order, and appends the answer to each. A refused step changes nothing, and
/// the next one is still made.
pub fn run(session: &mut Session, steps: &[Step], answers: &mut Vec<Answer>)
    requires room { vec_len answers.old + length steps.now ≤ vec_capacity answers.old }
    ensures answered { (given : List Answer) × (answers.new.items ≡ answers.old.items ++ given)
        × AreSteps session.old steps.now given session.new }
{
    for step in steps {
        answers.push_reserved(answer_to(session, step));
    }
}

/// Makes a step, and gives the answer.
fn answer_to(session: &mut Session, step: &Step) -> Answer
    ensures { IsStep session.old step.now result session.new }
{
    match session.make_step(step) {
        Ok(()) => Answer::Done,
        Err(refusal) => Answer::Refused(refusal),
    }
}
