// A whole line, judged and carried out.
ghost use Rattle.std.specs.Prelude.{◌≡◌, true, ◌++◌, replicate};
ghost use Rattle.words.specs.Checks.{fault_of, unless};
ghost use Rattle.rules.specs.Lines.{line_leaves, line_saves};
ghost use Rattle.reconstruction.specs.Meanings.{saved, room_of};
ghost use Rattle.lines.specs.Judging.{step_refused};
ghost use Rattle.marking.specs.Marking.{clean_marks};
ghost use Rattle.lines.specs.Submitting.{line_of, submit_fault};

use crate::blocked::blocked;
use crate::fields::typed;
use crate::resolve::resolve;
use crate::steps::Step;
use crate::subsumed::subsumed;
use database::ClauseDatabase;
use elimination::eliminate::eliminate;
use marking::clean;
use reconstruction::ReconstructionStack;
use words::{Line, SessionFault};

// Carries a step out by the rule of its kind, or refuses it and changes nothing. That the marks are clean stays a `requires`, here and
// in the rules: the borrow checker doesn't cover a struct around the lent bytes with that as a ghost field where it is handed on, and
// what is in the bytes after a loan of them is then not known. That limits and room stay is said by each call: its callers know no more
// of a database than that.
fn carry_step<D: ClauseDatabase>(
    db: &mut D,
    stack: &mut ReconstructionStack<'_>,
    marks: &mut [u8],
    given: u32,
    step: Step,
) -> Result<(), SessionFault>
    requires { marks.old ≡ replicate 1024 0 }
    ensures fault { fault_of result ≡ step_refused (D.limited db.old) (room_of stack.old) given (D.standing db.old) (saved stack.old) (line_of step) }
    ensures database { D.standing db.new ≡ unless (fault_of result) (line_leaves (D.standing db.old) (line_of step)) (D.standing db.old) }
    ensures limits { D.limited db.new ≡ D.limited db.old }
    ensures stack { saved stack.new ≡ unless (fault_of result) (saved stack.old ++ line_saves (D.standing db.old) (line_of step)) (saved stack.old) }
    ensures room { room_of stack.new ≡ room_of stack.old }
    ensures marks { marks.new ≡ replicate 1024 0 }
{
    match step {
        Step::Resolve(line) => resolve(db, marks, given, line),
        Step::Subsumed { clause, first } => subsumed(db, marks, clause, first),
        Step::Blocked { clause, pivot } => blocked(db, stack, marks, clause, pivot),
        Step::Eliminate { pivot } => eliminate(db, stack, marks, pivot),
    }
}

// Carries a line out, or refuses it: the marks (40), the fields (33), the rule (41 to 48), the space (60 to 66), in this order.
// A refused line changes nothing, and clean marks are clean again on every way out.
pub fn carry_out<D: ClauseDatabase>(
    db: &mut D,
    stack: &mut ReconstructionStack<'_>,
    marks: &mut [u8],
    given: u32,
    line: &Line,
) -> Result<(), SessionFault>
    ensures fault { fault_of result ≡ submit_fault marks.old (D.limited db.old) (room_of stack.old) given (D.standing db.old) (saved stack.old) line.now }
    ensures database { D.standing db.new ≡ unless (fault_of result) (line_leaves (D.standing db.old) line.now) (D.standing db.old) }
    ensures limits { D.limited db.new ≡ D.limited db.old }
    ensures stack { saved stack.new ≡ unless (fault_of result) (saved stack.old ++ line_saves (D.standing db.old) line.now) (saved stack.old) }
    ensures room { room_of stack.new ≡ room_of stack.old }
    ensures marks { marks.new ≡ marks.old }
    ensures wiped { clean_marks marks.old ≡ true → marks.new ≡ replicate 1024 0 }
{
    if !clean(marks) {
        return Err(SessionFault::MarksDirty);
    }
    let step = typed(line)?;
    carry_step(db, stack, marks, given, step)
}
