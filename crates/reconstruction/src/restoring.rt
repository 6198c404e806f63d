ghost use Rattle.std.specs.Prelude.{◌≡◌};
ghost use Rattle.words.specs.Assignments.{met};
ghost use Rattle.words.specs.Checks.{fault_of, unless};
ghost use Rattle.words.specs.Meanings.{lits_of};
ghost use Rattle.rules.specs.Restoring.{bad_byte, first_unmet, restore_fault, restored};
ghost use Rattle.reconstruction.specs.Meanings.{saved};

use crate::saves::ReconstructionStack;
use crate::truth::is_met;
use database::{ClauseDatabase, standing};
use words::{Clause, SessionFault};

// The position, from 1, of the first byte above 1, or none.
fn first_bad_byte(assignment: &[u8]) -> Option<usize>
    ensures { result ≡ bad_byte 0 assignment.now }
{
    assignment.iter().position(|byte| *byte > 1).map(|i| i + 1)
}

// Whether an assignment meets a standing clause.
fn meets(assignment: &[u8], clause: &Clause) -> bool
    ensures { result ≡ met assignment.now (lits_of clause.now) }
{
    is_met(assignment, clause.literals())
}

// The lowest number of a standing clause that is not met, or none.
fn first_unmet<D: ClauseDatabase>(db: &D, assignment: &[u8]) -> Option<u32>
    ensures { result ≡ first_unmet assignment.now (D.ClauseDatabase.standing db.now) }
{
    standing(db)
        .find(|entry| !meets(assignment, &entry.clause))
        .map(|entry| entry.number.value)
}

// Why an assignment can't be restored: its length, then its bytes, then the standing clauses are checked.
fn check_assignment<D: ClauseDatabase>(
    db: &D,
    variables: u16,
    assignment: &[u8],
) -> Result<(), SessionFault>
    ensures { fault_of result ≡ restore_fault variables (D.ClauseDatabase.standing db.now) assignment.now }
{
    if assignment.len() != usize::from(variables) {
        return Err(SessionFault::AssignmentLength(assignment.len()));
    }
    if let Some(position) = first_bad_byte(assignment) {
        return Err(SessionFault::AssignmentByte(position));
    }
    if let Some(number) = first_unmet(db, assignment) {
        return Err(SessionFault::Unmet(number));
    }
    Ok(())
}

// Restores an assignment that meets every standing clause to one of the formula, by the saved clauses; or refuses with
// 70 to 72 and changes nothing.
pub fn restore<D: ClauseDatabase>(
    db: &D,
    stack: &ReconstructionStack<'_>,
    variables: u16,
    assignment: &mut [u8],
) -> Result<(), SessionFault>
    ensures fault { fault_of result ≡ restore_fault variables (D.ClauseDatabase.standing db.now) assignment.old }
    ensures after { assignment.new ≡ unless (fault_of result) (restored (saved stack.now) assignment.old) assignment.old }
{
    check_assignment(db, variables, assignment)?;
    stack.repair(assignment);
    Ok(())
}
