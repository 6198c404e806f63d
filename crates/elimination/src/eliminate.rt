// E, eliminated: every clause of a variable is saved and taken away, where every resolvent on it holds an opposite pair or stands.
ghost use Rattle.std.specs.Prelude.{◌≡◌, ◌++◌, length, replicate, None};
ghost use Rattle.std.specs.Option.{option_map};
ghost use Rattle.words.specs.Checks.{fault_of, unless};
ghost use Rattle.words.specs.Meanings.{lits_of};
ghost use Rattle.words.specs.Standing.{under};
ghost use Rattle.rules.specs.Restoring.{saved_literals, save_fault};
ghost use Rattle.rules.specs.Lines.{eliminate_fault, eliminated, free_of};
ghost use Rattle.reconstruction.specs.Meanings.{saved, room_of};
ghost use Rattle.elimination.specs.Eliminating.{e_line, elimination_fault};
ghost use Rattle.elimination.specs.Finding.{held_of, under_of_variable};

use crate::covering::first_uncovered;
use crate::signatures::SignatureTable;
use database::{ClauseDatabase, standing};
use marking::clean;
use reconstruction::ReconstructionStack;
use words::{Clause, ClauseNumber, Literal, SessionFault, StackFault};

// What some clauses need of the reconstruction stack: their number, and that of their literals together.
#[derive(Clone, Copy)]
struct Needs {
    clauses: usize,
    literals: usize,
}

// The literal of the pivot's variable that a clause holds, or none.
fn held(clause: &Clause, pivot: Literal) -> Option<Literal>
    ensures { option_map (λ l. l.value) result ≡ held_of pivot.value (lits_of clause.now) }
{
    let opposite = pivot.negated();
    if clause.has(pivot) {
        return Some(pivot);
    }
    if clause.has(opposite) {
        return Some(opposite);
    }
    None
}

// What the standing clauses of the pivot's variable need. One walk for both totals: two chains would read each clause twice.
fn totals<D: ClauseDatabase>(db: &D, pivot: Literal) -> Needs
    ensures clauses { result.clauses ≡ length (eliminated pivot.value (D.standing db.now)) }
    ensures literals { result.literals ≡ saved_literals (eliminated pivot.value (D.standing db.now)) }
{
    let mut needs = Needs {
        clauses: 0,
        literals: 0,
    };
    for entry in standing(db) {
        if held(&entry.clause, pivot).is_some() {
            needs.clauses += 1;
            needs.literals += entry.clause.len;
        }
    }
    needs
}

// Saves every standing clause of the pivot's variable, by rising number, where all of them fit.
fn save_all<D: ClauseDatabase>(db: &D, stack: &mut ReconstructionStack<'_>, pivot: Literal)
    requires { save_fault (room_of stack.old) (saved stack.old) (eliminated pivot.value (D.standing db.now)) ≡ None }
    ensures saved { saved stack.new ≡ saved stack.old ++ eliminated pivot.value (D.standing db.now) }
    ensures room { room_of stack.new ≡ room_of stack.old }
{
    for entry in standing(db) {
        if let Some(literal) = held(&entry.clause, pivot) {
            // All of them fit, so nothing is refused.
            let _ = stack.save(literal, &entry.clause);
        }
    }
}

// Whether the clause under a number is of the pivot's variable.
fn of_variable_at<D: ClauseDatabase>(db: &D, number: ClauseNumber, pivot: Literal) -> bool
    ensures { result ≡ under_of_variable pivot.value (under number.value (D.standing db.now)) }
{
    db.clause(number)
        .is_some_and(|clause| held(&clause, pivot).is_some())
}

// Takes every standing clause of the pivot's variable away.
fn remove_all<D: ClauseDatabase>(db: &mut D, pivot: Literal)
    ensures after { D.standing db.new ≡ free_of pivot.value (D.standing db.old) }
    ensures limits { D.limited db.new ≡ D.limited db.old }
{
    let mut at = 0;
    // By the next number, since what `standing` goes through must not change meanwhile.
    while let Some(number) = db.next(at) {
        if of_variable_at(db, number, pivot) {
            // It stands, so nothing is refused.
            let _ = db.remove(number);
        }
        at = number.value;
    }
}

// Judges the line with nothing changed: whether every pair is covered. It has the large table, and stays a call of its own, so that
// no other line pays for that memory.
#[inline(never)]
fn judge<D: ClauseDatabase>(db: &D, bytes: &mut [u8], pivot: Literal) -> Result<(), SessionFault>
    requires { bytes.old ≡ replicate 1024 0 }
    ensures judged { fault_of result ≡ eliminate_fault (D.standing db.now) (e_line pivot.value) }
    ensures marks { bytes.new ≡ replicate 1024 0 }
{
    let table = SignatureTable::new(db);
    match first_uncovered(&table, bytes, pivot) {
        Some((p, n)) => Err(SessionFault::NotCovered(p, n)),
        None => Ok(()),
    }
}

// Saves every standing clause of the pivot's variable, or refuses with 65 or 66 and saves none.
fn save_clauses<D: ClauseDatabase>(
    db: &D,
    stack: &mut ReconstructionStack<'_>,
    pivot: Literal,
) -> Result<(), StackFault>
    ensures fault { fault_of result ≡ save_fault (room_of stack.old) (saved stack.old) (eliminated pivot.value (D.standing db.now)) }
    ensures after { saved stack.new ≡ unless (fault_of result) (saved stack.old ++ eliminated pivot.value (D.standing db.now)) (saved stack.old) }
    ensures room { room_of stack.new ≡ room_of stack.old }
{
    let needs = totals(db, pivot);
    stack.fits(needs.clauses, needs.literals)?;
    save_all(db, stack, pivot);
    Ok(())
}

// Carries an E line out, or refuses it and changes nothing: marks that are not clean (40), a pair that is not covered (48), clauses
// that find no room on the reconstruction stack (65, 66), in this order.
pub fn eliminate<D: ClauseDatabase>(
    db: &mut D,
    stack: &mut ReconstructionStack<'_>,
    bytes: &mut [u8],
    pivot: Literal,
) -> Result<(), SessionFault>
    ensures fault { fault_of result ≡ elimination_fault bytes.old (room_of stack.old) (D.standing db.old) (saved stack.old) pivot.value }
    ensures database { D.standing db.new ≡ unless (fault_of result) (free_of pivot.value (D.standing db.old)) (D.standing db.old) }
    ensures limits { D.limited db.new ≡ D.limited db.old }
    ensures stack { saved stack.new ≡ unless (fault_of result) (saved stack.old ++ eliminated pivot.value (D.standing db.old)) (saved stack.old) }
    ensures room { room_of stack.new ≡ room_of stack.old }
    ensures marks { bytes.new ≡ bytes.old }
{
    if !clean(bytes) {
        return Err(SessionFault::MarksDirty);
    }
    judge(db, bytes, pivot)?;
    save_clauses(db, stack, pivot)?;
    remove_all(db, pivot);
    Ok(())
}
