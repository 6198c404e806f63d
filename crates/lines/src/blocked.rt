// B, blocked: a standing clause is saved and taken away whose resolvents on the pivot all hold an opposite pair.
ghost use Rattle.std.specs.Prelude.{◌≡◌, not, ◌&&◌, ◌++◌, replicate, neg_ℤ};
ghost use Rattle.words.specs.Clauses.{has, opposed, resolvent};
ghost use Rattle.words.specs.Checks.{fault_of, unless};
ghost use Rattle.words.specs.Meanings.{lits_of};
ghost use Rattle.words.specs.Standing.{without};
ghost use Rattle.marking.specs.Holding.{Holds};
ghost use Rattle.rules.specs.Lines.{first_unblocked, line_saves};
ghost use Rattle.reconstruction.specs.Meanings.{saved, room_of};
ghost use Rattle.lines.specs.Judging.{b_line, blocked_refused, BlockedJudged};

use database::{ClauseDatabase, standing};
use marking::Marks;
use reconstruction::ReconstructionStack;
use words::{Clause, ClauseNumber, Literal, SessionFault};

// Whether a clause holds the negated pivot and its resolvent with the marked clause holds no opposite pair.
fn unblocked(marks: &Marks<'_>, other: &Clause, pivot: Literal) -> bool
    requires { Holds marks.now.bytes.now marks.now.clause }
    ensures { result ≡ (has (neg_ℤ pivot.value) (lits_of other.now) && not (opposed (resolvent pivot.value (lits_of marks.now.clause) (lits_of other.now)))) }
{
    other.has(pivot.negated()) && !marks.opposes(other, pivot)
}

// The lowest number of a standing clause against which the marked clause is not blocked.
fn first_unblocked<D: ClauseDatabase>(db: &D, marks: &Marks<'_>, pivot: Literal) -> Option<u32>
    requires { Holds marks.now.bytes.now marks.now.clause }
    ensures { result ≡ first_unblocked pivot.value (lits_of marks.now.clause) (D.standing db.now) }
{
    standing(db)
        .find(|entry| unblocked(marks, &entry.clause, pivot))
        .map(|entry| entry.number.value)
}

// Judges the line with nothing changed: the clause that it takes away, or why it is refused.
fn judge<D: ClauseDatabase>(
    db: &D,
    bytes: &mut [u8],
    clause: ClauseNumber,
    pivot: Literal,
) -> Result<Clause, SessionFault>
    requires { bytes.old ≡ replicate 1024 0 }
    ensures judged { BlockedJudged (D.standing db.now) (b_line clause.value pivot.value) result }
    ensures marks { bytes.new ≡ replicate 1024 0 }
{
    let c = db
        .clause(clause)
        .ok_or(SessionFault::Missing(clause.value))?;
    if !c.has(pivot) {
        return Err(SessionFault::Lacking(clause.value));
    }
    let marks = Marks::of(bytes, &c);
    match first_unblocked(db, &marks, pivot) {
        Some(k) => Err(SessionFault::NotBlocked(k)),
        None => Ok(c),
    }
}

// Carries a B line out, or refuses it and changes nothing.
pub(crate) fn blocked<D: ClauseDatabase>(
    db: &mut D,
    stack: &mut ReconstructionStack<'_>,
    bytes: &mut [u8],
    clause: ClauseNumber,
    pivot: Literal,
) -> Result<(), SessionFault>
    requires { bytes.old ≡ replicate 1024 0 }
    ensures fault { fault_of result ≡ blocked_refused (room_of stack.old) (D.standing db.old) (saved stack.old) (b_line clause.value pivot.value) }
    ensures database { D.standing db.new ≡ unless (fault_of result) (without clause.value (D.standing db.old)) (D.standing db.old) }
    ensures limits { D.limited db.new ≡ D.limited db.old }
    ensures stack { saved stack.new ≡ unless (fault_of result) (saved stack.old ++ line_saves (D.standing db.old) (b_line clause.value pivot.value)) (saved stack.old) }
    ensures room { room_of stack.new ≡ room_of stack.old }
    ensures marks { bytes.new ≡ replicate 1024 0 }
{
    let saves = judge(db, bytes, clause, pivot)?;
    stack.save(pivot, &saves)?;
    // It stands, so nothing is refused.
    let _ = db.remove(clause);
    Ok(())
}
