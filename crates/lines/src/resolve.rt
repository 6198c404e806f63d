// R, resolve: the resolvent of two standing clauses is put under a new number.
ghost use Rattle.std.specs.Prelude.{◌≡◌, replicate};
ghost use Rattle.words.specs.Checks.{fault_of, unless};
ghost use Rattle.words.specs.Standing.{inserted};
ghost use Rattle.rules.specs.Lines.{line_resolvent};
ghost use Rattle.lines.specs.Judging.{resolution_line, resolve_refused, ResolveJudged};

use crate::steps::Resolution;
use database::ClauseDatabase;
use marking::{Marks, resolvent};
use words::{Clause, SessionFault};

// Judges the line with nothing changed: the resolvent, or why there is none.
fn judge<D: ClauseDatabase>(
    db: &D,
    bytes: &mut [u8],
    given: u32,
    line: Resolution,
) -> Result<Clause, SessionFault>
    requires { bytes.old ≡ replicate 1024 0 }
    ensures judged { ResolveJudged given (D.standing db.now) (resolution_line line) result }
    ensures marks { bytes.new ≡ replicate 1024 0 }
{
    let Resolution {
        number,
        pivot,
        first,
        second,
    } = line;
    if number.value <= given {
        return Err(SessionFault::NumberNotAbove(number.value));
    }
    let a = db.clause(first).ok_or(SessionFault::Missing(first.value))?;
    let b = db
        .clause(second)
        .ok_or(SessionFault::Missing(second.value))?;
    if !a.has(pivot) {
        return Err(SessionFault::Lacking(first.value));
    }
    if !b.has(pivot.negated()) {
        return Err(SessionFault::Lacking(second.value));
    }
    let marks = Marks::of(bytes, &a);
    if marks.opposes(&b, pivot) {
        return Err(SessionFault::Tautology(first.value, second.value));
    }
    resolvent(&a, &b, pivot).ok_or(SessionFault::ResolventTooWide(first.value, second.value))
}

// Carries an R line out, or refuses it and changes nothing.
pub(crate) fn resolve<D: ClauseDatabase>(
    db: &mut D,
    bytes: &mut [u8],
    given: u32,
    line: Resolution,
) -> Result<(), SessionFault>
    requires { bytes.old ≡ replicate 1024 0 }
    ensures fault { fault_of result ≡ resolve_refused (D.limited db.old) given (D.standing db.old) (resolution_line line) }
    ensures database { D.standing db.new ≡ unless (fault_of result) (inserted (record { number = line.number.value; lits = line_resolvent (D.standing db.old) (resolution_line line) }) (D.standing db.old)) (D.standing db.old) }
    ensures limits { D.limited db.new ≡ D.limited db.old }
    ensures marks { bytes.new ≡ replicate 1024 0 }
{
    let clause = judge(db, bytes, given, line)?;
    db.put(line.number, &clause)?;
    Ok(())
}
