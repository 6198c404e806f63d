// S, subsumed: a standing clause is taken away that holds all literals of another.
ghost use Rattle.std.specs.Prelude.{◌≡◌, replicate};
ghost use Rattle.words.specs.Checks.{fault_of, unless};
ghost use Rattle.words.specs.Standing.{without};
ghost use Rattle.rules.specs.Lines.{subsumed_fault};
ghost use Rattle.lines.specs.Judging.{s_line};

use database::ClauseDatabase;
use marking::Marks;
use words::{ClauseNumber, SessionFault};

// Judges the line with nothing changed.
fn judge<D: ClauseDatabase>(
    db: &D,
    bytes: &mut [u8],
    clause: ClauseNumber,
    first: ClauseNumber,
) -> Result<(), SessionFault>
    requires { bytes.old ≡ replicate 1024 0 }
    ensures fault { fault_of result ≡ subsumed_fault (D.standing db.now) (s_line clause.value first.value) }
    ensures marks { bytes.new ≡ replicate 1024 0 }
{
    let c = db
        .clause(clause)
        .ok_or(SessionFault::Missing(clause.value))?;
    let d = db.clause(first).ok_or(SessionFault::Missing(first.value))?;
    if clause == first {
        return Err(SessionFault::NotSubsumed(clause.value, first.value));
    }
    let marks = Marks::of(bytes, &c);
    if !marks.cover(&d) {
        return Err(SessionFault::NotSubsumed(clause.value, first.value));
    }
    Ok(())
}

// Carries an S line out, or refuses it and changes nothing.
pub(crate) fn subsumed<D: ClauseDatabase>(
    db: &mut D,
    bytes: &mut [u8],
    clause: ClauseNumber,
    first: ClauseNumber,
) -> Result<(), SessionFault>
    requires { bytes.old ≡ replicate 1024 0 }
    ensures fault { fault_of result ≡ subsumed_fault (D.standing db.old) (s_line clause.value first.value) }
    ensures database { D.standing db.new ≡ unless (fault_of result) (without clause.value (D.standing db.old)) (D.standing db.old) }
    ensures limits { D.limited db.new ≡ D.limited db.old }
    ensures marks { bytes.new ≡ replicate 1024 0 }
{
    judge(db, bytes, clause, first)?;
    // It stands, so nothing is refused.
    let _ = db.remove(clause);
    Ok(())
}
