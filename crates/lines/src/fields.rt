// The fields of a line: the first that is wrongly zero, wrongly filled or out of range refuses it.
ghost use Rattle.std.specs.Prelude.{◌≡◌};
ghost use Rattle.words.specs.declared.line.Field.TheVariants.{Pivot};
ghost use Rattle.words.specs.declared.line.Kind.TheVariants.{Resolve};
ghost use Rattle.words.specs.Literals.{literal_ok, number_ok};
ghost use Rattle.lines.specs.Submitting.{Demands, Reads, Typed};

use crate::steps::{Resolution, Step};
use words::{ClauseNumber, Field, Kind, Line, Literal, SessionFault};

// The clause number of a field.
fn clause_number(field: Field, value: u32) -> Result<ClauseNumber, SessionFault>
    ensures { Reads (λ k. k.value) number_ok field value result }
{
    ClauseNumber::try_from(value).map_err(|_| SessionFault::FieldWrong(field))
}

// The literal of the pivot's field.
fn literal(value: i32) -> Result<Literal, SessionFault>
    ensures { Reads (λ l. l.value) (literal_ok 512) Pivot value result }
{
    Literal::try_from(value).map_err(|_| SessionFault::FieldWrong(Field::Pivot))
}

// Refuses a field that is not as its kind wants it.
fn demand(field: Field, fits: bool) -> Result<(), SessionFault>
    ensures { Demands field fits result }
{
    if fits {
        return Ok(());
    }
    Err(SessionFault::FieldWrong(field))
}

// The fields of an R line as a step, or why they are refused.
fn resolution(line: &Line) -> Result<Step, SessionFault>
    ensures { line.now.kind ≡ Resolve → Typed line.now result }
{
    let number = clause_number(Field::Clause, line.clause)?;
    let pivot = literal(line.pivot)?;
    let first = clause_number(Field::First, line.first)?;
    let second = clause_number(Field::Second, line.second)?;
    Ok(Step::Resolve(Resolution {
        number,
        pivot,
        first,
        second,
    }))
}

// The fields of a line as a step, or why they are refused.
pub(crate) fn typed(line: &Line) -> Result<Step, SessionFault>
    ensures { Typed line.now result }
{
    match line.kind {
        Kind::Resolve => resolution(line),
        Kind::Subsumed => {
            let clause = clause_number(Field::Clause, line.clause)?;
            demand(Field::Pivot, line.pivot == 0)?;
            let first = clause_number(Field::First, line.first)?;
            demand(Field::Second, line.second == 0)?;
            Ok(Step::Subsumed { clause, first })
        }
        Kind::Blocked => {
            let clause = clause_number(Field::Clause, line.clause)?;
            let pivot = literal(line.pivot)?;
            demand(Field::First, line.first == 0)?;
            demand(Field::Second, line.second == 0)?;
            Ok(Step::Blocked { clause, pivot })
        }
        Kind::Eliminate => {
            demand(Field::Clause, line.clause == 0)?;
            let pivot = literal(line.pivot)?;
            demand(Field::Pivot, pivot.is_positive())?;
            demand(Field::First, line.first == 0)?;
            demand(Field::Second, line.second == 0)?;
            Ok(Step::Eliminate { pivot })
        }
    }
}
