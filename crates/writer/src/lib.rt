// The writer: the standing clauses of a clause database as DIMACS CNF text, in a buffer handed in.

#![tactic(auto)]

ghost use Rattle.std.specs.Prelude.{◌≡◌, length, IfOk};
ghost use Rattle.words.specs.Checks.{fault_of, unless};
ghost use Rattle.writer.specs.Text.{formula_text};
ghost use Rattle.writer.specs.Writing.{fronted, write_fault};

use database::ClauseDatabase;
use formula::put_formula;
use words::SessionFault;

mod formula;
mod put;

// Writes the formula of the variables up to a count and the standing clauses; answers the text's length. Refuses with 81 and
// then 80, and writes nothing then. Bytes behind the text stay as they were.
pub fn write<D: ClauseDatabase>(
    db: &D,
    variables: u16,
    buffer: &mut [u8],
) -> Result<usize, SessionFault>
    ensures fault { fault_of result ≡ write_fault variables (D.standing db.now) (length buffer.old) }
    ensures answer { IfOk result (λ n. n ≡ length (formula_text variables (D.standing db.now))) }
    ensures after { buffer.new ≡ unless (fault_of result) (fronted (formula_text variables (D.standing db.now)) buffer.old) buffer.old }
{
    if db.count() > 1024 {
        return Err(SessionFault::TextTooLong);
    }
    let len = put_formula(db, variables, &mut []);
    if len > 65_536 {
        return Err(SessionFault::TextTooLong);
    }
    if len > buffer.len() {
        return Err(SessionFault::BufferShort);
    }
    Ok(put_formula(db, variables, buffer))
}
