// A whole formula written into a buffer: the header and the standing clauses by rising number.
ghost use Rattle.std.specs.Prelude.{◌≡◌, ◌≤◌, length};
ghost use Rattle.output.specs.Puts.{Puts};
ghost use Rattle.writer.specs.Text.{header_text, clauses_text, formula_text};
ghost use Rattle.writer.specs.Writing.{fronted};

use crate::put::{put_clause, put_number};
use database::{ClauseDatabase, standing};
use output::Output;

// Puts the header.
fn put_header(out: &mut Output, variables: u16, count: usize)
    ensures { Puts (header_text variables count) out.old out.new }
{
    out.extend_from_slice(b"p cnf ");
    put_number(out, variables);
    out.push(b' ');
    put_number(out, count);
    out.push(b'\n');
}

// Puts the standing clauses, one a line.
fn put_clauses<D: ClauseDatabase>(out: &mut Output, db: &D)
    ensures { Puts (clauses_text (D.standing db.now)) out.old out.new }
{
    for entry in standing(db) {
        put_clause(out, &entry.clause);
    }
}

// Writes the formula from the buffer's start, as far as the buffer reaches, and answers the length of the whole text.
pub(crate) fn put_formula<D: ClauseDatabase>(db: &D, variables: u16, buffer: &mut [u8]) -> usize
    requires { length (D.standing db.now) ≤ 1024 }
    ensures bytes { length (formula_text variables (D.standing db.now)) ≤ length buffer.old → buffer.new ≡ fronted (formula_text variables (D.standing db.now)) buffer.old }
    ensures end { result ≡ length (formula_text variables (D.standing db.now)) }
{
    let mut out = Output::over(buffer);
    put_header(&mut out, variables, db.count());
    put_clauses(&mut out, db);
    out.len()
}
