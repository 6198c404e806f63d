// Numbers and clauses as text.
ghost use Rattle.std.specs.Prelude.{◌≡◌};
ghost use Rattle.words.specs.Meanings.{lits_of};
ghost use Rattle.output.specs.Puts.{Puts};
ghost use Rattle.writer.specs.Text.{clause_text};

use itoa::{Buffer, Integer};
use output::Output;
use words::Clause;

// Puts a number in decimal digits, with a minus before them where it is negative.
pub(crate) fn put_number<I: Integer>(out: &mut Output, number: I)
    ensures { Puts (I.text number) out.old out.new }
{
    let mut digits = Buffer::new();
    out.extend_from_slice(digits.format(number).as_bytes());
}

// Puts a clause as a line: its literals, each with a space behind it, and `0`.
pub(crate) fn put_clause(out: &mut Output, clause: &Clause)
    ensures { Puts (clause_text (lits_of clause.now)) out.old out.new }
{
    for literal in clause {
        put_number(out, literal.value);
        out.push(b' ');
    }
    out.extend_from_slice(b"0\n");
}
