// The place of a fault in words: what stands behind its meaning.
ghost use Rattle.std.specs.Prelude.{Some};
ghost use Rattle.report.specs.Explaining.{inner_place};

use std::fmt;
use words::{DatabaseFault, FileFault, SessionFault};

// The place of a fault inside its line; a fault of the text itself has no more than the line.
#[derive(Clone, Copy)]
pub(crate) struct InnerPlace<'a>(pub(crate) &'a FileFault);

impl fmt::Display for InnerPlace<'_> {
    ghost output = { λ p. Some (inner_place p.0.now) };

    fn fmt<W: fmt::Write>(&self, f: &mut fmt::Formatter<W>) -> fmt::Result {
        let FileFault::Session(fault) = self.0 else {
            return Ok(());
        };
        match fault {
            SessionFault::LiteralBeyond(i) | SessionFault::TooManyLiterals(i) => write!(
                f,
                ": position {i} of the list"
            ),
            SessionFault::FieldWrong(field) => {
                let number = field.number();
                write!(f, ": field {number} ({field})")
            }
            SessionFault::Tautology(a, b)
            | SessionFault::ResolventTooWide(a, b)
            | SessionFault::NotSubsumed(a, b)
            | SessionFault::NotCovered(a, b) => write!(f, ": clauses {a} and {b}"),
            SessionFault::NumberNotAbove(k)
            | SessionFault::Missing(k)
            | SessionFault::Lacking(k)
            | SessionFault::NotBlocked(k)
            | SessionFault::Unmet(k)
            | SessionFault::Database(DatabaseFault::Absent(k)) => write!(f, ": clause {k}"),
            SessionFault::AssignmentLength(n) => write!(f, ": length {n}"),
            SessionFault::AssignmentByte(i) => write!(f, ": position {i}"),
            _ => Ok(()),
        }
    }
}
