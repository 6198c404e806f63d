// The row of a refusal, for programs.
ghost use Rattle.std.specs.Prelude.{◌≡◌};
ghost use Rattle.std.specs.Option.{option_map};
ghost use Rattle.words.specs.Refusals.{located_refusal};
ghost use Rattle.report.specs.Explaining.{row};

use std::fmt;
use words::{File, LocatedFault};

// What was read, the line or 0, and the number of the refusal.
#[derive(Drop)]
pub struct Row<N: fmt::Display> {
    pub read: N,
    pub line: usize,
    pub number: u8,
}

impl<N: fmt::Display> fmt::Display for Row<N> {
    ghost output = { λ r. option_map (λ name. row name r.line r.number) (N.output r.read) };

    fn fmt<W: fmt::Write>(&self, f: &mut fmt::Formatter<W>) -> fmt::Result {
        let Row { read, line, number } = self;
        write!(f, "{read} {line} {number}")
    }
}

impl From<LocatedFault> for Row<File> {
    ghost from_gives = { λ fault r. r ≡ record { read = fault.file; line = fault.line; number = (located_refusal fault).number } };

    fn from(fault: LocatedFault) -> Row<File> {
        Row {
            read: fault.file,
            line: fault.line,
            number: fault.refusal().number,
        }
    }
}
