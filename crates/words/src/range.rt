ghost use Rattle.std.specs.Prelude.{Some, codes};

use std::error::Error;
use std::fmt;
use std::num::TryFromIntError;

// Why a number is no variable, no literal or no clause number.
#[derive(Clone, Copy, PartialEq, Eq, Debug)]
pub struct OutOfRange;

impl fmt::Display for OutOfRange {
    ghost output = { λ _. Some (codes "the number is out of range") };

    fn fmt<W: fmt::Write>(&self, f: &mut fmt::Formatter<W>) -> fmt::Result {
        f.write_str("the number is out of range")
    }
}

impl Error for OutOfRange {}

// A number too wide for the word's own width is out of its range.
impl From<TryFromIntError> for OutOfRange {
    fn from(_: TryFromIntError) -> OutOfRange {
        OutOfRange
    }
}
