ghost use Rattle.std.specs.Prelude.{◌≤◌};
ghost use Rattle.words.specs.Literals.{variable_ok};
ghost use Rattle.words.specs.Conversions.{Converts};

use crate::range::OutOfRange;

// A variable: a number from 1 to 512.
#[derive(Clone, Copy, PartialEq, Eq, PartialOrd, Ord, Debug)]
pub struct Variable {
    pub value: u16,
    ghost low: { 1 ≤ value },
    ghost high: { value ≤ 512 },
}

impl TryFrom<u16> for Variable {
    type Error = OutOfRange;

    ghost try_from_gives = { Converts (λ v. v.value) (variable_ok 512) };

    fn try_from(value: u16) -> Result<Variable, OutOfRange> {
        if value == 0 || value > 512 {
            return Err(OutOfRange);
        }
        Ok(Variable { value })
    }
}
