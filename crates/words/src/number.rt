ghost use Rattle.std.specs.Prelude.{◌≤◌};
ghost use Rattle.words.specs.Literals.{number_ok};
ghost use Rattle.words.specs.Conversions.{Converts};

use crate::range::OutOfRange;

// The number of a clause: from 1 to 1,000,000.
#[derive(Clone, Copy, PartialEq, Eq, PartialOrd, Ord, Debug)]
pub struct ClauseNumber {
    pub value: u32,
    ghost low: { 1 ≤ value },
    ghost high: { value ≤ 1000000 },
}

impl TryFrom<u32> for ClauseNumber {
    type Error = OutOfRange;

    ghost try_from_gives = { Converts (λ k. k.value) number_ok };

    fn try_from(value: u32) -> Result<ClauseNumber, OutOfRange> {
        if value == 0 || value > 1_000_000 {
            return Err(OutOfRange);
        }
        Ok(ClauseNumber { value })
    }
}
