ghost use Rattle.std.specs.Prelude.{◌≡◌, ◌<◌, ◌≤◌, neg_ℤ, unsigned_abs};
ghost use Rattle.words.specs.Literals.{positive, literal_ok};
ghost use Rattle.words.specs.Conversions.{Converts};
ghost use Rattle.words.specs.Marks.{mark_place};

use crate::range::OutOfRange;
use crate::variable::Variable;

// A literal: a variable v, or its negation as -v.
#[derive(Clone, Copy, PartialEq, Eq, Debug)]
pub struct Literal {
    pub value: i16,
    ghost low: { 1 ≤ unsigned_abs value },
    ghost high: { unsigned_abs value ≤ 512 },
}

impl TryFrom<i16> for Literal {
    type Error = OutOfRange;

    ghost try_from_gives = { Converts (λ l. l.value) (literal_ok 512) };

    fn try_from(value: i16) -> Result<Literal, OutOfRange> {
        if value == 0 || value.unsigned_abs() > 512 {
            return Err(OutOfRange);
        }
        Ok(Literal { value })
    }
}

impl TryFrom<i32> for Literal {
    type Error = OutOfRange;

    ghost try_from_gives = { Converts (λ l. l.value) (literal_ok 512) };

    fn try_from(value: i32) -> Result<Literal, OutOfRange> {
        let narrow = i16::try_from(value)?;
        Literal::try_from(narrow)
    }
}

impl Literal {
    // Its variable.
    pub fn variable(&self) -> Variable
        ensures { result.value ≡ unsigned_abs self.now.value }
    {
        Variable {
            value: self.value.unsigned_abs(),
        }
    }

    // Its negation.
    pub fn negated(&self) -> Literal
        ensures { result.value ≡ neg_ℤ self.now.value }
    {
        Literal { value: -self.value }
    }

    // Whether it is its variable, and not the negation.
    pub fn is_positive(&self) -> bool
        ensures { result ≡ positive self.now.value }
    {
        self.value > 0
    }

    // Its place among 1,024 literal marks: v has place v - 1, -v has place 511 + v.
    pub fn mark_place(&self) -> usize
        ensures value { result ≡ mark_place 512 self.now.value }
        ensures bound { result < 1024 }
    {
        let v = usize::from(self.value.unsigned_abs());
        if self.is_positive() { v - 1 } else { 511 + v }
    }
}
