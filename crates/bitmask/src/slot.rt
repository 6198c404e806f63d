ghost use Rattle.std.specs.Prelude.{◌≡◌, ◌-◌, ◌<◌, ◌≤◌, true, List, [], ◌∷◌, ◌++◌, length, ℤ, unsigned_abs};
ghost use Rattle.std.specs.Option.{option_to_list};
ghost use Rattle.words.specs.Clauses.{within};
ghost use Rattle.words.specs.Meanings.{lits_of};
ghost use Rattle.bitmask.specs.Masks.{bit, decoded, told, Tells};
ghost use Rattle.bitmask.specs.Slots.{entry};

use words::{Clause, Literal};

// A clause under its number, a plain number, since the blanks of the slots need a default: bit v - 1 of `plus` tells the literal v, of
// `minus` the literal -v.
#[derive(Clone, Copy, Default)]
pub(crate) struct Slot {
    pub(crate) number: u32,
    pub(crate) plus: u64,
    pub(crate) minus: u64,
}

// Whether a bit of a mask is set.
fn has_bit(mask: u64, place: u8) -> bool
    requires { place < 64 }
    ensures { result ≡ bit mask place }
{
    (mask >> place) & 1 == 1
}

// Whether every variable of a clause has a bit: since they rise, the last one tells.
pub(crate) fn fits(clause: &Clause) -> bool
    ensures { result ≡ within 64 (lits_of clause.now) }
{
    clause
        .literals()
        .last()
        .is_none_or(|value| value.unsigned_abs() <= 64)
}

impl Slot {
    // The slot with one literal more.
    fn with(self, literal: Literal) -> Slot
        requires { unsigned_abs literal.value ≤ 64 }
        ensures number { result.number ≡ self.number }
        ensures told { (zs : List ℤ) → Tells self.plus self.minus zs → Tells result.plus result.minus (zs ++ (literal.value ∷ [])) }
    {
        let bit = 1u64 << (literal.value.unsigned_abs() - 1);
        if literal.value > 0 {
            Slot {
                plus: self.plus | bit,
                ..self
            }
        } else {
            Slot {
                minus: self.minus | bit,
                ..self
            }
        }
    }

    // The slot of a clause all of whose variables have a bit.
    pub(crate) fn of(number: u32, clause: &Clause) -> Slot
        requires { within 64 (lits_of clause.now) ≡ true }
        ensures { entry result ≡ record { number = number; lits = lits_of clause.now } }
    {
        clause.into_iter().fold(
            Slot {
                number,
                plus: 0,
                minus: 0,
            },
            Slot::with,
        )
    }

    // The literal that a bit of the masks tells, if any.
    fn literal(&self, place: u8) -> Option<i16>
        requires { place < 64 }
        ensures { option_to_list result ≡ told self.now.plus self.now.minus place }
    {
        let variable = i16::from(place) + 1;
        if has_bit(self.plus, place) {
            Some(variable)
        } else if has_bit(self.minus, place) {
            Some(-variable)
        } else {
            None
        }
    }

    // The clause: its literals by rising variable. They are counted by hand, since a clause is an array and a length: a vector
    // would have to be copied into it.
    pub(crate) fn clause(&self) -> Clause
        ensures { lits_of result ≡ decoded self.now.plus self.now.minus }
    {
        let mut lits = [0i16; 64];
        let mut len = 0;
        for place in 0..64u8 {
            if let Some(literal) = self.literal(place) {
                lits[len] = literal;
                len += 1;
            }
        }
        Clause { lits, len }
    }

    // How many literals the clause has.
    pub(crate) fn width(&self) -> usize
        ensures width { result ≡ length (decoded self.now.plus self.now.minus) }
        ensures few { result ≤ 64 }
    {
        // `as`: the library has no `From` from u32 to usize.
        (self.plus | self.minus).count_ones() as usize
    }
}
