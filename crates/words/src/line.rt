ghost use Rattle.std.specs.Prelude.{◌≡◌};
ghost use Rattle.words.specs.Conversions.{field_number};

// What a proof line does.
#[derive(Clone, Copy, PartialEq, Eq, Debug)]
pub enum Kind {
    // R: adds the resolvent of two clauses
    Resolve,
    // S: takes away a clause that another subsumes
    Subsumed,
    // B: takes away a clause that is blocked on a literal
    Blocked,
    // E: takes away every clause of a variable
    Eliminate,
}

// A field of a proof line.
#[derive(Clone, Copy, PartialEq, Eq, Debug)]
pub enum Field {
    Kind,
    Clause,
    Pivot,
    First,
    Second,
}

impl Field {
    // Its place in the line, from 1.
    pub fn number(self) -> usize
        ensures { result ≡ field_number self }
    {
        match self {
            Field::Kind => 1,
            Field::Clause => 2,
            Field::Pivot => 3,
            Field::First => 4,
            Field::Second => 5,
        }
    }
}

// A proof line as it is sent: five fields, of which those that the kind does not use are 0. Nothing is known of its numbers.
#[derive(Clone, Copy, PartialEq, Eq, Debug)]
pub struct Line {
    pub kind: Kind,
    pub clause: u32,
    pub pivot: i32,
    pub first: u32,
    pub second: u32,
}
