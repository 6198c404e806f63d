// Theorems on the definitions of the rules: each function's contract is one of them, and its code says nothing.

#![tactic(auto)]

ghost use Rattle.acceptance.specs.Exactly.{ResolventsExactly, LinesExactly, ListsExactly, RestoringExactly, EmptyExactly};
ghost use Rattle.acceptance.specs.Places.{RefusalPlaces};
ghost use Rattle.acceptance.specs.Worked.{WorkedCases};

// The literals of a resolvent are those that the rule of resolution names.
pub fn resolvents_exactly()
    ensures { ResolventsExactly }
{}

// A line has no fault exactly when it should be accepted.
pub fn lines_exactly()
    ensures { LinesExactly }
{}

// A list has no fault exactly when it should be accepted.
pub fn lists_exactly()
    ensures { ListsExactly }
{}

// An assignment is restored exactly when it is one of the formula's variables and meets what stands.
pub fn restoring_exactly()
    ensures { RestoringExactly }
{}

// The empty clause is told exactly when it stands.
pub fn empty_exactly()
    ensures { EmptyExactly }
{}

// The place of a refusal is the first one at fault.
pub fn refusal_places()
    ensures { RefusalPlaces }
{}

// The worked cases, as one result.
pub fn worked_cases()
    ensures { WorkedCases }
{}
