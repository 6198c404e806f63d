ghost use Rattle.std.specs.Prelude.{◌≡◌};
ghost use Rattle.std.specs.Option.{option_map};
ghost use Rattle.words.specs.Meanings.{lits_of};
ghost use Rattle.marking.specs.Resolving.{added, Adds, clause_resolvent};

use words::{Clause, Literal};

// A clause with the literals of another, but one, put in; none where they find no room. A loop: of a clause that a chain's closure
// changes nothing would be known.
fn with_all(before: Clause, from: &Clause, except: Literal) -> Option<Clause>
    ensures { Adds result (added except.value (lits_of before) (lits_of from.now)) }
{
    let mut clause = before;
    for l in from {
        if l != except && !clause.insert(l) {
            return None;
        }
    }
    Some(clause)
}

// The resolvent of two clauses; none where it holds an opposite pair or has more than 64 literals.
pub fn resolvent(first: &Clause, second: &Clause, pivot: Literal) -> Option<Clause>
    ensures { option_map lits_of result ≡ clause_resolvent pivot.value (lits_of first.now) (lits_of second.now) }
{
    let without_pivot = with_all(Clause::empty(), first, pivot)?;
    with_all(without_pivot, second, pivot.negated())
}
