// Going through the literals of a clause.
ghost use Rattle.std.specs.Prelude.{◌≡◌, true, take};
ghost use Rattle.std.specs.Iterator.{YieldsFirstBy, item_count};
ghost use Rattle.words.specs.Literals.{literals_ok};

use crate::clause::Clause;
use crate::literal::Literal;

// The literals that are still to come.
#[derive(Drop)]
pub struct ClauseLiterals<'a> {
    rest: &'a [i16],
    ghost each: { literals_ok 512 rest.now ≡ true },
}

impl Iterator for ClauseLiterals<'_> {
    type Item = Literal;

    ghost next_gives = { YieldsFirstBy (λ l. l.value) (λ s. s.rest.now) };

    ghost remaining = { item_count (λ s. s.rest.now) };

    fn next(&mut self) -> Option<Literal> {
        let (first, others) = self.rest.split_first()?;
        self.rest = others;
        Some(Literal { value: *first })
    }
}

impl<'a> IntoIterator for &'a Clause {
    type Item = Literal;

    type IntoIter = ClauseLiterals<'a>;

    ghost into_iter_gives = { λ c it. it.rest.now ≡ take c.now.len c.now.lits };

    fn into_iter(self) -> ClauseLiterals<'a> {
        ClauseLiterals {
            rest: self.literals(),
        }
    }
}
