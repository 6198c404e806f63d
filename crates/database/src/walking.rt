// Going through the standing clauses by rising number.
ghost use Rattle.std.specs.Prelude.{◌≡◌};
ghost use Rattle.std.specs.Iterator.{YieldsFirstBy, item_count};
ghost use Rattle.database.specs.Walks.{above, entry_of};

use crate::ClauseDatabase;
use words::{Clause, ClauseNumber};

// A standing clause with its number.
#[derive(Clone, Copy)]
pub struct Numbered {
    pub number: ClauseNumber,
    pub clause: Clause,
}

// The standing clauses above a number.
#[derive(Drop)]
pub struct Walk<'a, D: ClauseDatabase> {
    db: &'a D,
    above: u32,
}

// The standing clauses above a number, each with its number, by rising number.
pub fn standing_above<D: ClauseDatabase>(db: &D, number: u32) -> Walk<'_, D>
    ensures { above result.above (D.standing result.db.now) ≡ above number (D.standing db.now) }
{
    Walk { db, above: number }
}

// All standing clauses, each with its number, by rising number.
pub fn standing<D: ClauseDatabase>(db: &D) -> Walk<'_, D>
    ensures all { above result.above (D.standing result.db.now) ≡ D.standing db.now }
{
    standing_above(db, 0)
}

impl<D: ClauseDatabase> Iterator for Walk<'_, D> {
    type Item = Numbered;

    ghost next_gives = { YieldsFirstBy entry_of (λ w. above w.above (D.standing w.db.now)) };

    ghost remaining = { item_count (λ w. above w.above (D.standing w.db.now)) };

    fn next(&mut self) -> Option<Numbered> {
        let number = self.db.next(self.above)?;
        let clause = self.db.clause(number)?;
        self.above = number.value;
        Some(Numbered { number, clause })
    }
}
