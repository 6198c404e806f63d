ghost use Rattle.arena.specs.Contents.{contents, limits_of};
ghost use Rattle.arena.specs.Laws.{lawful_arena};

use crate::Arena;
use database::ClauseDatabase;
use words::{Clause, ClauseNumber, DatabaseFault, Limits};

// The clauses of the records in use stand. The other kind has the same lines for put and remove: to share them, place, vacancy, insert
// and cut would be open to every caller.
impl ClauseDatabase for Arena<'_> {
    ghost standing = { λ s. contents s.memory };

    ghost limited = { λ s. limits_of s.memory };

    ghost lawful = { λ s. lawful_arena s };

    fn limits(&self) -> Limits {
        self.memory.limits()
    }

    fn count(&self) -> usize {
        self.memory.count
    }

    fn literal_total(&self) -> usize {
        self.memory.used
    }

    fn next(&self, above: u32) -> Option<ClauseNumber> {
        self.successor(above)
    }

    fn clause(&self, number: ClauseNumber) -> Option<Clause> {
        let place = self.place(number).ok()?;
        Some(self.clause_at(place))
    }

    fn put(&mut self, number: ClauseNumber, clause: &Clause) -> Result<(), DatabaseFault> {
        let place = self.vacancy(number, clause)?;
        self.insert(place, number, clause);
        Ok(())
    }

    fn remove(&mut self, number: ClauseNumber) -> Result<(), DatabaseFault> {
        let place = self
            .place(number)
            .map_err(|_| DatabaseFault::Absent(number.value))?;
        self.cut(place);
        Ok(())
    }
}
