ghost use Rattle.bitmask.specs.Meanings.{mask_limits, standing_in};
ghost use Rattle.bitmask.specs.Laws.{lawful_table};

use crate::Bitmask;
use database::ClauseDatabase;
use words::{Clause, ClauseNumber, DatabaseFault, Limits};

// The clauses of the slots stand. The other kind has the same lines for put and remove: to share them, place, vacancy, insert and cut
// would be open to every caller.
impl ClauseDatabase for Bitmask {
    ghost standing = { λ b. standing_in b };

    ghost limited = { λ _. mask_limits };

    ghost lawful = { λ b. lawful_table b };

    fn limits(&self) -> Limits {
        Limits {
            variables: 64,
            width: 64,
            clauses: 256,
            literals: 16384,
        }
    }

    fn count(&self) -> usize {
        self.slots.len()
    }

    fn literal_total(&self) -> usize {
        self.total
    }

    fn next(&self, above: u32) -> Option<ClauseNumber> {
        self.successor(above)
    }

    fn clause(&self, number: ClauseNumber) -> Option<Clause> {
        let slot = self.find(number)?;
        Some(slot.clause())
    }

    fn put(&mut self, number: ClauseNumber, clause: &Clause) -> Result<(), DatabaseFault> {
        let place = self.vacancy(number, clause)?;
        self.insert(place, number, clause);
        Ok(())
    }

    fn remove(&mut self, number: ClauseNumber) -> Result<(), DatabaseFault> {
        let place = self
            .place(number)
            .map_err(|_| DatabaseFault::Absent(number.value))?;
        self.cut(place);
        Ok(())
    }
}
