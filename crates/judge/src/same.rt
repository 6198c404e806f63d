// Holds what the product keeps to what the judge keeps.
use crate::drive::Trial;
use crate::sets::equal;
use database::ClauseDatabase;
use std::process::Abort;
use std::test::*;
use words::{ClauseNumber, Limits};

impl<R: Abort, D: ClauseDatabase> Trial<'_, '_, '_, R, D> {
    fn same_limits(&self) {
        let space = self.judge.space;
        let limits = Limits {
            variables: space.variables,
            width: 64,
            clauses: space.clauses,
            literals: space.literals,
        };
        assert_eq!(self.rt; self.db.limits(), limits);
    }

    // The lowest standing number above a given one is this one, with this clause.
    fn same_clause(&self, above: u32, number: u32, literals: &[i16]) -> Result<(), Fail> {
        let Some(next) = self.db.next(above) else {
            return Err(Fail::new("a clause is missing"));
        };
        assert_eq!(self.rt; next.value, number);
        let Some(clause) = self.db.clause(next) else {
            return Err(Fail::new("no clause under a number"));
        };
        assert!(self.rt; equal(clause.literals(), literals));
        Ok(())
    }

    // The database holds exactly the judge's standing clauses, and under a number beside them nothing.
    fn same_standing(&self) -> Result<(), Fail> {
        assert_eq!(self.rt; self.db.count(), self.judge.stands.len());
        assert_eq!(self.rt; self.db.literal_total(), self.judge.standing_literals());
        let mut above = 0;
        for (number, literals) in self.judge.stands.iter() {
            self.same_clause(above, *number, literals.as_slice())?;
            above = *number;
        }
        assert!(self.rt; self.db.next(above).is_none());
        if let Ok(number) = ClauseNumber::try_from(above.saturating_add(1)) {
            assert!(self.rt; self.db.clause(number).is_none());
        }
        Ok(())
    }

    // The stack holds as much as the judge saved, and repairs a random assignment as the judge does.
    fn same_saved(&mut self) -> Result<(), Fail> {
        assert_eq!(self.rt; self.stack.count(), self.judge.saved.len());
        assert_eq!(self.rt; self.stack.literal_count(), self.judge.saved_literals());
        let mut repaired = self.random.bytes(self.judge.heap, self.judge.variables)?;
        let mut own = repaired.clone()?;
        self.stack.repair(repaired.as_mut_slice());
        self.judge.restore(own.as_mut_slice());
        assert!(self.rt;
            repaired.as_slice() == own.as_slice(),
            "the stack repairs otherwise"
        );
        Ok(())
    }

    // The product keeps what the judge keeps.
    pub fn same(&mut self) -> Result<(), Fail> {
        self.same_limits();
        self.same_standing()?;
        self.same_saved()
    }
}
