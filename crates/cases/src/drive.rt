// Carries out calls on a clause database and on the model, and holds every answer and the whole content of the one to the other.
use crate::make::{clause, range, some_list};
use crate::model::{Model, sorted};
use database::ClauseDatabase;
use std::alloc::Global;
use std::process::Abort;
use std::test::Fail;
use trials::random::Random;
use words::{ClauseNumber, Limits};

// A call, with its clause number.
#[derive(Clone, Copy)]
pub enum Call {
    // puts these literals
    Put(u32, &'static [i16]),
    // puts the literals from one to another
    PutRange(u32, i16, i16),
    Remove(u32),
    // asks for the next number, and for the clause under this one
    Ask(u32),
}

// A database that is driven, and its model.
#[derive(Drop)]
pub struct Drive<'d, R: Abort, D: ClauseDatabase> {
    rt: &'d R,
    heap: Global,
    db: &'d mut D,
    model: Model,
}

impl<'d, R: Abort, D: ClauseDatabase> Drive<'d, R, D> {
    // Of a database that is new and has these limits.
    pub fn new(rt: &'d R, heap: Global, db: &'d mut D, limits: Limits) -> Drive<'d, R, D> {
        Drive {
            rt,
            heap,
            db,
            model: Model::new(heap, limits),
        }
    }

    // The number after a given one.
    fn next(&self, above: u32) -> Option<u32> {
        self.db.next(above).map(|number| number.value)
    }

    // The clause under a number is the model's.
    fn same_clause(&self, at: u32) {
        let Ok(number) = ClauseNumber::try_from(at) else {
            return;
        };
        let clause = self.db.clause(number);
        assert_eq!(self.rt;
            clause.as_ref().map(|clause| clause.literals()),
            self.model.kept.get(&at).map(|literals| literals.as_slice())
        );
    }

    // The whole content of the database is the model's.
    fn same(&self) {
        assert_eq!(self.rt; self.db.limits(), self.model.limits);
        assert_eq!(self.rt; self.db.count(), self.model.kept.len());
        assert_eq!(self.rt; self.db.literal_total(), self.model.total());
        let mut above = 0;
        for number in self.model.kept.keys() {
            assert_eq!(self.rt; self.next(above), Some(*number));
            self.same_clause(*number);
            above = *number;
        }
        assert_eq!(self.rt; self.next(above), None);
    }

    // Puts a clause.
    fn put(&mut self, at: u32, list: &[i16]) -> Result<(), Fail> {
        let clause = clause(self.rt, list)?;
        let told = self.db.put(ClauseNumber::try_from(at)?, &clause);
        let expected = self.model.put(at, sorted(self.heap, list)?)?;
        assert_eq!(self.rt; told, expected);
        self.same();
        Ok(())
    }

    // Takes a clause away.
    fn remove(&mut self, at: u32) -> Result<(), Fail> {
        let told = self.db.remove(ClauseNumber::try_from(at)?);
        assert_eq!(self.rt; told, self.model.remove(at));
        self.same();
        Ok(())
    }

    // Asks for the next number and for the clause under this one.
    fn ask(&self, at: u32) {
        assert_eq!(self.rt; self.next(at), self.model.next(at));
        self.same_clause(at);
    }

    // Carries out a call.
    fn step(&mut self, call: &Call) -> Result<(), Fail> {
        match *call {
            Call::Put(at, list) => self.put(at, list)?,
            Call::PutRange(at, first, last) => {
                let list = range(self.heap, first, last)?;
                self.put(at, list.as_slice())?;
            }
            Call::Remove(at) => self.remove(at)?,
            Call::Ask(at) => self.ask(at),
        }
        Ok(())
    }

    // Carries out calls.
    pub fn calls(&mut self, calls: &[Call]) -> Result<(), Fail> {
        self.same();
        for call in calls {
            self.step(call)?;
        }
        Ok(())
    }

    // Carries out random calls.
    pub fn random_calls(&mut self, mix: Mix) -> Result<(), Fail> {
        let mut random = Random {
            state: 0x9e37_79b9_7f4a_7c15,
        };
        for _ in 0..mix.turns {
            let at = random.below(mix.numbers).saturating_add(1);
            let kind = random.below(10);
            if kind < mix.puts {
                let list = some_list(self.heap, &mut random, mix.variables, mix.width)?;
                self.put(at, list.as_slice())?;
            } else if kind < 9 {
                self.remove(at)?;
            } else {
                self.ask(at);
            }
        }
        Ok(())
    }
}

// What random calls are made of: how many calls, the highest number, the highest variable, the widest clause, and how many of
// ten calls put.
#[derive(Clone, Copy)]
pub struct Mix {
    pub turns: u32,
    pub numbers: u32,
    pub variables: u32,
    pub width: u32,
    pub puts: u32,
}
