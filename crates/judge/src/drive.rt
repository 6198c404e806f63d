// Runs a history on a database and a stack and before the judge, from open to the end.
use crate::answer::answered;
use crate::generate::{Lines, Plan, some_list};
use crate::judge::Judge;
use crate::sets::negated;
use crate::tally::{Tally, What};
use database::ClauseDatabase;
use loading::{Loading, open};
use reconstruction::ReconstructionStack;
use session::{Checking, seal};
use std::alloc::AllocError;
use std::process::Abort;
use std::test::*;
use trials::random::Random;
use words::{Kind, Line, Refusal};

// A history under way: database, stack and marks as the product has them, the judge beside them, and what the histories share.
#[derive(Drop)]
pub struct Trial<'r, 't, 'm, R: Abort, D: ClauseDatabase> {
    pub rt: &'r R,
    pub db: &'t mut D,
    pub stack: &'t mut ReconstructionStack<'m>,
    // zeros, one more than a call takes
    pub marks: [u8; 1025],
    pub judge: Judge,
    pub random: &'t mut Random,
    pub tally: &'t mut Tally,
}

// The R lines of every pair of an elimination, with numbers above those given; of the first 24 pairs only. Nested loops, since a
// chain of chains would need closures inside closures for the same. `as`: the library has no `From` from usize to u32.
fn all_resolvents(judge: &Judge, pivot: i16) -> Result<Vec<Line>, AllocError> {
    let mut lines = Vec::new(judge.heap);
    for (first, p) in judge.stands.iter() {
        for (second, n) in judge.stands.iter() {
            if p.as_slice().contains(&pivot)
                && n.as_slice().contains(&negated(pivot))
                && lines.len() < 24
            {
                let above = (lines.len() as u32).saturating_add(1);
                lines.push(Line {
                    kind: Kind::Resolve,
                    clause: judge.last.saturating_add(above),
                    pivot: i32::from(pivot),
                    first: *first,
                    second: *second,
                })?;
            }
        }
    }
    Ok(lines)
}

impl<R: Abort, D: ClauseDatabase> Trial<'_, '_, '_, R, D> {
    // A random line for the state at hand.
    fn line(&mut self) -> Line {
        let random = &mut *self.random;
        let mut lines = Lines {
            random,
            judge: &self.judge,
        };
        lines.any()
    }

    // A line that eliminates a variable.
    fn elimination(&mut self, pivot: i16) -> Line {
        let random = &mut *self.random;
        let mut lines = Lines {
            random,
            judge: &self.judge,
        };
        Line {
            pivot: i32::from(pivot),
            ..lines.eliminate()
        }
    }

    // What opening answers now: the variable count; the session is let go.
    fn opened(&self, variables: u32) -> Result<u32, Refusal> {
        open(variables, &*self.db, &*self.stack)
            .map(|session| u32::from(session.variables()))
            .map_err(|fault| fault.refusal())
    }

    // Opens on the database and the stack as they are now.
    fn try_open(&mut self) -> Result<(), Fail> {
        let variables = match self.random.below(4) {
            0 => 513,
            1 => 1_000_000,
            2 => 512,
            _ => self.judge.variables,
        };
        let answer = self.opened(variables);
        self.tally.answer(&answer, What::Opened)?;
        assert_eq!(self.rt; answer, self.judge.open_answer(variables));
        Ok(())
    }

    // What loading a list answers: its number.
    fn loaded(&mut self, session: &mut Loading, list: &[i16]) -> Result<u32, Refusal> {
        session
            .load(&mut *self.db, list)
            .map(|number| number.value)
            .map_err(|fault| fault.refusal())
    }

    // Loads a random list.
    fn load_one(&mut self, session: &mut Loading, plan: &Plan) -> Result<(), Fail> {
        let list = some_list(self.judge.heap, self.random, plan)?;
        let expected = answered(self.judge.load(list.as_slice()))?;
        let answer = self.loaded(session, list.as_slice());
        self.tally.answer(&answer, What::Loaded)?;
        assert_eq!(self.rt; answer, expected);
        assert_eq!(self.rt; usize::from(session.loaded()), self.judge.loaded.len());
        self.same()
    }

    // What submitting a line with the first so many of the marks answers.
    fn submitted(
        &mut self,
        session: &mut Checking,
        line: &Line,
        marks: usize,
    ) -> Result<(), Refusal> {
        let marks = &mut self.marks[0..marks.min(1_025)];
        session
            .submit(&mut *self.db, &mut *self.stack, marks, line)
            .map_err(|fault| fault.refusal())
    }

    // Submits a line with the first so many of the marks, which stay as they are.
    fn submit_one(
        &mut self,
        session: &mut Checking,
        line: &Line,
        marks: usize,
    ) -> Result<(), Fail> {
        let before = self.marks;
        let expected = answered(self.judge.submit(&before[0..marks.min(1_025)], line))?;
        let answer = self.submitted(session, line, marks);
        self.tally.answer(&answer, line.kind.into())?;
        assert_eq!(self.rt; answer, expected);
        assert!(self.rt; self.marks == before, "marks");
        self.same()
    }

    // Submits a line with marks that are too few, too many or not zeros.
    fn submit_marked(&mut self, session: &mut Checking, line: &Line) -> Result<(), Fail> {
        match self.random.below(6) {
            0 => self.submit_one(session, line, 1_023),
            1 => self.submit_one(session, line, 1_025),
            2 => self.submit_one(session, line, 0),
            _ => {
                let at = self.random.place(1_024) % 1_024;
                self.marks[at] = if self.random.once_in(2) { 1 } else { 255 };
                self.submit_one(session, line, 1_024)?;
                self.marks[at] = 0;
                Ok(())
            }
        }
    }

    // Adds the resolvents on a variable, and eliminates it.
    fn eliminate_whole(&mut self, session: &mut Checking) -> Result<(), Fail> {
        let pivot = self.random.literal(self.judge.variables, u32::MAX);
        let lines = all_resolvents(&self.judge, pivot)?;
        for line in lines.iter() {
            self.submit_one(session, line, 1_024)?;
        }
        let line = self.elimination(pivot);
        let before = self.judge.accepted;
        self.submit_one(session, &line, 1_024)?;
        if !lines.is_empty() && self.judge.accepted > before {
            self.tally.count(What::InPairs)?;
        }
        Ok(())
    }

    // One step of checking.
    fn step(&mut self, session: &mut Checking) -> Result<(), Fail> {
        let line = self.line();
        match self.random.below(24) {
            0 => self.submit_marked(session, &line),
            1 | 2 => self.eliminate_whole(session),
            3 => self.try_open(),
            _ => self.submit_one(session, &line, 1_024),
        }
    }

    // The lists of a history.
    fn load_all(&mut self, session: &mut Loading, plan: &Plan) -> Result<(), Fail> {
        for _ in 0..plan.lists {
            self.load_one(session, plan)?;
        }
        Ok(())
    }

    // Runs a whole history; database and stack are empty.
    pub fn run(&mut self, plan: &Plan) -> Result<(), Fail> {
        self.try_open()?;
        let mut loading = open(plan.variables, &*self.db, &*self.stack)?;
        self.same()?;
        self.load_all(&mut loading, plan)?;
        let mut checking = seal(loading);
        for _ in 0..plan.lines {
            self.step(&mut checking)?;
        }
        let (finished, counts) = checking.finish(&*self.db);
        self.tally.count(What::Histories)?;
        self.end(&finished, counts)
    }
}
