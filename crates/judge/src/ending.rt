// The end of a history: what finish tells, every assignment restored, wrong assignments refused, the text written.
use crate::drive::Trial;
use crate::tally::What;
use database::ClauseDatabase;
use session::{Counts, Finished};
use std::process::Abort;
use std::test::*;
use words::Refusal;

impl<R: Abort, D: ClauseDatabase> Trial<'_, '_, '_, R, D> {
    // The three numbers of finish.
    fn counted(&self, counts: Counts) {
        let judge = &self.judge;
        assert_eq!(self.rt; counts.accepted, judge.accepted);
        assert_eq!(self.rt; counts.standing, judge.stands.len());
        assert_eq!(self.rt; counts.empty, u8::from(judge.stands_somewhere(&[])));
    }

    // What restoring made of an assignment that it accepted.
    fn well_restored(&self, before: &[u8], after: &[u8]) -> Result<(), Fail> {
        let judge = &self.judge;
        let mut own = before.to_vec(judge.heap)?;
        judge.restore(own.as_mut_slice());
        assert!(self.rt; own.as_slice() == after, "restored otherwise");
        assert!(self.rt; judge.meets_loaded(after), "loaded lists are not met");
        assert!(self.rt;
            judge.differ_in_pivots(before, after)?,
            "another variable is changed"
        );
        Ok(())
    }

    // What restoring an assignment answers.
    fn restored(&self, finished: &Finished, assignment: &mut [u8]) -> Result<(), Refusal> {
        finished
            .restore(&*self.db, &*self.stack, assignment)
            .map_err(|fault| fault.refusal())
    }

    // Restores an assignment of any length.
    fn restores(&mut self, finished: &Finished, before: &[u8]) -> Result<(), Fail> {
        let mut bytes = before.to_vec(self.judge.heap)?;
        let answer = self.restored(finished, bytes.as_mut_slice());
        self.tally.answer(&answer, What::Restored)?;
        assert_eq!(self.rt; answer, self.judge.restore_answer(before));
        if answer.is_err() {
            assert!(self.rt; bytes.as_slice() == before, "a refusal changed bytes");
            return Ok(());
        }
        if bytes.as_slice() != before {
            self.tally.count(What::Repaired)?;
        }
        self.well_restored(before, bytes.as_slice())
    }

    // Restores every assignment; some assignment meets what stands exactly when some meets what was loaded. Not two calls of
    // `any`, since every assignment is restored on the way.
    fn restores_all(&mut self, finished: &Finished) -> Result<(), Fail> {
        let mut loaded = false;
        let mut standing = false;
        for code in 0..1u32 << self.judge.variables.min(10) {
            let bytes = self.judge.assignment(code)?;
            loaded = loaded || self.judge.meets_loaded(bytes.as_slice());
            standing = standing || self.judge.first_unmet(bytes.as_slice()).is_none();
            self.restores(finished, bytes.as_slice())?;
        }
        self.tally.count(if loaded {
            What::Satisfiable
        } else {
            What::Unsatisfiable
        })?;
        assert_eq!(self.rt; standing, loaded, "satisfiability is lost");
        Ok(())
    }

    // Restores random assignments, some of a wrong length or with a wrong byte.
    fn restores_some(&mut self, finished: &Finished) -> Result<(), Fail> {
        for i in 0..8 {
            let len = match i {
                0 => self.judge.variables.saturating_add(1),
                1 => self.judge.variables.saturating_sub(1),
                _ => self.judge.variables,
            };
            let mut bytes = self.random.bytes(self.judge.heap, len)?;
            let at = self.random.place(bytes.len());
            if i < 5 && at < bytes.len() {
                bytes.as_mut_slice()[at] = if i == 2 { 255 } else { 2 };
            }
            self.restores(finished, bytes.as_slice())?;
        }
        Ok(())
    }

    // What writing into a buffer answers: the length of the text.
    fn written(&self, finished: &Finished, buffer: &mut [u8]) -> Result<usize, Refusal> {
        finished
            .write(&*self.db, buffer)
            .map_err(|fault| fault.refusal())
    }

    // Writes into a buffer of this length; the bytes beyond the text stay, and all of them after a refusal.
    fn writes(&mut self, finished: &Finished, text: &[u8], len: usize) -> Result<(), Fail> {
        let mut buffer = vec![in self.judge.heap; b'#'; len]?;
        let mut own = vec![in self.judge.heap; b'#'; len]?;
        let answer = self.written(finished, buffer.as_mut_slice());
        self.tally.answer(&answer, What::Written)?;
        assert_eq!(self.rt; answer, self.judge.write_answer(text.len(), len));
        if answer.is_ok() {
            if let Some(front) = own.as_mut_slice().get_mut(..text.len()) {
                front.copy_from_slice(text);
            }
        }
        assert!(self.rt; buffer.as_slice() == own.as_slice(), "written otherwise");
        Ok(())
    }

    // Ends a history.
    pub fn end(&mut self, finished: &Finished, counts: Counts) -> Result<(), Fail> {
        self.counted(counts);
        if self.judge.variables <= 10 {
            self.restores_all(finished)?;
        }
        self.restores_some(finished)?;
        let text = self.judge.text()?;
        let bytes = text.as_bytes();
        let more = self.random.place(4);
        self.writes(finished, bytes, bytes.len().saturating_add(more))?;
        let fewer = self.random.place(12);
        self.writes(finished, bytes, bytes.len().saturating_sub(fewer))?;
        self.same()
    }
}
