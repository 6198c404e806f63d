// The calls of a session, each with its place in a history.
ghost use Rattle.std.specs.Prelude.{◌≡◌, ℕ, true, List, ◌++◌, length, replicate, IfOk};
ghost use Rattle.words.specs.declared.limits.Limits.{Limits};
ghost use Rattle.words.specs.Checks.{fault_of, unless};
ghost use Rattle.words.specs.Standing.{Entry};
ghost use Rattle.rules.specs.Restoring.{Saved, Room, restored, restore_fault};
ghost use Rattle.rules.specs.Lines.{line_leaves, line_saves, line_gives, one_more};
ghost use Rattle.rules.specs.Histories.{History, after};
ghost use Rattle.rules.specs.Histories as event;
ghost use Rattle.rules.specs.Runs.{empty_stands};
ghost use Rattle.theory.specs.Leading.{ToLoading, ToChecking, ToFinished};
ghost use Rattle.reconstruction.specs.Meanings.{saved, room_of};
ghost use Rattle.loading.specs.Meanings.{formula_variables, loaded_count};
ghost use Rattle.marking.specs.Marking.{clean_marks};
ghost use Rattle.lines.specs.Submitting.{submit_fault};
ghost use Rattle.writer.specs.Text.{formula_text};
ghost use Rattle.writer.specs.Writing.{fronted, write_fault};
ghost use Rattle.session.specs.Meanings.{checking_variables, given_number, accepted_count, finished_variables};

use crate::counting::{given_after, one_more};
use crate::emptiness::empty_stands;
use crate::{Checking, Counts, Finished};
use database::ClauseDatabase;
use lines::carry_out;
use loading::Loading;
use reconstruction::{ReconstructionStack, restore};
use words::{Line, SessionFault};
use writer::write;

// Ends loading: from now on lines are checked.
pub fn seal(loading: Loading) -> Checking
    ensures variables { checking_variables result ≡ formula_variables loading }
    ensures given { given_number result ≡ loaded_count loading }
    ensures accepted { accepted_count result ≡ 0 }
    ensures history { (l : Limits) (room : Room) (h : History) (s : List Entry) (saves : List Saved) → ToLoading l room h (formula_variables loading) (loaded_count loading) s saves → ToChecking l room (after h event.seal) (checking_variables result) (given_number result) (accepted_count result) s saves }
{
    Checking {
        variables: loading.variables(),
        given: u32::from(loading.loaded()),
        accepted: 0,
    }
}

impl Checking {
    // Checks a line: the marks (40), its fields (33), its rule (41 to 48) and the space (60 to 66), in this order. An accepted line
    // does what its rule says; a refused one changes nothing. Clean marks are clean again on every way out. Every history that
    // leads to the session as it was, goes on with this call and its answer to the session as it is then.
    pub fn submit<D: ClauseDatabase>(
        &mut self,
        db: &mut D,
        stack: &mut ReconstructionStack<'_>,
        marks: &mut [u8],
        line: &Line,
    ) -> Result<(), SessionFault>
        ensures fault { fault_of result ≡ submit_fault marks.old (D.limited db.old) (room_of stack.old) (given_number self.old) (D.standing db.old) (saved stack.old) line.now }
        ensures variables { checking_variables self.new ≡ checking_variables self.old }
        ensures given { given_number self.new ≡ unless (fault_of result) (line_gives (given_number self.old) line.now) (given_number self.old) }
        ensures accepted { accepted_count self.new ≡ unless (fault_of result) (one_more (accepted_count self.old)) (accepted_count self.old) }
        ensures database { D.standing db.new ≡ unless (fault_of result) (line_leaves (D.standing db.old) line.now) (D.standing db.old) }
        ensures limits { D.limited db.new ≡ D.limited db.old }
        ensures stack { saved stack.new ≡ unless (fault_of result) (saved stack.old ++ line_saves (D.standing db.old) line.now) (saved stack.old) }
        ensures room { room_of stack.new ≡ room_of stack.old }
        ensures marks { marks.new ≡ marks.old }
        ensures wiped { clean_marks marks.old ≡ true → marks.new ≡ replicate 1024 0 }
        ensures history { clean_marks marks.old ≡ true → (h : History) → ToChecking (D.limited db.old) (room_of stack.old) h (checking_variables self.old) (given_number self.old) (accepted_count self.old) (D.standing db.old) (saved stack.old) → ToChecking (D.limited db.new) (room_of stack.new) (after h (event.submit line.now (fault_of result))) (checking_variables self.new) (given_number self.new) (accepted_count self.new) (D.standing db.new) (saved stack.new) }
    {
        carry_out(db, stack, marks, self.given, line)?;
        self.given = given_after(self.given, line);
        self.accepted = one_more(self.accepted);
        Ok(())
    }

    // Ends checking, and tells how many lines were accepted, how many clauses stand, and 1 if the empty clause does, else 0.
    pub fn finish<D: ClauseDatabase>(self, db: &D) -> (Finished, Counts)
        ensures variables { finished_variables result.0 ≡ checking_variables self }
        ensures accepted { result.1.accepted ≡ accepted_count self }
        ensures standing { result.1.standing ≡ length (D.standing db.now) }
        ensures empty { result.1.empty ≡ empty_stands (D.standing db.now) }
        ensures history { (room : Room) (saves : List Saved) (h : History) → ToChecking (D.limited db.now) room h (checking_variables self) (given_number self) (accepted_count self) (D.standing db.now) saves → ToFinished (D.limited db.now) room (after h (event.finish result.1.accepted result.1.standing result.1.empty)) (finished_variables result.0) (D.standing db.now) saves }
    {
        let counts = Counts {
            accepted: self.accepted,
            standing: db.count(),
            empty: empty_stands(db),
        };
        (
            Finished {
                variables: self.variables,
            },
            counts,
        )
    }
}

impl Finished {
    // Restores a full assignment from one that meets what stands, or refuses it (70, 71, 72) and changes nothing. It may be
    // called again and again.
    pub fn restore<D: ClauseDatabase>(
        &self,
        db: &D,
        stack: &ReconstructionStack<'_>,
        assignment: &mut [u8],
    ) -> Result<(), SessionFault>
        ensures fault { fault_of result ≡ restore_fault (finished_variables self.now) (D.standing db.now) assignment.old }
        ensures after { assignment.new ≡ unless (fault_of result) (restored (saved stack.now) assignment.old) assignment.old }
        ensures history { (h : History) → ToFinished (D.limited db.now) (room_of stack.now) h (finished_variables self.now) (D.standing db.now) (saved stack.now) → ToFinished (D.limited db.now) (room_of stack.now) (after h (event.restore assignment.old assignment.new (fault_of result))) (finished_variables self.now) (D.standing db.now) (saved stack.now) }
    {
        restore(db, stack, self.variables, assignment)
    }

    // Writes the reduced formula into a buffer and answers the text's length, or refuses (81, 80) and writes nothing.
    pub fn write<D: ClauseDatabase>(&self, db: &D, buffer: &mut [u8]) -> Result<usize, SessionFault>
        ensures fault { fault_of result ≡ write_fault (finished_variables self.now) (D.standing db.now) (length buffer.old) }
        ensures answer { IfOk result (λ n. n ≡ length (formula_text (finished_variables self.now) (D.standing db.now))) }
        ensures after { buffer.new ≡ unless (fault_of result) (fronted (formula_text (finished_variables self.now) (D.standing db.now)) buffer.old) buffer.old }
        ensures history { (room : Room) (saves : List Saved) (h : History) → ToFinished (D.limited db.now) room h (finished_variables self.now) (D.standing db.now) saves → ToFinished (D.limited db.now) room (after h (event.write (fault_of result))) (finished_variables self.now) (D.standing db.now) saves }
    {
        write(db, self.variables, buffer)
    }
}
