// The calls of the whole task, one after another.
ghost use Rattle.std.specs.Prelude.{◌≡◌, true, List, length};
ghost use Rattle.rules.specs.Restoring.{Saved};
ghost use Rattle.reconstruction.specs.Meanings.{saved, room_of};
ghost use Rattle.marking.specs.Marking.{clean_marks};
ghost use Rattle.session.specs.Meanings.{checking_variables};
ghost use Rattle.trace.specs.Traces.{read_trace};
ghost use Rattle.trace.specs.Sessions.{progress};
ghost use Rattle.files.specs.Outcomes.{written, traced, whole};
ghost use Rattle.files.specs.Made.{files_history};
ghost use Rattle.files.specs.Reports.{Answers, LeadsToReport};

use crate::report::Report;
use database::ClauseDatabase;
use reader::read_formula;
use reconstruction::ReconstructionStack;
use session::{Checking, seal};
use trace::read_trace;
use words::{File, FileFault, LocatedFault};

// Finishes a session and writes what stands into the buffer. The answer is the same whatever is saved.
pub fn finish_and_write<D: ClauseDatabase>(
    session: Checking,
    db: &D,
    buffer: &mut [u8],
) -> Result<Report, LocatedFault>
    ensures outcome { (saves : List Saved) → Answers (written (length buffer.old) (checking_variables session) (progress session (D.standing db.now) saves)) result (D.standing db.now) saves buffer.old buffer.new }
{
    let (finished, counts) = session.finish(db);
    let written = finished.write(db, buffer);
    let length = written.map_err(|fault| FileFault::from(fault).at(File::Write, 0))?;
    Ok(Report {
        finished,
        counts,
        length,
    })
}

// Submits the trace to a sealed session, finishes it and writes what stands.
fn check_trace<D: ClauseDatabase>(
    mut session: Checking,
    trace: &[u8],
    db: &mut D,
    stack: &mut ReconstructionStack<'_>,
    marks: &mut [u8],
    buffer: &mut [u8],
) -> Result<Report, LocatedFault>
    ensures outcome { Answers (traced (length buffer.old) (checking_variables session) (read_trace marks.old (D.limited db.old) (room_of stack.old) (progress session (D.standing db.old) (saved stack.old)) trace.now)) result (D.standing db.new) (saved stack.new) buffer.old buffer.new }
    ensures limits { D.limited db.new ≡ D.limited db.old }
    ensures room { room_of stack.new ≡ room_of stack.old }
    ensures marks { marks.new ≡ marks.old }
{
    read_trace(trace, &mut session, db, stack, marks)?;
    finish_and_write(session, db, buffer)
}

// The whole task on memory handed in: reads the formula, seals, submits the trace to its end, finishes and writes the reduced
// formula into the buffer, up to the first refusal. What came before a refusal stays. The answer, what stands, what is saved and
// the bytes of the buffer are those that the two texts decide; clean marks are clean again; and the history that the two files
// make leads there, so that the law of histories holds of it. Each part is handed in by itself: it is the caller's memory and
// outlives the task.
pub fn check_files<D: ClauseDatabase>(
    formula: &[u8],
    trace: &[u8],
    db: &mut D,
    stack: &mut ReconstructionStack<'_>,
    marks: &mut [u8],
    buffer: &mut [u8],
) -> Result<Report, LocatedFault>
    ensures outcome { Answers (whole marks.old (D.limited db.old) (room_of stack.old) (D.standing db.old) (saved stack.old) (length buffer.old) formula.now trace.now) result (D.standing db.new) (saved stack.new) buffer.old buffer.new }
    ensures limits { D.limited db.new ≡ D.limited db.old }
    ensures room { room_of stack.new ≡ room_of stack.old }
    ensures marks { marks.new ≡ marks.old }
    ensures history { clean_marks marks.old ≡ true → LeadsToReport (D.limited db.old) (room_of stack.old) (files_history marks.old (D.limited db.old) (room_of stack.old) (D.standing db.old) (saved stack.old) (length buffer.old) formula.now trace.now) result (D.standing db.old) (saved stack.old) (D.standing db.new) (saved stack.new) }
{
    let session = seal(read_formula(formula, db, stack)?);
    check_trace(session, trace, db, stack, marks, buffer)
}
