// Reading a whole trace.
ghost use Rattle.std.specs.Prelude.{◌≡◌, ℕ, true, List, MatchResult, Some};
ghost use Rattle.words.specs.declared.limits.Limits.{Limits};
ghost use Rattle.words.specs.Checks.{fault_of, unless};
ghost use Rattle.rules.specs.Restoring.{Room};
ghost use Rattle.rules.specs.Histories.{History};
ghost use Rattle.theory.specs.Leading.{ToChecking};
ghost use Rattle.reconstruction.specs.Meanings.{saved, room_of};
ghost use Rattle.marking.specs.Marking.{clean_marks};
ghost use Rattle.session.specs.Meanings.{checking_variables, given_number, accepted_count};
ghost use Rattle.textlines.specs.Lines.{text_lines};
ghost use Rattle.trace.specs.Traces.{Progress, proof_line, sent, sent_fault, read_lines, read_trace};
ghost use Rattle.trace.specs.Sent.{with_trace};
ghost use Rattle.trace.specs.Sessions.{line_of, progress, told};

use crate::numbered::NumberedLines;
use crate::values::parse;
use database::ClauseDatabase;
use reconstruction::ReconstructionStack;
use session::Checking;
use words::{File, FileFault, LocatedFault};

// Submits the proof line that a line of the text is. Session, database, stack and marks are handed on one by one: a struct of the four
// would have to promise in each method, beside the clauses below, that each of its fields is still the same borrow.
fn send<D: ClauseDatabase>(
    line: &[u8],
    session: &mut Checking,
    db: &mut D,
    stack: &mut ReconstructionStack<'_>,
    marks: &mut [u8],
) -> Result<(), FileFault>
    ensures fault { fault_of result ≡ sent_fault marks.old (D.limited db.old) (room_of stack.old) (progress session.old (D.standing db.old) (saved stack.old)) (proof_line (line_of line.now)) }
    ensures after { progress session.new (D.standing db.new) (saved stack.new) ≡ unless (fault_of result) (sent (progress session.old (D.standing db.old) (saved stack.old)) (proof_line (line_of line.now))) (progress session.old (D.standing db.old) (saved stack.old)) }
    ensures variables { checking_variables session.new ≡ checking_variables session.old }
    ensures limits { D.limited db.new ≡ D.limited db.old }
    ensures room { room_of stack.new ≡ room_of stack.old }
    ensures marks { marks.new ≡ marks.old }
{
    let ended = line.strip_suffix(b"\n").ok_or(FileFault::NotFiveValues)?;
    session.submit(db, stack, marks, &parse(ended)?)?;
    Ok(())
}

// Submits line after line, up to the end or the first fault.
fn send_lines<D: ClauseDatabase>(
    lines: NumberedLines<'_>,
    session: &mut Checking,
    db: &mut D,
    stack: &mut ReconstructionStack<'_>,
    marks: &mut [u8],
) -> Result<(), LocatedFault>
    ensures outcome { told result (progress session.new (D.standing db.new) (saved stack.new)) ≡ read_lines marks.old (D.limited db.old) (room_of stack.old) lines.entry.number (progress session.old (D.standing db.old) (saved stack.old)) (text_lines lines.entry.rest.now) }
    ensures variables { checking_variables session.new ≡ checking_variables session.old }
    ensures limits { D.limited db.new ≡ D.limited db.old }
    ensures room { room_of stack.new ≡ room_of stack.old }
    ensures marks { marks.new ≡ marks.old }
{
    for (number, line) in lines {
        send(line, session, db, stack, marks).map_err(|fault| fault.at(File::Trace, number))?;
    }
    Ok(())
}

// The lines of a trace, from the second on; the first holds the names.
fn behind_names(text: &[u8]) -> Result<NumberedLines<'_>, LocatedFault>
    ensures { (marks : List ℕ) (l : Limits) (room : Room) (p : Progress) → MatchResult result (λ lines. read_trace marks l room p text.now ≡ read_lines marks l room lines.number p (text_lines lines.rest.now)) (λ fault. read_trace marks l room p text.now ≡ record { fault = Some fault; reached = p }) }
{
    if text.len() > 65_536 {
        return Err(FileFault::TooManyBytes.at(File::Trace, 0));
    }
    let rest = text
        .strip_prefix(b"kind clause pivot first second\n")
        .ok_or(FileFault::NamesWrong.at(File::Trace, 1))?;
    Ok(NumberedLines { number: 2, rest })
}

// Reads a trace and submits its lines one after another, up to the end or the first fault. What was accepted before a fault stays.
// Every history that leads to the session as it was, goes on with the lines submitted, to the session as it is then.
pub fn read_trace<D: ClauseDatabase>(
    text: &[u8],
    session: &mut Checking,
    db: &mut D,
    stack: &mut ReconstructionStack<'_>,
    marks: &mut [u8],
) -> Result<(), LocatedFault>
    ensures outcome { told result (progress session.new (D.standing db.new) (saved stack.new)) ≡ read_trace marks.old (D.limited db.old) (room_of stack.old) (progress session.old (D.standing db.old) (saved stack.old)) text.now }
    ensures variables { checking_variables session.new ≡ checking_variables session.old }
    ensures limits { D.limited db.new ≡ D.limited db.old }
    ensures room { room_of stack.new ≡ room_of stack.old }
    ensures marks { marks.new ≡ marks.old }
    ensures history { clean_marks marks.old ≡ true → (h : History) → ToChecking (D.limited db.old) (room_of stack.old) h (checking_variables session.old) (given_number session.old) (accepted_count session.old) (D.standing db.old) (saved stack.old) → ToChecking (D.limited db.new) (room_of stack.new) (with_trace (D.limited db.old) (room_of stack.old) h text.now) (checking_variables session.new) (given_number session.new) (accepted_count session.new) (D.standing db.new) (saved stack.new) }
{
    send_lines(behind_names(text)?, session, db, stack, marks)
}
