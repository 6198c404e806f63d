// Four variables, five lists, five lines: what finish tells, what is written, and what is restored.
use crate::setup::{line, loaded, refused};
use arena::{Arena, Record};
use bitmask::Bitmask;
use database::ClauseDatabase;
use reconstruction::{ReconstructionStack, SavedEntry, SavedLiteral};
use session::Finished;
use std::process::Abort;
use std::test::Fail;
use words::{Kind, Layer, Line, Place, Refusal};

fn lines() -> [Line; 5] {
    [
        line(Kind::Resolve, 6, 1, 1, 2),
        line(Kind::Eliminate, 0, 1, 0, 0),
        line(Kind::Resolve, 7, 2, 6, 3),
        line(Kind::Subsumed, 6, 0, 7, 0),
        line(Kind::Blocked, 3, -2, 0, 0),
    ]
}

// The reduced formula as it is written.
fn writes<D: ClauseDatabase>(rt: &impl Abort, finished: &Finished, db: &D) -> Result<(), Fail> {
    let mut text = [0u8; 32];
    assert_eq!(rt; finished.write(db, &mut text)?, 21);
    assert!(rt; text.starts_with(b"p cnf 4 2\n-3 4 0\n3 0\n"));
    Ok(())
}

// Restores what meets the two clauses that stand, and refuses what does not.
fn restores<D: ClauseDatabase>(
    rt: &impl Abort,
    finished: &Finished,
    db: &D,
    stack: &ReconstructionStack<'_>,
) -> Result<(), Fail> {
    let mut position = [0u8, 0, 1, 1];
    finished.restore(db, stack, &mut position)?;
    assert_eq!(rt; position, [1, 0, 1, 1]);
    let mut wrong = [0u8, 0, 0, 0];
    let unmet = Refusal {
        number: 72,
        place: Place::At(7),
        layer: Layer::Restore,
    };
    refused(rt, finished.restore(db, stack, &mut wrong), unmet);
    assert_eq!(rt; wrong, [0, 0, 0, 0]);
    Ok(())
}

fn run_listing<D: ClauseDatabase>(rt: &impl Abort, db: &mut D) -> Result<(), Fail> {
    let mut entries = [SavedEntry::EMPTY; 8];
    let mut literals = [SavedLiteral::EMPTY; 16];
    let mut stack = ReconstructionStack::new(&mut entries, &mut literals);
    let mut marks = [0u8; 1024];
    let lists: [&[i16]; 5] = [&[1, 2], &[-1, 3], &[-2, 3], &[-3, 4], &[2, -2]];
    let mut session = loaded(db, &stack, 4, &lists)?;
    for line in lines() {
        session.submit(db, &mut stack, &mut marks, &line)?;
    }
    let (finished, counts) = session.finish(db);
    assert_eq!(rt; counts.accepted, 5);
    assert_eq!(rt; counts.standing, 2);
    assert_eq!(rt; counts.empty, 0);
    writes(rt, &finished, db)?;
    restores(rt, &finished, db, &stack)
}

#[test]
fn listing_on_the_arena(rt: HostRuntime) -> Result<(), Fail> {
    let mut literals = [0i16; 32];
    let mut records = [Record::EMPTY; 8];
    run_listing(&rt, &mut Arena::new(&mut literals, &mut records))
}

#[test]
fn listing_on_the_bitmask_kind(rt: HostRuntime) -> Result<(), Fail> {
    run_listing(&rt, &mut Bitmask::new())
}
