// What the tests share: lines, loaded sessions, and the comparison of a refusal.
use database::ClauseDatabase;
use loading::open;
use reconstruction::ReconstructionStack;
use session::{Checking, seal};
use std::process::Abort;
use std::test::Fail;
use words::{Kind, Line, Refusal, SessionFault};

pub fn line(kind: Kind, clause: u32, pivot: i32, first: u32, second: u32) -> Line {
    Line {
        kind,
        clause,
        pivot,
        first,
        second,
    }
}

// A session that has loaded these lists and is sealed.
pub fn loaded<D: ClauseDatabase>(
    db: &mut D,
    stack: &ReconstructionStack<'_>,
    variables: u32,
    lists: &[&[i16]],
) -> Result<Checking, Fail> {
    let mut session = open(variables, db, stack)?;
    for list in lists {
        session.load(db, list)?;
    }
    Ok(seal(session))
}

// The answer is this refusal.
pub fn refused(rt: &impl Abort, answer: Result<(), SessionFault>, refusal: Refusal) {
    assert_eq!(rt; answer.map_err(|fault| fault.refusal()), Err(refusal));
}
