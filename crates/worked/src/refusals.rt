// Two clauses, and the lines that are refused on them, each with its number, place and layer.
use crate::setup::{line, loaded, refused};
use bitmask::Bitmask;
use database::ClauseDatabase;
use reconstruction::{ReconstructionStack, SavedEntry, SavedLiteral};
use std::test::Fail;
use words::{Kind, Layer, Line, Place, Refusal};

// A refusal of a rule.
fn rule(number: u8, place: Place) -> Refusal {
    Refusal {
        number,
        place,
        layer: Layer::Rule,
    }
}

// The refusal of a wrong field.
fn field(position: usize) -> Refusal {
    Refusal {
        number: 33,
        place: Place::At(position),
        layer: Layer::Submit,
    }
}

// The lines, and why each is refused.
fn refusals() -> [(Line, Refusal); 16] {
    [
        (line(Kind::Resolve, 2, 1, 1, 2), rule(41, Place::At(2))),
        (line(Kind::Resolve, 3, 1, 1, 9), rule(42, Place::At(9))),
        (line(Kind::Resolve, 3, 2, 1, 2), rule(43, Place::At(2))),
        (line(Kind::Resolve, 3, 3, 1, 2), rule(43, Place::At(1))),
        (
            line(Kind::Subsumed, 1, 0, 1, 0),
            rule(46, Place::Pair(1, 1)),
        ),
        (
            line(Kind::Subsumed, 1, 0, 2, 0),
            rule(46, Place::Pair(1, 2)),
        ),
        (line(Kind::Subsumed, 8, 0, 9, 0), rule(42, Place::At(8))),
        (line(Kind::Blocked, 1, 1, 0, 0), rule(47, Place::At(2))),
        (line(Kind::Blocked, 1, 3, 0, 0), rule(43, Place::At(1))),
        (
            line(Kind::Eliminate, 0, 1, 0, 0),
            rule(48, Place::Pair(1, 2)),
        ),
        (line(Kind::Resolve, 0, 1, 1, 2), field(2)),
        (line(Kind::Resolve, 3, 513, 0, 2), field(3)),
        (line(Kind::Subsumed, 1, -1, 2, 0), field(3)),
        (line(Kind::Blocked, 1, 1, 0, 1), field(5)),
        (line(Kind::Eliminate, 0, -1, 0, 0), field(3)),
        (line(Kind::Eliminate, 0, 1, 1_000_001, 0), field(4)),
    ]
}

#[test]
fn rules_and_fields_refuse(rt: HostRuntime) -> Result<(), Fail> {
    let mut db = Bitmask::new();
    let mut entries = [SavedEntry::EMPTY; 1];
    let mut literals = [SavedLiteral::EMPTY; 8];
    let mut stack = ReconstructionStack::new(&mut entries, &mut literals);
    let mut marks = [0u8; 1024];
    let mut session = loaded(&mut db, &stack, 3, &[&[1, 2], &[-1, 3]])?;
    for (line, refusal) in refusals() {
        refused(
            &rt,
            session.submit(&mut db, &mut stack, &mut marks, &line),
            refusal,
        );
    }
    assert_eq!(rt; db.count(), 2);
    assert_eq!(rt; stack.count(), 0);
    Ok(())
}

#[test]
fn opposite_clauses(rt: HostRuntime) -> Result<(), Fail> {
    let mut db = Bitmask::new();
    let mut entries = [SavedEntry::EMPTY; 2];
    let mut literals = [SavedLiteral::EMPTY; 4];
    let mut stack = ReconstructionStack::new(&mut entries, &mut literals);
    let mut marks = [0u8; 1024];
    let mut session = loaded(&mut db, &stack, 2, &[&[1, 2], &[-1, -2]])?;
    let resolve = line(Kind::Resolve, 3, 1, 1, 2);
    let tautology = session.submit(&mut db, &mut stack, &mut marks, &resolve);
    refused(&rt, tautology, rule(44, Place::Pair(1, 2)));
    let eliminate = line(Kind::Eliminate, 0, 1, 0, 0);
    marks[7] = 1;
    let dirty = session.submit(&mut db, &mut stack, &mut marks, &eliminate);
    let unclean = Refusal {
        number: 40,
        place: Place::Nowhere,
        layer: Layer::Submit,
    };
    refused(&rt, dirty, unclean);
    marks[7] = 0;
    session.submit(&mut db, &mut stack, &mut marks, &eliminate)?;
    let (finished, counts) = session.finish(&db);
    assert_eq!(rt; counts.standing, 0);
    let mut low = [0u8, 0];
    finished.restore(&db, &stack, &mut low)?;
    assert_eq!(rt; low, [1, 0]);
    let mut high = [1u8, 1];
    finished.restore(&db, &stack, &mut high)?;
    assert_eq!(rt; high, [0, 1]);
    Ok(())
}
