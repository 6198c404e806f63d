use crate::{Arena, Record};
use database::ClauseDatabase;
use std::test::Fail;
use words::{Clause, ClauseNumber, DatabaseFault, Literal};

// The clause {3}.
fn narrow() -> Clause {
    let mut clause = Clause::empty();
    clause.insert(Literal { value: 3 });
    clause
}

// The clause {1, -512}.
fn wide() -> Clause {
    let mut clause = Clause::empty();
    clause.insert(Literal { value: 1 });
    clause.insert(Literal { value: -512 });
    clause
}

// Clauses put out of order stand in order, and one taken from the middle leaves the others.
#[test]
fn keeps_order(rt: HostRuntime) -> Result<(), Fail> {
    let (two, five, nine) = (
        ClauseNumber::try_from(2)?,
        ClauseNumber::try_from(5)?,
        ClauseNumber::try_from(9)?,
    );
    let mut literals = [7i16; 5];
    let mut records = [Record::EMPTY; 3];
    let mut arena = Arena::new(&mut literals, &mut records);
    assert_eq!(rt; arena.put(five, &wide()), Ok(()));
    assert_eq!(rt; arena.put(two, &narrow()), Ok(()));
    assert_eq!(rt; arena.put(nine, &wide()), Ok(()));
    assert_eq!(rt; arena.remove(five), Ok(()));
    assert_eq!(rt; arena.count(), 2);
    assert_eq!(rt; arena.literal_total(), 3);
    assert_eq!(rt; arena.next(2), Some(nine));
    assert!(rt; arena.clause(nine) == Some(wide()));
    Ok(())
}

// A full memory refuses, and the space of a clause that goes is free again.
#[test]
fn refuses_when_full(rt: HostRuntime) -> Result<(), Fail> {
    let (one, two) = (ClauseNumber::try_from(1)?, ClauseNumber::try_from(2)?);
    let mut literals = [0i16; 3];
    let mut records = [Record::EMPTY; 4];
    let mut arena = Arena::new(&mut literals, &mut records);
    assert_eq!(rt; arena.put(one, &wide()), Ok(()));
    assert_eq!(rt; arena.put(two, &wide()), Err(DatabaseFault::LiteralsFull));
    assert_eq!(rt; arena.remove(one), Ok(()));
    assert_eq!(rt; arena.put(two, &wide()), Ok(()));
    Ok(())
}
