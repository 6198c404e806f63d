use crate::Bitmask;
use database::ClauseDatabase;
use std::test::Fail;
use words::{Clause, ClauseNumber, DatabaseFault, Literal};

// The clause {-1, 2, -64}.
fn mixed() -> Clause {
    let mut clause = Clause::empty();
    clause.insert(Literal { value: -1 });
    clause.insert(Literal { value: 2 });
    clause.insert(Literal { value: -64 });
    clause
}

// The clause {3, 65}.
fn beyond() -> Clause {
    let mut clause = Clause::empty();
    clause.insert(Literal { value: 3 });
    clause.insert(Literal { value: 65 });
    clause
}

// Clauses put out of order stand in order, and one taken from the middle leaves the others as they were.
#[test]
fn keeps_order(rt: HostRuntime) -> Result<(), Fail> {
    let (two, five, nine) = (
        ClauseNumber::try_from(2)?,
        ClauseNumber::try_from(5)?,
        ClauseNumber::try_from(9)?,
    );
    let mut table = Bitmask::new();
    assert_eq!(rt; table.put(nine, &mixed()), Ok(()));
    assert_eq!(rt; table.put(two, &Clause::empty()), Ok(()));
    assert_eq!(rt; table.put(five, &mixed()), Ok(()));
    assert_eq!(rt; table.remove(five), Ok(()));
    assert_eq!(rt; table.count(), 2);
    assert_eq!(rt; table.literal_total(), 3);
    assert_eq!(rt; table.next(2), Some(nine));
    assert!(rt; table.clause(nine) == Some(mixed()));
    Ok(())
}

// A number that is taken, a variable beyond 64 and a number that does not stand are refused.
#[test]
fn refuses(rt: HostRuntime) -> Result<(), Fail> {
    let (one, two) = (ClauseNumber::try_from(1)?, ClauseNumber::try_from(2)?);
    let mut table = Bitmask::new();
    assert_eq!(rt; table.put(one, &mixed()), Ok(()));
    assert_eq!(rt; table.put(one, &beyond()), Err(DatabaseFault::NumberTaken));
    assert_eq!(rt;
        table.put(two, &beyond()),
        Err(DatabaseFault::VariableBeyond)
    );
    assert_eq!(rt; table.remove(two), Err(DatabaseFault::Absent(2)));
    Ok(())
}
