// Opening, and loading lists.
use crate::make::{full_memory, range};
use bitmask::Bitmask;
use database::ClauseDatabase;
use loading::{Loading, open};
use reconstruction::ReconstructionStack;
use std::alloc::Global;
use std::process::Abort;
use std::test::Fail;
use trials::filled::{arena_memory, stack_memory};
use words::{Clause, ClauseNumber, DatabaseFault, Literal, SessionFault};

// A list that is loaded; how that is answered; how many clauses stand then.
#[derive(Clone, Copy)]
struct Given(&'static [i16], Result<(), SessionFault>, usize);

// What the database refuses.
const BEYOND: Result<(), SessionFault> = Err(SessionFault::Database(DatabaseFault::VariableBeyond));

const CLAUSES_FULL: Result<(), SessionFault> = Err(SessionFault::Database(
    DatabaseFault::ClausesFull,
));

const LITERALS_FULL: Result<(), SessionFault> = Err(SessionFault::Database(
    DatabaseFault::LiteralsFull,
));

// On an arena, for 512 variables.
const HIGH: [Given; 12] = [
    Given(&[512], Ok(()), 1),
    Given(&[-512], Ok(()), 2),
    Given(&[513], Err(SessionFault::LiteralBeyond(1)), 2),
    Given(&[1, -513], Err(SessionFault::LiteralBeyond(2)), 2),
    Given(&[0], Err(SessionFault::LiteralBeyond(1)), 2),
    Given(&[1, 2, 0], Err(SessionFault::LiteralBeyond(3)), 2),
    Given(&[-32768], Err(SessionFault::LiteralBeyond(1)), 2),
    Given(&[3, -3, 32767], Err(SessionFault::LiteralBeyond(3)), 2),
    Given(&[5, 5, -5], Ok(()), 2),
    Given(&[-7, -7, -7], Ok(()), 3),
    Given(&[], Ok(()), 4),
    Given(&[-7], Ok(()), 5),
];

// On a bitmask database, for 512 variables.
const MASKED: [Given; 8] = [
    Given(&[64], Ok(()), 1),
    Given(&[-64], Ok(()), 2),
    Given(&[65], BEYOND, 2),
    Given(&[1, -65], BEYOND, 2),
    Given(&[513], Err(SessionFault::LiteralBeyond(1)), 2),
    Given(&[-65, 1, 65], Ok(()), 2),
    Given(&[-512], BEYOND, 2),
    Given(&[], Ok(()), 3),
];

// On an arena of two records and two literals, for 3 variables.
const FULL: [Given; 10] = [
    Given(&[4], Err(SessionFault::LiteralBeyond(1)), 0),
    Given(&[1, 2, 3], LITERALS_FULL, 0),
    Given(&[1, 2, 2, 1], Ok(()), 1),
    Given(&[3], LITERALS_FULL, 1),
    Given(&[3, -3], Ok(()), 1),
    Given(&[], Ok(()), 2),
    Given(&[3], CLAUSES_FULL, 2),
    Given(&[], CLAUSES_FULL, 2),
    Given(&[1, 2, 3, -1], Ok(()), 2),
    Given(&[3, -3, 0], Err(SessionFault::LiteralBeyond(3)), 2),
];

// A session on a new database.
fn opened<D: ClauseDatabase>(db: &D, variables: u32) -> Result<Loading, SessionFault> {
    open(variables, db, &ReconstructionStack::new(&mut [], &mut []))
}

// Loads a list; answers its number.
fn load<D: ClauseDatabase>(
    session: &mut Loading,
    db: &mut D,
    list: &[i16],
) -> Result<u32, SessionFault> {
    session.load(db, list).map(|number| number.value)
}

// Loads lists; each accepted one has the next number.
fn loads<D: ClauseDatabase>(
    rt: &impl Abort,
    db: &mut D,
    variables: u32,
    lists: &[Given],
) -> Result<(), Fail> {
    let mut session = opened(db, variables)?;
    let mut last = 0u32;
    for (i, Given(list, answer, standing)) in lists.iter().enumerate() {
        let next = last.saturating_add(1);
        assert_eq!(rt;
            load(&mut session, db, list),
            answer.map(|()| next),
            "{}",
            i
        );
        if answer.is_ok() {
            last = next;
        }
        assert_eq!(rt; db.count(), *standing, "{}", i);
        assert_eq!(rt; u32::from(session.loaded()), last);
    }
    Ok(())
}

#[test]
fn lists_on_arenas(rt: HostRuntime) -> Result<(), Fail> {
    loads(&rt, &mut full_memory(rt.alloc())?.arena(), 512, &HIGH)?;
    let mut small = arena_memory(rt.alloc(), 2, 2)?;
    loads(&rt, &mut small.arena(), 3, &FULL)
}

#[test]
fn lists_on_a_bitmask_database(rt: HostRuntime) -> Result<(), Fail> {
    loads(&rt, &mut Bitmask::new(), 512, &MASKED)
}

// What load answers to a list on a new arena, for 512 variables, and how many literals stand then.
fn loaded(heap: Global, list: &[i16]) -> Result<(Result<u32, SessionFault>, usize), Fail> {
    let mut memory = full_memory(heap)?;
    let mut db = memory.arena();
    let mut session = opened(&db, 512)?;
    Ok((load(&mut session, &mut db, list), db.literal_total()))
}

// 64 different literals are loaded, whatever is written twice; the place of 25 is that of the 65th.
#[test]
fn wide(rt: HostRuntime) -> Result<(), Fail> {
    let mut list = range(rt.alloc(), -101, 164)?;
    list.push(-101)?;
    assert_eq!(rt; loaded(rt.alloc(), list.as_slice())?, (Ok(1), 64));
    list.push(165)?;
    assert_eq!(rt;
        loaded(rt.alloc(), list.as_slice())?,
        (Err(SessionFault::TooManyLiterals(66)), 0)
    );
    list.push(101)?;
    assert_eq!(rt; loaded(rt.alloc(), list.as_slice())?, (Ok(1), 0));
    Ok(())
}

// 1,024 lists are loaded, those with an opposite pair among them, and no more, whatever they hold.
#[test]
fn many(rt: HostRuntime) -> Result<(), Fail> {
    let mut memory = full_memory(rt.alloc())?;
    let mut db = memory.arena();
    let mut session = opened(&db, 1)?;
    for i in 1..1_025u32 {
        let list = if i % 2 == 0 { [1, 1] } else { [-1, 1] };
        assert_eq!(rt; load(&mut session, &mut db, &list), Ok(i));
    }
    assert_eq!(rt;
        load(&mut session, &mut db, &[-1, 1]),
        Err(SessionFault::LoadedFull)
    );
    assert_eq!(rt;
        load(&mut session, &mut db, &[0]),
        Err(SessionFault::LoadedFull)
    );
    assert!(rt; db.count() == 512);
    Ok(())
}

// Opening is answered so for 0, 512 and 513 variables.
fn opens<D: ClauseDatabase>(
    rt: &impl Abort,
    db: &D,
    stack: &ReconstructionStack<'_>,
    answers: [Option<SessionFault>; 3],
) {
    for (variables, answer) in [0, 512, 513].iter().zip(&answers) {
        assert_eq!(rt; open(*variables, db, stack).err(), *answer);
    }
}

#[test]
fn opening(rt: HostRuntime) -> Result<(), Fail> {
    let mut memory = stack_memory(rt.alloc(), 1, 0)?;
    let mut stack = memory.stack();
    let beyond = Some(SessionFault::TooManyVariables);
    opens(&rt, &Bitmask::new(), &stack, [None, None, beyond]);
    stack.save(Literal::try_from(1i16)?, &Clause::empty())?;
    opens(
        &rt,
        &Bitmask::new(),
        &stack,
        [Some(SessionFault::StackNotEmpty); 3],
    );
    let mut db = Bitmask::new();
    db.put(ClauseNumber::try_from(9)?, &Clause::empty())?;
    opens(&rt, &db, &stack, [Some(SessionFault::DatabaseNotEmpty); 3]);
    Ok(())
}
