// Both kinds of clause database do what the model does.
use crate::drive::{Call, Drive, Mix};
use crate::make::{BITMASK_LIMITS, arena_limits, clause};
use arena::Arena;
use bitmask::Bitmask;
use database::ClauseDatabase;
use std::alloc::{AllocError, Global};
use std::process::Abort;
use std::test::Fail;
use trials::filled::arena_memory;
use words::{ClauseNumber, DatabaseFault};

// Puts by rising and by falling number, equal clauses, the empty clause, the highest variables, wide clauses; removals from the
// front, the middle and the end; numbers that are taken or absent; questions beside the numbers that stand.
const CALLS: [Call; 48] = [
    Call::Ask(0),
    Call::Remove(1),
    Call::Put(1, &[1, -2, 3]),
    Call::Put(2, &[-512]),
    Call::Put(3, &[64, 63]),
    Call::Put(4, &[-65]),
    Call::Ask(4),
    Call::Ask(1000000),
    Call::Ask(4294967295),
    Call::Put(1000000, &[3, -2, 1]),
    Call::Put(9, &[3, 1, -2]),
    Call::Put(8, &[]),
    Call::Put(7, &[]),
    Call::Put(1, &[4]),
    Call::Put(1, &[-65, 66, 512]),
    Call::PutRange(1, 1, 64),
    Call::Remove(1),
    Call::Remove(1),
    Call::PutRange(1, 1, 64),
    Call::PutRange(6, 449, -512),
    Call::PutRange(5, -1, 64),
    Call::PutRange(10, 2, 65),
    Call::PutRange(10, -2, -64),
    Call::Ask(10),
    Call::Remove(9),
    Call::Remove(1000000),
    Call::Remove(1000000),
    Call::Put(999999, &[5, -6, 7]),
    Call::Put(1000000, &[5, -6, 8]),
    Call::Remove(8),
    Call::Remove(7),
    Call::Remove(5),
    Call::Put(5, &[64, -1, 2]),
    Call::Remove(1),
    Call::Remove(2),
    Call::Remove(3),
    Call::Put(3, &[]),
    Call::Put(2, &[7, 8, 9]),
    Call::Put(4, &[7, 8, 9]),
    Call::Put(11, &[9, 8, 7]),
    Call::Remove(4),
    Call::Remove(10),
    Call::Put(12, &[1]),
    Call::Remove(2),
    Call::Remove(11),
    Call::Remove(12),
    Call::Remove(999999),
    Call::Remove(1000000),
];

// What is tried on a full database: further clauses, and others where one went.
const WHEN_FULL: [Call; 14] = [
    Call::Put(5000, &[1]),
    Call::Put(5000, &[]),
    Call::Put(5, &[1]),
    Call::Put(5000, &[512]),
    Call::Remove(7),
    Call::Put(5000, &[]),
    Call::Put(5001, &[1]),
    Call::Remove(5000),
    Call::PutRange(7, -2, 3),
    Call::Put(7, &[]),
    Call::Remove(1),
    Call::PutRange(6000, -1, 16),
    Call::PutRange(6001, -1, 48),
    Call::PutRange(6001, 1, 64),
];

// So many clauses of the variables up to a width, and then what is tried on a full database.
fn fill(heap: Global, count: u32, width: i16) -> Result<Vec<Call>, AllocError> {
    let mut calls: Vec<Call> = (1..=count)
        .map(|number| Call::PutRange(number, 1, width))
        .collect(heap)?;
    calls.extend_from_slice(&WHEN_FULL)?;
    Ok(calls)
}

// Drives an arena over memories of these lengths.
fn on_arena<R: Abort + AllocGlobal, F>(
    rt: &R,
    literals: usize,
    records: usize,
    run: F,
) -> Result<(), Fail>
where
    F: FnOnce(&mut Drive<'_, R, Arena<'_>>) -> Result<(), Fail>,
    requires { F.IsAlwaysCallable run }
{
    let mut memory = arena_memory(rt.alloc(), literals, records)?;
    let mut arena = memory.arena();
    let mut drive = Drive::new(rt, rt.alloc(), &mut arena, arena_limits(literals, records));
    run(&mut drive)
}

#[test]
fn calls_on_arenas(rt: HostRuntime) -> Result<(), Fail> {
    let sizes = [
        (0, 0),
        (0, 3),
        (3, 0),
        (1, 1),
        (3, 2),
        (64, 4),
        (129, 9),
        (400, 12),
        (16_384, 1_024),
        (20_000, 1_500),
    ];
    for (literals, records) in sizes {
        on_arena(&rt, literals, records, |drive| drive.calls(&CALLS))?;
    }
    Ok(())
}

#[test]
fn calls_on_a_bitmask_database(rt: HostRuntime) -> Result<(), Fail> {
    let mut table = Bitmask::new();
    Drive::new(&rt, rt.alloc(), &mut table, BITMASK_LIMITS).calls(&CALLS)
}

// To the last clause and the last literal, also where the memories have more than is counted.
#[test]
fn full_arenas(rt: HostRuntime) -> Result<(), Fail> {
    let heap = rt.alloc();
    let many = fill(heap, 1_025, 16)?;
    let wide = fill(heap, 257, 64)?;
    let few = fill(heap, 11, 16)?;
    on_arena(&rt, 16_384, 1_024, |drive| drive.calls(many.as_slice()))?;
    on_arena(&rt, 16_384, 1_024, |drive| drive.calls(wide.as_slice()))?;
    on_arena(&rt, 17_000, 1_030, |drive| drive.calls(many.as_slice()))?;
    on_arena(&rt, 17_000, 1_030, |drive| drive.calls(wide.as_slice()))?;
    on_arena(&rt, 160, 10, |drive| drive.calls(few.as_slice()))?;
    on_arena(&rt, 159, 10, |drive| drive.calls(few.as_slice()))
}

#[test]
fn a_full_bitmask_database(rt: HostRuntime) -> Result<(), Fail> {
    let heap = rt.alloc();
    let calls = fill(heap, 257, 64)?;
    let mut table = Bitmask::new();
    Drive::new(&rt, heap, &mut table, BITMASK_LIMITS).calls(calls.as_slice())
}

#[test]
fn random_calls_on_arenas(rt: HostRuntime) -> Result<(), Fail> {
    let few = Mix {
        turns: 3_000,
        numbers: 12,
        variables: 512,
        width: 5,
        puts: 6,
    };
    let many = Mix {
        turns: 4_000,
        numbers: 3_000,
        variables: 512,
        width: 40,
        puts: 7,
    };
    let narrow = Mix {
        turns: 4_000,
        numbers: 1_500,
        variables: 3,
        width: 3,
        puts: 8,
    };
    on_arena(&rt, 0, 4, |drive| drive.random_calls(few))?;
    on_arena(&rt, 10, 8, |drive| drive.random_calls(few))?;
    on_arena(&rt, 20, 5, |drive| drive.random_calls(few))?;
    on_arena(&rt, 16_384, 1_024, |drive| drive.random_calls(many))?;
    on_arena(&rt, 16_400, 1_024, |drive| drive.random_calls(narrow))
}

#[test]
fn random_calls_on_a_bitmask_database(rt: HostRuntime) -> Result<(), Fail> {
    let mix = Mix {
        turns: 6_000,
        numbers: 350,
        variables: 65,
        width: 30,
        puts: 8,
    };
    let mut table = Bitmask::new();
    Drive::new(&rt, rt.alloc(), &mut table, BITMASK_LIMITS).random_calls(mix)
}

// A number, literals, and how putting them is answered.
#[derive(Clone, Copy)]
struct Told(u32, &'static [i16], Result<(), DatabaseFault>);

// On an arena of two literals and one record: where several refusals apply, the first of them is told.
const ON_ARENA: [Told; 5] = [
    Told(1, &[512, -1, 3], Err(DatabaseFault::LiteralsFull)),
    Told(1, &[512, -1], Ok(())),
    Told(1, &[1, 2, 3], Err(DatabaseFault::NumberTaken)),
    Told(2, &[1, 2, 3], Err(DatabaseFault::ClausesFull)),
    Told(2, &[], Err(DatabaseFault::ClausesFull)),
];

// On a bitmask database with 255 clauses.
const ON_BITMASK: [Told; 6] = [
    Told(256, &[65], Err(DatabaseFault::VariableBeyond)),
    Told(255, &[65], Err(DatabaseFault::NumberTaken)),
    Told(256, &[-64], Ok(())),
    Told(256, &[65], Err(DatabaseFault::NumberTaken)),
    Told(257, &[65], Err(DatabaseFault::VariableBeyond)),
    Told(257, &[64], Err(DatabaseFault::ClausesFull)),
];

fn puts<D: ClauseDatabase>(rt: &impl Abort, db: &mut D, table: &[Told]) -> Result<(), Fail> {
    for Told(at, list, told) in table {
        let answer = db.put(ClauseNumber::try_from(*at)?, &clause(rt, list)?);
        assert_eq!(rt; answer, *told, "{}", at);
    }
    Ok(())
}

#[test]
fn refusals_in_order(rt: HostRuntime) -> Result<(), Fail> {
    let mut memory = arena_memory(rt.alloc(), 2, 1)?;
    puts(&rt, &mut memory.arena(), &ON_ARENA)?;
    let mut table = Bitmask::new();
    for i in 1..256 {
        puts(&rt, &mut table, &[Told(i, &[], Ok(()))])?;
    }
    puts(&rt, &mut table, &ON_BITMASK)
}
