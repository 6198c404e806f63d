// The reconstruction stack, and restoring from it.
use crate::make::{clause, range, some_list, some_literal};
use bitmask::Bitmask;
use database::ClauseDatabase;
use reconstruction::{ReconstructionStack, restore};
use std::alloc::{AllocError, Global};
use std::process::Abort;
use std::test::Fail;
use trials::assignments::{is_met, make_true};
use trials::filled::stack_memory;
use trials::random::Random;
use words::{ClauseNumber, Literal, SessionFault, StackFault};

// Saves a clause.
fn save(
    rt: &impl Abort,
    stack: &mut ReconstructionStack<'_>,
    pivot: i16,
    list: &[i16],
) -> Result<Result<(), StackFault>, Fail> {
    Ok(stack.save(Literal::try_from(pivot)?, &clause(rt, list)?))
}

// What an assignment of two variables is restored to.
fn restored<D: ClauseDatabase>(
    db: &D,
    stack: &ReconstructionStack<'_>,
    bytes: [u8; 2],
) -> Result<[u8; 2], SessionFault> {
    let mut assignment = bytes;
    restore(db, stack, 2, &mut assignment)?;
    Ok(assignment)
}

// The clauses of an elimination of variable 1 are repaired by the pivots of their own signs.
#[test]
fn eliminated(rt: HostRuntime) -> Result<(), Fail> {
    let mut memory = stack_memory(rt.alloc(), 2, 4)?;
    let mut stack = memory.stack();
    save(&rt, &mut stack, 1, &[1, 2])??;
    save(&rt, &mut stack, -1, &[-1, -2])??;
    assert_eq!(rt; restored(&Bitmask::new(), &stack, [0, 0]), Ok([1, 0]));
    assert_eq!(rt; restored(&Bitmask::new(), &stack, [1, 1]), Ok([0, 1]));
    Ok(())
}

// The bytes of an assignment, and what restoring it is refused with, of a formula of two variables.
const REFUSED: [(&[u8], SessionFault); 10] = [
    (&[], SessionFault::AssignmentLength(0)),
    (&[2], SessionFault::AssignmentLength(1)),
    (&[9, 1, 2], SessionFault::AssignmentLength(3)),
    (&[2, 0], SessionFault::AssignmentByte(1)),
    (&[0, 2], SessionFault::AssignmentByte(2)),
    (&[255, 2], SessionFault::AssignmentByte(1)),
    (&[1, 255], SessionFault::AssignmentByte(2)),
    (&[0, 0], SessionFault::Unmet(3)),
    (&[0, 1], SessionFault::Unmet(5)),
    (&[1, 0], SessionFault::Unmet(3)),
];

// Restoring these bytes is refused so, and changes none.
fn refuses<D: ClauseDatabase>(
    rt: &(impl Abort + AllocGlobal),
    db: &D,
    stack: &ReconstructionStack<'_>,
    bytes: &[u8],
    fault: SessionFault,
) -> Result<(), Fail> {
    let mut assignment = bytes.to_vec(rt.alloc())?;
    assert_eq!(rt;
        restore(db, stack, 2, assignment.as_mut_slice()),
        Err(fault)
    );
    assert_eq!(rt; assignment.as_slice(), bytes);
    Ok(())
}

// Where {2} stands under 3 and {1} under 5, and a saved clause would change the first variable.
#[test]
fn refused(rt: HostRuntime) -> Result<(), Fail> {
    let mut memory = stack_memory(rt.alloc(), 2, 4)?;
    let mut stack = memory.stack();
    save(&rt, &mut stack, -1, &[])??;
    let mut db = Bitmask::new();
    db.put(ClauseNumber::try_from(5)?, &clause(&rt, &[1])?)?;
    db.put(ClauseNumber::try_from(3)?, &clause(&rt, &[2])?)?;
    for (bytes, fault) in &REFUSED {
        refuses(&rt, &db, &stack, bytes, *fault)?;
    }
    assert_eq!(rt; restored(&db, &stack, [1, 1]), Ok([0, 1]));
    Ok(())
}

// Saves clauses of a width until it is refused; answers how many were saved, and the refusal.
fn fill(
    rt: &(impl Abort + AllocGlobal),
    stack: &mut ReconstructionStack<'_>,
    width: i16,
) -> Result<(usize, StackFault), Fail> {
    let list = range(rt.alloc(), 1, width)?;
    for i in 0..3_000 {
        if let Err(fault) = save(rt, stack, 1, list.as_slice())? {
            return Ok((i, fault));
        }
    }
    Err(Fail::new("never full"))
}

// Lengths of memories of entries and of literals, a width, and how many clauses of it fit, with the refusal of the next.
const FITTING: [(usize, usize, i16, usize, StackFault); 9] = [
    (2_048, 16_384, 8, 2_048, StackFault::EntriesFull),
    (2_048, 16_384, 64, 256, StackFault::LiteralsFull),
    (2_048, 16_383, 8, 2_047, StackFault::LiteralsFull),
    (2_047, 16_384, 8, 2_047, StackFault::EntriesFull),
    (3_000, 20_000, 1, 2_048, StackFault::EntriesFull),
    (3_000, 20_000, 64, 256, StackFault::LiteralsFull),
    (0, 0, 1, 0, StackFault::EntriesFull),
    (3, 0, 1, 0, StackFault::LiteralsFull),
    (0, 9, 1, 0, StackFault::EntriesFull),
];

// How many clauses of a width fit into memories of these lengths, and what the next is refused with.
fn fits(
    rt: &(impl Abort + AllocGlobal),
    entries: usize,
    literals: usize,
    width: i16,
) -> Result<(usize, StackFault), Fail> {
    let mut memory = stack_memory(rt.alloc(), entries, literals)?;
    let mut stack = memory.stack();
    let (count, fault) = fill(rt, &mut stack, width)?;
    assert_eq!(rt; stack.count(), count);
    assert_eq!(rt;
        stack.literal_count(),
        count.saturating_mul(usize::from(width.unsigned_abs()))
    );
    Ok((count, fault))
}

// To the last entry and the last literal.
#[test]
fn full_stacks(rt: HostRuntime) -> Result<(), Fail> {
    for (entries, literals, width, count, fault) in &FITTING {
        assert_eq!(rt; fits(&rt, *entries, *literals, *width)?, (*count, *fault));
    }
    Ok(())
}

// A saved clause of the model.
#[derive(Drop)]
struct Saved {
    pivot: i16,
    literals: Vec<i16>,
}

// Restores by the model.
fn expected(saved: &[Saved], assignment: &mut [u8]) {
    for entry in saved.iter().rev() {
        if !is_met(entry.literals.as_slice(), assignment) {
            make_true(entry.pivot, assignment);
        }
    }
}

// Random saved clauses of the variables up to a count.
fn some_saved(
    heap: Global,
    random: &mut Random,
    count: u32,
    variables: u32,
) -> Result<Vec<Saved>, AllocError> {
    let mut saved = Vec::new(heap);
    for _ in 0..count {
        saved.push(Saved {
            pivot: some_literal(random, variables),
            literals: some_list(heap, random, variables, 4)?,
        })?;
    }
    Ok(saved)
}

// Restores by a stack of these saved clauses, where nothing stands.
fn restore_by(
    rt: &(impl Abort + AllocGlobal),
    saved: &[Saved],
    assignment: &mut [u8],
) -> Result<(), Fail> {
    let mut memory = stack_memory(rt.alloc(), 2_048, 16_384)?;
    let mut stack = memory.stack();
    for entry in saved {
        save(rt, &mut stack, entry.pivot, entry.literals.as_slice())??;
    }
    let variables = u16::try_from(assignment.len())?;
    restore(&Bitmask::new(), &stack, variables, assignment)?;
    Ok(())
}

// Restores a random assignment by random saved clauses as the model does.
fn restores_as_the_model(
    rt: &(impl Abort + AllocGlobal),
    random: &mut Random,
    count: u32,
    variables: u32,
) -> Result<(), Fail> {
    let heap = rt.alloc();
    let saved = some_saved(heap, random, count, variables.saturating_add(2))?;
    let mut restored = random.bytes(heap, variables)?;
    let mut modelled = restored.clone()?;
    expected(saved.as_slice(), modelled.as_mut_slice());
    restore_by(rt, saved.as_slice(), restored.as_mut_slice())?;
    assert!(rt; restored.as_slice() == modelled.as_slice());
    Ok(())
}

#[test]
fn random_stacks(rt: HostRuntime) -> Result<(), Fail> {
    let mut random = Random {
        state: 0x2545_f491_4f6c_dd1d,
    };
    for i in 0..320 {
        let (count, variables) = if i < 300 {
            (i % 40, i % 13)
        } else {
            (2_048, 510)
        };
        restores_as_the_model(&rt, &mut random, count, variables)?;
    }
    Ok(())
}
