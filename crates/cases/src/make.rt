// What the tests make their values with.
use memory::ArenaMemory;
use std::alloc::{AllocError, Global};
use std::process::Abort;
use std::test::Fail;
use trials::filled::arena_memory;
use trials::random::Random;
use words::{Clause, Limits, Literal};

// The clause of a list of literals.
pub fn clause(rt: &impl Abort, list: &[i16]) -> Result<Clause, Fail> {
    let mut clause = Clause::empty();
    for x in list {
        assert!(rt; clause.insert(Literal::try_from(*x)?));
    }
    Ok(clause)
}

// The literals from one variable to another, the odd ones with the sign of the first, the even ones with that of the last.
// `as`: the bounded variable always fits.
pub fn range(heap: Global, first: i16, last: i16) -> Result<Vec<i16>, AllocError> {
    let mut list = Vec::new(heap);
    for v in first.unsigned_abs().min(512)..last.unsigned_abs().min(512) + 1 {
        let x = v as i16;
        let sign = if v % 2 == 1 { first } else { last };
        list.push(if sign > 0 { x } else { -x })?;
    }
    Ok(list)
}

// The limits of an arena over memories of these lengths.
pub fn arena_limits(literals: usize, records: usize) -> Limits {
    Limits {
        variables: 512,
        width: 64,
        clauses: records.min(1_024),
        literals: literals.min(16_384),
    }
}

// The limits of a bitmask database.
pub const BITMASK_LIMITS: Limits = Limits {
    variables: 64,
    width: 64,
    clauses: 256,
    literals: 16_384,
};

// The memory of a full-size arena.
pub fn full_memory(heap: Global) -> Result<ArenaMemory, AllocError> {
    arena_memory(heap, 16_384, 1_024)
}

// A literal of the variables up to a count, of either sign.
pub fn some_literal(random: &mut Random, variables: u32) -> i16 {
    random.literal(variables, 2).wrapping_neg()
}

// At most so many literals of different variables.
pub fn some_list(
    heap: Global,
    random: &mut Random,
    variables: u32,
    most: u32,
) -> Result<Vec<i16>, AllocError> {
    let mut list = Vec::new(heap);
    for _ in 0..random.below(most.min(64) + 1) {
        let x = some_literal(random, variables);
        if !list.as_slice().contains(&x) && !list.as_slice().contains(&x.wrapping_neg()) {
            list.push(x)?;
        }
    }
    Ok(list)
}
