use crate::{ArenaMemory, StackMemory};
use database::ClauseDatabase;
use std::test::Fail;

// Full-size memory is there, and what lies in it has all of its room.
#[test]
fn full_size(rt: HostRuntime) -> Result<(), Fail> {
    let mut memory = ArenaMemory::full_size(rt.alloc())?;
    let arena = memory.arena();
    assert_eq!(rt; arena.count(), 0);
    assert_eq!(rt; arena.limits().clauses, 1_024);
    assert_eq!(rt; arena.limits().literals, 16_384);
    let mut memory = StackMemory::full_size(rt.alloc())?;
    let stack = memory.stack();
    assert_eq!(rt; stack.count(), 0);
    assert!(rt; stack.fits(2_048, 16_384).is_ok());
    assert!(rt; stack.fits(2_049, 0).is_err());
    assert!(rt; stack.fits(0, 16_385).is_err());
    Ok(())
}

// A small memory has the room that was asked for.
#[test]
fn small(rt: HostRuntime) -> Result<(), Fail> {
    let mut memory = ArenaMemory::new(rt.alloc(), 6, 2)?;
    let limits = memory.arena().limits();
    assert_eq!(rt; limits.clauses, 2);
    assert_eq!(rt; limits.literals, 6);
    let mut memory = StackMemory::new(rt.alloc(), 1, 3)?;
    let stack = memory.stack();
    assert!(rt; stack.fits(1, 3).is_ok());
    assert!(rt; stack.fits(1, 4).is_err());
    Ok(())
}
