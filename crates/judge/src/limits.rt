// The highest variables and the widest lists.
use crate::answer::{at, nowhere};
use bitmask::Bitmask;
use database::ClauseDatabase;
use loading::open;
use reconstruction::ReconstructionStack;
use std::alloc::{AllocError, Global};
use std::process::Abort;
use std::test::*;
use trials::filled::arena_memory;
use words::{Layer, Refusal};

// How a list is answered on a new database, of a formula of so many variables.
fn answer<D: ClauseDatabase>(
    rt: &impl Abort,
    db: &mut D,
    variables: u32,
    list: &[i16],
) -> Result<Result<u32, Refusal>, Fail> {
    let stack = ReconstructionStack::new(&mut [], &mut []);
    let mut session = open(variables, db, &stack)?;
    let answer = session
        .load(db, list)
        .map(|number| number.value)
        .map_err(|fault| fault.refusal());
    assert_eq!(rt; db.count(), usize::from(answer.is_ok()));
    Ok(answer)
}

// The same on an arena.
fn on_arena(
    rt: &(impl Abort + AllocGlobal),
    variables: u32,
    list: &[i16],
) -> Result<Result<u32, Refusal>, Fail> {
    let mut memory = arena_memory(rt.alloc(), 64, 1)?;
    answer(rt, &mut memory.arena(), variables, list)
}

// The same on a bitmask database.
fn on_bitmask(rt: &impl Abort, variables: u32, list: &[i16]) -> Result<Result<u32, Refusal>, Fail> {
    answer(rt, &mut Bitmask::new(), variables, list)
}

// Some copies of -1, and then the literals from -1 to a last variable.
fn row(heap: Global, copies: usize, last: i16) -> Result<Vec<i16>, AllocError> {
    let mut list = vec![in heap; -1i16; copies]?;
    for v in 1..last.saturating_add(1) {
        list.push(v.wrapping_neg())?;
    }
    Ok(list)
}

// 512 is the highest variable of an arena, 64 that of a bitmask database.
#[test]
fn highest_variables(rt: HostRuntime) -> Result<(), Fail> {
    let beyond = Err(at(24, 2, Layer::Load));
    assert_eq!(rt; on_arena(&rt, 512, &[-512, 1])?, Ok(1));
    assert_eq!(rt; on_arena(&rt, 512, &[1, 513])?, beyond);
    assert_eq!(rt; on_bitmask(&rt, 512, &[1, -64])?, Ok(1));
    assert_eq!(rt; on_bitmask(&rt, 512, &[1, 513])?, beyond);
    assert_eq!(rt; on_bitmask(&rt, 64, &[1, 65])?, beyond);
    assert_eq!(rt;
        on_bitmask(&rt, 512, &[1, -65])?,
        Err(nowhere(61, Layer::Shelf))
    );
    Ok(())
}

// 64 different literals are loaded, however often they are written; 65 are refused where the 65th is first written.
#[test]
fn widest_lists(rt: HostRuntime) -> Result<(), Fail> {
    let refused = |place| Err(at(25, place, Layer::Load));
    for (copies, last, expected) in [
        (0, 64, Ok(1)),
        (9, 64, Ok(1)),
        (0, 65, refused(65)),
        (9, 65, refused(74)),
        (9, 66, refused(74)),
    ] {
        let list = row(rt.alloc(), copies, last)?;
        assert_eq!(rt; on_arena(&rt, 66, list.as_slice())?, expected, "{}", last);
        assert_eq!(rt; on_bitmask(&rt, 66, list.as_slice())?, expected, "{}", last);
    }
    Ok(())
}
