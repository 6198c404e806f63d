use crate::{ReconstructionStack, SavedEntry, SavedLiteral};
use words::{Clause, Literal};

// One entry fits, a second is refused with 65; a third literal is refused with 66.
#[test]
fn refuses_past_its_room(rt: HostRuntime) {
    let pivot = Literal { value: 1 };
    let mut entries = [SavedEntry::EMPTY; 1];
    let mut literals = [SavedLiteral::EMPTY; 2];
    let mut stack = ReconstructionStack::new(&mut entries, &mut literals);
    assert!(rt; stack.fits(1, 2).is_ok());
    assert!(rt; stack.fits(1, 3).is_err());
    assert!(rt; stack.save(pivot, &Clause::empty()).is_ok());
    assert!(rt; stack.save(pivot, &Clause::empty()).is_err());
    assert!(rt; stack.count() == 1);
}

// The empty clause is never met: -1 is made true first, then 1.
#[test]
fn repairs_from_last_to_first(rt: HostRuntime) {
    let pivot = Literal { value: 1 };
    let mut entries = [SavedEntry::EMPTY; 2];
    let mut literals = [SavedLiteral::EMPTY; 0];
    let mut stack = ReconstructionStack::new(&mut entries, &mut literals);
    assert!(rt; stack.save(pivot, &Clause::empty()).is_ok());
    assert!(rt; stack.save(pivot.negated(), &Clause::empty()).is_ok());
    let mut assignment = [0; 2];
    stack.repair(&mut assignment);
    assert!(rt; assignment[0] == 1 && assignment[1] == 0);
}
