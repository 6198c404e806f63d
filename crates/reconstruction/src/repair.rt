ghost use Rattle.std.specs.Prelude.{◌≡◌, length};
ghost use Rattle.rules.specs.Restoring.{repaired, restored};
ghost use Rattle.reconstruction.specs.Stacks.{total};
ghost use Rattle.reconstruction.specs.Saves.{numbers, saved_from};
ghost use Rattle.reconstruction.specs.Weights.{entry_weight};

use crate::saved::{SavedEntry, SavedLiteral};
use crate::stack::Weighted;
use crate::truth::{is_met, make_true};

// Makes the pivot true where the saved clause is not met.
fn repair(pivot: i16, literals: &[SavedLiteral], assignment: &mut [u8])
    ensures { assignment.new ≡ repaired (record { pivot = pivot; lits = numbers literals.now }) assignment.old }
{
    if !is_met(assignment, literals) {
        make_true(assignment, pivot);
    }
}

// Repairs by every saved clause, from the last to the first.
pub(crate) fn repair_all(entries: &[SavedEntry], literals: &[SavedLiteral], assignment: &mut [u8])
    requires { total entry_weight entries.now ≡ length literals.now }
    ensures { assignment.new ≡ restored (saved_from entries.now (numbers literals.now)) assignment.old }
{
    let mut rest = literals;
    for entry in entries.iter().rev() {
        let (before, own) = rest.split_at(rest.len() - entry.weight());
        repair(entry.pivot, own, assignment);
        rest = before;
    }
}
