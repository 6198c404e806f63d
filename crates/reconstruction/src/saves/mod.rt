ghost use Rattle.std.specs.Prelude.{◌≡◌, length};
ghost use Rattle.reconstruction.specs.Stacks.{items, total};
ghost use Rattle.reconstruction.specs.Weights.{entry_weight};

use crate::saved::{SavedEntry, SavedLiteral};
use crate::stack::Stack;

mod methods;

// The reconstruction stack: an entry for each saved clause, and the literals of all of them one after another.
// The entries' weights add up to the count of literals.
#[derive(Drop)]
pub struct ReconstructionStack<'a> {
    entries: Stack<'a, SavedEntry>,
    literals: Stack<'a, SavedLiteral>,
    ghost adds_up: { total entry_weight (items entries) ≡ length (items literals) },
}
