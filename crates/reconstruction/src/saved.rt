ghost use Rattle.std.specs.Prelude.{◌≡◌, ◌+◌, ◌≤◌, ◌++◌, length};
ghost use Rattle.reconstruction.specs.Stacks.{items, capacity};
ghost use Rattle.reconstruction.specs.Saves.{numbers};
ghost use Rattle.reconstruction.specs.Weights.{entry_weight, literal_weight};

use crate::stack::{Stack, Weighted};

// A saved clause: its pivot, not a `Literal`, since 0 makes the blanks of a memory, and how many literals it has.
#[derive(Clone, Copy)]
pub struct SavedEntry {
    pub pivot: i16,
    pub count: u8,
}

impl SavedEntry {
    // A clause without a literal, to make memories of.
    pub const EMPTY: SavedEntry = SavedEntry { pivot: 0, count: 0 };
}

// A literal of a saved clause: not a `Literal`, since 0 makes the blanks of a memory.
#[derive(Clone, Copy)]
pub struct SavedLiteral {
    pub value: i16,
}

impl SavedLiteral {
    // No literal, to make memories of.
    pub const EMPTY: SavedLiteral = SavedLiteral { value: 0 };
}

// A saved clause weighs as much as its literals together.
impl Weighted for SavedEntry {
    ghost weight = { entry_weight };

    fn weight(&self) -> usize {
        usize::from(self.count)
    }
}

// A literal weighs 1.
impl Weighted for SavedLiteral {
    ghost weight = { literal_weight };

    fn weight(&self) -> usize {
        1
    }
}

impl Stack<'_, SavedLiteral> {
    // Pushes each literal of a list that fits.
    pub(crate) fn push_literals(&mut self, literals: &[i16])
        requires { length (items self.old) + length literals.now ≤ capacity self.old }
        ensures items { numbers (items self.new) ≡ numbers (items self.old) ++ literals.now }
        ensures capacity { capacity self.new ≡ capacity self.old }
        ensures lender { self.new.slots.ghost_name ≡ self.old.slots.ghost_name }
    {
        for literal in literals {
            self.add(SavedLiteral { value: *literal });
        }
    }
}
