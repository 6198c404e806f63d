// Memories that still hold what was in them before, so that nothing is seen to depend on it.
ghost use Rattle.std.specs.Prelude.{◌≡◌, vec_len, IfOk};

use arena::Record;
use memory::{ArenaMemory, StackMemory};
use reconstruction::{SavedEntry, SavedLiteral};
use std::alloc::{AllocError, Global};

const RECORD: Record = Record {
    number: 5,
    start: 9,
    len: 3,
};

const ENTRY: SavedEntry = SavedEntry { pivot: 9, count: 3 };

const LITERAL: SavedLiteral = SavedLiteral { value: 9 };

// For so many literals and so many records. Not by `new`, which fills with blanks.
pub fn arena_memory(
    heap: Global,
    literals: usize,
    records: usize,
) -> Result<ArenaMemory, AllocError>
    ensures literals { IfOk result (λ m. vec_len m.literals ≡ «literals») }
    ensures records { IfOk result (λ m. vec_len m.records ≡ «records») }
{
    Ok(ArenaMemory {
        literals: vec![in heap; -7i16; literals]?,
        records: vec![in heap; RECORD; records]?,
    })
}

// For so many entries and so many literals. Not by `new`, which fills with blanks.
pub fn stack_memory(
    heap: Global,
    entries: usize,
    literals: usize,
) -> Result<StackMemory, AllocError>
    ensures entries { IfOk result (λ m. vec_len m.entries ≡ «entries») }
    ensures literals { IfOk result (λ m. vec_len m.literals ≡ «literals») }
{
    Ok(StackMemory {
        entries: vec![in heap; ENTRY; entries]?,
        literals: vec![in heap; LITERAL; literals]?,
    })
}
