// Memory that a program owns, lent to the arena and to the reconstruction stack that lie in it.

#![tactic(auto)]

ghost use Rattle.std.specs.Prelude.{◌≡◌, [], min, vec_len, IfOk};
ghost use Rattle.arena.specs.Contents.{contents, limits_of, limits_over};
ghost use Rattle.reconstruction.specs.Meanings.{saved, room_of};

#[cfg(test)]
mod tests;

use arena::{Arena, Record};
use reconstruction::{ReconstructionStack, SavedEntry, SavedLiteral};
use std::alloc::{AllocError, Global};

// The memory of an arena.
#[derive(Drop)]
pub struct ArenaMemory {
    pub literals: Vec<i16>,
    pub records: Vec<Record>,
}

impl ArenaMemory {
    // For so many literals and so many records.
    pub fn new(heap: Global, literals: usize, records: usize) -> Result<ArenaMemory, AllocError>
        ensures literals { IfOk result (λ m. vec_len m.literals ≡ «literals») }
        ensures records { IfOk result (λ m. vec_len m.records ≡ «records») }
    {
        Ok(ArenaMemory {
            literals: vec![in heap; 0i16; literals]?,
            records: vec![in heap; Record::EMPTY; records]?,
        })
    }

    // As much as an arena uses at most.
    pub fn full_size(heap: Global) -> Result<ArenaMemory, AllocError>
        ensures literals { IfOk result (λ m. vec_len m.literals ≡ 16384) }
        ensures records { IfOk result (λ m. vec_len m.records ≡ 1024) }
    {
        ArenaMemory::new(heap, 16_384, 1_024)
    }

    // An empty arena in it, whatever an earlier one left there.
    pub fn arena(&mut self) -> Arena<'_>
        ensures empty { contents result.memory ≡ [] }
        ensures limits { limits_of result.memory ≡ limits_over (vec_len self.old.records) (vec_len self.old.literals) }
    {
        Arena::new(self.literals.as_mut_slice(), self.records.as_mut_slice())
    }
}

// The memory of a reconstruction stack.
#[derive(Drop)]
pub struct StackMemory {
    pub entries: Vec<SavedEntry>,
    pub literals: Vec<SavedLiteral>,
}

impl StackMemory {
    // For so many entries and so many literals.
    pub fn new(heap: Global, entries: usize, literals: usize) -> Result<StackMemory, AllocError>
        ensures entries { IfOk result (λ m. vec_len m.entries ≡ «entries») }
        ensures literals { IfOk result (λ m. vec_len m.literals ≡ «literals») }
    {
        Ok(StackMemory {
            entries: vec![in heap; SavedEntry::EMPTY; entries]?,
            literals: vec![in heap; SavedLiteral::EMPTY; literals]?,
        })
    }

    // As much as a reconstruction stack uses at most.
    pub fn full_size(heap: Global) -> Result<StackMemory, AllocError>
        ensures entries { IfOk result (λ m. vec_len m.entries ≡ 2048) }
        ensures literals { IfOk result (λ m. vec_len m.literals ≡ 16384) }
    {
        StackMemory::new(heap, 2_048, 16_384)
    }

    // An empty reconstruction stack in it.
    pub fn stack(&mut self) -> ReconstructionStack<'_>
        ensures empty { saved result ≡ [] }
        ensures room { room_of result ≡ record { entries = min (vec_len self.old.entries) 2048; literals = min (vec_len self.old.literals) 16384 } }
    {
        ReconstructionStack::new(self.entries.as_mut_slice(), self.literals.as_mut_slice())
    }
}
