ghost use Rattle.std.specs.Prelude.{◌≡◌, ℕ, ◌-◌, ◌<◌, ◌≤◌, min, [], ◌∷◌, ◌++◌, length, if◌then◌else◌, Ok, Err, nat_lt, slice_get};
ghost use Rattle.std.specs.Option.{option_map};
ghost use Rattle.reconstruction.specs.Stacks.{items, capacity};

use crate::stack::{Stack, Weighted};

impl<'a, T: Copy> Stack<'a, T> {
    // An empty stack.
    pub fn new(slots: &'a mut [T], most: usize) -> Self
        ensures empty { items result ≡ [] }
        ensures capacity { capacity result ≡ min (length slots.old) most }
    {
        Stack {
            slots,
            used: 0,
            most,
        }
    }

    // How many entries it can hold.
    pub fn capacity(&self) -> usize
        ensures { result ≡ capacity self.now }
    {
        self.slots.len().min(self.most)
    }

    // How many entries it holds.
    pub fn len(&self) -> usize
        ensures { result ≡ length (items self.now) }
    {
        self.entries().len()
    }

    // How many more fit.
    pub fn room(&self) -> usize
        ensures { result ≡ capacity self.now - length (items self.now) }
    {
        self.capacity() - self.len()
    }

    // Its entries, the first pushed first.
    pub fn entries(&self) -> &[T]
        ensures { result.now ≡ items self.now }
    {
        &self.slots[..self.used]
    }

    // The entry at a place, or none.
    pub fn entry(&self, place: usize) -> Option<T>
        ensures { result ≡ slice_get (items self.now) place }
    {
        self.entries().get(place).copied()
    }

    // Adds an entry where one fits.
    pub(crate) fn add(&mut self, entry: T)
        requires { length (items self.old) < capacity self.old }
        ensures items { items self.new ≡ items self.old ++ entry ∷ [] }
        ensures capacity { capacity self.new ≡ capacity self.old }
        ensures lender { self.new.slots.ghost_name ≡ self.old.slots.ghost_name }
    {
        self.slots[self.used] = entry;
        self.used += 1;
    }

    // Adds an entry, or hands it back where none fits and changes nothing.
    pub fn push(&mut self, entry: T) -> Result<(), T>
        ensures answer { result ≡ (if nat_lt (length (items self.old)) (capacity self.old) then Ok tt else Err entry) }
        ensures items { items self.new ≡ (if nat_lt (length (items self.old)) (capacity self.old) then items self.old ++ entry ∷ [] else items self.old) }
        ensures capacity { capacity self.new ≡ capacity self.old }
        ensures lender { self.new.slots.ghost_name ≡ self.old.slots.ghost_name }
    {
        if self.room() == 0 {
            return Err(entry);
        }
        self.add(entry);
        Ok(())
    }
}

impl<'a, T: Copy + Weighted> Stack<'a, T> {
    // What the entry at a place weighs, or none.
    pub fn weight_at(&self, place: usize) -> Option<usize>
        ensures { result ≡ option_map T.Weighted.weight (slice_get (items self.now) place) }
    {
        self.entry(place).map(|entry| entry.weight())
    }
}
