ghost use Rattle.std.specs.Prelude.{◌≡◌, ℕ, ◌≤◌, min, length};

mod methods;

// An entry that tells a weight. Only what asks for the weight asks for this: the stack serves other entries as well.
pub trait Weighted {
    ghost weight: { Self → ℕ };

    fn weight(&self) -> usize
        ensures { result ≡ weight self.now };
}

// A stack over memory handed in: the first `used` slots are its entries, and it holds as many as the memory does, up to `most`.
// The three stay together: the memory is lent and of any length, so no type of its own length fits, and nothing is allocated.
#[derive(Drop)]
pub struct Stack<'a, T: Copy> {
    slots: &'a mut [T],
    used: usize,
    most: usize,
    ghost fits: { used ≤ min (length slots.now) most },
}
