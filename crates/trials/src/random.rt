// Random numbers from a seed. `as`: the library has no `From` from u32 to usize, and the other numbers are bounded first.
ghost use Rattle.std.specs.Prelude.{◌≡◌, ◌+◌, ◌-◌, ◌^◌, ◌==◌, ◌≤◌, min, vec_len, IfOk, All};
ghost use Rattle.trials.specs.Drawing.{stepped, drawn, drawn_literal};

use std::alloc::{AllocError, Global};

// An xorshift generator; its state is never 0.
#[derive(Drop)]
pub struct Random {
    pub state: u64,
}

impl Random {
    fn step(&mut self) -> u64
        ensures state { self.new.state ≡ stepped self.old.state }
        ensures value { result ≡ stepped self.old.state }
    {
        let mut x = self.state;
        x ^= x << 13;
        x ^= x >> 7;
        x ^= x << 17;
        self.state = x;
        x
    }

    // A number below a bound; 0 where the bound is 0.
    pub fn below(&mut self, bound: u32) -> u32
        ensures state { self.new.state ≡ stepped self.old.state }
        ensures value { result ≡ drawn self.old.state bound }
    {
        ((self.step() >> 32) % u64::from(bound.max(1))) as u32
    }

    // A number from a lowest one on, one of so many.
    pub fn from(&mut self, lowest: u32, count: u32) -> u32
        ensures state { self.new.state ≡ stepped self.old.state }
        ensures value { result ≡ min (drawn self.old.state count + lowest) (2 ^ 32 - 1) }
    {
        self.below(count).saturating_add(lowest)
    }

    // A place in a list of this length; 0 where it is empty.
    pub fn place(&mut self, len: usize) -> usize
        ensures state { self.new.state ≡ stepped self.old.state }
        ensures value { result ≡ drawn self.old.state (min len 65536) }
    {
        self.below(len.min(65_536) as u32) as usize
    }

    // True once in so many times.
    pub fn once_in(&mut self, times: u32) -> bool
        ensures state { self.new.state ≡ stepped self.old.state }
        ensures value { result ≡ (drawn self.old.state times == 0) }
    {
        self.below(times) == 0
    }

    // A literal of the variables up to a count, negated once in so many times.
    pub fn literal(&mut self, variables: u32, negated: u32) -> i16
        ensures state { self.new.state ≡ stepped (stepped self.old.state) }
        ensures value { result ≡ drawn_literal self.old.state variables negated }
    {
        let v = (self.below(variables) % 512) as i16 + 1;
        if self.once_in(negated) { -v } else { v }
    }

    // The bytes of an assignment of so many variables. A loop and no chain: a closure would hold the generator.
    pub fn bytes(&mut self, heap: Global, count: u32) -> Result<Vec<u8>, AllocError>
        ensures len { IfOk result (λ v. vec_len v ≡ count) }
        ensures bits { IfOk result (λ v. All (λ b. b ≤ 1) v.items) }
    {
        let mut bytes = Vec::new(heap);
        for _ in 0..count {
            bytes.push(u8::from(self.below(2) == 1))?;
        }
        Ok(bytes)
    }
}
