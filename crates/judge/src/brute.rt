// Satisfiability by trying every assignment.
use crate::judge::Judge;
use std::alloc::AllocError;
use trials::assignments::{is_met, make_true};

impl Judge {
    // Whether an assignment meets every loaded list.
    pub fn meets_loaded(&self, assignment: &[u8]) -> bool {
        self.loaded
            .iter()
            .all(|list| is_met(list.as_slice(), assignment))
    }

    // The assignment whose bytes are the digits of a number in base 2.
    pub fn assignment(&self, code: u32) -> Result<Vec<u8>, AllocError> {
        (0..self.variables)
            .map(|v| u8::from(code.checked_shr(v).unwrap_or(0) % 2 == 1))
            .collect(self.heap)
    }

    // Whether two assignments differ at most in variables of saved pivots: made the same there, they are the same.
    pub fn differ_in_pivots(&self, before: &[u8], after: &[u8]) -> Result<bool, AllocError> {
        let mut one = before.to_vec(self.heap)?;
        let mut other = after.to_vec(self.heap)?;
        for entry in self.saved.iter() {
            make_true(entry.pivot, one.as_mut_slice());
            make_true(entry.pivot, other.as_mut_slice());
        }
        Ok(one.as_slice() == other.as_slice())
    }
}
