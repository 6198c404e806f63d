// What the tests with models of their own share: random numbers from a seed, memories that were used before, literals under an assignment.

#![tactic(auto)]

pub mod assignments;
pub mod filled;
pub mod random;
