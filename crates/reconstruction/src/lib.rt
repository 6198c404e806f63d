// The reconstruction stack (the customers' roll): clauses saved with their pivots, and the restoring of an assignment from them.

#![tactic(auto)]

mod repair;
mod restoring;
pub mod saved;
pub mod saves;
pub mod stack;
#[cfg(test)]
mod tests;
mod truth;

pub use restoring::restore;
pub use saved::{SavedEntry, SavedLiteral};
pub use saves::ReconstructionStack;
pub use stack::{Stack, Weighted};
