// The four kinds of proof lines, each in a file of its own but the elimination, which is a crate below: judged on any clause database,
// and carried out when accepted.

#![tactic(auto)]

mod blocked;
mod carry;
mod fields;
mod resolve;
mod steps;
mod subsumed;

pub use carry::carry_out;
