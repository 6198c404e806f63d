// The reader: DIMACS CNF text into a loading session on any clause database.

#![tactic(auto)]

mod counts;
mod formula;
mod header;
mod lists;
pub mod numeral;
pub mod parts;
mod reading;
mod scan;
mod scanner;

pub use formula::read_formula;
pub use header::announced;
