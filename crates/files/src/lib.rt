// The whole task on memory handed in: a formula and a trace as texts, checked on any clause database, and the reduced formula written.

#![tactic(auto)]

mod checking;
mod report;

pub use checking::{check_files, finish_and_write};
pub use report::Report;
