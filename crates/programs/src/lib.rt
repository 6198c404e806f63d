// What the programs share: what they are called with, and how an accepted task and a refusal are printed.

#![tactic(auto)]

mod arguments;
mod printing;
mod refusals;

pub use arguments::{Arguments, command_line};
pub use printing::print_report;
pub use refusals::{Inputs, print_row};
