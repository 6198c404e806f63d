// The trace reader: proof lines as text, each submitted to a checking session before the next is read.

#![tactic(auto)]

mod numbered;
mod numbering;
mod reading;
mod values;

pub use reading::read_trace;
