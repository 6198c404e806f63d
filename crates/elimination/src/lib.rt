// The elimination of a variable, on any clause database: its clauses are saved and taken away when every resolvent on it holds an
// opposite pair or stands.

#![tactic(auto)]

mod covering;
pub mod eliminate;
mod signatures;
