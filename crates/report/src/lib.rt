// Refusals in plain words: rows for programs, headings, sentences and places for people.

#![tactic(auto)]

mod places;
mod rows;
mod texts;

pub use rows::Row;
pub use texts::{explanation, refusal_row, sentence};

#[cfg(test)]
mod tests;
