// The arena, a clause database over two memories handed in: one of literals, one of records (the customers' strip).

#![tactic(auto)]

pub mod arena;
mod interface;
mod memory;
mod packing;
pub mod records;
mod splice;

pub use arena::Arena;
pub use records::Record;

#[cfg(test)]
mod tests;
