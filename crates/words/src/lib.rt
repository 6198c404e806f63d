// The words of the checker: variables, literals, clause numbers, clauses, limits, proof lines, and every fault with its refusal.

#![tactic(auto)]

pub mod blocks;
pub mod clause;
mod clause_literals;
pub mod convert;
mod display;
pub mod fault;
pub mod limits;
pub mod line;
pub mod literal;
pub mod number;
mod range;
pub mod refusal;
mod spot;
pub mod variable;

pub use clause::Clause;
pub use clause_literals::ClauseLiterals;
pub use fault::{DatabaseFault, File, FileFault, LocatedFault, SessionFault, StackFault};
pub use limits::Limits;
pub use line::{Field, Kind, Line};
pub use literal::Literal;
pub use number::ClauseNumber;
pub use range::OutOfRange;
pub use refusal::{Layer, Place, Refusal};
pub use variable::Variable;
