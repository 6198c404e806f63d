// Literal marks and resolvents: whether clauses clash or one covers another is looked up in marks that are wiped when they end.

#![tactic(auto)]

mod marks;
mod resolving;

pub use marks::{Marks, clean};
pub use resolving::resolvent;
