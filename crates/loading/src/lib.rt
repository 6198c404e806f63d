// The loading session: it is opened on an empty clause database and an empty reconstruction stack, and takes the clauses of a
// formula one list after another.

#![tactic(auto)]

ghost use Rattle.std.specs.Prelude.{◌≤◌};

mod lists;
mod loads;
mod opening;

pub use opening::open;

// A session that loads a formula: the formula's variable count, and how many lists were accepted.
#[derive(Drop)]
pub struct Loading {
    variables: u16,
    loaded: u16,
    ghost narrow: { variables ≤ 512 },
    ghost few: { loaded ≤ 1024 },
}
