// The session: after loading it is sealed into a checking session, which takes proof lines, and that is finished into one that
// restores assignments and writes the reduced formula. Each of the three is a moved type of plain numbers; clause database,
// reconstruction stack and marks are handed to each call, since they are the caller's memory and outlive each of the three.

#![tactic(auto)]

ghost use Rattle.std.specs.Prelude.{◌≤◌};

mod calls;
mod counting;
mod emptiness;

pub use calls::seal;

// A session that checks lines: the formula's variable count, the highest number given, and how many lines were accepted.
#[derive(Drop)]
pub struct Checking {
    variables: u16,
    given: u32,
    accepted: u32,
    ghost counted: { accepted ≤ 1000000000 },
}

// A finished session: the formula's variable count.
#[derive(Drop)]
pub struct Finished {
    variables: u16,
}

// What finish tells: how many lines were accepted, how many clauses stand, and whether the empty clause does: 1 or 0, as finish tells it.
#[derive(Clone, Copy, PartialEq, Eq, Debug)]
pub struct Counts {
    pub accepted: u32,
    pub standing: usize,
    pub empty: u8,
}
