ghost use Rattle.std.specs.Prelude.{◌≤◌};

// What the header of a formula announces.
#[derive(Clone, Copy)]
pub struct Counts {
    pub variables: u32,
    pub clauses: u32,
}

// A header that announces no more than a formula may have.
#[derive(Clone, Copy)]
pub struct Header {
    pub counts: Counts,
    ghost narrow: { counts.variables ≤ 512 },
    ghost few: { counts.clauses ≤ 1024 },
}
