// The four limits of a clause database, fixed when it is made.
#[derive(Clone, Copy, PartialEq, Eq, Debug)]
pub struct Limits {
    // the highest variable
    pub variables: usize,
    // the widest clause
    pub width: usize,
    // the most clauses
    pub clauses: usize,
    // the most literals in them together
    pub literals: usize,
}
