// Where a literal belongs in a clause.
#[derive(Clone, Copy)]
pub enum Spot {
    // it is in the clause
    Present,
    // its negation is in the clause
    Opposite,
    // neither is; with the place where it would come
    Free(usize),
}
