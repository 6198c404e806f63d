use words::{ClauseNumber, Literal};

// The fields of an R line: the new number, the pivot and the two parents.
#[derive(Clone, Copy)]
pub(crate) struct Resolution {
    pub(crate) number: ClauseNumber,
    pub(crate) pivot: Literal,
    pub(crate) first: ClauseNumber,
    pub(crate) second: ClauseNumber,
}

// A line whose fields are in range: each field that its kind uses, as the word that it is.
#[derive(Clone, Copy)]
pub(crate) enum Step {
    Resolve(Resolution),
    // the clause, and the one that subsumes it
    Subsumed {
        clause: ClauseNumber,
        first: ClauseNumber,
    },
    Blocked {
        clause: ClauseNumber,
        pivot: Literal,
    },
    // the variable, as its positive literal
    Eliminate {
        pivot: Literal,
    },
}
