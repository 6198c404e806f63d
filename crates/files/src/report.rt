use session::{Counts, Finished};

// What the whole task tells: the finished session, from which assignments are restored, finish's counts, and how many bytes of the
// buffer the reduced formula takes. A length and no part of the buffer, which stays lent to the caller.
#[derive(Drop)]
pub struct Report {
    pub finished: Finished,
    pub counts: Counts,
    pub length: usize,
}
