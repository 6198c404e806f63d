// Where the literals of a clause lie: they begin at `start` and are `len`. Plain numbers: a memory is made of records of no clause, and
// the literals are one lent memory that its records can't borrow.
#[derive(Clone, Copy)]
pub struct Record {
    pub number: u32,
    pub start: u16,
    pub len: u8,
}

impl Record {
    // A record of no clause, to make memories of.
    pub const EMPTY: Record = Record {
        number: 0,
        start: 0,
        len: 0,
    };
}
