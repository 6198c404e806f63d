// Where a refusal points.
#[derive(Clone, Copy, PartialEq, Eq, Debug)]
pub enum Place {
    Nowhere,
    // a clause number, a position, a field or a length
    At(usize),
    // two clause numbers
    Pair(u32, u32),
}

// What refused. Shelf is the customers' word for a clause database, roll for the reconstruction stack.
#[derive(Clone, Copy, PartialEq, Eq, Debug)]
pub enum Layer {
    Open,
    File,
    Formula,
    Load,
    Trace,
    Submit,
    Rule,
    Shelf,
    Roll,
    Restore,
    Write,
}

// A refusal as it is told: its number, its place and its layer. Inside, a refusal is a case of a fault; the number is for those who are told.
#[derive(Clone, Copy, PartialEq, Eq, Debug)]
pub struct Refusal {
    pub number: u8,
    pub place: Place,
    pub layer: Layer,
}
