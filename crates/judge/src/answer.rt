// What the judge answers: a refusal in plain words, or none.
use std::alloc::{AllocError, AllocFailed};
use words::{Layer, Place, Refusal};

// Why the judge ends a call: it is refused, or there is no memory to judge it in.
#[derive(Drop)]
pub enum Stop {
    Refused(Refusal),
    OutOfMemory,
}

impl From<Refusal> for Stop {
    fn from(refusal: Refusal) -> Stop {
        Stop::Refused(refusal)
    }
}

impl From<AllocError> for Stop {
    fn from(_error: AllocError) -> Stop {
        Stop::OutOfMemory
    }
}

impl<T: Drop> From<AllocFailed<T>> for Stop {
    fn from(_error: AllocFailed<T>) -> Stop {
        Stop::OutOfMemory
    }
}

// The answer that a call is to get.
pub fn answered<T>(judged: Result<T, Stop>) -> Result<Result<T, Refusal>, AllocError> {
    match judged {
        Ok(value) => Ok(Ok(value)),
        Err(Stop::Refused(refusal)) => Ok(Err(refusal)),
        Err(Stop::OutOfMemory) => Err(AllocError),
    }
}

// A refusal that points nowhere.
pub fn nowhere(number: u8, layer: Layer) -> Refusal {
    Refusal {
        number,
        place: Place::Nowhere,
        layer,
    }
}

// A refusal at a length, or at a place counted from 1.
pub fn at(number: u8, place: usize, layer: Layer) -> Refusal {
    Refusal {
        number,
        place: Place::At(place),
        layer,
    }
}
