// Sets of literals as lists without repetition, in any order.
use std::alloc::{AllocError, Global};

pub fn negated(x: i16) -> i16 {
    x.wrapping_neg()
}

// The literals of a list, each once, in the order in which they are first written. A loop and no chain: what is in
// the set already decides of each.
pub fn set_of(heap: Global, list: &[i16]) -> Result<Vec<i16>, AllocError> {
    let mut set = Vec::new(heap);
    for x in list {
        if !set.as_slice().contains(x) {
            set.push(*x)?;
        }
    }
    Ok(set)
}

// Whether a literal stands together with its negation.
pub fn has_pair(list: &[i16]) -> bool {
    list.iter().any(|x| list.contains(&negated(*x)))
}

// Whether every literal of the one is in the other.
pub fn within(part: &[i16], whole: &[i16]) -> bool {
    part.iter().all(|x| whole.contains(x))
}

// Whether two sets are the same.
pub fn equal(a: &[i16], b: &[i16]) -> bool {
    a.len() == b.len() && within(a, b) && within(b, a)
}

// All literals of a except the pivot, and all of b except its negation.
pub fn resolvent(heap: Global, a: &[i16], b: &[i16], pivot: i16) -> Result<Vec<i16>, AllocError> {
    let others: Vec<i16> = a
        .iter()
        .filter(|x| **x != pivot)
        .chain(b.iter().filter(|x| **x != negated(pivot)))
        .copied()
        .collect(heap)?;
    set_of(heap, others.as_slice())
}
