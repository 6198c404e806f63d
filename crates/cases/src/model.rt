// A simple model of a clause database: the standing clauses by number, and the four limits. The judge has its own, as each reads
// the rules for itself.
use std::alloc::{AllocError, Global};
use std::collections::BTreeMap;
use words::{DatabaseFault, Limits};

// The standing clauses, each with its literals by rising variable, and the limits.
#[derive(Drop)]
pub struct Model {
    pub kept: BTreeMap<u32, Vec<i16>>,
    pub limits: Limits,
}

// The literals of a list by rising variable.
pub fn sorted(heap: Global, list: &[i16]) -> Result<Vec<i16>, AllocError> {
    let mut literals = list.to_vec(heap)?;
    literals.sort_unstable_by_key(|x| x.unsigned_abs());
    Ok(literals)
}

impl Model {
    // With no clause.
    pub fn new(heap: Global, limits: Limits) -> Model {
        Model {
            kept: BTreeMap::new(heap),
            limits,
        }
    }

    // How many literals stand together.
    pub fn total(&self) -> usize {
        self.kept
            .values()
            .fold(0usize, |sum, literals| sum.saturating_add(literals.len()))
    }

    // The lowest number above a given one.
    pub fn next(&self, above: u32) -> Option<u32> {
        self.kept.keys().copied().find(|number| *number > above)
    }

    // Whether a clause is taken.
    fn takes(&self, number: u32, literals: &[i16]) -> Result<(), DatabaseFault> {
        let highest = literals.last().map_or(0, |x| usize::from(x.unsigned_abs()));
        if self.kept.contains_key(&number) {
            return Err(DatabaseFault::NumberTaken);
        }
        if highest > self.limits.variables {
            return Err(DatabaseFault::VariableBeyond);
        }
        if literals.len() > self.limits.width {
            return Err(DatabaseFault::TooWide);
        }
        if self.kept.len() >= self.limits.clauses {
            return Err(DatabaseFault::ClausesFull);
        }
        if self.total().saturating_add(literals.len()) > self.limits.literals {
            return Err(DatabaseFault::LiteralsFull);
        }
        Ok(())
    }

    // Adds a clause, or tells why not.
    pub fn put(
        &mut self,
        number: u32,
        literals: Vec<i16>,
    ) -> Result<Result<(), DatabaseFault>, AllocError> {
        let taken = self.takes(number, literals.as_slice());
        if taken.is_ok() {
            self.kept.insert(number, literals)?;
        }
        Ok(taken)
    }

    // Takes a clause away, or tells that there is none.
    pub fn remove(&mut self, number: u32) -> Result<(), DatabaseFault> {
        self.kept
            .remove(&number)
            .map(|_| ())
            .ok_or(DatabaseFault::Absent(number))
    }
}
