// What the judge keeps, and its reading of open, load, restore and write. That it resembles the product is the point: it is
// written a second time, from the rules alone.
use crate::answer::{Stop, at, nowhere};
use crate::sets::{has_pair, set_of};
use std::alloc::{AllocError, Global};
use std::collections::BTreeMap;
use trials::assignments::{is_met, make_true};
use words::{Layer, Refusal};

// A saved clause and the literal that repairs it.
#[derive(Drop)]
pub struct Saved {
    pub pivot: i16,
    pub literals: Vec<i16>,
}

// What there is space for: the highest variable, clauses and literals of the database, entries and literals of the stack.
#[derive(Clone, Copy)]
pub struct Space {
    pub variables: usize,
    pub clauses: usize,
    pub literals: usize,
    pub entries: usize,
    pub saved: usize,
}

// The lists that were loaded, the standing clauses under their numbers, the saved ones in the order in which they were saved, the
// highest number given and the count of accepted lines.
#[derive(Drop)]
pub struct Judge {
    pub heap: Global,
    pub space: Space,
    pub variables: u32,
    pub loaded: Vec<Vec<i16>>,
    pub stands: BTreeMap<u32, Vec<i16>>,
    pub saved: Vec<Saved>,
    pub last: u32,
    pub accepted: u32,
}

impl Judge {
    pub fn new(heap: Global, space: Space, variables: u32) -> Judge {
        Judge {
            heap,
            space,
            variables,
            loaded: Vec::new(heap),
            stands: BTreeMap::new(heap),
            saved: Vec::new(heap),
            last: 0,
            accepted: 0,
        }
    }

    // How many literals stand together.
    pub fn standing_literals(&self) -> usize {
        self.stands
            .values()
            .fold(0usize, |sum, literals| sum.saturating_add(literals.len()))
    }

    // How many literals are saved together.
    pub fn saved_literals(&self) -> usize {
        self.saved.iter().fold(
            0usize,
            |sum, entry| sum.saturating_add(entry.literals.len()),
        )
    }

    // How open would be answered now, for a formula of so many variables: with that count.
    pub fn open_answer(&self, variables: u32) -> Result<u32, Refusal> {
        if !self.stands.is_empty() {
            return Err(nowhere(10, Layer::Open));
        }
        if !self.saved.is_empty() {
            return Err(nowhere(11, Layer::Open));
        }
        if variables > 512 {
            return Err(nowhere(12, Layer::Open));
        }
        Ok(variables)
    }

    // Whether a variable is over the database's highest.
    fn too_high(&self, set: &[i16]) -> bool {
        set.iter()
            .any(|x| usize::from(x.unsigned_abs()) > self.space.variables)
    }

    // Whether the database takes a clause under a number.
    pub fn put_answer(&self, number: u32, set: &[i16]) -> Result<(), Refusal> {
        if self.stands.contains_key(&number) {
            return Err(nowhere(60, Layer::Shelf));
        }
        if self.too_high(set) {
            return Err(nowhere(61, Layer::Shelf));
        }
        if set.len() > 64 {
            return Err(nowhere(62, Layer::Shelf));
        }
        if self.stands.len() >= self.space.clauses {
            return Err(nowhere(63, Layer::Shelf));
        }
        if self.standing_literals().saturating_add(set.len()) > self.space.literals {
            return Err(nowhere(64, Layer::Shelf));
        }
        Ok(())
    }

    // The first position that holds 0 or a variable beyond the formula.
    fn beyond(&self, list: &[i16]) -> Option<usize> {
        list.iter().position(|x| *x == 0 || u32::from(x.unsigned_abs()) > self.variables)
    }

    // Whether a list is loaded that holds this set of literals.
    fn load_answer(&self, list: &[i16], set: &[i16]) -> Result<(), Refusal> {
        if self.loaded.len() >= 1_024 {
            return Err(nowhere(27, Layer::Load));
        }
        if let Some(i) = self.beyond(list) {
            return Err(at(24, i.saturating_add(1), Layer::Load));
        }
        if has_pair(list) {
            return Ok(());
        }
        if let Some(i) = set.get(64).and_then(|x| list.iter().position(|y| *y == *x)) {
            return Err(at(25, i.saturating_add(1), Layer::Load));
        }
        self.put_answer(self.last.saturating_add(1), set)
    }

    // Loads a list under the next number, or refuses it.
    pub fn load(&mut self, list: &[i16]) -> Result<u32, Stop> {
        let set = set_of(self.heap, list)?;
        self.load_answer(list, set.as_slice())?;
        self.last = self.last.saturating_add(1);
        self.loaded.push(list.to_vec(self.heap)?)?;
        if !has_pair(list) {
            self.stands.insert(self.last, set)?;
        }
        Ok(self.last)
    }

    // The lowest number of a standing clause that is not met.
    pub fn first_unmet(&self, assignment: &[u8]) -> Option<u32> {
        self.stands
            .iter()
            .find(|(_, literals)| !is_met(literals.as_slice(), assignment))
            .map(|(number, _)| *number)
    }

    // How restoring is answered. `as`: the library has no `From` from u32 to usize.
    pub fn restore_answer(&self, assignment: &[u8]) -> Result<(), Refusal> {
        if assignment.len() != self.variables as usize {
            return Err(at(70, assignment.len(), Layer::Restore));
        }
        if let Some(i) = assignment.iter().position(|byte| *byte > 1) {
            return Err(at(71, i.saturating_add(1), Layer::Restore));
        }
        match self.first_unmet(assignment) {
            Some(number) => Err(at(72, number as usize, Layer::Restore)),
            None => Ok(()),
        }
    }

    // From the last saved clause to the first: the pivot of one that is not met is made true. The model of `cases` has the same
    // loop, as each reads the rule for itself.
    pub fn restore(&self, assignment: &mut [u8]) {
        for entry in self.saved.iter().rev() {
            if !is_met(entry.literals.as_slice(), assignment) {
                make_true(entry.pivot, assignment);
            }
        }
    }

    // The literals of a clause by rising variable, each with a space, and 0 at the end of the line.
    fn clause_text(&self, clause: &[i16], text: &mut String) -> Result<(), AllocError> {
        let mut literals = clause.to_vec(self.heap)?;
        literals.sort_unstable_by_key(|x| x.unsigned_abs());
        for x in literals.iter() {
            write!(text, "{x} ")?;
        }
        text.push_str("0\n")
    }

    // The text of what stands.
    pub fn text(&self) -> Result<String, AllocError> {
        let variables = self.variables;
        let count = self.stands.len();
        let mut text = format!(in self.heap; "p cnf {variables} {count}\n")?;
        for clause in self.stands.values() {
            self.clause_text(clause.as_slice(), &mut text)?;
        }
        Ok(text)
    }

    // How writing a text of this length into a buffer of that length is answered: with its length.
    pub fn write_answer(&self, text: usize, buffer: usize) -> Result<usize, Refusal> {
        if self.stands.len() > 1_024 || text > 65_536 {
            return Err(nowhere(81, Layer::Write));
        }
        if buffer < text {
            return Err(nowhere(80, Layer::Write));
        }
        Ok(text)
    }
}
