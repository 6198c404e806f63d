// The judge's reading of a line: its fields, the four rules, and what an accepted line does. Sets, resolvents and checks are its
// own, since it judges the product's.
use crate::answer::{Stop, at, nowhere};
use crate::judge::{Judge, Saved};
use crate::sets::{equal, has_pair, negated, resolvent, within};
use std::alloc::AllocError;
use words::{Kind, Layer, Line, Place, Refusal};

// A line whose fields are right: those that its kind uses.
#[derive(Clone, Copy)]
enum Step {
    Resolve {
        number: u32,
        pivot: i16,
        first: u32,
        second: u32,
    },
    Subsumed {
        clause: u32,
        first: u32,
    },
    Blocked {
        clause: u32,
        pivot: i16,
    },
    Eliminate {
        pivot: i16,
    },
}

// A refusal by a rule, at a clause. `as`: the library has no `From` from u32 to usize.
fn at_clause(number: u8, clause: u32) -> Refusal {
    at(number, clause as usize, Layer::Rule)
}

// A refusal by a rule, at two clauses.
fn at_pair(number: u8, one: u32, other: u32) -> Refusal {
    Refusal {
        number,
        place: Place::Pair(one, other),
        layer: Layer::Rule,
    }
}

// Whether a number is no clause number.
fn no_number(value: u32) -> bool {
    !(1..=1_000_000).contains(&value)
}

// Whether a number is no literal.
fn no_literal(value: i32) -> bool {
    value == 0 || !(-512..=512).contains(&value)
}

// Of each field behind the kind, whether it is wrong: a used one out of range, or one filled that is not used.
fn wrong_fields(line: &Line) -> [bool; 4] {
    let Line {
        kind,
        clause,
        pivot,
        first,
        second,
    } = *line;
    match kind {
        Kind::Resolve => [
            no_number(clause),
            no_literal(pivot),
            no_number(first),
            no_number(second),
        ],
        Kind::Subsumed => [no_number(clause), pivot != 0, no_number(first), second != 0],
        Kind::Blocked => [
            no_number(clause),
            no_literal(pivot),
            first != 0,
            second != 0,
        ],
        Kind::Eliminate => [
            clause != 0,
            !(1..=512).contains(&pivot),
            first != 0,
            second != 0,
        ],
    }
}

// Reads a line, or refuses it at its first wrong field.
fn read(line: &Line) -> Result<Step, Refusal> {
    if let Some(i) = wrong_fields(line).iter().position(|wrong| *wrong) {
        return Err(at(33, i.saturating_add(2), Layer::Submit));
    }
    // a pivot that is not wrong is a 16-bit number
    let pivot = i16::try_from(line.pivot).unwrap_or(0);
    Ok(match line.kind {
        Kind::Resolve => Step::Resolve {
            number: line.clause,
            pivot,
            first: line.first,
            second: line.second,
        },
        Kind::Subsumed => Step::Subsumed {
            clause: line.clause,
            first: line.first,
        },
        Kind::Blocked => Step::Blocked {
            clause: line.clause,
            pivot,
        },
        Kind::Eliminate => Step::Eliminate { pivot },
    })
}

// Whether the marks are 1,024 zeros.
fn clean(marks: &[u8]) -> bool {
    marks.len() == 1_024 && marks.iter().all(|mark| *mark == 0)
}

// The literal of a variable that a clause holds; none holds both.
fn side(literals: &[i16], pivot: i16) -> Option<i16> {
    [pivot, negated(pivot)]
        .into_iter()
        .find(|x| literals.contains(x))
}

// Refuses a clause that lacks a literal.
fn holding(number: u32, literals: &[i16], x: i16) -> Result<(), Refusal> {
    if literals.contains(&x) {
        Ok(())
    } else {
        Err(at_clause(43, number))
    }
}

impl Judge {
    // The clause that stands under a number, which a rule asks for.
    fn standing(&self, number: u32) -> Result<&[i16], Refusal> {
        self.stands
            .get(&number)
            .map(|literals| literals.as_slice())
            .ok_or(at_clause(42, number))
    }

    // The resolvent that a line adds.
    fn resolved(&self, number: u32, pivot: i16, first: u32, second: u32) -> Result<Vec<i16>, Stop> {
        if number <= self.last {
            return Err(at_clause(41, number).into());
        }
        let a = self.standing(first)?;
        let b = self.standing(second)?;
        holding(first, a, pivot)?;
        holding(second, b, negated(pivot))?;
        let both = resolvent(self.heap, a, b, pivot)?;
        if has_pair(both.as_slice()) {
            return Err(at_pair(44, first, second).into());
        }
        if both.len() > 64 {
            return Err(at_pair(45, first, second).into());
        }
        self.put_answer(number, both.as_slice())?;
        Ok(both)
    }

    fn subsumed(&self, clause: u32, first: u32) -> Result<(), Refusal> {
        let whole = self.standing(clause)?;
        let part = self.standing(first)?;
        if first == clause || !within(part, whole) {
            return Err(at_pair(46, clause, first));
        }
        Ok(())
    }

    // Whether the stack has space for so many entries and literals.
    fn save_answer(&self, entries: usize, literals: usize) -> Result<(), Refusal> {
        if self.saved.len().saturating_add(entries) > self.space.entries {
            return Err(nowhere(65, Layer::Roll));
        }
        if self.saved_literals().saturating_add(literals) > self.space.saved {
            return Err(nowhere(66, Layer::Roll));
        }
        Ok(())
    }

    // Whether a clause is blocked on its literal, and there is space to save it.
    fn blocked(&self, number: u32, pivot: i16) -> Result<(), Stop> {
        let clause = self.standing(number)?;
        holding(number, clause, pivot)?;
        let passes = |both: &[i16]| has_pair(both);
        if let Some(other) = self.fails_with(clause, pivot, &passes)? {
            return Err(at_clause(47, other).into());
        }
        self.save_answer(1, clause.len())?;
        Ok(())
    }

    // Whether a set stands under some number.
    pub fn stands_somewhere(&self, set: &[i16]) -> bool {
        self.stands
            .values()
            .any(|literals| equal(literals.as_slice(), set))
    }

    // The lowest number from N whose resolvent with a clause from P does not pass. A loop: a resolvent may find no memory.
    fn fails_with<F: Fn(&[i16]) -> bool>(
        &self,
        clause: &[i16],
        pivot: i16,
        passes: &F,
    ) -> Result<Option<u32>, AllocError>
        requires { F.IsAlwaysCallable passes.now }
    {
        for (other, literals) in self.stands.iter() {
            if literals.as_slice().contains(&negated(pivot)) {
                let both = resolvent(self.heap, clause, literals.as_slice(), pivot)?;
                if !passes(both.as_slice()) {
                    return Ok(Some(*other));
                }
            }
        }
        Ok(None)
    }

    // Whether every pair on a pivot is covered.
    fn covered(&self, pivot: i16) -> Result<(), Stop> {
        let passes = |both: &[i16]| has_pair(both) || self.stands_somewhere(both);
        for (number, literals) in self.stands.iter() {
            if literals.as_slice().contains(&pivot) {
                if let Some(other) = self.fails_with(literals.as_slice(), pivot, &passes)? {
                    return Err(at_pair(48, *number, other).into());
                }
            }
        }
        Ok(())
    }

    // The numbers of P and N, each with the literal of the pivot that its clause holds.
    fn sides(&self, pivot: i16) -> Result<Vec<(u32, i16)>, AllocError> {
        self.stands
            .iter()
            .filter_map(|(number, literals)| Some((*number, side(literals.as_slice(), pivot)?)))
            .collect(self.heap)
    }

    // How many literals the clauses of P and N have together.
    fn side_literals(&self, pivot: i16) -> usize {
        self.stands
            .values()
            .filter(|literals| side(literals.as_slice(), pivot).is_some())
            .fold(0usize, |sum, literals| sum.saturating_add(literals.len()))
    }

    fn eliminate(&mut self, pivot: i16) -> Result<(), Stop> {
        self.covered(pivot)?;
        let sides = self.sides(pivot)?;
        self.save_answer(sides.len(), self.side_literals(pivot))?;
        for (number, side) in sides.iter() {
            self.take_and_save(*number, *side)?;
        }
        Ok(())
    }

    fn take_and_save(&mut self, number: u32, pivot: i16) -> Result<(), AllocError> {
        if let Some(literals) = self.stands.remove(&number) {
            self.saved.push(Saved { pivot, literals })?;
        }
        Ok(())
    }

    // Carries out a step, or refuses it.
    fn carry_out(&mut self, step: Step) -> Result<(), Stop> {
        match step {
            Step::Resolve {
                number,
                pivot,
                first,
                second,
            } => {
                let both = self.resolved(number, pivot, first, second)?;
                self.last = number;
                self.stands.insert(number, both)?;
            }
            Step::Subsumed { clause, first } => {
                self.subsumed(clause, first)?;
                self.stands.remove(&clause);
            }
            Step::Blocked { clause, pivot } => {
                self.blocked(clause, pivot)?;
                self.take_and_save(clause, pivot)?;
            }
            Step::Eliminate { pivot } => self.eliminate(pivot)?,
        }
        Ok(())
    }

    // Carries out a line, or refuses it.
    pub fn submit(&mut self, marks: &[u8], line: &Line) -> Result<(), Stop> {
        if !clean(marks) {
            return Err(nowhere(40, Layer::Submit).into());
        }
        self.carry_out(read(line)?)?;
        self.accepted = self.accepted.saturating_add(1);
        Ok(())
    }
}
