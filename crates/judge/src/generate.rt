// Random lists and lines, most of them meaningful where they are sent.
use crate::judge::Judge;
use crate::sets::{negated, within};
use std::alloc::{AllocError, Global};
use trials::random::Random;
use words::{Kind, Line};

// What a history is made of: the formula's variables, how many literals are drawn for a list at most, one in how many of them is
// negated, one in how many lists gets an opposite pair, how many lists and lines there are.
#[derive(Clone, Copy)]
pub struct Plan {
    pub variables: u32,
    pub width: u32,
    pub negated: u32,
    pub paired: u32,
    pub lists: u32,
    pub lines: u32,
}

// A number that is no literal of a formula of so many variables, or only just one. `as`: the bounded count always fits.
fn odd_literal(random: &mut Random, variables: u32) -> i16 {
    let next = variables.min(512) as i16 + 1;
    match random.below(7) {
        0 => i16::MIN,
        1 => i16::MAX,
        2 => next,
        3 => -next,
        4 => next - 1,
        _ => 0,
    }
}

// A list: literals, now and then a copy, an opposite pair, or a number that is no literal of the formula.
pub fn some_list(heap: Global, random: &mut Random, plan: &Plan) -> Result<Vec<i16>, AllocError> {
    let mut list = Vec::new(heap);
    let width = if random.once_in(50) {
        0
    } else {
        random.from(1, plan.width)
    };
    for _ in 0..width {
        let x = random.literal(plan.variables, plan.negated);
        if !list.as_slice().contains(&negated(x)) {
            list.push(x)?;
        }
    }
    let x = some_literal(random, list.as_slice());
    if random.once_in(8) {
        list.push(x)?;
    }
    if random.once_in(plan.paired) {
        list.push(negated(x))?;
    }
    if random.once_in(16) {
        let at = random.place(list.len()).min(list.len());
        list.insert(at, odd_literal(random, plan.variables))?;
    }
    Ok(list)
}

// A literal of a list; 1 where it is empty.
fn some_literal(random: &mut Random, list: &[i16]) -> i16 {
    list.get(random.place(list.len())).copied().unwrap_or(1)
}

// The number of another clause that is part of this one.
fn part_of(judge: &Judge, whole: u32, literals: &[i16]) -> Option<u32> {
    judge
        .stands
        .iter()
        .find(|(number, part)| **number != whole && within(part.as_slice(), literals))
        .map(|(number, _)| *number)
}

// Makes random lines for what stands before the judge.
#[derive(Drop)]
pub struct Lines<'t> {
    pub random: &'t mut Random,
    pub judge: &'t Judge,
}

impl Lines<'_> {
    // A standing clause and a literal of it; 1 and 1 where there is none.
    fn literal(&mut self) -> (u32, i16) {
        let judge = self.judge;
        let place = self.random.place(judge.stands.len());
        match judge.stands.iter().nth(place) {
            Some((number, literals)) => (*number, some_literal(self.random, literals.as_slice())),
            None => (1, 1),
        }
    }

    // A number, most often of a standing clause.
    fn number(&mut self) -> u32 {
        let judge = self.judge;
        let place = self.random.place(judge.stands.len());
        match judge.stands.keys().nth(place) {
            Some(number) if !self.random.once_in(8) => *number,
            _ => self.random.below(judge.last.saturating_add(3)),
        }
    }

    // The number of a clause that holds a literal, each as likely as the others; any number where there is none.
    fn holder(&mut self, x: i16) -> u32 {
        let judge = self.judge;
        let mut found = self.number();
        let holders = judge
            .stands
            .iter()
            .filter(|(_, literals)| literals.as_slice().contains(&x));
        for (count, (number, _)) in (1u32..).zip(holders) {
            if self.random.once_in(count) {
                found = *number;
            }
        }
        found
    }

    fn resolve(&mut self) -> Line {
        let (first, pivot) = self.literal();
        Line {
            kind: Kind::Resolve,
            clause: self
                .judge
                .last
                .saturating_add(1)
                .saturating_add(self.random.below(3)),
            pivot: i32::from(pivot),
            first,
            second: self.holder(negated(pivot)),
        }
    }

    // A clause that another is part of, each as likely as the others; any two where there is none.
    fn subsumed(&mut self) -> Line {
        let judge = self.judge;
        let mut line = Line {
            kind: Kind::Subsumed,
            clause: self.number(),
            pivot: 0,
            first: self.number(),
            second: 0,
        };
        let wholes = judge.stands.iter().filter_map(|(whole, literals)| Some((
            *whole,
            part_of(judge, *whole, literals.as_slice())?,
        )));
        for (count, (whole, part)) in (1u32..).zip(wholes) {
            if self.random.once_in(count) {
                line.clause = whole;
                line.first = part;
            }
        }
        line
    }

    fn blocked(&mut self) -> Line {
        let (clause, pivot) = self.literal();
        Line {
            kind: Kind::Blocked,
            clause,
            pivot: i32::from(pivot),
            first: 0,
            second: 0,
        }
    }

    pub fn eliminate(&mut self) -> Line {
        let variables = self.judge.variables.saturating_add(1);
        Line {
            kind: Kind::Eliminate,
            clause: 0,
            pivot: i32::from(self.random.literal(variables, u32::MAX)),
            first: 0,
            second: 0,
        }
    }

    // A number in the place of a clause number, most often a wrong one.
    fn odd_number(&mut self) -> u32 {
        match self.random.below(8) {
            0 => 0,
            1 => 1_000_001,
            2 => 1_000_000,
            3 => self.judge.last,
            4 => self.random.below(self.judge.last.saturating_add(3)),
            _ => self.number(),
        }
    }

    // A number in the place of a pivot, most often a wrong one.
    fn odd_pivot(&mut self) -> i32 {
        match self.random.below(8) {
            0 => 0,
            1 => 513,
            2 => -513,
            3 => 512,
            4 => i32::MIN,
            _ => i32::from(self.random.literal(self.judge.variables, 2)),
        }
    }

    // A line that makes sense where it is sent.
    fn good(&mut self) -> Line {
        match self.random.below(8) {
            0..=2 => self.resolve(),
            3 | 4 => self.subsumed(),
            5 | 6 => self.blocked(),
            _ => self.eliminate(),
        }
    }

    // A line; one in four is broken in a field.
    pub fn any(&mut self) -> Line {
        let mut line = self.good();
        match self.random.below(16) {
            0 => line.clause = self.odd_number(),
            1 => line.pivot = self.odd_pivot(),
            2 => line.first = self.odd_number(),
            3 => line.second = self.odd_number(),
            _ => {}
        }
        line
    }
}
