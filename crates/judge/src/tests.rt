// Random histories on both kinds of clause database.
use crate::drive::Trial;
use crate::generate::Plan;
use crate::judge::{Judge, Space};
use crate::tally::Tally;
use bitmask::Bitmask;
use database::ClauseDatabase;
use reconstruction::ReconstructionStack;
use std::alloc::Global;
use std::process::Abort;
use std::test::*;
use trials::filled::{arena_memory, stack_memory};
use trials::random::Random;

// How many histories there are on each kind.
const HISTORIES: u32 = 5_000;

// Mostly few variables, so that every assignment can be tried.
fn plain(random: &mut Random) -> Plan {
    let variables = if random.once_in(12) {
        random.below(11)
    } else {
        random.from(3, 4)
    };
    Plan {
        variables,
        width: random.from(3, 3),
        negated: 2,
        paired: 12,
        lists: random.from(1, 14),
        lines: random.from(4, 28),
    }
}

// Wide lists of mostly positive literals, so that few resolvents hold an opposite pair.
fn wide(random: &mut Random) -> Plan {
    Plan {
        variables: random.from(56, 40),
        width: 150,
        negated: 60,
        paired: 20,
        lists: 16,
        lines: 30,
    }
}

// So many lists that no more are taken, most of them with an opposite pair; or as many clauses as the bitmask kind takes.
fn many(random: &mut Random) -> Plan {
    let all = random.once_in(2);
    Plan {
        variables: 9,
        width: 4,
        negated: 2,
        paired: if all { 1 } else { 20 },
        lists: if all { 1_200 } else { 330 },
        lines: 4,
    }
}

// So many negated literals of high variables that their text is too long.
fn long() -> Plan {
    Plan {
        variables: 512,
        width: 64,
        negated: 1,
        paired: 50,
        lists: 500,
        lines: 4,
    }
}

fn some_plan(random: &mut Random) -> Plan {
    match random.below(400) {
        0 => long(),
        1 | 2 => many(random),
        3..=40 => wide(random),
        _ => plain(random),
    }
}

// Lengths of the memories of clauses or entries and of their literals, one time in four so short that they do not suffice.
fn some_lengths(random: &mut Random, few: usize, full: usize) -> (usize, usize) {
    match random.below(8) {
        0 => (random.place(few), 17_000),
        1 => (full, random.place(few.saturating_mul(3))),
        _ => (full, 17_000),
    }
}

// The histories of a run share the random numbers and the tally.
#[derive(Drop)]
struct Histories<'t, R: Abort> {
    rt: &'t R,
    heap: Global,
    random: Random,
    tally: Tally,
}

impl<R: Abort> Histories<'_, R> {
    // A history on an empty database and an empty stack, which have this space.
    fn on<'t, D: ClauseDatabase>(
        &'t mut self,
        db: &'t mut D,
        stack: &'t mut ReconstructionStack<'_>,
        space: Space,
        plan: &Plan,
    ) -> Result<(), Fail> {
        let mut trial = Trial {
            rt: self.rt,
            db,
            stack,
            marks: [0; 1025],
            judge: Judge::new(self.heap, space, plan.variables),
            random: &mut self.random,
            tally: &mut self.tally,
        };
        trial.run(plan)
    }

    // A history on an arena.
    fn on_arena(&mut self) -> Result<(), Fail> {
        let plan = some_plan(&mut self.random);
        let (records, literals) = some_lengths(&mut self.random, 10, 1_100);
        let (entries, saved) = some_lengths(&mut self.random, 6, 2_100);
        let mut arena_memory = arena_memory(self.heap, literals, records)?;
        let mut stack_memory = stack_memory(self.heap, entries, saved)?;
        let space = Space {
            variables: 512,
            clauses: records.min(1_024),
            literals: literals.min(16_384),
            entries: entries.min(2_048),
            saved: saved.min(16_384),
        };
        let mut arena = arena_memory.arena();
        let mut stack = stack_memory.stack();
        self.on(&mut arena, &mut stack, space, &plan)
    }

    // A history on a bitmask database.
    fn on_bitmask(&mut self) -> Result<(), Fail> {
        let plan = some_plan(&mut self.random);
        let (entries, saved) = some_lengths(&mut self.random, 6, 2_100);
        let mut memory = stack_memory(self.heap, entries, saved)?;
        let space = Space {
            variables: 64,
            clauses: 256,
            literals: 16_384,
            entries: entries.min(2_048),
            saved: saved.min(16_384),
        };
        let mut stack = memory.stack();
        self.on(&mut Bitmask::new(), &mut stack, space, &plan)
    }

    // So many histories came about, with refusals by these numbers and no others.
    fn end(&self, numbers: &[u8]) {
        self.tally.holds(self.rt, numbers);
    }
}

fn begin<R: Abort>(rt: &R, heap: Global, seed: u64) -> Histories<'_, R> {
    Histories {
        rt,
        heap,
        random: Random { state: seed },
        tally: Tally::new(heap),
    }
}

// Every number that a call of a session can be refused with on an arena: 60 to 62 can't come, as each number is new, no formula
// has a higher variable and no clause is wider.
const ARENA: [u8; 25] = [
    10, 11, 12, 24, 25, 27, 33, 40, 41, 42, 43, 44, 45, 46, 47, 48, 63, 64, 65, 66, 70, 71, 72, 80,
    81,
];

// Two tests that differ in the kind and the numbers; a closure for it would be longer.
#[test]
fn histories_on_arenas(rt: HostRuntime) -> Result<(), Fail> {
    let mut histories = begin(&rt, rt.alloc(), 0x9e37_79b9_7f4a_7c15);
    for _ in 0..HISTORIES {
        histories.on_arena()?;
    }
    histories.tally.print(&rt)?;
    histories.end(&ARENA);
    Ok(())
}

// On a bitmask database 61 comes; 45, 64 and 81 can't, as 64 variables make no wider resolvent, and 256 clauses of them neither more
// literals nor a longer text.
const BITMASK: [u8; 23] = [
    10, 11, 12, 24, 25, 27, 33, 40, 41, 42, 43, 44, 46, 47, 48, 61, 63, 65, 66, 70, 71, 72, 80,
];

#[test]
fn histories_on_bitmask_databases(rt: HostRuntime) -> Result<(), Fail> {
    let mut histories = begin(&rt, rt.alloc(), 0x2545_f491_4f6c_dd1d);
    for _ in 0..HISTORIES {
        histories.on_bitmask()?;
    }
    histories.tally.print(&rt)?;
    histories.end(&BITMASK);
    Ok(())
}
