// commissioning: the four entries of the commissioning page for one substation. It loads the formula and compares the clause count
// (A), sends the trace to its end (B), reads the reduced formula back (C), and restores a full switch position (D).

#![tactic(auto)]

mod again;
mod entries;
mod page;

use again::Spare;
use anyhow::bail;
use memory::{ArenaMemory, StackMemory};
use page::Page;
use programs::{Inputs, command_line};
use std::fs;

// Goes through the entries on a full-size arena and reconstruction stack, up to the first that does not hold.
fn go_through<'a>(
    rt: &'a HostRuntime,
    inputs: Inputs<'a>,
    position: &'a [u8],
) -> anyhow::Result<()> {
    let page = Page {
        rt,
        inputs,
        position,
    };
    let heap = rt.alloc();
    let mut arena_memory = ArenaMemory::full_size(heap)?;
    let mut stack_memory = StackMemory::full_size(heap)?;
    let mut db = arena_memory.arena();
    let mut stack = stack_memory.stack();
    let Some(loading) = page.load(&mut db, &stack)? else {
        return Ok(());
    };
    let Some(finished) = page.send(loading, &mut db, &mut stack)? else {
        return Ok(());
    };
    let mut spare = Spare::full_size(heap)?;
    if page.read_back(&mut spare, &finished, &db)? {
        page.restore(&mut spare, &finished, &db, &stack)?;
    }
    Ok(())
}

// Reads what the command line names, and goes through the entries.
// The program `clausecheck_trace` has a run of its own: the two differ in the files that they read, and closures for that would be longer.
fn run(rt: &HostRuntime) -> anyhow::Result<()> {
    let given = command_line(rt)?;
    let (formula, trace, position) = match given.paths.as_slice() {
        [] => ("formula.cnf", "trace.txt", "position.txt"),
        [formula, trace, position] => (formula.as_str(), trace.as_str(), position.as_str()),
        _ => bail!("usage: commissioning [--explain] [FORMULA TRACE POSITION]"),
    };
    let formula = fs::read(rt, formula)?;
    let trace = fs::read(rt, trace)?;
    let position = fs::read(rt, position)?;
    let inputs = Inputs {
        formula: formula.as_slice(),
        trace: trace.as_slice(),
        explained: given.explain,
    };
    go_through(rt, inputs, position.as_slice())
}

fn main(rt: HostRuntime) -> anyhow::Result<()> {
    run(&rt)
}
