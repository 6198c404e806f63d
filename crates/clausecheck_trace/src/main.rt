// clausecheck_trace: checks a trace against a formula on a full-size arena and reconstruction stack, and prints the counts and the reduced
// formula; after a refusal only the file, the line and the number of it.

#![tactic(auto)]

use anyhow::bail;
use files::check_files;
use memory::{ArenaMemory, StackMemory};
use programs::{Inputs, command_line, print_report};
use std::fs;

// Checks the two texts on memory made for it, and prints what came of it.
fn check(rt: &HostRuntime, inputs: Inputs<'_>) -> anyhow::Result<()> {
    let heap = rt.alloc();
    let mut arena_memory = ArenaMemory::full_size(heap)?;
    let mut stack_memory = StackMemory::full_size(heap)?;
    let mut buffer = vec![in heap; 0u8; 65_536]?;
    match check_files(
        inputs.formula,
        inputs.trace,
        &mut arena_memory.arena(),
        &mut stack_memory.stack(),
        &mut [0; 1_024],
        buffer.as_mut_slice(),
    ) {
        Ok(report) => print_report(rt, &report, buffer.as_slice()),
        Err(fault) => inputs.refuse(rt, fault),
    }
}

// Reads what the command line names, and checks it.
// The program `commissioning` has a run of its own: the two differ in the files that they read, and closures for that would be longer.
fn run(rt: &HostRuntime) -> anyhow::Result<()> {
    let given = command_line(rt)?;
    let (formula, trace) = match given.paths.as_slice() {
        [] => ("formula.cnf", "trace.txt"),
        [formula, trace] => (formula.as_str(), trace.as_str()),
        _ => bail!("usage: clausecheck_trace [--explain] [FORMULA TRACE]"),
    };
    let formula = fs::read(rt, formula)?;
    let trace = fs::read(rt, trace)?;
    check(
        rt,
        Inputs {
            formula: formula.as_slice(),
            trace: trace.as_slice(),
            explained: given.explain,
        },
    )
}

fn main(rt: HostRuntime) -> anyhow::Result<()> {
    run(&rt)
}
