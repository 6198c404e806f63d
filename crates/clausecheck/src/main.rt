// clausecheck: reads a formula and prints it back as it stands in the database, or the refusal.

#![tactic(auto)]

ghost use Rattle.std.specs.Prelude.{[], length};
ghost use Rattle.reader.specs.Formulas.{read_text};
ghost use Rattle.files.specs.Reports.{Answers};
ghost use Rattle.clausecheck.specs.Alone.{alone};

use database::ClauseDatabase;
use files::{Report, finish_and_write};
use memory::ArenaMemory;
use programs::{print_report, print_row};
use reader::read_formula;
use reconstruction::ReconstructionStack;
use report::Row;
use session::seal;
use std::{env, fs};
use words::LocatedFault;

// Reads the formula onto an empty database, finishes at once, and writes what stands into the buffer.
fn check<D: ClauseDatabase>(
    formula: &[u8],
    db: &mut D,
    buffer: &mut [u8],
) -> Result<Report, LocatedFault>
    ensures { Answers (alone (length buffer.old) (read_text (D.limited db.old) (D.standing db.old) [] formula.now)) result (D.standing db.new) [] buffer.old buffer.new }
{
    let stack = ReconstructionStack::new(&mut [], &mut []);
    let loading = read_formula(formula, db, &stack)?;
    finish_and_write(seal(loading), db, buffer)
}

fn main(rt: HostRuntime) -> anyhow::Result<()> {
    let heap = rt.alloc();
    let path = env::args(&rt)?.nth(1);
    let formula = fs::read(&rt, path.as_deref().unwrap_or("formula.cnf"))?;
    let mut memory = ArenaMemory::full_size(heap)?;
    let mut buffer = vec![in heap; 0u8; 65_536]?;
    match check(
        formula.as_slice(),
        &mut memory.arena(),
        buffer.as_mut_slice(),
    ) {
        Ok(report) => print_report(&rt, &report, buffer.as_slice()),
        Err(fault) => print_row(&rt, &Row::from(fault)),
    }
}
