// How a refusal is printed.
use report::{Row, explanation};
use std::fmt::Display;
use std::io::Write;
use words::LocatedFault;

// Prints the row of a refusal for programs, on standard output, below the names of its columns.
pub fn print_row<N: Display>(rt: &HostRuntime, row: &Row<N>) -> anyhow::Result<()> {
    println!(rt; "file line refusal")?;
    println!(rt; "{row}")?;
    Ok(())
}

// What a program was given: the two texts, and whether a refusal of them is to be explained.
#[derive(Clone, Copy)]
pub struct Inputs<'a> {
    pub formula: &'a [u8],
    pub trace: &'a [u8],
    pub explained: bool,
}

impl Inputs<'_> {
    // Prints a refusal; where it is to be explained, also the faulty line and what it means, on standard error.
    pub fn refuse(&self, rt: &HostRuntime, fault: LocatedFault) -> anyhow::Result<()> {
        print_row(rt, &Row::from(fault))?;
        if self.explained {
            let text = explanation(rt.alloc(), self.formula, self.trace, &fault)?;
            rt.stderr().write_all(text.as_slice())?;
        }
        Ok(())
    }
}
