// What the program prints for a formula and a trace, as bytes, on memory of full size.
use arena::Arena;
use files::{Report, check_files};
use memory::{ArenaMemory, StackMemory};
use reconstruction::ReconstructionStack;
use report::refusal_row;
use std::alloc::{AllocError, Global};
use std::process::Abort;
use std::test::Fail;
use trials::filled::{arena_memory, stack_memory};
use words::LocatedFault;

// Checks two files; no facts come with the answer, so that the tests that call it are proved at little cost.
pub fn checked(
    formula: &[u8],
    trace: &[u8],
    db: &mut Arena<'_>,
    stack: &mut ReconstructionStack<'_>,
    marks: &mut [u8],
    buffer: &mut [u8],
) -> Result<Report, LocatedFault> {
    check_files(formula, trace, db, stack, marks, buffer)
}

// The program on its memory of full size; each run finds what the runs before it left there.
#[derive(Drop)]
pub struct Program<'r, R: Abort> {
    rt: &'r R,
    pub heap: Global,
    arena: ArenaMemory,
    stack: StackMemory,
    marks: [u8; 1024],
    buffer: Vec<u8>,
}

impl<'r, R: Abort> Program<'r, R> {
    pub fn new(rt: &'r R, heap: Global) -> Result<Program<'r, R>, AllocError> {
        Ok(Program {
            rt,
            heap,
            arena: arena_memory(heap, 16_384, 1_024)?,
            stack: stack_memory(heap, 2_048, 16_384)?,
            marks: [0; 1024],
            buffer: vec![in heap; b'#'; 65_536]?,
        })
    }

    // The counts and the first bytes of the buffer.
    fn accepted(&self, report: &Report) -> Result<Vec<u8>, AllocError> {
        let accepted = report.counts.accepted;
        let standing = report.counts.standing;
        let empty = report.counts.empty;
        let counts = format!(in self.heap;
            "accepted standing empty\n{accepted} {standing} {empty}\n"
        )?;
        let mut text = counts.into_bytes();
        if let Some(written) = self.buffer.get(..report.length) {
            text.extend_from_slice(written)?;
        }
        Ok(text)
    }

    // The row of a refusal below its names.
    fn refused(&self, fault: &LocatedFault) -> Result<Vec<u8>, AllocError> {
        let row = refusal_row(self.heap, fault)?;
        let text = format!(in self.heap; "file line refusal\n{row}\n")?;
        Ok(text.into_bytes())
    }

    // What the program prints.
    fn printout(&mut self, formula: &[u8], trace: &[u8]) -> Result<Vec<u8>, AllocError> {
        let answer = checked(
            formula,
            trace,
            &mut self.arena.arena(),
            &mut self.stack.stack(),
            &mut self.marks,
            self.buffer.as_mut_slice(),
        );
        match answer {
            Ok(report) => self.accepted(&report),
            Err(fault) => self.refused(&fault),
        }
    }

    // The program prints exactly this; where it does not, it is told of what.
    pub fn prints(
        &mut self,
        formula: &str,
        trace: &str,
        expected: &str,
        what: &str,
    ) -> Result<(), Fail> {
        let text = self.printout(formula.as_bytes(), trace.as_bytes())?;
        assert_eq!(self.rt; text.as_slice(), expected.as_bytes(), "{}", what);
        Ok(())
    }
}
