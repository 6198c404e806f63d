// Damaged files: cut at every length, and each byte changed to each other. Each time the task is refused, or what is written has
// every position of the formula, and each of its own is restored to one of the formula, as a reader of the tests' own sees both.
use crate::meeting::meets;
use crate::printout::checked;
use crate::tables::LISTING;
use arena::{Arena, Record};
use reconstruction::{ReconstructionStack, SavedEntry, SavedLiteral};
use session::Finished;
use std::alloc::{AllocError, Global};
use std::process::Abort;
use std::test::Fail;

// Traces for the formula of four variables; how many of its 44 * 256 changes of a byte are accepted with the trace; how many
// changes of the trace, and how many of its shorter fronts, with the formula. A byte that is changed to itself counts too.
const TRACES: [(&str, usize, usize, usize); 3] = [
    (
        "kind clause pivot first second\nR 6 1 1 2\nE 0 1 0 0\nR 7 2 6 3\nS 6 0 7 0\nB 3 -2 0 0\n",
        119,
        82,
        5,
    ),
    (
        "kind clause pivot first second\nR 6 1 1 2\nE 0 1 0 0\n",
        146,
        60,
        2,
    ),
    (
        "kind clause pivot first second\nE 0 4 0 0\nE 0 3 0 0\nE 0 2 0 0\n",
        146,
        69,
        3,
    ),
];

// The assignment with a number: its bits, the lowest first; on an array, as nothing is allocated for 200,000 runs.
fn position(number: usize) -> [u8; 9] {
    let mut bytes = [0; 9];
    let mut left = number;
    for byte in bytes.iter_mut() {
        *byte = u8::from(left % 2 == 1);
        left /= 2;
    }
    bytes
}

// The variable count of a header, which is one digit here.
fn variables(formula: &[u8]) -> usize {
    formula
        .get(6)
        .map_or(0, |byte| usize::from(byte.saturating_sub(b'0')).min(9))
}

// A task that was accepted: what came of a formula, and the text that was written.
#[derive(Clone, Copy)]
struct Task<'t, 'a, 's> {
    finished: &'t Finished,
    db: &'t Arena<'a>,
    stack: &'t ReconstructionStack<'s>,
    formula: &'t [u8],
    written: &'t [u8],
}

impl Task<'_, '_, '_> {
    // Whether an assignment is restored.
    fn restores(&self, assignment: &mut [u8]) -> bool {
        self.finished
            .restore(self.db, self.stack, assignment)
            .is_ok()
    }

    // Holds what came of the formula to it, at one assignment.
    fn holds_at(&self, rt: &impl Abort, number: usize) {
        let mut bytes = position(number);
        let assignment = &mut bytes[0..variables(self.formula).min(9)];
        let stands = meets(self.written, assignment);
        assert!(rt;
            stands || !meets(self.formula, assignment),
            "a position is lost"
        );
        assert_eq!(rt; self.restores(assignment), stands);
        assert!(rt;
            !stands || meets(self.formula, assignment),
            "a restored position is wrong"
        );
    }
}

// Checks two files on small memory; answers whether they are accepted, and holds what comes of them to the formula.
fn is_accepted(rt: &impl Abort, formula: &[u8], trace: &[u8]) -> Result<bool, Fail> {
    let mut literals = [0i16; 64];
    let mut records = [Record::EMPTY; 16];
    let mut entries = [SavedEntry::EMPTY; 16];
    let mut saved = [SavedLiteral::EMPTY; 64];
    let mut marks = [0u8; 1_024];
    let mut buffer = [0u8; 256];
    let mut db = Arena::new(&mut literals, &mut records);
    let mut stack = ReconstructionStack::new(&mut entries, &mut saved);
    let Ok(report) = checked(formula, trace, &mut db, &mut stack, &mut marks, &mut buffer) else {
        return Ok(false);
    };
    let Some(written) = buffer.get(0..report.length) else {
        return Err(Fail::new("a text beyond the buffer"));
    };
    let task = Task {
        finished: &report.finished,
        db: &db,
        stack: &stack,
        formula,
        written,
    };
    for number in 0..1usize << variables(formula).min(9) {
        task.holds_at(rt, number);
    }
    Ok(true)
}

// A text with one byte changed.
fn changed(heap: Global, text: &[u8], at: usize, byte: u8) -> Result<Vec<u8>, AllocError> {
    let mut copy = text.to_vec(heap)?;
    if let Some(old) = copy.as_mut_slice().get_mut(at) {
        *old = byte;
    }
    Ok(copy)
}

// How many changes of a text at one place are accepted.
fn changes_at<F: Fn(&[u8]) -> Result<bool, Fail>>(
    heap: Global,
    text: &[u8],
    at: usize,
    accepts: &F,
) -> Result<usize, Fail>
    requires { F.IsAlwaysCallable accepts.now }
{
    let mut accepted = 0usize;
    for byte in 0..=255u8 {
        let damaged = changed(heap, text, at, byte)?;
        if accepts(damaged.as_slice())? {
            accepted = accepted.saturating_add(1);
        }
    }
    Ok(accepted)
}

// How many changes of a byte of a text are accepted.
fn changes<F: Fn(&[u8]) -> Result<bool, Fail>>(
    heap: Global,
    text: &[u8],
    accepts: &F,
) -> Result<usize, Fail>
    requires { F.IsAlwaysCallable accepts.now }
{
    let mut accepted = 0usize;
    for at in 0..text.len() {
        accepted = accepted.saturating_add(changes_at(heap, text, at, accepts)?);
    }
    Ok(accepted)
}

// How many shorter fronts of a text are accepted. Beside `changes_at`, two that differ in what is damaged; a closure for it would be
// longer.
fn cuts<F: Fn(&[u8]) -> Result<bool, Fail>>(text: &[u8], accepts: &F) -> Result<usize, Fail>
    requires { F.IsAlwaysCallable accepts.now }
{
    let mut accepted = 0usize;
    for at in 0..text.len() {
        if accepts(&text[..at])? {
            accepted = accepted.saturating_add(1);
        }
    }
    Ok(accepted)
}

// So many damaged files are accepted: formulas with the trace, and traces with the formula.
fn damaged(
    rt: &(impl Abort + AllocGlobal),
    trace: &[u8],
    formulas: usize,
    traces: usize,
    fronts: usize,
) -> Result<(), Fail> {
    let heap = rt.alloc();
    let formula = LISTING.as_bytes();
    let with_trace = |formula: &[u8]| is_accepted(rt, formula, trace);
    let with_formula = |trace: &[u8]| is_accepted(rt, formula, trace);
    assert_eq!(rt; changes(heap, formula, &with_trace)?, formulas);
    assert_eq!(rt; changes(heap, trace, &with_formula)?, traces);
    // of the formula only the last line feed may be missing; of the trace, whole lines behind the names
    assert_eq!(rt; cuts(formula, &with_trace)?, 1);
    assert_eq!(rt; cuts(trace, &with_formula)?, fronts);
    Ok(())
}

#[test]
fn changed_and_cut(rt: HostRuntime) -> Result<(), Fail> {
    for (trace, formulas, traces, fronts) in &TRACES {
        damaged(&rt, trace.as_bytes(), *formulas, *traces, *fronts)?;
    }
    Ok(())
}
