// Files of the greatest sizes and counts, made of repeated parts.
use crate::printout::Program;
use crate::tables::NAMES;
use std::alloc::{AllocError, Global};
use std::process::Abort;
use std::test::Fail;

// A clause of 18 literals, in 92 bytes.
const LONG: &str =
    "-100 -101 -102 -103 -104 -105 -106 -107 -108 -109 -110 -111 -112 -113 -114 -115 -116 -117 0\n";

// A clause of 64 literals.
const WIDE: &str =
    "1 2 3 4 5 6 7 8 9 10 11 12 13 14 15 16 17 18 19 20 21 22 23 24 25 26 27 28 29 30 31 32 33 34 35 36 37 38 39 40 41 42 43 44 45 46 47 48 49 50 51 52 53 54 55 56 57 58 59 60 61 62 63 64 0\n";

// A text: its beginning, a part, how often the part comes, its end.
#[derive(Clone, Copy)]
struct Text(&'static str, &'static str, usize, &'static str);

impl Text {
    // The text written out.
    fn written(&self, heap: Global) -> Result<String, AllocError> {
        let Text(start, part, times, end) = *self;
        let parts = part.repeat(heap, times)?;
        format!(in heap; "{start}{parts}{end}")
    }
}

// A formula; the lines behind the names; the row of the refusal.
const REFUSED: [(Text, &str, &str); 11] = [
    // 65,537 bytes, and a fault in the last of 65,536
    (
        Text("p cnf 1 1\n1 0\n", " ", 65_523, ""),
        "",
        "formula 0 20",
    ),
    (
        Text("p cnf 1 1\n1", "\n", 65_524, "2"),
        "",
        "formula 65526 24",
    ),
    // more than 1,024 words before a 0
    (
        Text("p cnf 1 1\n", "1 ", 1_024, "\n2\n0\n"),
        "",
        "formula 3 28",
    ),
    (
        Text("p cnf 1 1\n", "1 ", 1_024, "\nx\n0\n"),
        "",
        "formula 3 23",
    ),
    // other than 1,024 clauses
    (
        Text("p cnf 1 1024\n", "1 0\n", 1_023, ""),
        "",
        "formula 1024 26",
    ),
    (
        Text("p cnf 1 1024\n", "1 0\n", 1_025, ""),
        "",
        "formula 1026 26",
    ),
    // more than 16,384 literals, loaded or derived
    (
        Text("p cnf 64 257\n", WIDE, 256, "1\n0\n"),
        "",
        "formula 259 64",
    ),
    (
        Text("p cnf 64 257\n-1 0\n", WIDE, 255, "1 0\n"),
        "R 258 1 2 1\n",
        "trace 2 64",
    ),
    // more than 1,024 clauses
    (
        Text("p cnf 3 1024\n1 2 0\n-1 2 0\n", "3 0\n", 1_022, ""),
        "R 1025 1 1 2\n",
        "trace 2 63",
    ),
    // more than 65,536 bytes to write; a fault of the trace comes first
    (
        Text("p cnf 512 715\n1 2 0\n-1 2 0\n", LONG, 712, "-10 0"),
        "",
        "write 0 81",
    ),
    (
        Text("p cnf 512 715\n1 2 0\n-1 2 0\n", LONG, 712, "10 0\n"),
        "R 716 1 1 2\nR 715 1 1 2\n",
        "trace 3 41",
    ),
];

// A formula and lines as above; what is printed below the names of the counts.
const ACCEPTED: [(Text, &str, Text); 7] = [
    (
        Text("p cnf 1 1\n1 0\n", " ", 65_522, ""),
        "",
        Text("0 1 0\np cnf 1 1\n1 0\n", " ", 0, ""),
    ),
    (
        Text("p cnf 1 1\n", "1 ", 1_024, "0\n"),
        "",
        Text("0 1 0\np cnf 1 1\n1 0\n", "1 ", 0, ""),
    ),
    (
        Text("p cnf 1 1024\n", "1 0\n", 1_024, ""),
        "",
        Text("0 1024 0\np cnf 1 1024\n", "1 0\n", 1_024, ""),
    ),
    (
        Text("p cnf 64 257\n", WIDE, 256, "0\n"),
        "",
        Text("0 257 1\np cnf 64 257\n", WIDE, 256, "0\n"),
    ),
    (
        Text("p cnf 64 256\n-1 0\n", WIDE, 255, ""),
        "R 257 1 2 1\nB 257 2 0 0\n",
        Text("2 256 0\np cnf 64 256\n-1 0\n", WIDE, 255, ""),
    ),
    (
        Text("p cnf 3 1024\n1 2 0\n-1 2 0\n", "3 0\n", 1_022, ""),
        "S 1024 0 1023 0\nR 1025 1 1 2\n",
        Text(
            "2 1024 0\np cnf 3 1024\n1 2 0\n-1 2 0\n",
            "3 0\n",
            1_021,
            "2 0\n",
        ),
    ),
    // exactly 65,536 bytes are written
    (
        Text("p cnf 512 715\n1 2 0\n-1 2 0\n", LONG, 712, "10 0\n"),
        "",
        Text(
            "0 715 0\np cnf 512 715\n1 2 0\n-1 2 0\n",
            LONG,
            712,
            "10 0\n",
        ),
    ),
];

// A part that holds variable 1, and how often it comes, so that one elimination saves 1,022 clauses, or 255 clauses with 16,320
// literals; how many clauses {66} are then derived and saved; a last line; what is printed. 2,048 clauses and 16,384 literals are
// saved, one more is refused.
const SAVED: [(&str, usize, usize, &str, &str); 8] = [
    (
        "1 0\n",
        1_022,
        1_026,
        "",
        "accepted standing empty\n2053 2 0\np cnf 66 2\n65 66 0\n-65 66 0\n",
    ),
    (
        "1 0\n",
        1_022,
        1_027,
        "",
        "file line refusal\ntrace 2056 65\n",
    ),
    (
        "1 0\n",
        1_022,
        1_025,
        "E 0 66 0 0\n",
        "file line refusal\ntrace 2053 65\n",
    ),
    (
        "1 0\n",
        1_022,
        1_025,
        "E 0 65 0 0\n",
        "file line refusal\ntrace 2053 48\n",
    ),
    (
        WIDE,
        255,
        64,
        "",
        "accepted standing empty\n129 2 0\np cnf 66 2\n65 66 0\n-65 66 0\n",
    ),
    (WIDE, 255, 65, "", "file line refusal\ntrace 132 66\n"),
    (
        WIDE,
        255,
        60,
        "E 0 66 0 0\n",
        "accepted standing empty\n122 0 0\np cnf 66 0\n",
    ),
    (
        WIDE,
        255,
        61,
        "E 0 66 0 0\n",
        "file line refusal\ntrace 125 66\n",
    ),
];

// A trace that eliminates variable 1, then derives {66} again and again and saves it each time, and has a last line.
fn saves(heap: Global, first: usize, times: usize, end: &str) -> Result<String, AllocError> {
    let mut trace = format!(in heap; "{NAMES}E 0 1 0 0\n")?;
    for i in first..first.saturating_add(times) {
        write!(trace, "R {i} 65 1 2\nB {i} 66 0 0\n")?;
    }
    trace.push_str(end)?;
    Ok(trace)
}

impl<R: Abort> Program<'_, R> {
    // So much is printed after so many clauses are saved.
    fn is_saved(
        &mut self,
        part: &str,
        times: usize,
        more: usize,
        end: &str,
        printed: &str,
    ) -> Result<(), Fail> {
        let first = times.saturating_add(3);
        let lists = first.saturating_sub(1);
        let mut formula = format!(in self.heap; "p cnf 66 {lists}\n65 66 0\n-65 66 0\n")?;
        formula.push_str(part.repeat(self.heap, times)?.as_str())?;
        let trace = saves(self.heap, first, more, end)?;
        self.prints(formula.as_str(), trace.as_str(), printed, printed)
    }
}

#[test]
fn refused(rt: HostRuntime) -> Result<(), Fail> {
    let heap = rt.alloc();
    let mut program = Program::new(&rt, heap)?;
    for (formula, lines, row) in &REFUSED {
        let formula = formula.written(heap)?;
        let trace = format!(in heap; "{NAMES}{lines}")?;
        program.refuses(formula.as_str(), trace.as_str(), row, row)?;
    }
    Ok(())
}

#[test]
fn accepted(rt: HostRuntime) -> Result<(), Fail> {
    let heap = rt.alloc();
    let mut program = Program::new(&rt, heap)?;
    for (formula, lines, printed) in &ACCEPTED {
        let Text(head, _, _, _) = *printed;
        let formula = formula.written(heap)?;
        let trace = format!(in heap; "{NAMES}{lines}")?;
        let printed = printed.written(heap)?;
        program.accepts(formula.as_str(), trace.as_str(), printed.as_str(), head)?;
    }
    Ok(())
}

#[test]
fn saved(rt: HostRuntime) -> Result<(), Fail> {
    let mut program = Program::new(&rt, rt.alloc())?;
    for (part, times, more, end, printed) in &SAVED {
        program.is_saved(part, *times, *more, end, printed)?;
    }
    Ok(())
}

// Traces of 65,536 bytes and of 65,537.
const MOST: Text = Text(
    NAMES,
    "E 0 5 0 0\n",
    6_547,
    "E 0 115 0 0\nE 0 115 0 0\nE 0 15 0 0\n",
);

const MORE: Text = Text(
    NAMES,
    "E 0 5 0 0\n",
    6_547,
    "E 0 115 0 0\nE 0 115 0 0\nE 0 115 0 0\n",
);

// A trace of 65,536 bytes is read, one of 65,537 is not; a fault of the formula comes first.
#[test]
fn traces(rt: HostRuntime) -> Result<(), Fail> {
    let mut program = Program::new(&rt, rt.alloc())?;
    let most = MOST.written(rt.alloc())?;
    let more = MORE.written(rt.alloc())?;
    program.accepts(
        "p cnf 0 0\n",
        most.as_str(),
        "6550 0 0\np cnf 0 0\n",
        "the longest trace",
    )?;
    program.refuses(
        "p cnf 0 0\n",
        more.as_str(),
        "trace 0 20",
        "a trace too long",
    )?;
    program.refuses(
        "p cnf 0 1\n",
        more.as_str(),
        "formula 1 26",
        "a fault of the formula comes first",
    )
}
