// Formula texts: which are refused, at which line and with what, and what is read from the others.
use crate::make::full_memory;
use bitmask::Bitmask;
use database::ClauseDatabase;
use reader::read_formula;
use reconstruction::ReconstructionStack;
use std::alloc::{AllocError, Global};
use std::process::Abort;
use std::test::Fail;
use trials::filled::{arena_memory, stack_memory};
use words::{Clause, DatabaseFault, File, FileFault, Literal, SessionFault};
use writer::write;

// Texts with a fault of the formula itself: the text, the line, the fault.
const FAULTY: [(&str, usize, FileFault); 70] = [
    // no header
    ("", 1, FileFault::HeaderMalformed),
    ("\n", 1, FileFault::HeaderMalformed),
    ("c", 1, FileFault::HeaderMalformed),
    ("c x", 1, FileFault::HeaderMalformed),
    ("c x\n", 1, FileFault::HeaderMalformed),
    ("c x\n\n", 2, FileFault::HeaderMalformed),
    ("c x\nc\ncp cnf 1 1\n", 3, FileFault::HeaderMalformed),
    (" c x\np cnf 0 0\n", 1, FileFault::HeaderMalformed),
    ("C x\np cnf 0 0\n", 1, FileFault::HeaderMalformed),
    ("\np cnf 0 0\n", 1, FileFault::HeaderMalformed),
    ("c\n\np cnf 0 0\n", 2, FileFault::HeaderMalformed),
    // a header that is not exact
    ("p", 1, FileFault::HeaderMalformed),
    ("p cnf", 1, FileFault::HeaderMalformed),
    ("p cnf\n", 1, FileFault::HeaderMalformed),
    ("p cnf \n", 1, FileFault::HeaderMalformed),
    ("p cnf 1\n", 1, FileFault::HeaderMalformed),
    ("p cnf 1 \n", 1, FileFault::HeaderMalformed),
    ("p cnf 1 1", 1, FileFault::HeaderMalformed),
    ("p cnf 1 1 \n1 0\n", 1, FileFault::HeaderMalformed),
    ("p cnf 1 1 1\n1 0\n", 1, FileFault::HeaderMalformed),
    ("p cnf 1 1\r\n1 0\n", 1, FileFault::HeaderMalformed),
    ("p\tcnf 1 1\n1 0\n", 1, FileFault::HeaderMalformed),
    ("p cnf\t1 1\n1 0\n", 1, FileFault::HeaderMalformed),
    ("p  cnf 1 1\n1 0\n", 1, FileFault::HeaderMalformed),
    ("p cnf  1 1\n1 0\n", 1, FileFault::HeaderMalformed),
    ("p cnf 1  1\n1 0\n", 1, FileFault::HeaderMalformed),
    (" p cnf 1 1\n1 0\n", 1, FileFault::HeaderMalformed),
    ("P cnf 1 1\n1 0\n", 1, FileFault::HeaderMalformed),
    ("p CNF 1 1\n1 0\n", 1, FileFault::HeaderMalformed),
    ("p dnf 1 1\n1 0\n", 1, FileFault::HeaderMalformed),
    ("pcnf 1 1\n1 0\n", 1, FileFault::HeaderMalformed),
    ("p cnf -1 1\n", 1, FileFault::HeaderMalformed),
    ("p cnf 1 -1\n", 1, FileFault::HeaderMalformed),
    ("p cnf -0 0\n", 1, FileFault::HeaderMalformed),
    ("p cnf +1 1\n", 1, FileFault::HeaderMalformed),
    ("p cnf 01 1\n", 1, FileFault::HeaderMalformed),
    ("p cnf 1 00\n", 1, FileFault::HeaderMalformed),
    ("p cnf 513 01\n", 1, FileFault::HeaderMalformed),
    ("p cnf 10000000 1\n", 1, FileFault::HeaderMalformed),
    ("p cnf 1 10000000\n", 1, FileFault::HeaderMalformed),
    ("c\nc\np cnf a 1\n", 3, FileFault::HeaderMalformed),
    // counts beyond the limits
    ("p cnf 513 1\n", 1, FileFault::HeaderBeyond),
    ("p cnf 1 1025\n", 1, FileFault::HeaderBeyond),
    ("p cnf 9999999 9999999\n", 1, FileFault::HeaderBeyond),
    ("c x\np cnf 513 0\n", 2, FileFault::HeaderBeyond),
    // words that are no numbers
    ("p cnf 2 1\n1 x 0\n", 2, FileFault::NotANumber),
    ("p cnf 2 1\n00\n", 2, FileFault::NotANumber),
    ("p cnf 2 1\n01 0\n", 2, FileFault::NotANumber),
    ("p cnf 2 1\n-0 0\n", 2, FileFault::NotANumber),
    ("p cnf 2 1\n-01 0\n", 2, FileFault::NotANumber),
    ("p cnf 2 1\n+1 0\n", 2, FileFault::NotANumber),
    ("p cnf 2 1\n- 1 0\n", 2, FileFault::NotANumber),
    ("p cnf 2 1\n1- 0\n", 2, FileFault::NotANumber),
    ("p cnf 2 1\n--1 0\n", 2, FileFault::NotANumber),
    ("p cnf 2 1\n12345678 0\n", 2, FileFault::NotANumber),
    ("p cnf 2 1\n-12345678 0\n", 2, FileFault::NotANumber),
    ("p cnf 2 1\n1\u{b}2 0\n", 2, FileFault::NotANumber),
    ("p cnf 2 1\n1\n\r\n\t2x\n0\n", 4, FileFault::NotANumber),
    ("p cnf 2 2\n1 0\nc x\n", 3, FileFault::NotANumber),
    // words and clauses too many or too few
    ("p cnf 2 1\n1 0\nc x\n", 3, FileFault::ClauseCount),
    ("p cnf 2 1\n1 0 0\n", 2, FileFault::ClauseCount),
    ("p cnf 2 1\n1 0\n\n\n00\n", 5, FileFault::ClauseCount),
    ("p cnf 0 0\n0", 2, FileFault::ClauseCount),
    ("p cnf 2 1\n1 2\n", 2, FileFault::ClauseCount),
    ("p cnf 2 1\n1 2\n\n", 3, FileFault::ClauseCount),
    ("p cnf 2 1\n1 2\n\n ", 4, FileFault::ClauseCount),
    ("p cnf 2 2\n1 0\n", 2, FileFault::ClauseCount),
    ("p cnf 2 1\n", 1, FileFault::ClauseCount),
    ("c\np cnf 2 1\n\n", 3, FileFault::ClauseCount),
    ("p cnf 2 1\r", 1, FileFault::HeaderMalformed),
];

// Good texts, and what is written of what was read.
const GOOD: [(&str, &str); 17] = [
    ("p cnf 0 0\n", "p cnf 0 0\n"),
    ("c\ncp cnf 9\nc\t\u{ff}\np cnf 512 0\n", "p cnf 512 0\n"),
    ("p cnf 0 0\n \t\r\n\n", "p cnf 0 0\n"),
    ("p cnf 0 1\n0", "p cnf 0 1\n0\n"),
    ("p cnf 0 3\n0 0\n\n0\n", "p cnf 0 3\n0\n0\n0\n"),
    ("p cnf 1 1\n1 0", "p cnf 1 1\n1 0\n"),
    ("p cnf 1 1\n1 0 \r\n", "p cnf 1 1\n1 0\n"),
    ("p cnf 1 1\n1 1 -1 0", "p cnf 1 0\n"),
    ("p cnf 1 3\n1 -1 0 1 0 -1 1 0\n", "p cnf 1 1\n1 0\n"),
    ("p cnf 3 1\n3\n1 3 -2\n0", "p cnf 3 1\n1 -2 3 0\n"),
    ("p cnf 3 2\n3 0 3 0", "p cnf 3 2\n3 0\n3 0\n"),
    ("p cnf 3 2\n\t-3\r0\r\r-1\t0", "p cnf 3 2\n-3 0\n-1 0\n"),
    (
        "p cnf 512 1\n-512 511 -10 9 100 0",
        "p cnf 512 1\n9 -10 100 511 -512 0\n",
    ),
    (
        "p cnf 2 2\n1\n2\n0\n-1\n-2\n0\n",
        "p cnf 2 2\n1 2 0\n-1 -2 0\n",
    ),
    ("c\r\np cnf 1 1\n-1 -1 -1 0\n", "p cnf 1 1\n-1 0\n"),
    ("p cnf 2 1\n  1   -2   0   ", "p cnf 2 1\n1 -2 0\n"),
    (
        "p cnf 4 5\n1 2 0\n-1 3 0\n-2 3 0\n-3 4 0\n2 -2 0\n",
        "p cnf 4 4\n1 2 0\n-1 3 0\n-2 3 0\n-3 4 0\n",
    ),
];

// How reading ends: the line and the fault, or none; how many clauses stand then.
#[derive(Clone, Copy)]
struct End(Option<(usize, FileFault)>, usize);

// What the database refuses.
const VARIABLE_BEYOND: FileFault = FileFault::Session(SessionFault::Database(
    DatabaseFault::VariableBeyond,
));

const CLAUSES_FULL: FileFault = FileFault::Session(SessionFault::Database(
    DatabaseFault::ClausesFull,
));

const LITERALS_FULL: FileFault = FileFault::Session(SessionFault::Database(
    DatabaseFault::LiteralsFull,
));

// On an arena of four literals and two records: what load and the database refuse, and what stays of what was read before.
const SMALL: [(&str, End); 8] = [
    (
        "p cnf 2 1\n1\n-3 0\n",
        End(
            Some((3, FileFault::Session(SessionFault::LiteralBeyond(2)))),
            0,
        ),
    ),
    (
        "p cnf 2 1\n1 9999999 0\n",
        End(
            Some((2, FileFault::Session(SessionFault::LiteralBeyond(2)))),
            0,
        ),
    ),
    (
        "p cnf 512 1\n65537 0\n",
        End(
            Some((2, FileFault::Session(SessionFault::LiteralBeyond(1)))),
            0,
        ),
    ),
    (
        "p cnf 0 2\n0\n-1 x\n",
        End(
            Some((3, FileFault::Session(SessionFault::LiteralBeyond(1)))),
            1,
        ),
    ),
    (
        "p cnf 2 3\n1 0\n2\t0\n\n01\n",
        End(Some((5, FileFault::NotANumber)), 2),
    ),
    (
        "p cnf 5 2\n1 2 3\n0\n4 5\n\n0\n",
        End(Some((6, LITERALS_FULL)), 1),
    ),
    (
        "p cnf 5 4\n1 2 0 3 -3 0\n0\n\n0 x",
        End(Some((5, CLAUSES_FULL)), 2),
    ),
    ("p cnf 5 4\n1 2 0 3 -3 0\n0\n5 -5\n0", End(None, 2)),
];

// On a bitmask database.
const MASKED: [(&str, End); 3] = [
    (
        "p cnf 65 3\n-64 0\n65 -65 0\n-65 0\n",
        End(Some((4, VARIABLE_BEYOND)), 1),
    ),
    (
        "p cnf 512 2\n1 2 512\n0\n",
        End(Some((3, VARIABLE_BEYOND)), 0),
    ),
    ("p cnf 512 2\n1 2 512 -1 0\n64 0\n", End(None, 1)),
];

// A beginning, a part, how often it comes, an end: 65,536 bytes are read, 65,537 are not; 1,024 words before a 0 are read, 1,025
// are not.
const LONG: [(&str, &str, usize, &str, End); 6] = [
    (
        "p cnf 1 1\n",
        " ",
        65_524,
        "1\t0",
        End(Some((0, FileFault::TooManyBytes)), 0),
    ),
    ("p cnf 1 1\n", "\n", 65_523, "1\t0", End(None, 1)),
    ("p cnf 1 2\n0\n", "-1\n", 1_024, "0", End(None, 2)),
    (
        "p cnf 1 2\n0\n",
        "-1\n",
        1_024,
        "2 0",
        End(Some((1_027, FileFault::TooManyWords)), 1),
    ),
    (
        "p cnf 1 2\n0\n",
        "-1\n",
        1_024,
        "x 0",
        End(Some((1_027, FileFault::NotANumber)), 1),
    ),
    (
        "p cnf 1 1025\n",
        "1 0\n",
        1_025,
        "",
        End(Some((1, FileFault::HeaderBeyond)), 0),
    ),
];

// A beginning, the last number of a row from 1, an end: 64 different literals are read, 65 are not; a later fault in the list
// comes first.
const WIDE: [(&str, u16, &str, End); 4] = [
    ("p cnf 66 1\n", 64, "1 64 0", End(None, 1)),
    (
        "p cnf 66 1\n1 1 ",
        65,
        "66\n66\n0",
        End(
            Some((4, FileFault::Session(SessionFault::TooManyLiterals(67)))),
            0,
        ),
    ),
    (
        "p cnf 66 1\n",
        65,
        "67\n0",
        End(
            Some((2, FileFault::Session(SessionFault::LiteralBeyond(66)))),
            0,
        ),
    ),
    ("p cnf 66 1\n", 66, "-66\n0", End(None, 0)),
];

// One after another onto one database: an empty clause, then one that is not empty, then a header that is refused.
const ONTO_ONE_DATABASE: [(&str, End); 3] = [
    ("p cnf 0 1\n0", End(None, 1)),
    (
        "c\np cnf 0 1\nx",
        End(
            Some((0, FileFault::Session(SessionFault::DatabaseNotEmpty))),
            1,
        ),
    ),
    (
        "c\np cnf 513 1\nx",
        End(Some((2, FileFault::HeaderBeyond)), 1),
    ),
];

// Reads a text; answers the line and the fault, or none where it is read.
fn told<D: ClauseDatabase>(
    rt: &impl Abort,
    db: &mut D,
    stack: &ReconstructionStack<'_>,
    text: &[u8],
) -> Option<(usize, FileFault)> {
    let fault = read_formula(text, db, stack).err()?;
    assert_eq!(rt; fault.file, File::Formula);
    Some((fault.line, fault.cause))
}

// Reading a text onto a new database ends so.
fn ends<D: ClauseDatabase>(rt: &impl Abort, db: &mut D, text: &[u8], end: End, what: &str) {
    let End(fault, standing) = end;
    let stack = ReconstructionStack::new(&mut [], &mut []);
    assert_eq!(rt; told(rt, db, &stack, text), fault, "{}", what);
    assert_eq!(rt; db.count(), standing, "{}", what);
}

// A text is read onto a database, and this is written of it.
fn is_written<D: ClauseDatabase>(
    rt: &impl Abort,
    db: &mut D,
    text: &str,
    written: &str,
) -> Result<(), Fail> {
    let stack = ReconstructionStack::new(&mut [], &mut []);
    let Ok(session) = read_formula(text.as_bytes(), db, &stack) else {
        return Err(Fail::new(text));
    };
    let mut buffer = [0; 64];
    let Ok(len) = write(db, session.variables(), &mut buffer) else {
        return Err(Fail::new(written));
    };
    assert_eq!(rt; buffer.get(0..len), Some(written.as_bytes()));
    Ok(())
}

#[test]
fn faulty_texts(rt: HostRuntime) -> Result<(), Fail> {
    let mut memory = full_memory(rt.alloc())?;
    let stack = ReconstructionStack::new(&mut [], &mut []);
    for (text, line, fault) in &FAULTY {
        let told = told(&rt, &mut memory.arena(), &stack, text.as_bytes());
        assert_eq!(rt; told, Some((*line, *fault)), "{}", text);
    }
    Ok(())
}

#[test]
fn good_texts(rt: HostRuntime) -> Result<(), Fail> {
    let mut memory = full_memory(rt.alloc())?;
    for (text, written) in &GOOD {
        is_written(&rt, &mut memory.arena(), text, written)?;
        is_written(&rt, &mut memory.arena(), written, written)?;
    }
    Ok(())
}

#[test]
fn faults_below_the_text(rt: HostRuntime) -> Result<(), Fail> {
    let mut memory = arena_memory(rt.alloc(), 4, 2)?;
    for (text, end) in &SMALL {
        ends(&rt, &mut memory.arena(), text.as_bytes(), *end, text);
    }
    Ok(())
}

#[test]
fn faults_of_the_database(rt: HostRuntime) {
    for (text, end) in &MASKED {
        ends(&rt, &mut Bitmask::new(), text.as_bytes(), *end, text);
    }
}

#[test]
fn long_texts(rt: HostRuntime) -> Result<(), Fail> {
    let heap = rt.alloc();
    let mut memory = full_memory(heap)?;
    for (start, part, times, last, end) in &LONG {
        let parts = part.repeat(heap, *times)?;
        let text = format!(in heap; "{start}{parts}{last}")?;
        ends(&rt, &mut memory.arena(), text.as_bytes(), *end, last);
    }
    Ok(())
}

// The numbers from 1 to a last one, each with a space.
fn row(heap: Global, last: u16) -> Result<String, AllocError> {
    let mut text = String::new(heap);
    for i in 1..last.saturating_add(1) {
        write!(text, "{i} ")?;
    }
    Ok(text)
}

#[test]
fn wide_lists(rt: HostRuntime) -> Result<(), Fail> {
    let heap = rt.alloc();
    let mut memory = full_memory(heap)?;
    for (start, most, last, end) in &WIDE {
        let row = row(heap, *most)?;
        let text = format!(in heap; "{start}{row}{last}")?;
        ends(&rt, &mut memory.arena(), text.as_bytes(), *end, last);
    }
    Ok(())
}

// What open refuses has no line; a header that is refused comes first.
#[test]
fn refused_by_open(rt: HostRuntime) -> Result<(), Fail> {
    let mut memory = stack_memory(rt.alloc(), 1, 0)?;
    let mut stack = memory.stack();
    stack.save(Literal::try_from(1i16)?, &Clause::empty())?;
    let mut db = Bitmask::new();
    assert_eq!(rt;
        told(&rt, &mut db, &stack, b"p cnf 0 1\nx"),
        Some((0, FileFault::Session(SessionFault::StackNotEmpty)))
    );
    for (text, end) in &ONTO_ONE_DATABASE {
        ends(&rt, &mut db, text.as_bytes(), *end, text);
    }
    Ok(())
}
