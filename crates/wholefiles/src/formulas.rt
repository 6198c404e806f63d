// Formula files, each with a trace of no lines.
use crate::printout::Program;
use std::test::Fail;

const HEADERS: [(&str, &str); 20] = [
    // no header
    ("", "formula 1 21"),
    ("\n", "formula 1 21"),
    ("c x\n", "formula 1 21"),
    ("c x\nc\nc y", "formula 3 21"),
    ("c x\n\n", "formula 2 21"),
    ("C x\np cnf 1 1\n1 0\n", "formula 1 21"),
    (" c x\np cnf 1 1\n1 0\n", "formula 1 21"),
    ("\u{feff}p cnf 1 1\n1 0\n", "formula 1 21"),
    // only a line feed ends a comment
    ("c x\rp cnf 1 1\n1 0\n", "formula 2 21"),
    // a header that is not exact
    ("p cnf 1 1", "formula 1 21"),
    ("p cnf 1 1 \n1 0\n", "formula 1 21"),
    ("p cnf 1 1\r\n1 0\r\n", "formula 1 21"),
    ("p cnf  1 1\n1 0\n", "formula 1 21"),
    ("p\tcnf 1 1\n1 0\n", "formula 1 21"),
    ("p cnf -1 1\n", "formula 1 21"),
    ("c\np cnf 513 01\n", "formula 2 21"),
    ("p cnf 10000000 1\n", "formula 1 21"),
    // counts beyond the limits
    ("p cnf 9999999 9999999\n", "formula 1 22"),
    ("c\nc\np cnf 513 1\n1 0\n", "formula 3 22"),
    ("p cnf 1 1025\n1 0\n", "formula 1 22"),
];

const WORDS: [(&str, &str); 24] = [
    // no numbers
    ("p cnf 2 1\n1\nx\n0\n", "formula 3 23"),
    ("p cnf 2 1\n1\n00\n0\n", "formula 3 23"),
    ("p cnf 2 1\n1\n01\n0\n", "formula 3 23"),
    ("p cnf 2 1\n1\n-0\n0\n", "formula 3 23"),
    ("p cnf 2 1\n1\n+1\n0\n", "formula 3 23"),
    ("p cnf 2 1\n1\n-\n0\n", "formula 3 23"),
    ("p cnf 2 1\n1\n1-\n0\n", "formula 3 23"),
    ("p cnf 2 1\n1\n12345678\n0\n", "formula 3 23"),
    ("p cnf 2 1\n1\n1\u{0}\n0\n", "formula 3 23"),
    // these separate no words
    ("p cnf 2 1\n1\n1\u{b}2\n0\n", "formula 3 23"),
    ("p cnf 2 1\n1\n1\u{a0}2\n0\n", "formula 3 23"),
    // behind the header there are no comments
    ("p cnf 2 2\n1 0\nc x\n", "formula 3 23"),
    ("p cnf 1 1\np cnf 1 1\n1 0\n", "formula 2 23"),
    // variables beyond the formula, as the number is written
    ("p cnf 2 1\n1\n3 0\n", "formula 3 24"),
    ("p cnf 2 1\n1\n-3 0\n", "formula 3 24"),
    ("p cnf 2 1\n1\n20\n", "formula 3 24"),
    ("p cnf 2 1\n1\n9999999 0\n", "formula 3 24"),
    ("p cnf 2 1\n1\n65537 0\n", "formula 3 24"),
    ("p cnf 2 1\n1\n-32768 0\n", "formula 3 24"),
    ("p cnf 512 2\n512 0\n-513 0\n", "formula 3 24"),
    ("p cnf 0 1\n1 0\n", "formula 2 24"),
    ("p cnf 1 1\n1 -1 2 0\n", "formula 2 24"),
    // the earliest fault counts
    ("p cnf 1 3\n1 0\n2 0\nx 0\n", "formula 3 24"),
    ("p cnf 1 3\n1 0\nx 0\n2 0\n", "formula 3 23"),
];

const COUNTS: [(&str, &str); 14] = [
    // too few: the line of the end of the file
    ("p cnf 2 1\n", "formula 1 26"),
    ("p cnf 2 1\n\n", "formula 2 26"),
    ("p cnf 2 1\n1 2", "formula 2 26"),
    ("p cnf 2 1\n1 2\n", "formula 2 26"),
    ("p cnf 2 1\n1 2\n\n", "formula 3 26"),
    ("p cnf 2 1\n1 2\n ", "formula 3 26"),
    ("p cnf 2 2\n1 0\n", "formula 2 26"),
    // too many: the line of the first word too many, whatever it is
    ("p cnf 0 0\n\n0", "formula 3 26"),
    ("p cnf 0 0\nx\n", "formula 2 26"),
    ("p cnf 2 1\n1 0 0\n", "formula 2 26"),
    ("p cnf 2 1\n1 0\n2 0\n", "formula 3 26"),
    ("p cnf 2 1\n1 0\n99\n", "formula 3 26"),
    ("p cnf 2 1\n1 0\nc x\n", "formula 3 26"),
    ("p cnf 2 1\n1 0\n%\n0\n", "formula 3 26"),
];

const READ: [(&str, &str, &str, &str); 14] = [
    ("p cnf 0 0\n", "", "0 0 0", "p cnf 0 0\n"),
    ("p cnf 512 0\n \t\r\n\n", "", "0 0 0", "p cnf 512 0\n"),
    ("p cnf 0 1\n0", "", "0 1 1", "p cnf 0 1\n0\n"),
    // comments
    ("c\np cnf 1 1\n1 0\n", "", "0 1 0", "p cnf 1 1\n1 0\n"),
    (
        "c\u{0}\u{ff}\r\t p cnf 9 9\ncnf\np cnf 1 1\n1 0\n",
        "",
        "0 1 0",
        "p cnf 1 1\n1 0\n",
    ),
    // separators, and clauses over several lines
    ("p cnf 2 1\n1 2 0", "", "0 1 0", "p cnf 2 1\n1 2 0\n"),
    (
        "p cnf 3 1\n3\n1 3 -2\n0",
        "",
        "0 1 0",
        "p cnf 3 1\n1 -2 3 0\n",
    ),
    (
        "p cnf 3 3\n\r\n\t 1\r\n\t-2\t0\n\n3 0 \r-3\n\n1\n0\t \r\n",
        "",
        "0 3 0",
        "p cnf 3 3\n1 -2 0\n3 0\n1 -3 0\n",
    ),
    // an opposite pair is a list that does not stand
    ("p cnf 1 1\n1 1 -1 0", "", "0 0 0", "p cnf 1 0\n"),
    // the highest variable
    (
        "p cnf 512 1\n512 -511 0\n",
        "",
        "0 1 0",
        "p cnf 512 1\n-511 512 0\n",
    ),
    (
        "p cnf 512 2\n512 0 -512 0\n",
        "",
        "0 2 0",
        "p cnf 512 2\n512 0\n-512 0\n",
    ),
    // literals are written by rising variable
    (
        "p cnf 512 2\n512 -1 100 -99 9 -10 0\n-2 1 0\n",
        "",
        "0 2 0",
        "p cnf 512 2\n-1 9 -10 -99 100 512 0\n1 -2 0\n",
    ),
    // 64 different literals, one of them twice
    (
        "p cnf 64 1\n1 2 3 4 5 6 7 8 9 10 11 12 13 14 15 16 17 18 19 20 21 22 23 24 25 26 27 28 29 30 31 32 33 34 35 36 37 38 39 40 41 42 43 44 45 46 47 48 49 50 51 52 53 54 55 56 57 58 59 60 61 62 63 64 64 0\n",
        "",
        "0 1 0",
        "p cnf 64 1\n1 2 3 4 5 6 7 8 9 10 11 12 13 14 15 16 17 18 19 20 21 22 23 24 25 26 27 28 29 30 31 32 33 34 35 36 37 38 39 40 41 42 43 44 45 46 47 48 49 50 51 52 53 54 55 56 57 58 59 60 61 62 63 64 0\n",
    ),
    // 65 different literals, and an opposite pair
    (
        "p cnf 65 1\n1 2 3 4 5 6 7 8 9 10 11 12 13 14 15 16 17 18 19 20 21 22 23 24 25 26 27 28 29 30 31 32 33 34 35 36 37 38 39 40 41 42 43 44 45 46 47 48 49 50 51 52 53 54 55 56 57 58 59 60 61 62 63 64 65 -65 0\n",
        "",
        "0 0 0",
        "p cnf 65 0\n",
    ),
];

// 65 different literals: refused at the 0, behind every other fault of the list.
const WIDE: [(&str, &str); 3] = [
    (
        "p cnf 65 1\n1 2 3 4 5 6 7 8 9 10 11 12 13 14 15 16 17 18 19 20 21 22 23 24 25 26 27 28 29 30 31 32 33 34 35 36 37 38 39 40 41 42 43 44 45 46 47 48 49 50 51 52 53 54 55 56 57 58 59 60 61 62 63 64 65\n\n0\n",
        "formula 4 25",
    ),
    (
        "p cnf 65 1\n1 2 3 4 5 6 7 8 9 10 11 12 13 14 15 16 17 18 19 20 21 22 23 24 25 26 27 28 29 30 31 32 33 34 35 36 37 38 39 40 41 42 43 44 45 46 47 48 49 50 51 52 53 54 55 56 57 58 59 60 61 62 63 64 65\n66 0\n",
        "formula 3 24",
    ),
    (
        "p cnf 65 1\n1 2 3 4 5 6 7 8 9 10 11 12 13 14 15 16 17 18 19 20 21 22 23 24 25 26 27 28 29 30 31 32 33 34 35 36 37 38 39 40 41 42 43 44 45 46 47 48 49 50 51 52 53 54 55 56 57 58 59 60 61 62 63 64 65\n",
        "formula 2 26",
    ),
];

#[test]
fn headers(rt: HostRuntime) -> Result<(), Fail> {
    Program::new(&rt, rt.alloc())?.formulas_refused(&HEADERS)
}

#[test]
fn words(rt: HostRuntime) -> Result<(), Fail> {
    Program::new(&rt, rt.alloc())?.formulas_refused(&WORDS)
}

#[test]
fn counts(rt: HostRuntime) -> Result<(), Fail> {
    Program::new(&rt, rt.alloc())?.formulas_refused(&COUNTS)
}

#[test]
fn wide_lists(rt: HostRuntime) -> Result<(), Fail> {
    Program::new(&rt, rt.alloc())?.formulas_refused(&WIDE)
}

#[test]
fn read(rt: HostRuntime) -> Result<(), Fail> {
    Program::new(&rt, rt.alloc())?.files_accepted(&READ)
}
