// Trace files below the formula of four variables: names, values and fields.
use crate::printout::Program;
use std::test::Fail;

// The line of names.
const NAMED: [(&str, &str); 9] = [
    ("", "trace 1 30"),
    ("kind clause pivot first second", "trace 1 30"),
    ("kind clause pivot first second\r\n", "trace 1 30"),
    ("kind clause pivot first second \n", "trace 1 30"),
    ("Kind clause pivot first second\n", "trace 1 30"),
    ("kind  clause pivot first second\n", "trace 1 30"),
    ("kind clause pivot first\n", "trace 1 30"),
    ("\nkind clause pivot first second\n", "trace 1 30"),
    ("R 6 1 1 2\n", "trace 1 30"),
];

const VALUES: [(&str, &str); 24] = [
    // not five values, or no line feed
    ("S 1 0 2\n", "trace 2 31"),
    ("S 1 0 2 0 0\n", "trace 2 31"),
    ("S 1 0 2 0 \n", "trace 2 31"),
    ("S  1 0 2 0\n", "trace 2 31"),
    ("\n", "trace 2 31"),
    ("E\t0\t4\t0\t0\n", "trace 2 31"),
    ("s 01 x 8\n", "trace 2 31"),
    ("E 0 4 0 0", "trace 2 31"),
    ("E 0 5 0 0\n\n", "trace 3 31"),
    ("R 6 1 1 2\nE 0 1 0 0", "trace 3 31"),
    // a malformed value
    ("S 1  2 0\n", "trace 2 32"),
    ("    \n", "trace 2 32"),
    ("s 1 0 2 0\n", "trace 2 32"),
    ("SS 1 0 2 0\n", "trace 2 32"),
    ("D 1 0 2 0\n", "trace 2 32"),
    ("S 1 0 2 0\r\n", "trace 2 32"),
    ("S -1 0 2 0\n", "trace 2 32"),
    ("S 1 0 -2 0\n", "trace 2 32"),
    ("R 6 1 1 -2\n", "trace 2 32"),
    ("S 1 -0 2 0\n", "trace 2 32"),
    ("S 1 0 02 0\n", "trace 2 32"),
    ("R 6 +1 1 2\n", "trace 2 32"),
    ("R 6 10000000 1 2\n", "trace 2 32"),
    ("R 1000001 1 1 2x\n", "trace 2 32"),
];

// A field that is 0 though used, filled though not used, or out of range.
const FIELDS: [(&str, &str); 23] = [
    ("R 0 1 1 2\n", "trace 2 33"),
    ("R 1000001 1 1 2\n", "trace 2 33"),
    ("R 6 0 1 2\n", "trace 2 33"),
    ("R 6 513 1 2\n", "trace 2 33"),
    ("R 6 -513 1 2\n", "trace 2 33"),
    ("R 6 65537 1 2\n", "trace 2 33"),
    ("R 6 1 0 2\n", "trace 2 33"),
    ("R 6 1 1 1000001\n", "trace 2 33"),
    // before the rule of the kind
    ("R 5 1 1 0\n", "trace 2 33"),
    ("S 0 0 2 0\n", "trace 2 33"),
    ("S 1 1 2 0\n", "trace 2 33"),
    ("S 1 0 0 0\n", "trace 2 33"),
    ("S 1 0 2 3\n", "trace 2 33"),
    ("B 0 -2 0 0\n", "trace 2 33"),
    ("B 3 513 0 0\n", "trace 2 33"),
    ("B 3 -2 1 0\n", "trace 2 33"),
    ("B 3 -2 0 1\n", "trace 2 33"),
    ("E 1 4 0 0\n", "trace 2 33"),
    ("E 0 0 0 0\n", "trace 2 33"),
    ("E 0 -1 0 0\n", "trace 2 33"),
    ("E 0 513 0 0\n", "trace 2 33"),
    ("E 0 4 1 0\n", "trace 2 33"),
    ("E 0 4 0 1\n", "trace 2 33"),
];

#[test]
fn names(rt: HostRuntime) -> Result<(), Fail> {
    Program::new(&rt, rt.alloc())?.traces_refused(&NAMED)
}

#[test]
fn values(rt: HostRuntime) -> Result<(), Fail> {
    Program::new(&rt, rt.alloc())?.lines_refused(&VALUES)
}

#[test]
fn fields(rt: HostRuntime) -> Result<(), Fail> {
    Program::new(&rt, rt.alloc())?.lines_refused(&FIELDS)
}
