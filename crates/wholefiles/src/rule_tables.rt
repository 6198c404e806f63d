// Traces at the rules of the four kinds.
use crate::printout::Program;
use crate::tables::LISTING;
use std::test::Fail;

// Below the formula of four variables.
const REFUSED: [(&str, &str); 20] = [
    // R: numbers given before
    ("R 5 1 1 2\n", "trace 2 41"),
    ("R 5 1 9 9\n", "trace 2 41"),
    ("R 1000000 1 1 2\nR 1000000 1 1 2\n", "trace 3 41"),
    ("R 9 1 1 2\nR 8 1 1 2\n", "trace 3 41"),
    ("R 6 1 1 2\nR 7 1 1 2\nS 7 0 6 0\nR 7 1 1 2\n", "trace 5 41"),
    // a clause that does not stand: never given, a list with an opposite pair, removed
    ("R 6 1 9 2\n", "trace 2 42"),
    ("R 6 4 1 9\n", "trace 2 42"),
    ("R 6 2 5 3\n", "trace 2 42"),
    ("S 9 0 1 0\n", "trace 2 42"),
    ("S 1 0 1000000 0\n", "trace 2 42"),
    ("B 5 2 0 0\n", "trace 2 42"),
    ("R 6 1 1 2\nE 0 1 0 0\nR 7 1 1 2\n", "trace 4 42"),
    // a clause without the pivot, or with its negation
    ("R 6 3 1 4\n", "trace 2 43"),
    ("R 6 1 1 4\n", "trace 2 43"),
    ("R 6 -1 1 2\n", "trace 2 43"),
    ("R 6 1 1 1\n", "trace 2 43"),
    ("B 3 2 0 0\n", "trace 2 43"),
    ("S 1 0 1 0\n", "trace 2 46"),
    ("B 1 1 0 0\n", "trace 2 47"),
    ("E 0 5 0 0\nE 0 1 0 0\ns\n", "trace 3 48"),
];

// Below formulas of their own.
const OTHERS: [(&str, &str, &str); 10] = [
    ("p cnf 2 2\n1 2 0\n-1 -2 0\n", "R 3 1 1 2\n", "trace 2 44"),
    // a resolvent of 65 literals, and one that has an opposite pair too
    (
        "p cnf 512 2\n1 2 3 4 5 6 7 8 9 10 11 12 13 14 15 16 17 18 19 20 21 22 23 24 25 26 27 28 29 30 31 32 33 0\n-1 -101 -102 -103 -104 -105 -106 -107 -108 -109 -110 -111 -112 -113 -114 -115 -116 -117 -118 -119 -120 -121 -122 -123 -124 -125 -126 -127 -128 -129 -130 -131 -132 -133 0\n",
        "R 3 1 1 2\n",
        "trace 2 45",
    ),
    (
        "p cnf 512 2\n1 2 3 4 5 6 7 8 9 10 11 12 13 14 15 16 17 18 19 20 21 22 23 24 25 26 27 28 29 30 31 32 33 0\n-1 -33 -101 -102 -103 -104 -105 -106 -107 -108 -109 -110 -111 -112 -113 -114 -115 -116 -117 -118 -119 -120 -121 -122 -123 -124 -125 -126 -127 -128 -129 -130 -131 -132 -133 0\n",
        "R 3 1 1 2\n",
        "trace 2 44",
    ),
    ("p cnf 2 2\n1 0\n1 2 0\n", "S 1 0 2 0\n", "trace 2 46"),
    ("p cnf 2 2\n-1 0\n1 2 0\n", "S 2 0 1 0\n", "trace 2 46"),
    // a derived clause counts against a blocked one
    (
        "p cnf 3 3\n1 3 0\n-1 2 -3 0\n2 3 0\n",
        "R 4 -3 2 3\nB 1 1 0 0\n",
        "trace 3 47",
    ),
    // a clause that only subsumes the resolvent is not the resolvent
    (
        "p cnf 3 3\n1 2 0\n-1 3 0\n2 0\n",
        "E 0 1 0 0\n",
        "trace 2 48",
    ),
    ("p cnf 1 2\n1 0\n-1 0\n", "E 0 1 0 0\n", "trace 2 48"),
    (
        "p cnf 4 3\n1 2 0\n-1 3 0\n-1 4 0\n",
        "R 4 1 1 2\nE 0 1 0 0\n",
        "trace 3 48",
    ),
    // a resolvent that is too wide to stand
    (
        "p cnf 512 2\n1 2 3 4 5 6 7 8 9 10 11 12 13 14 15 16 17 18 19 20 21 22 23 24 25 26 27 28 29 30 31 32 33 0\n-1 -101 -102 -103 -104 -105 -106 -107 -108 -109 -110 -111 -112 -113 -114 -115 -116 -117 -118 -119 -120 -121 -122 -123 -124 -125 -126 -127 -128 -129 -130 -131 -132 -133 0\n",
        "E 0 1 0 0\n",
        "trace 2 48",
    ),
];

// Formula, lines, counts, text.
const ACCEPTED: [(&str, &str, &str, &str); 17] = [
    (
        LISTING,
        "",
        "0 4 0",
        "p cnf 4 4\n1 2 0\n-1 3 0\n-2 3 0\n-3 4 0\n",
    ),
    (
        LISTING,
        "R 6 1 1 2\nE 0 1 0 0\nR 7 2 6 3\nS 6 0 7 0\nB 3 -2 0 0\n",
        "5 2 0",
        "p cnf 4 2\n-3 4 0\n3 0\n",
    ),
    // the highest clause number and the highest pivot
    (
        LISTING,
        "R 1000000 1 1 2\nE 0 512 0 0\n",
        "2 5 0",
        "p cnf 4 5\n1 2 0\n-1 3 0\n-2 3 0\n-3 4 0\n2 3 0\n",
    ),
    (
        LISTING,
        "R 6 1 1 2\nR 8 -1 2 1\n",
        "2 6 0",
        "p cnf 4 6\n1 2 0\n-1 3 0\n-2 3 0\n-3 4 0\n2 3 0\n2 3 0\n",
    ),
    // a literal that no clause denies
    (
        LISTING,
        "B 4 4 0 0\n",
        "1 3 0",
        "p cnf 4 3\n1 2 0\n-1 3 0\n-2 3 0\n",
    ),
    (
        LISTING,
        "E 0 4 0 0\n",
        "1 3 0",
        "p cnf 4 3\n1 2 0\n-1 3 0\n-2 3 0\n",
    ),
    // the pair that is resolved away is no opposite pair of the resolvent
    (
        "p cnf 1 2\n1 0\n-1 0\n",
        "R 3 1 1 2\n",
        "1 3 1",
        "p cnf 1 3\n1 0\n-1 0\n0\n",
    ),
    // a resolvent of 64 literals
    (
        "p cnf 512 2\n1 2 3 4 5 6 7 8 9 10 11 12 13 14 15 16 17 18 19 20 21 22 23 24 25 26 27 28 29 30 31 32 33 0\n-1 -101 -102 -103 -104 -105 -106 -107 -108 -109 -110 -111 -112 -113 -114 -115 -116 -117 -118 -119 -120 -121 -122 -123 -124 -125 -126 -127 -128 -129 -130 -131 -132 0\n",
        "R 3 1 1 2\n",
        "1 3 0",
        "p cnf 512 3\n1 2 3 4 5 6 7 8 9 10 11 12 13 14 15 16 17 18 19 20 21 22 23 24 25 26 27 28 29 30 31 32 33 0\n-1 -101 -102 -103 -104 -105 -106 -107 -108 -109 -110 -111 -112 -113 -114 -115 -116 -117 -118 -119 -120 -121 -122 -123 -124 -125 -126 -127 -128 -129 -130 -131 -132 0\n2 3 4 5 6 7 8 9 10 11 12 13 14 15 16 17 18 19 20 21 22 23 24 25 26 27 28 29 30 31 32 33 -101 -102 -103 -104 -105 -106 -107 -108 -109 -110 -111 -112 -113 -114 -115 -116 -117 -118 -119 -120 -121 -122 -123 -124 -125 -126 -127 -128 -129 -130 -131 -132 0\n",
    ),
    (
        "p cnf 2 2\n1 0\n1 2 0\n",
        "S 2 0 1 0\n",
        "1 1 0",
        "p cnf 2 1\n1 0\n",
    ),
    (
        "p cnf 1 2\n1 0\n1 1 0\n",
        "S 1 0 2 0\n",
        "1 1 0",
        "p cnf 1 1\n1 0\n",
    ),
    (
        "p cnf 1 2\n1 0\n0\n",
        "S 1 0 2 0\n",
        "1 1 1",
        "p cnf 1 1\n0\n",
    ),
    (
        "p cnf 2 2\n1 2 0\n-1 -2 0\n",
        "B 1 1 0 0\n",
        "1 1 0",
        "p cnf 2 1\n-1 -2 0\n",
    ),
    (
        "p cnf 2 2\n1 2 0\n-1 -2 0\n",
        "E 0 1 0 0\n",
        "1 0 0",
        "p cnf 2 0\n",
    ),
    (
        "p cnf 3 3\n1 3 0\n-1 2 -3 0\n2 3 0\n",
        "B 1 1 0 0\n",
        "1 2 0",
        "p cnf 3 2\n-1 2 -3 0\n2 3 0\n",
    ),
    (
        "p cnf 2 3\n-1 0\n2 0\n-1 2 0\n",
        "E 0 1 0 0\n",
        "1 1 0",
        "p cnf 2 1\n2 0\n",
    ),
    // the empty resolvent stands
    (
        "p cnf 1 3\n0\n1 0\n-1 0\n",
        "E 0 1 0 0\n",
        "1 1 1",
        "p cnf 1 1\n0\n",
    ),
    // clauses are written by rising number
    (
        "p cnf 3 3\n1 2 0\n-1 2 0\n3 0\n",
        "R 1000 1 1 2\nS 1 0 1000 0\n",
        "2 3 0",
        "p cnf 3 3\n-1 2 0\n3 0\n2 0\n",
    ),
];

#[test]
fn refused(rt: HostRuntime) -> Result<(), Fail> {
    Program::new(&rt, rt.alloc())?.lines_refused(&REFUSED)
}

#[test]
fn refused_others(rt: HostRuntime) -> Result<(), Fail> {
    Program::new(&rt, rt.alloc())?.files_refused(&OTHERS)
}

#[test]
fn accepted(rt: HostRuntime) -> Result<(), Fail> {
    Program::new(&rt, rt.alloc())?.files_accepted(&ACCEPTED)
}
