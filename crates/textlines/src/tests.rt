use crate::{count_lines, faulty_line, is_blank, length_to, line_end};
use std::process::Abort;
use std::test::Fail;
use words::{File, FileFault, LocatedFault};

// A text, a line number, and the line.
const LINES: [(&str, usize, Option<&str>); 22] = [
    // an empty text has no line
    ("", 0, None),
    ("", 1, None),
    // there is no line 0
    ("a\nb", 0, None),
    ("\n", 0, None),
    // the first, a middle one and the last, with a line feed or without
    ("a", 1, Some("a")),
    ("a\n", 1, Some("a")),
    ("ab\ncd\nef", 1, Some("ab")),
    ("ab\ncd\nef", 2, Some("cd")),
    ("ab\ncd\nef", 3, Some("ef")),
    ("ab\ncd\nef\n", 3, Some("ef")),
    // beyond the last
    ("a", 2, None),
    ("ab\ncd\nef", 4, None),
    ("ab\ncd\nef", 18_446_744_073_709_551_615, None),
    // behind a last line feed there is no further line
    ("a\n", 2, None),
    ("ab\ncd\nef\n", 4, None),
    // empty lines count
    ("\n", 1, Some("")),
    ("\n\n", 2, Some("")),
    ("\n\n", 3, None),
    ("a\n\nb\n", 2, Some("")),
    ("a\n\nb\n", 3, Some("b")),
    // a carriage return is a byte of its line and ends none
    ("a\r\nb\r\n", 1, Some("a\r")),
    ("a\rb\nc", 2, Some("c")),
];

fn fault(file: File, line: usize) -> LocatedFault {
    FileFault::NotANumber.at(file, line)
}

// Line and text go together, whichever of the two texts is named; the writer names none.
fn named(rt: &impl Abort, named: &str, line: usize, expected: Option<&[u8]>) -> Result<(), Fail> {
    let text = named.as_bytes();
    let other = b"other\nother";
    assert_eq!(rt;
        faulty_line(text, other, &fault(File::Formula, line)),
        expected,
        "{}",
        named
    );
    assert_eq!(rt;
        faulty_line(other, text, &fault(File::Trace, line)),
        expected,
        "{}",
        named
    );
    assert_eq!(rt; faulty_line(text, text, &fault(File::Write, line)), None);
    Ok(())
}

#[test]
fn faulty_lines(rt: HostRuntime) -> Result<(), Fail> {
    for (text, line, expected) in &LINES {
        named(&rt, text, *line, expected.map(|found| found.as_bytes()))?;
    }
    Ok(())
}

#[test]
fn first_lines_end(rt: HostRuntime) {
    assert_eq!(rt; line_end(b""), 0);
    assert_eq!(rt; line_end(b"\n"), 0);
    assert_eq!(rt; line_end(b"ab\r"), 3);
    assert_eq!(rt; line_end(b"ab\ncd\n"), 2);
}

#[test]
fn lines_are_counted(rt: HostRuntime) {
    assert_eq!(rt; count_lines(b""), 0);
    assert_eq!(rt; count_lines(b"\n"), 1);
    assert_eq!(rt; count_lines(b"a"), 1);
    assert_eq!(rt; count_lines(b"a\n"), 1);
    assert_eq!(rt; count_lines(b"a\nb"), 2);
    assert_eq!(rt; count_lines(b"\n\n"), 2);
    assert_eq!(rt; count_lines(b"a\r\n\nb\n"), 3);
}

#[test]
fn bytes_are_found(rt: HostRuntime) {
    assert_eq!(rt; length_to(b'x', b""), 0);
    assert_eq!(rt; length_to(b'x', b"xax"), 0);
    assert_eq!(rt; length_to(b'x', b"abx"), 2);
    assert_eq!(rt; length_to(b'x', b"abc"), 3);
    assert!(rt; b" \t\r\n".iter().all(|byte| is_blank(*byte)));
    assert!(rt; !b"0a\x0b\x0c\x00".iter().any(|byte| is_blank(*byte)));
}
