use crate::{explanation, refusal_row};
use std::process::Abort;
use std::test::Fail;
use words::{DatabaseFault, Field, File, FileFault, LocatedFault, SessionFault, StackFault};

const FORMULA: &[u8] = b"p cnf 2 2\n1 2 0\r\n-1 0";

const TRACE: &[u8] = b"kind clause pivot first second\nE 0 1 0 0\n";

// Every fault that reading a text and opening a session give, with its number and its layer.
const READING: [(FileFault, u8, &str); 15] = [
    (
        FileFault::Session(SessionFault::DatabaseNotEmpty),
        10,
        "open",
    ),
    (FileFault::Session(SessionFault::StackNotEmpty), 11, "open"),
    (
        FileFault::Session(SessionFault::TooManyVariables),
        12,
        "open",
    ),
    (FileFault::TooManyBytes, 20, "file"),
    (FileFault::HeaderMalformed, 21, "formula"),
    (FileFault::HeaderBeyond, 22, "formula"),
    (FileFault::NotANumber, 23, "formula"),
    (
        FileFault::Session(SessionFault::LiteralBeyond(3)),
        24,
        "load",
    ),
    (
        FileFault::Session(SessionFault::TooManyLiterals(70)),
        25,
        "load",
    ),
    (FileFault::ClauseCount, 26, "formula"),
    (FileFault::Session(SessionFault::LoadedFull), 27, "load"),
    (FileFault::TooManyWords, 28, "formula"),
    (FileFault::NamesWrong, 30, "trace"),
    (FileFault::NotFiveValues, 31, "trace"),
    (FileFault::ValueMalformed, 32, "trace"),
];

// Every other fault of a session.
const CALLS: [(SessionFault, u8, &str); 23] = [
    (SessionFault::FieldWrong(Field::Pivot), 33, "submit"),
    (SessionFault::MarksDirty, 40, "submit"),
    (SessionFault::NumberNotAbove(5), 41, "rule"),
    (SessionFault::Missing(5), 42, "rule"),
    (
        SessionFault::Database(DatabaseFault::Absent(5)),
        42,
        "shelf",
    ),
    (SessionFault::Lacking(5), 43, "rule"),
    (SessionFault::Tautology(1, 2), 44, "rule"),
    (SessionFault::ResolventTooWide(1, 2), 45, "rule"),
    (SessionFault::NotSubsumed(1, 2), 46, "rule"),
    (SessionFault::NotBlocked(5), 47, "rule"),
    (SessionFault::NotCovered(1, 2), 48, "rule"),
    (
        SessionFault::Database(DatabaseFault::NumberTaken),
        60,
        "shelf",
    ),
    (
        SessionFault::Database(DatabaseFault::VariableBeyond),
        61,
        "shelf",
    ),
    (SessionFault::Database(DatabaseFault::TooWide), 62, "shelf"),
    (
        SessionFault::Database(DatabaseFault::ClausesFull),
        63,
        "shelf",
    ),
    (
        SessionFault::Database(DatabaseFault::LiteralsFull),
        64,
        "shelf",
    ),
    (SessionFault::Stack(StackFault::EntriesFull), 65, "roll"),
    (SessionFault::Stack(StackFault::LiteralsFull), 66, "roll"),
    (SessionFault::AssignmentLength(3), 70, "restore"),
    (SessionFault::AssignmentByte(2), 71, "restore"),
    (SessionFault::Unmet(5), 72, "restore"),
    (SessionFault::BufferShort, 80, "write"),
    (SessionFault::TextTooLong, 81, "write"),
];

// A fault has this number and this layer, and a sentence that says something.
fn is_told(
    rt: &(impl Abort + AllocGlobal),
    fault: FileFault,
    number: u8,
    layer: &str,
) -> Result<(), Fail> {
    let refusal = fault.refusal(1);
    assert_eq!(rt; refusal.number, number);
    assert_eq!(rt; refusal.layer.to_string(rt.alloc())?.as_str(), layer);
    assert!(rt; !fault.to_string(rt.alloc())?.is_empty(), "{}", number);
    Ok(())
}

// The same of each fault of a list.
fn are_told<F: Copy>(rt: &(impl Abort + AllocGlobal), faults: &[(F, u8, &str)]) -> Result<(), Fail>
where
    FileFault: From<F>,
{
    for (fault, number, layer) in faults {
        is_told(rt, FileFault::from(*fault), *number, layer)?;
    }
    Ok(())
}

#[test]
fn every_refusal_has_a_sentence(rt: HostRuntime) -> Result<(), Fail> {
    are_told(&rt, &READING)?;
    are_told(&rt, &CALLS)
}

// A fault is explained so.
fn is_explained(
    rt: &(impl Abort + AllocGlobal),
    fault: LocatedFault,
    expected: &str,
) -> Result<(), Fail> {
    let text = explanation(rt.alloc(), FORMULA, TRACE, &fault)?;
    assert_eq!(rt; text.as_slice(), expected.as_bytes(), "{}", expected);
    Ok(())
}

#[test]
fn explanations(rt: HostRuntime) -> Result<(), Fail> {
    let uncovered = FileFault::from(SessionFault::NotCovered(1, 2));
    is_explained(
        &rt,
        uncovered.at(File::Trace, 2),
        "trace, line 2: E 0 1 0 0\nrefusal 48 (rule): the resolvent of a clause with the pivot and one with its negation neither holds an opposite pair nor stands: clauses 1 and 2\n",
    )?;
    is_explained(
        &rt,
        FileFault::NotANumber.at(File::Formula, 2),
        "formula, line 2: 1 2 0\r\nrefusal 23 (formula): a word is not a number\n",
    )?;
    let wrong_field = FileFault::from(SessionFault::FieldWrong(Field::Pivot));
    is_explained(
        &rt,
        wrong_field.at(File::Trace, 9),
        "trace, line 9:\nrefusal 33 (submit): a field is 0 although the kind uses it, is filled although the kind does not use it, or is out of range: field 3 (pivot)\n",
    )?;
    is_explained(
        &rt,
        FileFault::TooManyBytes.at(File::Formula, 0),
        "formula:\nrefusal 20 (file): the file has more than 65536 bytes\n",
    )?;
    let short = FileFault::from(SessionFault::BufferShort);
    is_explained(
        &rt,
        short.at(File::Write, 0),
        "write:\nrefusal 80 (write): the buffer is shorter than the text\n",
    )
}

// From a place on, the bytes are these.
fn has_at(rt: &impl Abort, bytes: &[u8], start: usize, expected: &[u8]) {
    let end = start.saturating_add(expected.len());
    assert_eq!(rt; bytes.get(start..end), Some(expected));
}

// 200 bytes of a line are shown, of 201 the first 200.
#[test]
fn long_lines(rt: HostRuntime) -> Result<(), Fail> {
    let heap = rt.alloc();
    let line = [b'x'; 201];
    let fault = FileFault::NotANumber.at(File::Formula, 1);
    let whole = explanation(heap, &line[..200], b"", &fault)?;
    let cut = explanation(heap, &line, b"", &fault)?;
    has_at(&rt, whole.as_slice(), 215, b"xx\n");
    has_at(&rt, cut.as_slice(), 215, b"xx...\n");
    assert_eq!(rt; cut.len(), whole.len() + 3);
    Ok(())
}

#[test]
fn rows(rt: HostRuntime) -> Result<(), Fail> {
    let uncovered = FileFault::from(SessionFault::NotCovered(1, 2));
    let row = refusal_row(rt.alloc(), &uncovered.at(File::Trace, 2))?;
    assert_eq!(rt; row.as_str(), "trace 2 48");
    let row = refusal_row(rt.alloc(), &FileFault::TooManyBytes.at(File::Formula, 0))?;
    assert_eq!(rt; row.as_str(), "formula 0 20");
    Ok(())
}
