// Writing what stands. More than 1,024 clauses can't stand in either kind of database, so 81 is met by long texts only.
use crate::make::{clause, full_memory, range};
use bitmask::Bitmask;
use database::ClauseDatabase;
use reader::read_formula;
use reconstruction::ReconstructionStack;
use std::alloc::{AllocError, Global};
use std::process::Abort;
use std::test::Fail;
use words::{ClauseNumber, Literal, SessionFault};
use writer::write;

// Writes {-1, 3} and the empty clause into a buffer of so many #; answers what was told and what is in the buffer then.
fn write_two(rt: &impl Abort, len: usize) -> Result<(Result<usize, SessionFault>, [u8; 21]), Fail> {
    let mut db = Bitmask::new();
    db.put(ClauseNumber::try_from(7)?, &clause(rt, &[3, -1])?)?;
    db.put(ClauseNumber::try_from(2)?, &clause(rt, &[])?)?;
    let mut buffer = [b'#'; 21];
    let told = write(&db, 3, &mut buffer[0..len.min(21)]);
    Ok((told, buffer))
}

// The bytes behind the text stay, and a buffer that is too short stays whole.
#[test]
fn buffers(rt: HostRuntime) -> Result<(), Fail> {
    let untouched = *b"#####################";
    let short = Err(SessionFault::BufferShort);
    assert_eq!(rt; write_two(&rt, 0)?, (short, untouched));
    assert_eq!(rt; write_two(&rt, 18)?, (short, untouched));
    assert_eq!(rt; write_two(&rt, 19)?, (Ok(19), *b"p cnf 3 2\n0\n-1 3 0\n##"));
    assert_eq!(rt; write_two(&rt, 21)?, (Ok(19), *b"p cnf 3 2\n0\n-1 3 0\n##"));
    Ok(())
}

// Puts 203 clauses of 64 literals of five bytes each, and one with 30 of these and one of four or five bytes.
fn put_long<D: ClauseDatabase>(
    rt: &(impl Abort + AllocGlobal),
    db: &mut D,
    last: i16,
) -> Result<(), Fail> {
    let heap = rt.alloc();
    let wide = clause(rt, range(heap, -449, -512)?.as_slice())?;
    for i in 1..204 {
        db.put(ClauseNumber::try_from(i)?, &wide)?;
    }
    let mut narrow = clause(rt, range(heap, -400, -429)?.as_slice())?;
    assert!(rt; narrow.insert(Literal::try_from(last)?));
    db.put(ClauseNumber::try_from(204)?, &narrow)?;
    Ok(())
}

// Writes them into a buffer; answers what was told.
fn write_long(
    rt: &(impl Abort + AllocGlobal),
    last: i16,
    buffer: &mut [u8],
) -> Result<Result<usize, SessionFault>, Fail> {
    let mut memory = full_memory(rt.alloc())?;
    let mut db = memory.arena();
    put_long(rt, &mut db, last)?;
    Ok(write(&db, 512, buffer))
}

// The last literal, the length of the buffer, and the answer: a text of 65,536 bytes is written, one of 65,537 is not, whatever
// the buffer.
const LONG: [(i16, usize, Result<usize, SessionFault>); 4] = [
    (430, 65_536, Ok(65_536)),
    (430, 65_535, Err(SessionFault::BufferShort)),
    (-430, 65_535, Err(SessionFault::TextTooLong)),
    (-430, 70_000, Err(SessionFault::TextTooLong)),
];

#[test]
fn long_texts(rt: HostRuntime) -> Result<(), Fail> {
    for (last, len, answer) in &LONG {
        let mut buffer = vec![in rt.alloc(); b'#'; *len]?;
        let told = write_long(&rt, *last, buffer.as_mut_slice())?;
        assert_eq!(rt; told, *answer);
        if answer.is_ok() {
            assert!(rt; buffer.as_slice().ends_with(b" -429 430 0\n"));
        } else {
            assert!(rt; !buffer.as_slice().contains(&b'0'));
        }
    }
    Ok(())
}

// A line of 16 literals, whose signs are the digits of its place in base 2.
fn push_line(text: &mut String, place: u32) -> Result<(), AllocError> {
    for v in 0..16u32 {
        let sign = if (place >> v) % 2 == 1 { "-" } else { "" };
        let variable = v + 1;
        write!(text, "{sign}{variable} ")?;
    }
    text.push_str("0\n")
}

// A formula of 1,024 such clauses.
fn largest(heap: Global) -> Result<String, AllocError> {
    let mut text = String::from_str(heap, "p cnf 16 1024\n")?;
    for i in 0..1_024u32 {
        push_line(&mut text, i)?;
    }
    Ok(text)
}

// Reads a text onto an arena and writes it into a buffer; answers what was told.
fn read_and_write(
    rt: &(impl Abort + AllocGlobal),
    text: &[u8],
    buffer: &mut [u8],
) -> Result<Result<usize, SessionFault>, Fail> {
    let stack = ReconstructionStack::new(&mut [], &mut []);
    let mut memory = full_memory(rt.alloc())?;
    let mut db = memory.arena();
    read_formula(text, &mut db, &stack)?;
    assert!(rt; db.count() == 1_024 && db.literal_total() == 16_384);
    Ok(write(&db, 16, buffer))
}

// It is read, and written back byte for byte.
#[test]
fn the_largest_formula(rt: HostRuntime) -> Result<(), Fail> {
    let heap = rt.alloc();
    let text = largest(heap)?;
    let mut buffer = vec![in heap; 0u8; 65_536]?;
    assert_eq!(rt;
        read_and_write(&rt, text.as_bytes(), buffer.as_mut_slice())?,
        Ok(text.len())
    );
    assert!(rt; buffer.as_slice().starts_with(text.as_bytes()));
    Ok(())
}
