use crate::{read_position, write_position};
use std::process::Abort;
use std::test::Fail;

// A text and its values.
const TEXTS: [(&str, &str); 14] = [
    ("", ""),
    ("\n", ""),
    (" \t\r\n", ""),
    ("0", "\x00"),
    ("1", "\x01"),
    ("0 1", "\x00\x01"),
    ("01", "\x00\x01"),
    ("1\t0\r\n1 \n\n0", "\x01\x00\x01\x00"),
    ("  10  ", "\x01\x00"),
    // every other byte is a value too
    ("2", "\x02"),
    ("x", "\x02"),
    ("1 ? 0", "\x01\x02\x00"),
    ("-1", "\x02\x01"),
    ("0,1;\x00", "\x00\x02\x01\x02\x02"),
];

// A position and its text.
const POSITIONS: [(&str, &str); 7] = [
    ("", "\n"),
    ("\x00", "0\n"),
    ("\x01", "1\n"),
    ("\x00\x01", "0 1\n"),
    ("\x01\x01\x00\x01", "1 1 0 1\n"),
    ("\x02", "?\n"),
    ("\x01\x070\x00", "1 ? ? 0\n"),
];

// A memory has these bytes at its front, as far as it has room, and behind them what was there.
fn has_front(rt: &impl Abort, memory: &[u8], front: &[u8], filled: u8) {
    for (i, byte) in memory.iter().enumerate() {
        assert_eq!(rt; *byte, front.get(i).copied().unwrap_or(filled));
    }
}

fn reads(rt: &impl Abort, read: &str, values: &[u8]) -> Result<(), Fail> {
    let text = read.as_bytes();
    let mut wide = [9; 8];
    assert_eq!(rt; read_position(text, &mut wide), values.len(), "{}", read);
    has_front(rt, &wide, values, 9);
    let mut narrow = [9; 2];
    assert_eq!(rt; read_position(text, &mut narrow), values.len());
    has_front(rt, &narrow, values, 9);
    assert_eq!(rt; read_position(text, &mut []), values.len());
    Ok(())
}

fn writes(rt: &impl Abort, values: &[u8], written: &str) -> Result<(), Fail> {
    let text = written.as_bytes();
    let mut wide = [b'.'; 12];
    assert_eq!(rt;
        write_position(values, &mut wide),
        text.len(),
        "{}",
        written
    );
    has_front(rt, &wide, text, b'.');
    let mut narrow = [b'.'; 3];
    assert_eq!(rt; write_position(values, &mut narrow), text.len());
    has_front(rt, &narrow, text, b'.');
    assert_eq!(rt; write_position(values, &mut []), text.len());
    Ok(())
}

#[test]
fn texts_are_read(rt: HostRuntime) -> Result<(), Fail> {
    for (text, values) in &TEXTS {
        reads(&rt, text, values.as_bytes())?;
    }
    Ok(())
}

#[test]
fn positions_are_written(rt: HostRuntime) -> Result<(), Fail> {
    for (values, text) in &POSITIONS {
        writes(&rt, values.as_bytes(), text)?;
    }
    Ok(())
}
