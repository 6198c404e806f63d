use crate::Output;
use std::test::Fail;

// Puts two texts, and answers how many bytes were put.
fn put_two(buffer: &mut [u8], first: &[u8], second: &[u8]) -> usize {
    let mut out = Output::over(buffer);
    out.extend_from_slice(first);
    out.push(b' ');
    out.extend_from_slice(second);
    out.len()
}

#[test]
fn texts_follow_each_other(rt: HostRuntime) -> Result<(), Fail> {
    let mut wide = [b'.'; 8];
    assert_eq!(rt; put_two(&mut wide, b"ab", b"cde"), 6);
    assert_eq!(rt; &wide, b"ab cde..");
    Ok(())
}

#[test]
fn what_lies_beyond_is_counted(rt: HostRuntime) -> Result<(), Fail> {
    let mut narrow = [b'.'; 4];
    assert_eq!(rt; put_two(&mut narrow, b"ab", b"cde"), 6);
    assert_eq!(rt; &narrow, b"ab c");
    assert_eq!(rt; put_two(&mut [], b"ab", b"cde"), 6);
    Ok(())
}
