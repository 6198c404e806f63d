ghost use Rattle.std.specs.Prelude.{◌+◌, ◌≤◌, length};

// What is left of a text of at most 65,536 bytes, with the line of its first byte.
#[derive(Drop)]
pub struct Scanner<'a> {
    pub line: usize,
    pub rest: &'a [u8],
    ghost few: { line + length rest.now ≤ 65537 },
}
