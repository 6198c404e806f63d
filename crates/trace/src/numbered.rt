ghost use Rattle.std.specs.Prelude.{◌+◌, ◌≤◌, length};

// The lines that are left of a text of at most 65,536 bytes, with the number of the next.
#[derive(Drop)]
pub struct NumberedLines<'a> {
    pub number: usize,
    pub rest: &'a [u8],
    ghost few: { number + length rest.now ≤ 65538 },
}
