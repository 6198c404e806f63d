// Going through a text from line to line.
ghost use Rattle.std.specs.Iterator.{YieldsFirstBy, item_count};
ghost use Rattle.trace.specs.Sessions.{line_of, lines_of};

use crate::numbered::NumberedLines;

// Each line with its number, and with its line feed where it has one. An iterator of its own, since a loop over
// split_inclusive(..).enumerate() gets no proof in a function that is generic over the database: the check then writes an ill-typed
// name for the iterator.
impl<'a> Iterator for NumberedLines<'a> {
    type Item = (usize, &'a [u8]);

    ghost next_gives = { YieldsFirstBy (λ line. (line.0, line_of line.1.now)) lines_of };

    ghost remaining = { item_count lines_of };

    fn next(&mut self) -> Option<(usize, &'a [u8])> {
        let line = self.rest.split_inclusive(|byte| *byte == b'\n').next()?;
        let number = self.number;
        self.number += 1;
        self.rest = &self.rest[line.len()..];
        Some((number, line))
    }
}
