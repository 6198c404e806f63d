// Going through a text from word to word.
ghost use Rattle.std.specs.Prelude.{◌≡◌, ◌<◌, ◌≤◌, false, not, length, take, drop, slice_index};
ghost use Rattle.std.specs.List.{prefix_len};
ghost use Rattle.std.specs.Iterator.{YieldsFirstBy, item_count};
ghost use Rattle.textlines.specs.Lines.{blank};
ghost use Rattle.reader.specs.Tokens.{last_line, line_before};
ghost use Rattle.reader.specs.Scanning.{rest_of, words_of};

use crate::scanner::Scanner;
use textlines::{count_lines, is_blank};

// Where the word ends with which a text begins: how many bytes stand before its first blank.
fn word_end(text: &[u8]) -> usize
    ensures value { result ≡ prefix_len (λ b. not (blank b)) text.now }
    ensures fits { result ≤ length text.now }
{
    text.iter()
        .position(|byte| is_blank(*byte))
        .unwrap_or(text.len())
}

// The last line of a text that has a byte, or 1.
pub(crate) fn last_line(text: &[u8]) -> usize
    ensures { result ≡ last_line text.now }
{
    count_lines(text).max(1)
}

impl<'a> Scanner<'a> {
    // The beginning of a text.
    pub(crate) fn over(text: &'a [u8]) -> Scanner<'a>
        requires { length text.now ≤ 65536 }
        ensures { rest_of result ≡ record { line = 1; bytes = text.now } }
    {
        Scanner {
            line: 1,
            rest: text,
        }
    }

    // The line of a fault of this text that comes up here.
    pub(crate) fn here(&self, text: &[u8]) -> usize
        ensures { result ≡ line_before text.now (rest_of self.now) }
    {
        if self.rest.is_empty() {
            return last_line(text);
        }
        self.line
    }

    // Goes behind the blanks that stand here. A `while`: it counts their line feeds as it goes, so no byte is read twice.
    fn skip_blanks(&mut self)
        ensures words { words_of self.new ≡ words_of self.old }
        ensures stops { 0 < length self.new.rest.now → blank (slice_index self.new.rest.now 0) ≡ false }
    {
        while let [byte, rest @ ..] = self.rest
            && is_blank(*byte)
        {
            self.line += usize::from(*byte == b'\n');
            self.rest = rest;
        }
    }

    // Goes behind the word that stands here, and gives it. No line feed is in a word, so the line stays.
    fn take_word(&mut self) -> &'a [u8]
        ensures word { result.now ≡ take (prefix_len (λ b. not (blank b)) self.old.rest.now) self.old.rest.now }
        ensures rest { self.new.rest.now ≡ drop (prefix_len (λ b. not (blank b)) self.old.rest.now) self.old.rest.now }
        ensures line { self.new.line ≡ self.old.line }
    {
        let (word, rest) = self.rest.split_at(word_end(self.rest));
        self.rest = rest;
        word
    }
}

// Its words, each with its line.
impl<'a> Iterator for Scanner<'a> {
    type Item = (usize, &'a [u8]);

    ghost next_gives = { YieldsFirstBy (λ word. record { line = word.0; bytes = word.1.now }) words_of };

    ghost remaining = { item_count words_of };

    fn next(&mut self) -> Option<(usize, &'a [u8])> {
        self.skip_blanks();
        let word = self.take_word();
        (!word.is_empty()).then_some((self.line, word))
    }
}
