// The lines of a text, and the line that a fault names.

#![tactic(auto)]

ghost use Rattle.std.specs.Prelude.{◌≡◌, ◌≤◌, length};
ghost use Rattle.std.specs.Option.{option_map};
ghost use Rattle.textlines.specs.Lines.{blank, length_to, first_end, faulty_line, nth_line, text_lines};

use words::{File, LocatedFault};

#[cfg(test)]
mod tests;

// Whether a byte separates words: a space, a tab, a carriage return or a line feed.
pub fn is_blank(byte: u8) -> bool
    ensures { result ≡ blank byte }
{
    b" \t\r\n".contains(&byte)
}

// How many bytes stand before the first that is this one.
pub fn length_to(byte: u8, bytes: &[u8]) -> usize
    ensures value { result ≡ length_to byte bytes.now }
    ensures fits { result ≤ length bytes.now }
{
    bytes.iter().position(|b| *b == byte).unwrap_or(bytes.len())
}

// Where the first line of a text ends: how many bytes stand before its first line feed.
pub fn line_end(text: &[u8]) -> usize
    ensures value { result ≡ first_end text.now }
    ensures fits { result ≤ length text.now }
{
    length_to(b'\n', text)
}

// How many lines a text has.
pub fn count_lines(text: &[u8]) -> usize
    ensures { result ≡ length (text_lines text.now) }
{
    text.split_inclusive(|b| *b == b'\n').count()
}

// Line n of a text, counted from 1, without its line feed.
fn nth_line(text: &[u8], n: usize) -> Option<&[u8]>
    ensures { option_map (λ x. x.now) result ≡ nth_line n (text_lines text.now) }
{
    let line = text
        .split_inclusive(|b| *b == b'\n')
        .nth(n.checked_sub(1)?)?;
    Some(line.strip_suffix(b"\n").unwrap_or(line))
}

// The line that a fault names, without its line feed: a part of the formula or of the trace. None for the writer, for
// line 0 and for a line that the text does not have.
pub fn faulty_line<'a>(formula: &'a [u8], trace: &'a [u8], fault: &LocatedFault) -> Option<&'a [u8]>
    ensures { option_map (λ x. x.now) result ≡ faulty_line formula.now trace.now fault.now }
{
    match fault.file {
        File::Formula => nth_line(formula, fault.line),
        File::Trace => nth_line(trace, fault.line),
        File::Write => None,
    }
}
