// The values of a trace line, and the proof line that they are.
ghost use Rattle.std.specs.Prelude.{◌≡◌};
ghost use Rattle.trace.specs.Values.{spaces, first_value, more_values, kind_value, line_of_values, parsed};

use reader::numeral::{number, unsigned_number};
use reader::parts::split_once;
use words::{FileFault, Kind, Line};

// How many spaces a line has.
fn count_spaces(line: &[u8]) -> usize
    ensures { result ≡ spaces line.now }
{
    line.iter().filter(|byte| **byte == b' ').count()
}

// The first of several values, and those behind it: five calls read no worse than `split`, whose parts a proof has to tell apart one
// by one.
fn split_value(values: &[u8]) -> (&[u8], &[u8])
    ensures first { result.0.now ≡ first_value values.now }
    ensures more { result.1.now ≡ more_values values.now }
{
    split_once(b' ', values).unwrap_or((values, &[]))
}

// The kind that a value names: R, S, B or E. The letters are cases on characters by a rule of the project.
fn read_kind(value: &[u8]) -> Option<Kind>
    ensures { result ≡ kind_value value.now }
{
    let [letter] = value else {
        return None;
    };
    match char::from(*letter) {
        'R' => Some(Kind::Resolve),
        'S' => Some(Kind::Subsumed),
        'B' => Some(Kind::Blocked),
        'E' => Some(Kind::Eliminate),
        _ => None,
    }
}

// The line whose five values these are.
fn read_values(values: &[u8]) -> Option<Line>
    ensures { result ≡ line_of_values values.now }
{
    let (kind, values) = split_value(values);
    let (clause, values) = split_value(values);
    let (pivot, values) = split_value(values);
    let (first, values) = split_value(values);
    let (second, _) = split_value(values);
    Some(Line {
        kind: read_kind(kind)?,
        clause: unsigned_number(clause)?,
        pivot: number(pivot)?,
        first: unsigned_number(first)?,
        second: unsigned_number(second)?,
    })
}

// A text without its line feed as a proof line.
pub(crate) fn parse(line: &[u8]) -> Result<Line, FileFault>
    ensures { result ≡ parsed line.now }
{
    if count_spaces(line) != 4 {
        return Err(FileFault::NotFiveValues);
    }
    read_values(line).ok_or(FileFault::ValueMalformed)
}
