// Writing a position as text.
ghost use Rattle.std.specs.Prelude.{◌≡◌};
ghost use Rattle.output.specs.Puts.{Puts};
ghost use Rattle.positions.specs.Values.{value_byte, text_behind, position_text};

use output::Output;

// The byte for a value. Every number can stand in a lent assignment, so an enum of the values would not be plainer.
fn value_byte(value: u8) -> u8
    ensures { result ≡ value_byte value }
{
    match value {
        0 => b'0',
        1 => b'1',
        _ => b'?',
    }
}

// Puts the text behind the first value.
fn put_behind(out: &mut Output, values: &[u8])
    ensures { Puts (text_behind values.now) out.old out.new }
{
    for value in values {
        out.push(b' ');
        out.push(value_byte(*value));
    }
    out.push(b'\n');
}

// Puts the text of a position.
pub(crate) fn put_position(out: &mut Output, values: &[u8])
    ensures { Puts (position_text values.now) out.old out.new }
{
    match values.split_first() {
        Some((first, others)) => {
            out.push(value_byte(*first));
            put_behind(out, others);
        }
        None => out.push(b'\n'),
    }
}
