// Reading a position from a text.
ghost use Rattle.std.specs.Prelude.{◌≡◌};
ghost use Rattle.output.specs.Puts.{Puts};
ghost use Rattle.positions.specs.Values.{value_of, position_values};

use output::Output;
use textlines::is_blank;

// The value that a byte stands for. The values are bytes of a lent assignment, which restoring judges itself: an enum of
// them would be taken apart again where it is made.
fn value_of(byte: u8) -> u8
    ensures { result ≡ value_of byte }
{
    match byte {
        b'0' => 0,
        b'1' => 1,
        _ => 2,
    }
}

// Puts the values of a text.
pub(crate) fn put_values(out: &mut Output, text: &[u8])
    ensures { Puts (position_values text.now) out.old out.new }
{
    for byte in text {
        if !is_blank(*byte) {
            out.push(value_of(*byte));
        }
    }
}
