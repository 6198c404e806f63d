// Switch positions as text: each byte `0` or `1` is the value of the next variable; spaces, tabs, carriage returns and line
// feeds between them are passed over, and any other byte is a value that no switch can have.

#![tactic(auto)]

ghost use Rattle.std.specs.Prelude.{◌≡◌, length};
ghost use Rattle.positions.specs.Values.{position_values, position_text, fronted, ReadBack};

use output::Output;
use read::put_values;
use write::put_position;

mod read;
#[cfg(test)]
mod tests;
mod write;

// Writes the values of a text to the front of the memory, as far as it has room, and answers how many the text has. The
// bytes behind them stay.
pub fn read_position(text: &[u8], values: &mut [u8]) -> usize
    ensures count { result ≡ length (position_values text.now) }
    ensures after { values.new ≡ fronted (position_values text.now) values.old }
{
    let mut out = Output::over(values);
    put_values(&mut out, text);
    out.len()
}

// Writes a position as text to the front of the buffer, as far as it has room, and answers how long the text is. The bytes
// behind it stay. Reading the text gives the position again.
pub fn write_position(values: &[u8], buffer: &mut [u8]) -> usize
    ensures count { result ≡ length (position_text values.now) }
    ensures after { buffer.new ≡ fronted (position_text values.now) buffer.old }
    ensures back { ReadBack values.now }
{
    let mut out = Output::over(buffer);
    put_position(&mut out, values);
    out.len()
}
