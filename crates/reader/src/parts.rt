// Parts of a text.
ghost use Rattle.std.specs.Prelude.{◌≡◌, ◌+◌, ◌<◌, length, take, drop, MatchOption};
ghost use Rattle.textlines.specs.Lines.{length_to};

// What stands before and behind the first such byte, where there is one.
pub fn split_once(byte: u8, bytes: &[u8]) -> Option<(&[u8], &[u8])>
    ensures { MatchOption result (length_to byte bytes.now ≡ length bytes.now) (λ p. (length_to byte bytes.now < length bytes.now) × (p.0.now ≡ take (length_to byte bytes.now) bytes.now) × (p.1.now ≡ drop (length_to byte bytes.now + 1) bytes.now)) }
{
    let at = bytes.iter().position(|other| *other == byte)?;
    Some((&bytes[..at], &bytes[at + 1..]))
}
