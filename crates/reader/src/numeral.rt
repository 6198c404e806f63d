// Numbers in a text.
ghost use Rattle.std.specs.Prelude.{◌≡◌, ◌<◌, ◌≤◌, length, IfSome, if◌then◌else◌, Some, None};
ghost use Rattle.reader.specs.Numerals.{all_digits, value_on, unsigned_numeral, numeral};

// The value of up to seven digits, or none where a byte is no digit. A loop: a `try_fold` asks for the bound of the sum at each turn of
// its closure, which reads no plainer.
fn value(digits: &[u8]) -> Option<u32>
    requires { length digits.now ≤ 7 }
    ensures value { result ≡ (if all_digits digits.now then Some (value_on 0 digits.now) else None) }
    ensures small { IfSome result (λ n. n < 10000000) }
{
    let mut total = 0;
    for digit in digits {
        if !digit.is_ascii_digit() {
            return None;
        }
        total = total * 10 + u32::from(*digit - b'0');
    }
    Some(total)
}

// A number without a sign.
pub fn unsigned_number(word: &[u8]) -> Option<u32>
    ensures value { result ≡ unsigned_numeral word.now }
    ensures small { IfSome result (λ n. n < 10000000) }
{
    match word {
        [] | [b'0', _, ..] => None,
        _ if word.len() > 7 => None,
        digits => value(digits),
    }
}

// A number, with a minus or without a sign; there is no -0. Seven digits fit an i32, so the check lets `as` stand, where try_from would
// add a case that never comes.
pub fn number(word: &[u8]) -> Option<i32>
    ensures { result ≡ numeral word.now }
{
    match word.strip_prefix(b"-") {
        Some(digits) => unsigned_number(digits)
            .filter(|n| *n != 0)
            .map(|n| -(n as i32)),
        None => unsigned_number(word).map(|n| n as i32),
    }
}
