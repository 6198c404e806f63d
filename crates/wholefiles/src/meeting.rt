// What a formula text says, by a simple reader of the tests' own: it trusts that the text is well formed.
use trials::assignments::is_true;

// The number that a word writes; there is none between two separators.
fn number(word: &[u8]) -> Option<i16> {
    str::from_utf8(word).ok()?.parse().ok()
}

// Whether an assignment meets every list of a text with a header and no comments.
pub fn meets(text: &[u8], assignment: &[u8]) -> bool {
    let header = text.iter().take_while(|byte| **byte != b'\n').count();
    let lists = text.get(header..).unwrap_or(&[]);
    let mut met = false;
    for word in lists.split(|byte| !byte.is_ascii_digit() && *byte != b'-') {
        match number(word) {
            Some(0) if !met => return false,
            Some(0) => met = false,
            Some(x) => met = met || is_true(x, assignment),
            None => {}
        }
    }
    true
}

#[test]
fn meetings(rt: HostRuntime) {
    let text = b"p cnf 3 3\n1 -2 0\n\n-3\t0 3 -3 0";
    assert!(rt; meets(text, &[0, 0, 0]));
    assert!(rt; meets(text, &[1, 1, 0]));
    assert!(rt; !meets(text, &[0, 1, 0]));
    assert!(rt; !meets(text, &[1, 1, 1]));
    assert!(rt; !meets(text, &[1]));
    assert!(rt; meets(b"p cnf 12 1\n12 0\n", &[0, 0, 0, 0, 0, 0, 0, 0, 0, 0, 0, 1]));
    assert!(rt; meets(b"p cnf 1 0\n", &[0]));
    assert!(rt; !meets(b"p cnf 1 1\n0", &[0]));
}
