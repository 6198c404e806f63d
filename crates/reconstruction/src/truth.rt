ghost use Rattle.std.specs.Prelude.{◌≡◌, ◌-◌, map, ℤ, unsigned_abs};
ghost use Rattle.words.specs.Assignments.{holds, met, wanted, made_true};

use crate::saved::SavedLiteral;

// What stands for a literal. Not `Into<i16>`: that says its result by a relation, and whether a clause is met needs a function.
pub trait Signed {
    ghost number: { Self → ℤ };

    fn number(&self) -> i16
        ensures { result ≡ number self.now };
}

impl Signed for i16 {
    ghost number = { λ z. z };

    fn number(&self) -> i16 {
        *self
    }
}

impl Signed for SavedLiteral {
    ghost number = { λ l. l.value };

    fn number(&self) -> i16 {
        self.value
    }
}

// The place of a literal's variable in an assignment.
fn place(literal: i16) -> usize
    ensures { result ≡ unsigned_abs literal - 1 }
{
    usize::from(literal.unsigned_abs()).saturating_sub(1)
}

// The byte at which a literal is true.
fn true_byte(literal: i16) -> u8
    ensures { result ≡ wanted literal }
{
    u8::from(literal >= 0)
}

// Whether an assignment makes a literal true.
fn is_true<T: Signed>(assignment: &[u8], literal: &T) -> bool
    ensures { result ≡ holds assignment.now (T.Signed.number literal.now) }
{
    let number = literal.number();
    assignment
        .get(place(number))
        .is_some_and(|byte| *byte == true_byte(number))
}

// Whether an assignment meets a clause.
pub(crate) fn is_met<T: Signed>(assignment: &[u8], literals: &[T]) -> bool
    ensures { result ≡ met assignment.now (map T.Signed.number literals.now) }
{
    literals.iter().any(|literal| is_true(assignment, literal))
}

// Makes a literal true; one beyond the assignment changes nothing.
pub(crate) fn make_true(assignment: &mut [u8], literal: i16)
    ensures { assignment.new ≡ made_true literal assignment.old }
{
    let at = place(literal);
    // A bound beside the index: of `get_mut` the library doesn't say what the slice ends as.
    if at < assignment.len() {
        assignment[at] = true_byte(literal);
    }
}
