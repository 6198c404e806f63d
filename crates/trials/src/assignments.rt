// Literals under an assignment, which is a byte for each variable. Written a second time: the models judge the product's own.
ghost use Rattle.std.specs.Prelude.{◌≡◌};
ghost use Rattle.std.specs.List.{list_any};
ghost use Rattle.trials.specs.Truth.{is_true, made_true};

// Whether a literal is true; one without a byte is not.
pub fn is_true(x: i16, assignment: &[u8]) -> bool
    ensures { result ≡ is_true assignment.now x }
{
    assignment
        .get(usize::from(x.unsigned_abs()).wrapping_sub(1))
        .is_some_and(|byte| (*byte == 1) == (x > 0))
}

// Whether at least one literal is true.
pub fn is_met(list: &[i16], assignment: &[u8]) -> bool
    ensures { result ≡ list_any (is_true assignment.now) list.now }
{
    list.iter().any(|x| is_true(*x, assignment))
}

// Makes a literal true, if its variable has a byte. By index: with `get_mut` the proof finds no link to the byte that is changed.
pub fn make_true(x: i16, assignment: &mut [u8])
    ensures { assignment.new ≡ made_true x assignment.old }
{
    let place = usize::from(x.unsigned_abs()).wrapping_sub(1);
    if place < assignment.len() {
        assignment[place] = if x > 0 { 1 } else { 0 };
    }
}
