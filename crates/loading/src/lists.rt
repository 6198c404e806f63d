ghost use Rattle.std.specs.Prelude.{◌≡◌, ◌≤◌, false, None};
ghost use Rattle.words.specs.Clauses.{opposed};
ghost use Rattle.rules.specs.Loading.{beyond_at};
ghost use Rattle.words.specs.Literals.{literal_ok};
ghost use Rattle.loading.specs.Judging.{Gathered, Judged};
ghost use Rattle.loading.specs.Meanings.{formula_variables, loaded_count};

use crate::Loading;
use words::{Clause, Literal, SessionFault};

// Whether a number is a literal of this many variables.
fn is_literal(x: i16, variables: u16) -> bool
    ensures { result ≡ literal_ok variables x }
{
    x != 0 && x.unsigned_abs() <= variables
}

// The position, from 1, of the first number that is no literal of this many variables.
fn first_beyond(list: &[i16], variables: u16) -> Option<usize>
    ensures { result ≡ beyond_at variables 0 list.now }
{
    list.iter()
        .position(|x| !is_literal(*x, variables))
        .map(|i| i + 1)
}

// Whether a list holds a literal and its negation. Marks, and not a look back from each literal: a list may have tens of thousands.
fn holds_opposite_pair(list: &[i16]) -> bool
    requires { beyond_at 512 0 list.now ≡ None }
    ensures { result ≡ opposed list.now }
{
    let mut marks = [0u8; 1024];
    for x in list {
        // no `try_from`, here and below: every number of the list is known to be a literal, so its error could never come
        let l = Literal { value: *x };
        let n = l.negated();
        if marks[n.mark_place()] == 1 {
            return true;
        }
        marks[l.mark_place()] = 1;
    }
    false
}

// The clause of a list, or the position of its 65th different literal. A loop, and not a chain: of a clause that a chain's closure
// changes nothing would be known.
fn gather(list: &[i16]) -> Result<Clause, usize>
    requires literals { beyond_at 512 0 list.now ≡ None }
    requires apart { opposed list.now ≡ false }
    ensures { Gathered list.now result }
{
    let mut clause = Clause::empty();
    for (i, x) in list.iter().enumerate() {
        if !clause.insert(Literal { value: *x }) {
            return Err(i + 1);
        }
    }
    Ok(clause)
}

impl Loading {
    // Judges a list: all that can be said before the database is asked.
    pub(crate) fn judge(&self, list: &[i16]) -> Result<Option<Clause>, SessionFault>
        ensures { Judged (formula_variables self.now) (loaded_count self.now) list.now result }
    {
        if self.loaded >= 1024 {
            return Err(SessionFault::LoadedFull);
        }
        if let Some(position) = first_beyond(list, self.variables) {
            return Err(SessionFault::LiteralBeyond(position));
        }
        if holds_opposite_pair(list) {
            return Ok(None);
        }
        gather(list)
            .map(Some)
            .map_err(SessionFault::TooManyLiterals)
    }
}

#[cfg(test)]
mod tests {
    use super::*;

    // The number of the refusal that a judged list gets, if any.
    fn refused(judged: Result<Option<Clause>, SessionFault>) -> Option<u8> {
        judged.err().map(|fault| fault.refusal().number)
    }

    // A session of this many variables that has accepted so many lists.
    fn after(variables: u16, loaded: u16) -> Loading
        requires variables { variables ≤ 512 }
        requires loaded { loaded ≤ 1024 }
        ensures { (formula_variables result ≡ variables) × (loaded_count result ≡ loaded) }
    {
        Loading { variables, loaded }
    }

    #[test]
    fn checks_in_order(rt: HostRuntime) {
        assert_eq!(rt; refused(after(2, 1024).judge(&[0])), Some(27));
        assert_eq!(rt; refused(after(2, 1023).judge(&[1, -1, 3])), Some(24));
        assert_eq!(rt; refused(after(512, 0).judge(&[-32768])), Some(24));
        assert_eq!(rt; refused(after(2, 1023).judge(&[2, 1, -2])), None);
    }

    // The literals 1, 1, 2, 3 and so on up to 65.
    fn counted() -> [i16; 66] {
        let mut list = [1; 66];
        for (slot, i) in list[1..].iter_mut().zip(1i16..) {
            *slot = i;
        }
        list
    }

    #[test]
    fn at_most_64_literals(rt: HostRuntime) {
        let list = counted();
        assert_eq!(rt; refused(after(512, 0).judge(&list[0..65])), None);
        assert_eq!(rt; refused(after(512, 0).judge(&list)), Some(25));
    }
}
