ghost use Rattle.std.specs.Prelude.{◌≡◌, ◌<◌, ◌≤◌, true, not, ◌&&◌, ◌||◌, [], length, take, neg_ℤ, if◌then◌else◌, nat_lt, unsigned_abs};
ghost use Rattle.std.proofs.Common.{rules};
ghost use Rattle.std.specs.Cmp.Rules.{comparing};
ghost use Rattle.std.specs.Ordering.{int_eq, on};
ghost use Rattle.std.specs.Cmp.Lexicographic.{pointwise};
ghost use Rattle.std.specs.List.{insert as inserted, prefix_len};
ghost use Rattle.words.specs.Clauses.{rising, has, insert};
ghost use Rattle.words.specs.Spots.{Located};

use crate::blocks::exchange;
use crate::literal::Literal;
use crate::spot::Spot;

// A clause: at most 64 literals of different variables, by rising variable. It is an array and a length, since callers copy clauses,
// and the kit's `ArrayVec` can't be copied.
#[derive(Clone, Copy)]
pub struct Clause {
    pub lits: [i16; 64],
    pub len: usize,
    ghost few: { len ≤ 64 },
    ghost rises: { rising 512 0 (take len lits) ≡ true },
}

// Two clauses are equal where they have the same literals: what lies behind those does not count.
impl PartialEq for Clause {
    ghost eq = { on (λ c. take c.len c.lits) (pointwise int_eq) };

    ghost laws = { Prim.search (comparing, rules) };

    fn eq(&self, other: &Clause) -> bool {
        self.literals() == other.literals()
    }
}

impl Eq for Clause {
    ghost laws = { Prim.search (comparing, rules) };
}

impl Clause {
    // The empty clause.
    pub fn empty() -> Clause
        ensures { take result.len result.lits ≡ [] }
    {
        Clause {
            lits: [0; 64],
            len: 0,
        }
    }

    // Its literals, by rising variable.
    pub fn literals(&self) -> &[i16]
        ensures { result.now ≡ take self.now.len self.now.lits }
    {
        &self.lits[0..self.len]
    }

    // Whether a literal is in the clause.
    pub fn has(&self, l: Literal) -> bool
        ensures { result ≡ has l.value (take self.now.len self.now.lits) }
    {
        matches!(self.locate(l), Spot::Present)
    }

    // Puts a literal in by its variable, and tells whether it is in the clause then. Where its negation is there or 64 others
    // are, nothing changes.
    pub fn insert(&mut self, l: Literal) -> bool
        ensures there { result ≡ (has l.value (take self.old.len self.old.lits) || (not (has (neg_ℤ l.value) (take self.old.len self.old.lits)) && nat_lt (length (take self.old.len self.old.lits)) 64)) }
        ensures after { take self.new.len self.new.lits ≡ (if result then insert l.value (take self.old.len self.old.lits) else take self.old.len self.old.lits) }
    {
        match self.locate(l) {
            Spot::Present => true,
            Spot::Opposite => false,
            Spot::Free(at) => {
                if self.len == 64 {
                    return false;
                }
                self.put_at(at, l);
                true
            }
        }
    }

    // Where a literal belongs.
    fn locate(&self, l: Literal) -> Spot
        ensures spot { Located 512 l.value (take self.now.len self.now.lits) result }
        ensures size { length (take self.now.len self.now.lits) ≡ self.now.len }
    {
        let literals = self.literals();
        let variable = l.value.unsigned_abs();
        // In front of all nothing else is compared: so for a low pivot, and for each literal of a list that falls.
        if let Some(first) = literals.first()
            && variable < first.unsigned_abs()
        {
            return Spot::Free(0);
        }
        let at = self.place(variable);
        match literals.get(at) {
            Some(x) if *x == l.value => Spot::Present,
            Some(x) if x.unsigned_abs() == variable => Spot::Opposite,
            _ => Spot::Free(at),
        }
    }

    // How many of its literals are of lower variables: the place of a variable that it has, and where another belongs. At the ends
    // that is seen at once, as for each literal of a list that rises.
    fn place(&self, variable: u16) -> usize
        ensures { result ≡ prefix_len (λ z. nat_lt (unsigned_abs z) variable) (take self.now.len self.now.lits) }
    {
        match self.literals() {
            [first, ..] if variable <= first.unsigned_abs() => 0,
            [.., last] if variable > last.unsigned_abs() => self.len,
            [.., last] if variable == last.unsigned_abs() => self.len - 1,
            _ => self.place_inside(variable),
        }
    }

    // The same, found by a walk among few literals, where it ends sooner, and else by a search. It is kept out of its callers, and so is
    // `put_at`: then `insert` is short enough to be drawn into the loops that call it.
    #[inline(never)]
    fn place_inside(&self, variable: u16) -> usize
        ensures { result ≡ prefix_len (λ z. nat_lt (unsigned_abs z) variable) (take self.now.len self.now.lits) }
    {
        let literals = self.literals();
        if literals.len() <= 8 {
            literals
                .iter()
                .position(|x| x.unsigned_abs() >= variable)
                .unwrap_or(literals.len())
        } else {
            literals.partition_point(|x| x.unsigned_abs() < variable)
        }
    }

    // Puts a literal in at the place where it belongs.
    #[inline(never)]
    fn put_at(&mut self, at: usize, l: Literal)
        requires place { at ≤ self.old.len }
        requires room { self.old.len < 64 }
        requires rises { rising 512 0 (inserted (take self.old.len self.old.lits) at l.value) ≡ true }
        ensures { take self.new.len self.new.lits ≡ inserted (take self.old.len self.old.lits) at l.value }
    {
        let len = self.len;
        self.lits[len] = l.value;
        exchange(&mut self.lits, at, len, len + 1);
        self.len = len + 1;
    }
}
