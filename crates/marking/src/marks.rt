ghost use Rattle.std.specs.Prelude.{◌≡◌, ◌==◌, [], length, neg_ℤ, replicate, true};
ghost use Rattle.std.specs.List.{list_all};
ghost use Rattle.words.specs.Clauses.{opposed, resolvent, subset};
ghost use Rattle.words.specs.Marks.{Marked};
ghost use Rattle.words.specs.Meanings.{lits_of};
ghost use Rattle.marking.specs.Marking.{clean_marks, marked, with_marks, marks_clash, marks_cover};
ghost use Rattle.marking.specs.Holding.{Holds};

use words::{Clause, Literal};

// The literal marks of a clause while a line is checked: bytes lent to them, which are wiped when they end. That the bytes hold the
// clause's literals and no others is no ghost field: what is known of the lent bytes after the wiping would then be lost.
// `clause` is the one that `of` marked; it is empty after `over`, and `mark` leaves it as it is.
pub struct Marks<'a> {
    bytes: &'a mut [u8],
    pub clause: Clause,
}

impl Drop for Marks<'_> {
    fn drop(self)
        ensures { self.exit.0.now ≡ replicate (length self.entry.bytes.now) 0 }
    {
        let Marks { bytes, clause: _ } = self;
        bytes.fill(0);
    }
}

// Whether every byte is 0.
fn zeros(bytes: &[u8]) -> bool
    ensures { result ≡ list_all (λ b. b == 0) bytes.now }
{
    bytes.iter().all(|b| *b == 0)
}

// Whether the marks are 1,024 zeros.
pub fn clean(bytes: &[u8]) -> bool
    ensures tells { result ≡ clean_marks bytes.now }
    ensures zeros { result ≡ true → bytes.now ≡ replicate 1024 0 }
{
    bytes.len() == 1024 && zeros(bytes)
}

// Marks each literal of a clause; a place past the end stays unmarked. Loops over a clause's literals for marking and looking up: a
// rule of the project.
fn set(bytes: &mut [u8], clause: &Clause)
    ensures after { bytes.new ≡ with_marks bytes.old (lits_of clause.now) }
    ensures len { length bytes.new ≡ length bytes.old }
{
    for l in clause {
        // A bound beside the index: of `get_mut` the library doesn't say what the slice ends as.
        let place = l.mark_place();
        if place < bytes.len() {
            bytes[place] = 1;
        }
    }
}

impl<'a> Marks<'a> {
    // The marks in these bytes, as they are.
    pub fn over(bytes: &'a mut [u8]) -> Marks<'a>
        ensures bytes { result.bytes ≡ bytes.entry }
        ensures clause { lits_of result.clause ≡ [] }
    {
        let clause = Clause::empty();
        Marks { bytes, clause }
    }

    // Marks each literal of a clause in these bytes; a place past the end stays unmarked.
    pub fn of(bytes: &'a mut [u8], clause: &Clause) -> Marks<'a>
        ensures after { result.bytes.now ≡ with_marks bytes.old (lits_of clause.now) }
        ensures clause { lits_of result.clause ≡ lits_of clause.now }
        ensures held { bytes.old ≡ replicate 1024 0 → Holds result.bytes.now result.clause }
        ensures marked { bytes.old ≡ replicate 1024 0 → Marked 512 result.bytes.now (lits_of clause.now) }
        ensures len { length result.bytes.now ≡ length bytes.old }
        ensures same { result.bytes.ghost_name ≡ bytes.entry.ghost_name }
    {
        set(bytes, clause);
        Marks {
            bytes,
            clause: *clause,
        }
    }

    // Marks each literal of a further clause.
    pub fn mark(&mut self, further: &Clause)
        ensures after { self.new.bytes.now ≡ with_marks self.old.bytes.now (lits_of further.now) }
        ensures marked { self.old.bytes.now ≡ replicate 1024 0 → Marked 512 self.new.bytes.now (lits_of further.now) }
        ensures clause { self.new.clause ≡ self.old.clause }
        ensures len { length self.new.bytes.now ≡ length self.old.bytes.now }
        ensures same { self.new.bytes.ghost_name ≡ self.old.bytes.ghost_name }
    {
        set(self.bytes, further);
    }

    // Whether the resolvent of the marked clause with another on a pivot holds an opposite pair: the negated pivot, in the other, is
    // left out.
    pub fn opposes(&self, other: &Clause, pivot: Literal) -> bool
        ensures looked_up { result ≡ marks_clash self.now.bytes.now (neg_ℤ pivot.value) (lits_of other.now) }
        ensures tells { Holds self.now.bytes.now self.now.clause → opposed (resolvent pivot.value (lits_of self.now.clause) (lits_of other.now)) ≡ result }
    {
        self.clash(other, pivot.negated())
    }

    // Whether the negation of some literal of a clause, other than one, is marked.
    pub fn clash(&self, clause: &Clause, except: Literal) -> bool
        ensures { result ≡ marks_clash self.now.bytes.now except.value (lits_of clause.now) }
    {
        for l in clause {
            if l != except && self.has(l.negated()) {
                return true;
            }
        }
        false
    }

    // Whether every literal of another clause is marked.
    pub fn cover(&self, other: &Clause) -> bool
        ensures looked_up { result ≡ marks_cover self.now.bytes.now (lits_of other.now) }
        ensures tells { Holds self.now.bytes.now self.now.clause → result ≡ subset (lits_of other.now) (lits_of self.now.clause) }
    {
        for l in other {
            if !self.has(l) {
                return false;
            }
        }
        true
    }

    // Whether a literal is marked; a place past the end is not.
    fn has(&self, l: Literal) -> bool
        ensures { result ≡ marked self.now.bytes.now l.value }
    {
        self.bytes
            .get(l.mark_place())
            .is_some_and(|mark| *mark == 1)
    }
}
