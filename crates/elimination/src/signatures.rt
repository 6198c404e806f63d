ghost use Rattle.std.specs.Prelude.{◌≡◌, drop, length, map, take};
ghost use Rattle.words.specs.Meanings.{lits_of};
ghost use Rattle.words.specs.Standing.{under};
ghost use Rattle.database.specs.Walks.{above};
ghost use Rattle.rules.specs.Lines.{some_equal};
ghost use Rattle.elimination.specs.Signing.{signature_from, signed_of, equal_to};

use arrayvec::ArrayVec;
use database::{ClauseDatabase, standing, standing_above};
use words::{Clause, ClauseNumber};

// The number of a standing clause, with its signature. The number is a plain one, since the table's blanks need a default, and no clause
// number is one.
#[derive(Clone, Copy, Default)]
struct SignedNumber {
    number: u32,
    signature: u64,
}

// The signatures of the standing clauses of a database up to a number, at most 1,024 of them.
#[derive(Drop)]
pub(crate) struct SignatureTable<'a, D: ClauseDatabase> {
    pub(crate) db: &'a D,
    records: ArrayVec<SignedNumber, 1024>,
    last: u32,
    ghost listed: { records.items ≡ map signed_of (take (length records.items) (D.standing db.now)) },
    ghost beyond: { above last (D.standing db.now) ≡ drop (length records.items) (D.standing db.now) },
}

// A number computed from the literals of a clause: equal clauses have equal signatures.
fn signature(clause: &Clause) -> u64
    ensures { result ≡ signature_from 1 (lits_of clause.now) }
{
    // `as`: the library has no `From` from usize to u64.
    clause.into_iter().fold(
        1u64,
        |sum, l| sum
            .wrapping_mul(1_000_003)
            .wrapping_add(l.mark_place() as u64),
    )
}

// Whether the clause under a number is equal to a clause.
fn equal_at<D: ClauseDatabase>(db: &D, number: ClauseNumber, clause: &Clause) -> bool
    ensures { result ≡ equal_to (lits_of clause.now) (under number.value (D.standing db.now)) }
{
    db.clause(number).is_some_and(|found| found == *clause)
}

// Whether a clause is equal to a standing one above a number.
fn stands_above<D: ClauseDatabase>(db: &D, after: u32, clause: &Clause) -> bool
    ensures { result ≡ some_equal (lits_of clause.now) (above after (D.standing db.now)) }
{
    standing_above(db, after).any(|entry| entry.clause == *clause)
}

impl<'a, D: ClauseDatabase> SignatureTable<'a, D> {
    // The table of what stands.
    pub(crate) fn new(db: &'a D) -> SignatureTable<'a, D>
        ensures { D.standing result.db.now ≡ D.standing db.now }
    {
        let mut records = ArrayVec::new();
        let mut last = 0;
        for entry in standing(db).take(1024) {
            last = entry.number.value;
            records.push(SignedNumber {
                number: last,
                signature: signature(&entry.clause),
            });
        }
        SignatureTable { db, records, last }
    }

    // Whether a clause is equal to a standing one.
    pub(crate) fn stands(&self, clause: &Clause) -> bool
        ensures { result ≡ some_equal (lits_of clause.now) (D.standing self.now.db.now) }
    {
        self.lists(clause) || stands_above(self.db, self.last, clause)
    }

    // Whether a clause is equal to one in the table.
    fn lists(&self, clause: &Clause) -> bool
        ensures { result ≡ some_equal (lits_of clause.now) (take (length self.now.records.items) (D.standing self.now.db.now)) }
    {
        let sought = signature(clause);
        // A loop and no `any`: only of the table's own records is it known that their number is a clause number.
        for record in self.records.as_slice() {
            if record.signature == sought {
                let number = ClauseNumber {
                    value: record.number,
                };
                if equal_at(self.db, number, clause) {
                    return true;
                }
            }
        }
        false
    }
}
