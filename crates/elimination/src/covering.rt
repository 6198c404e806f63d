ghost use Rattle.std.specs.Prelude.{◌≡◌, neg_ℤ, replicate};
ghost use Rattle.words.specs.Meanings.{lits_of};
ghost use Rattle.marking.specs.Holding.{Holds};
ghost use Rattle.rules.specs.Lines.{side, covered, first_uncovered};

use crate::signatures::SignatureTable;
use database::{ClauseDatabase, standing};
use marking::{Marks, resolvent};
use words::{Clause, Literal};

// Whether the resolvent of the marked clause with another holds an opposite pair or stands.
fn pair_covered<D: ClauseDatabase>(
    table: &SignatureTable<'_, D>,
    marks: &Marks<'_>,
    second: &Clause,
    pivot: Literal,
) -> bool
    requires { Holds marks.now.bytes.now marks.now.clause }
    ensures { result ≡ covered pivot.value (D.standing table.now.db.now) (lits_of marks.now.clause) (lits_of second.now) }
{
    if marks.opposes(second, pivot) {
        return true;
    }
    // A `match` and no `is_some_and`: of a closure that looks into the table, what it gives would not be known.
    match resolvent(&marks.clause, second, pivot) {
        Some(clause) => table.stands(&clause),
        None => false,
    }
}

// The first pair of a clause with the pivot and one with its negation, by rising numbers, that is not covered. Nested loops, left from
// inside with the failing pair: a rule of the project.
pub(crate) fn first_uncovered<D: ClauseDatabase>(
    table: &SignatureTable<'_, D>,
    bytes: &mut [u8],
    pivot: Literal,
) -> Option<(u32, u32)>
    requires { bytes.old ≡ replicate 1024 0 }
    ensures pair { result ≡ first_uncovered pivot.value (D.standing table.now.db.now) (side pivot.value (D.standing table.now.db.now)) (side (neg_ℤ pivot.value) (D.standing table.now.db.now)) }
    ensures marks { bytes.new ≡ replicate 1024 0 }
{
    let opposite = pivot.negated();
    for first in standing(table.db) {
        if !first.clause.has(pivot) {
            continue;
        }
        let marks = Marks::of(bytes, &first.clause);
        for second in standing(table.db) {
            if !second.clause.has(opposite) {
                continue;
            }
            if !pair_covered(table, &marks, &second.clause, pivot) {
                return Some((first.number.value, second.number.value));
            }
        }
    }
    None
}
