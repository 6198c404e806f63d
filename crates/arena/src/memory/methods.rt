ghost use Rattle.std.specs.Prelude.{◌≡◌, ◌+◌, ◌<◌, ◌≤◌, [], ◌∷◌, length, take};
ghost use Rattle.words.specs.Meanings.{lits_of};
ghost use Rattle.arena.specs.Layout.{total};
ghost use Rattle.arena.specs.Splices.{opened, closed};
ghost use Rattle.arena.specs.Contents.{live_records, contents, limits_of};

use super::Memory;
use crate::packing::repack;
use crate::records::Record;
use crate::splice;
use words::{Clause, ClauseNumber, Limits};

impl Memory<'_> {
    // The limits of a database over the memories.
    pub(crate) fn limits(&self) -> Limits
        ensures { result ≡ limits_of self.now }
    {
        Limits {
            variables: 512,
            width: 64,
            clauses: self.records.len().min(1024),
            literals: self.literals.len().min(16384),
        }
    }

    // Where the literals of the record at a place begin, or those of a record put there behind all others.
    fn start_at(&self, place: usize) -> u16
        requires within { place ≤ self.now.count }
        ensures { result ≡ total (take place (live_records self.now)) }
    {
        if place < self.count {
            self.records[place].start
        } else {
            // At most 16,384, which the check proves to fit: `try_from` would want a way out that is never taken.
            self.used as u16
        }
    }

    // Puts a clause at a place of the order.
    pub(crate) fn insert(&mut self, place: usize, number: ClauseNumber, clause: &Clause)
        requires within { place ≤ self.old.count }
        requires row { self.old.count < length self.old.records.now }
        requires room { self.old.used + length (lits_of clause.now) ≤ length self.old.literals.now }
        requires below { self.old.used + length (lits_of clause.now) ≤ 16384 }
        ensures means { contents self.new ≡ opened (contents self.old) place (record { number = number.value; lits = lits_of clause.now } ∷ []) }
        ensures limits { limits_of self.new ≡ limits_of self.old }
        ensures literals { self.new.literals.ghost_name ≡ self.old.literals.ghost_name }
        ensures records { self.new.records.ghost_name ≡ self.old.records.ghost_name }
    {
        let start = self.start_at(place);
        let row = [Record {
            number: number.value,
            start,
            // at most 64, which fits likewise
            len: clause.len as u8,
        }];
        let Memory {
            literals,
            records,
            count,
            used,
        } = self;
        splice::insert(records, *count, place, &row);
        splice::insert(literals, *used, usize::from(start), clause.literals());
        repack(&mut records[place..*count + 1], start);
        *count += 1;
        *used += clause.len;
    }

    // Takes the clause at a place of the order away.
    pub(crate) fn cut(&mut self, place: usize)
        requires within { place < self.old.count }
        ensures means { contents self.new ≡ closed (contents self.old) place 1 }
        ensures limits { limits_of self.new ≡ limits_of self.old }
        ensures literals { self.new.literals.ghost_name ≡ self.old.literals.ghost_name }
        ensures records { self.new.records.ghost_name ≡ self.old.records.ghost_name }
    {
        let record = self.records[place];
        let len = usize::from(record.len);
        let Memory {
            literals,
            records,
            count,
            used,
        } = self;
        splice::cut(records, *count, place, 1);
        splice::cut(literals, *used, usize::from(record.start), len);
        repack(&mut records[place..*count - 1], record.start);
        *count -= 1;
        *used -= len;
    }
}
