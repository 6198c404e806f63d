ghost use Rattle.std.specs.Prelude.{◌≡◌, ◌<◌, ◌≤◌, true, [], length, slice_get, is_ok, IfOk, Err, Some, None, remove};
ghost use Rattle.std.specs.Option.{option_map};
ghost use Rattle.words.specs.Checks.{fault_of};
ghost use Rattle.words.specs.Meanings.{lits_of};
ghost use Rattle.words.specs.Standing.{ordered, literals, stands, under, next_above, inserted, without, put_fault};
ghost use Rattle.database.specs.Places.{place_of, lits_found, rest_of};
ghost use Rattle.arena.specs.Contents.{live_records, contents, limits_of, limits_over};

use crate::memory::Memory;
use crate::records::Record;
use words::{Clause, ClauseNumber, DatabaseFault, Limits};

// A clause database in two memories handed in. The records lie by rising number, the literals in the same order without gaps.
#[derive(Drop)]
pub struct Arena<'a> {
    pub(crate) memory: Memory<'a>,
    ghost most: { memory.count ≤ 1024 },
    ghost kept: { ordered 512 64 0 (contents memory) ≡ true },
    ghost counts: { memory.count ≡ length (contents memory) },
    ghost weighs: { memory.used ≡ literals (contents memory) },
}

impl<'a> Arena<'a> {
    // An empty database over the memories, whatever they hold.
    pub fn new(literals: &'a mut [i16], records: &'a mut [Record]) -> Arena<'a>
        ensures empty { contents result.memory ≡ [] }
        ensures limits { limits_of result.memory ≡ limits_over (length records.old) (length literals.old) }
    {
        Arena {
            memory: Memory {
                literals,
                records,
                count: 0,
                used: 0,
            },
        }
    }

    // The records in use.
    fn live(&self) -> &[Record]
        ensures { result.now ≡ live_records self.now.memory }
    {
        &self.memory.records[..self.memory.count]
    }

    // The place of a number where it stands, or else where it would go.
    pub(crate) fn place(&self, number: ClauseNumber) -> Result<usize, usize>
        ensures place { result ≡ place_of number.value (contents self.now.memory) }
        ensures within { IfOk result (λ i. i < length (contents self.now.memory)) }
        ensures known { is_ok result ≡ stands number.value (contents self.now.memory) }
        ensures lits { lits_found result (contents self.now.memory) ≡ under number.value (contents self.now.memory) }
        ensures rest { rest_of result (contents self.now.memory) ≡ without number.value (contents self.now.memory) }
    {
        self.live()
            .binary_search_by_key(&number.value, |record| record.number)
    }

    // The lowest standing number above a given one, or none.
    pub(crate) fn successor(&self, above: u32) -> Option<ClauseNumber>
        ensures { option_map (λ k. k.value) result ≡ next_above above (contents self.now.memory) }
    {
        let live = self.live();
        let place = live.partition_point(|record| record.number <= above);
        let record = live.get(place)?;
        Some(ClauseNumber {
            value: record.number,
        })
    }

    // The clause at a place.
    pub(crate) fn clause_at(&self, place: usize) -> Clause
        requires { place < length (contents self.now.memory) }
        ensures { Some (lits_of result) ≡ option_map (λ e. e.lits) (slice_get (contents self.now.memory) place) }
    {
        let record = self.memory.records[place];
        let start = usize::from(record.start);
        let len = usize::from(record.len);
        let literals = &*self.memory.literals;
        let mut lits = [0i16; 64];
        lits[..len].copy_from_slice(&literals[start..start + len]);
        Clause { lits, len }
    }

    // The place where a clause goes, or why it can't be put.
    pub(crate) fn vacancy(
        &self,
        number: ClauseNumber,
        clause: &Clause,
    ) -> Result<usize, DatabaseFault>
        ensures fault { fault_of result ≡ put_fault (limits_of self.now.memory) (contents self.now.memory) (record { number = number.value; lits = lits_of clause.now }) }
        ensures place { IfOk result (λ i. Err i ≡ place_of number.value (contents self.now.memory)) }
    {
        let Err(place) = self.place(number) else {
            return Err(DatabaseFault::NumberTaken);
        };
        let limits = self.memory.limits();
        if self.memory.count >= limits.clauses {
            return Err(DatabaseFault::ClausesFull);
        }
        if self.memory.used + clause.len > limits.literals {
            return Err(DatabaseFault::LiteralsFull);
        }
        Ok(place)
    }

    // Puts a clause that nothing refuses at its place.
    pub(crate) fn insert(&mut self, place: usize, number: ClauseNumber, clause: &Clause)
        requires free { None ≡ put_fault (limits_of self.old.memory) (contents self.old.memory) (record { number = number.value; lits = lits_of clause.now }) }
        requires here { Err place ≡ place_of number.value (contents self.old.memory) }
        ensures after { contents self.new.memory ≡ inserted (record { number = number.value; lits = lits_of clause.now }) (contents self.old.memory) }
        ensures limits { limits_of self.new.memory ≡ limits_of self.old.memory }
    {
        self.memory.insert(place, number, clause);
    }

    // Takes the clause at a place away.
    pub(crate) fn cut(&mut self, place: usize)
        requires { place < length (contents self.old.memory) }
        ensures after { contents self.new.memory ≡ remove (contents self.old.memory) place }
        ensures limits { limits_of self.new.memory ≡ limits_of self.old.memory }
    {
        self.memory.cut(place);
    }
}
