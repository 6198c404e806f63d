// The bitmask kind of clause database (the customers' plate): 256 slots of its own, each with two 64-bit masks, one for each sign.
// Its limits are variables up to 64, clauses of up to 64 literals, 256 clauses, and so 16,384 literals.

#![tactic(auto)]

ghost use Rattle.std.specs.Prelude.{◌≡◌, ◌<◌, true, [], length, is_ok, IfOk, OnOk, Err, remove};
ghost use Rattle.std.specs.Option.{option_map};
ghost use Rattle.arrayvec.specs.ArrayVec.{array_vec_len};
ghost use Rattle.words.specs.Checks.{fault_of};
ghost use Rattle.words.specs.Clauses.{within};
ghost use Rattle.words.specs.Meanings.{lits_of};
ghost use Rattle.words.specs.Standing.{stands, under, next_above, inserted, without, put_fault};
ghost use Rattle.database.specs.Places.{place_of, rest_of};
ghost use Rattle.bitmask.specs.Masks.{decoded};
ghost use Rattle.bitmask.specs.Meanings.{mask_limits, standing_in};

mod interface;
mod slot;
mod table;
#[cfg(test)]
mod tests;

use arrayvec::ArrayVec;
use slot::{Slot, fits};
pub use table::Bitmask;
use words::{Clause, ClauseNumber, DatabaseFault};

impl Bitmask {
    // A database in which no clause stands.
    pub fn new() -> Bitmask
        ensures { standing_in result ≡ [] }
    {
        Bitmask {
            slots: ArrayVec::new(),
            total: 0,
        }
    }

    // The place of a number where it stands, or else where it would go.
    fn place(&self, number: ClauseNumber) -> Result<usize, usize>
        ensures place { result ≡ place_of number.value (standing_in self.now) }
        ensures within { IfOk result (λ i. i < length (standing_in self.now)) }
        ensures known { is_ok result ≡ stands number.value (standing_in self.now) }
        ensures rest { rest_of result (standing_in self.now) ≡ without number.value (standing_in self.now) }
    {
        let slots = self.slots.as_slice();
        slots.binary_search_by_key(&number.value, |slot| slot.number)
    }

    // The slot under a number, or none.
    fn find(&self, number: ClauseNumber) -> Option<Slot>
        ensures { option_map (λ s. decoded s.plus s.minus) result ≡ under number.value (standing_in self.now) }
    {
        let place = self.place(number).ok()?;
        Some(self.slots.as_slice()[place])
    }

    // The lowest standing number above a given one, or none.
    fn successor(&self, bound: u32) -> Option<ClauseNumber>
        ensures { option_map (λ k. k.value) result ≡ next_above bound (standing_in self.now) }
    {
        let slots = self.slots.as_slice();
        let place = slots.partition_point(|slot| slot.number <= bound);
        let slot = slots.get(place)?;
        Some(ClauseNumber { value: slot.number })
    }

    // The place where a clause goes, or why it can't be put. No clause is wider than 64, and 256 clauses have at most 16,384 literals.
    fn vacancy(&self, number: ClauseNumber, clause: &Clause) -> Result<usize, DatabaseFault>
        ensures fault { fault_of result ≡ put_fault mask_limits (standing_in self.now) (record { number = number.value; lits = lits_of clause.now }) }
        ensures place { IfOk result (λ i. Err i ≡ place_of number.value (standing_in self.now)) }
        ensures fits { OnOk result (within 64 (lits_of clause.now) ≡ true) }
        ensures room { OnOk result (array_vec_len self.now.slots < 256) }
    {
        let Err(place) = self.place(number) else {
            return Err(DatabaseFault::NumberTaken);
        };
        if !fits(clause) {
            return Err(DatabaseFault::VariableBeyond);
        }
        if self.slots.is_full() {
            return Err(DatabaseFault::ClausesFull);
        }
        Ok(place)
    }

    // Puts a clause that nothing refuses at its place.
    fn insert(&mut self, place: usize, number: ClauseNumber, clause: &Clause)
        requires here { Err place ≡ place_of number.value (standing_in self.old) }
        requires fits { within 64 (lits_of clause.now) ≡ true }
        requires room { array_vec_len self.old.slots < 256 }
        ensures { standing_in self.new ≡ inserted (record { number = number.value; lits = lits_of clause.now }) (standing_in self.old) }
    {
        self.slots.insert(place, Slot::of(number.value, clause));
        self.total += clause.len;
    }

    // Takes the clause at a place away.
    fn cut(&mut self, place: usize)
        requires { place < length (standing_in self.old) }
        ensures { standing_in self.new ≡ remove (standing_in self.old) place }
    {
        let slot = self.slots.remove(place);
        self.total -= slot.width();
    }
}
