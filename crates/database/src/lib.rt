// The clause database (the customers' shelf): what every kind of it answers and does, said by its meaning alone.

#![tactic(auto)]

ghost use Rattle.std.specs.Prelude.{◌≡◌, List, length};
ghost use Rattle.std.specs.Option.{option_map};
ghost use Rattle.words.specs.declared.limits.Limits.{Limits};
ghost use Rattle.words.specs.declared.fault.DatabaseFault.TheVariants.{Absent};
ghost use Rattle.words.specs.Checks.{check, fault_of, unless};
ghost use Rattle.words.specs.Meanings.{lits_of};
ghost use Rattle.words.specs.Standing.{Entry, Lawful, stands, under, next_above, literals, inserted, without, put_fault};

mod walking;

pub use walking::{Numbered, Walk, standing, standing_above};
use words::{Clause, ClauseNumber, DatabaseFault, Limits};

// A set of standing clauses, each under its own number, and four limits that never change.
// Every answer depends on this meaning only.
pub trait ClauseDatabase {
    // the standing clauses, by rising number
    ghost standing: { Self → List Entry };

    // the limits V, W, M and L
    ghost limited: { Self → Limits };

    // The limits.
    fn limits(&self) -> Limits
        ensures { result ≡ limited self.now };

    // How many clauses stand.
    fn count(&self) -> usize
        ensures { result ≡ length (standing self.now) };

    // How many literals stand in them together.
    fn literal_total(&self) -> usize
        ensures { result ≡ literals (standing self.now) };

    // The lowest standing number above a given one, or none.
    fn next(&self, above: u32) -> Option<ClauseNumber>
        ensures { option_map (λ k. k.value) result ≡ next_above above (standing self.now) };

    // The clause under a number, or none.
    fn clause(&self, number: ClauseNumber) -> Option<Clause>
        ensures { option_map lits_of result ≡ under number.value (standing self.now) };

    // Adds the clause under the number, or refuses with 60 to 64 and changes nothing.
    fn put(&mut self, number: ClauseNumber, clause: &Clause) -> Result<(), DatabaseFault>
        ensures fault { fault_of result ≡ put_fault (limited self.old) (standing self.old) (record { number = number.value; lits = lits_of clause.now }) }
        ensures after { standing self.new ≡ unless (fault_of result) (inserted (record { number = number.value; lits = lits_of clause.now }) (standing self.old)) (standing self.old) }
        ensures limits { limited self.new ≡ limited self.old };

    // Takes the clause under the number away, or refuses with 42 and changes nothing.
    fn remove(&mut self, number: ClauseNumber) -> Result<(), DatabaseFault>
        ensures fault { fault_of result ≡ check (stands number.value (standing self.old)) (Absent number.value) }
        ensures after { standing self.new ≡ unless (fault_of result) (without number.value (standing self.old)) (standing self.old) }
        ensures limits { limited self.new ≡ limited self.old };

    // what every database keeps of its meaning
    ghost lawful: { (s : Self) → Lawful (limited s) (standing s) };
}
