ghost use Rattle.std.specs.Prelude.{◌≡◌, min, [], ◌∷◌, ◌++◌, length, None, ◌==◌};
ghost use Rattle.words.specs.Checks.{fault_of, unless};
ghost use Rattle.words.specs.Meanings.{lits_of};
ghost use Rattle.rules.specs.Restoring.{saved_literals, save_fault, restored};
ghost use Rattle.reconstruction.specs.Saves.{fit_fault};
ghost use Rattle.reconstruction.specs.Meanings.{saved, room_of};

use crate::repair::repair_all;
use crate::saved::{SavedEntry, SavedLiteral};
use crate::saves::ReconstructionStack;
use crate::stack::Stack;
use words::{Clause, Literal, StackFault};

impl<'a> ReconstructionStack<'a> {
    // An empty one over two memories: at most 2,048 entries and 16,384 literals of them are counted.
    pub fn new(entries: &'a mut [SavedEntry], literals: &'a mut [SavedLiteral]) -> Self
        ensures saved { saved result ≡ [] }
        ensures room { room_of result ≡ record { entries = min (length entries.old) 2048; literals = min (length literals.old) 16384 } }
    {
        ReconstructionStack {
            entries: Stack::new(entries, 2048),
            literals: Stack::new(literals, 16_384),
        }
    }

    // How many clauses are saved.
    #[tactic(auto, using(crate::proofs::Shares::length_saved))]
    pub fn count(&self) -> usize
        ensures { result ≡ length (saved self.now) }
    {
        self.entries.len()
    }

    // How many literals they have together.
    #[tactic(auto, using(crate::proofs::Shares::literals_saved))]
    pub fn literal_count(&self) -> usize
        ensures { result ≡ saved_literals (saved self.now) }
    {
        self.literals.len()
    }

    // Whether nothing is saved.
    pub fn is_empty(&self) -> bool
        ensures { result ≡ (length (saved self.now) == 0) }
    {
        self.count() == 0
    }

    // Whether so many entries and literals more fit; the entries are counted first.
    pub fn fits(&self, entries: usize, literals: usize) -> Result<(), StackFault>
        ensures { fault_of result ≡ fit_fault (room_of self.now) (saved self.now) entries literals }
    {
        if entries > self.entries.room() {
            return Err(StackFault::EntriesFull);
        }
        if literals > self.literals.room() {
            return Err(StackFault::LiteralsFull);
        }
        Ok(())
    }

    // Saves a clause that fits.
    fn keep(&mut self, pivot: Literal, clause: &Clause)
        requires { save_fault (room_of self.old) (saved self.old) (record { pivot = pivot.value; lits = lits_of clause.now } ∷ []) ≡ None }
        ensures saved { saved self.new ≡ saved self.old ++ record { pivot = pivot.value; lits = lits_of clause.now } ∷ [] }
        ensures room { room_of self.new ≡ room_of self.old }
    {
        self.literals.push_literals(clause.literals());
        self.entries.add(SavedEntry {
            pivot: pivot.value,
            // no `try_from`: a clause has at most 64 literals, so its error could never come
            count: clause.len as u8,
        });
    }

    // Saves a clause with its pivot, or refuses with 65 or 66 and changes nothing.
    pub fn save(&mut self, pivot: Literal, clause: &Clause) -> Result<(), StackFault>
        ensures fault { fault_of result ≡ save_fault (room_of self.old) (saved self.old) (record { pivot = pivot.value; lits = lits_of clause.now } ∷ []) }
        ensures after { saved self.new ≡ unless (fault_of result) (saved self.old ++ record { pivot = pivot.value; lits = lits_of clause.now } ∷ []) (saved self.old) }
        ensures room { room_of self.new ≡ room_of self.old }
    {
        self.fits(1, clause.len)?;
        self.keep(pivot, clause);
        Ok(())
    }

    // Goes through the saved clauses from the last to the first: where one is not met, its pivot is made true.
    pub fn repair(&self, assignment: &mut [u8])
        ensures { assignment.new ≡ restored (saved self.now) assignment.old }
    {
        repair_all(self.entries.entries(), self.literals.entries(), assignment);
    }
}
