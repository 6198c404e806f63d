// Reading the words of a formula.
ghost use Rattle.std.specs.Prelude.{◌≡◌, ◌+◌, [], ◌∷◌, ◌++◌, IfOk};
ghost use Rattle.words.specs.Checks.{fault_of, inside, unless};
ghost use Rattle.words.specs.declared.fault.FileFault.TheVariants.{Session};
ghost use Rattle.rules.specs.Loading.{load_fault, load_adds};
ghost use Rattle.loading.specs.Meanings.{formula_variables, loaded_count};
ghost use Rattle.reader.specs.Numerals.{numeral};
ghost use Rattle.reader.specs.Formulas.{literal_fault, word_fault, word_leaves, end_fault};
ghost use Rattle.reader.specs.Sessions.{reading};

use crate::counts::Header;
use crate::lists::Lists;
use crate::numeral::number;
use arrayvec::ArrayVec;
use database::ClauseDatabase;
use loading::Loading;
use words::{FileFault, SessionFault};

impl Lists {
    // Nothing is read yet.
    pub(crate) fn new(header: Header, session: Loading) -> Lists
        requires { formula_variables session ≡ header.counts.variables }
        ensures header { result.header ≡ header }
        ensures pending { result.pending.items ≡ [] }
        ensures session { result.session ≡ session }
    {
        Lists {
            header,
            pending: ArrayVec::new(),
            session,
        }
    }

    // Loads the list that ends here.
    fn end_list<D: ClauseDatabase>(&mut self, db: &mut D) -> Result<(), FileFault>
        ensures fault { fault_of result ≡ inside Session (load_fault (formula_variables self.old.session) (loaded_count self.old.session) (D.limited db.old) (D.standing db.old) self.old.pending.items) }
        ensures after { reading self.new (D.standing db.new) ≡ unless (fault_of result) (record { pending = []; accepted = loaded_count self.old.session + 1; entries = load_adds (loaded_count self.old.session) (D.standing db.old) self.old.pending.items }) (reading self.old (D.standing db.old)) }
        ensures header { self.new.header ≡ self.old.header }
        ensures limits { D.limited db.new ≡ D.limited db.old }
    {
        self.session.load(db, self.pending.as_slice())?;
        self.pending.clear();
        Ok(())
    }

    // Puts a literal behind the others, unless there is no room or its variable is beyond the formula's.
    fn push(&mut self, number: i32) -> Result<(), FileFault>
        ensures fault { fault_of result ≡ literal_fault self.old.header.counts.variables self.old.pending.items number }
        ensures pending { self.new.pending.items ≡ unless (fault_of result) (self.old.pending.items ++ number ∷ []) self.old.pending.items }
        ensures session { self.new.session ≡ self.old.session }
        ensures header { self.new.header ≡ self.old.header }
    {
        if self.pending.is_full() {
            return Err(FileFault::TooManyWords);
        }
        let literal = i16::try_from(number)
            .ok()
            .filter(|literal| u32::from(literal.unsigned_abs()) <= self.header.counts.variables)
            .ok_or(SessionFault::LiteralBeyond(self.pending.len() + 1))?;
        self.pending.push(literal);
        Ok(())
    }

    // Reads one word: a literal, or the 0 that ends a list.
    pub(crate) fn read_word<D: ClauseDatabase>(
        &mut self,
        word: &[u8],
        db: &mut D,
    ) -> Result<(), FileFault>
        ensures fault { fault_of result ≡ word_fault (D.limited db.old) self.old.header.counts (reading self.old (D.standing db.old)) (numeral word.now) }
        ensures after { reading self.new (D.standing db.new) ≡ unless (fault_of result) (word_leaves (reading self.old (D.standing db.old)) (numeral word.now)) (reading self.old (D.standing db.old)) }
        ensures header { self.new.header ≡ self.old.header }
        ensures limits { D.limited db.new ≡ D.limited db.old }
    {
        if u32::from(self.session.loaded()) >= self.header.counts.clauses {
            return Err(FileFault::ClauseCount);
        }
        match number(word).ok_or(FileFault::NotANumber)? {
            0 => self.end_list(db),
            literal => self.push(literal),
        }
    }

    // The session, where all clauses that the header announces are there and the last 0 is.
    pub(crate) fn end(self) -> Result<Loading, FileFault>
        ensures fault { fault_of result ≡ end_fault self.header.counts (reading self []) }
        ensures session { IfOk result (λ s. s ≡ self.session) }
    {
        let complete = u32::from(self.session.loaded()) >= self.header.counts.clauses;
        if !complete || !self.pending.is_empty() {
            return Err(FileFault::ClauseCount);
        }
        Ok(self.session)
    }
}
