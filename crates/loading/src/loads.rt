ghost use Rattle.std.specs.Prelude.{◌≡◌, ◌+◌, List, IfOk};
ghost use Rattle.words.specs.Checks.{fault_of, unless};
ghost use Rattle.rules.specs.Loading.{load_fault, load_adds};
ghost use Rattle.rules.specs.Histories.{History, after, load};
ghost use Rattle.rules.specs.Restoring.{Room, Saved};
ghost use Rattle.theory.specs.Leading.{ToLoading};
ghost use Rattle.loading.specs.Meanings.{formula_variables, loaded_count};

use crate::Loading;
use database::ClauseDatabase;
use words::{ClauseNumber, SessionFault};

impl Loading {
    // Loads a list of literals as a clause and gives it the next number. A list with an opposite pair takes its number too, and
    // is left off the database. A refused list takes no number and changes nothing. Every history that leads to the session as
    // it was, goes on with this call and its answer to the session as it is then.
    pub fn load<D: ClauseDatabase>(
        &mut self,
        db: &mut D,
        list: &[i16],
    ) -> Result<ClauseNumber, SessionFault>
        ensures fault { fault_of result ≡ load_fault (formula_variables self.old) (loaded_count self.old) (D.limited db.old) (D.standing db.old) list.now }
        ensures number { IfOk result (λ k. k.value ≡ loaded_count self.old + 1) }
        ensures loaded { loaded_count self.new ≡ unless (fault_of result) (loaded_count self.old + 1) (loaded_count self.old) }
        ensures variables { formula_variables self.new ≡ formula_variables self.old }
        ensures standing { D.standing db.new ≡ unless (fault_of result) (load_adds (loaded_count self.old) (D.standing db.old) list.now) (D.standing db.old) }
        ensures limits { D.limited db.new ≡ D.limited db.old }
        ensures history { (room : Room) (saves : List Saved) (h : History) → ToLoading (D.limited db.old) room h (formula_variables self.old) (loaded_count self.old) (D.standing db.old) saves → ToLoading (D.limited db.new) room (after h (load list.now (fault_of result))) (formula_variables self.new) (loaded_count self.new) (D.standing db.new) saves }
    {
        // no `try_from`: at most 1,024 lists are accepted, so its error could never come
        let number = ClauseNumber {
            value: u32::from(self.loaded) + 1,
        };
        if let Some(clause) = self.judge(list)? {
            db.put(number, &clause)?;
        }
        self.loaded += 1;
        Ok(number)
    }
}
