ghost use Rattle.std.specs.Prelude.{◌≡◌, IfOk};
ghost use Rattle.words.specs.Checks.{fault_of};
ghost use Rattle.rules.specs.Loading.{open_fault};
ghost use Rattle.rules.specs.Histories.{opened};
ghost use Rattle.theory.specs.Leading.{ToLoading};
ghost use Rattle.reconstruction.specs.Meanings.{saved, room_of};
ghost use Rattle.loading.specs.Meanings.{formula_variables, loaded_count};

use crate::Loading;
use database::ClauseDatabase;
use reconstruction::ReconstructionStack;
use words::SessionFault;

// Opens a session for a formula of this many variables; database and reconstruction stack have to be empty. A history begins
// with it.
pub fn open<D: ClauseDatabase>(
    variables: u32,
    db: &D,
    stack: &ReconstructionStack<'_>,
) -> Result<Loading, SessionFault>
    ensures fault { fault_of result ≡ open_fault variables (D.standing db.now) (saved stack.now) }
    ensures variables { IfOk result (λ s. formula_variables s ≡ variables) }
    ensures loaded { IfOk result (λ s. loaded_count s ≡ 0) }
    ensures history { IfOk result (λ s. ToLoading (D.limited db.now) (room_of stack.now) (opened variables) (formula_variables s) (loaded_count s) (D.standing db.now) (saved stack.now)) }
{
    if db.count() != 0 {
        return Err(SessionFault::DatabaseNotEmpty);
    }
    if stack.count() != 0 {
        return Err(SessionFault::StackNotEmpty);
    }
    if variables > 512 {
        return Err(SessionFault::TooManyVariables);
    }
    Ok(Loading {
        // no `try_from`: the test above has shown that it fits, and a second refusal could never come
        variables: variables as u16,
        loaded: 0,
    })
}

impl Loading {
    // How many variables the formula has.
    pub fn variables(&self) -> u16
        ensures { result ≡ formula_variables self.now }
    {
        self.variables
    }

    // How many lists were accepted.
    pub fn loaded(&self) -> u16
        ensures { result ≡ loaded_count self.now }
    {
        self.loaded
    }
}
