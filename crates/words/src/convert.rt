ghost use Rattle.std.specs.Prelude.{◌≡◌};
ghost use Rattle.words.specs.declared.fault.SessionFault.TheVariants.{Database, Stack};
ghost use Rattle.words.specs.declared.fault.FileFault.TheVariants.{Session};

use crate::fault::{DatabaseFault, FileFault, SessionFault, StackFault};

// Each conversion is written out, so that a clause may name the fault that a `?` makes of another.

// A fault of a clause database travels whole inside one of the session.
impl From<DatabaseFault> for SessionFault {
    ghost from_gives = { λ e r. r ≡ Database e };

    fn from(e: DatabaseFault) -> SessionFault {
        SessionFault::Database(e)
    }
}

// A fault of the reconstruction stack travels whole inside one of the session.
impl From<StackFault> for SessionFault {
    ghost from_gives = { λ e r. r ≡ Stack e };

    fn from(e: StackFault) -> SessionFault {
        SessionFault::Stack(e)
    }
}

// A fault of the session travels whole inside one of a file.
impl From<SessionFault> for FileFault {
    ghost from_gives = { λ e r. r ≡ Session e };

    fn from(e: SessionFault) -> FileFault {
        FileFault::Session(e)
    }
}
